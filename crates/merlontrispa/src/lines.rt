// Grid lines, and a line as a part of the points.
// C passes a grid, and lines with their counts, one by one: they stay parameters side by side.
// C has no enum with values: an answer is a struct with a refusal's number, and zeros beside one; each has a name of its
// own in the header.
ghost use Rattle.std.specs.Prelude.{◌≡◌};
ghost use Rattle.lent.specs.Lent.{afterwards, answering};
ghost use Rattle.refusal.specs.Refusals.{stated};
ghost use Rattle.path.specs.GridPaths.{grid_paths, path_lists};
ghost use Rattle.path.specs.Line.{line_span};
ghost use Rattle.merlontrispa.specs.Lines.{paths_answer, span_answer, Gets};

use lent::Counts;
use path::Span;
use refusal::Refusal;

// The counts of points and lines, or the number of a refusal.
#[repr(C)]
#[derive(Clone, Copy)]
pub struct PathsAnswer {
    pub refusal: u8,
    pub points: usize,
    pub lines: usize,
}

// The point numbers at which a line starts and ends, or the number of a refusal.
#[repr(C)]
#[derive(Clone, Copy)]
pub struct SpanAnswer {
    pub refusal: u8,
    pub start: usize,
    pub end: usize,
}

// A part of a list: where it begins and how long it is, in numbers.
#[repr(C)]
#[derive(Clone, Copy)]
pub struct Part {
    pub offset: usize,
    pub length: usize,
}

impl From<Result<Counts, Refusal>> for PathsAnswer {
    fn from(answer: Result<Counts, Refusal>) -> PathsAnswer
        ensures { result ≡ paths_answer (stated answer) }
    {
        match answer {
            Ok(counts) => PathsAnswer {
                refusal: 0,
                points: counts.points,
                lines: counts.lines,
            },
            Err(refusal) => PathsAnswer {
                refusal: u8::from(refusal),
                points: 0,
                lines: 0,
            },
        }
    }
}

impl From<Result<Span, Refusal>> for SpanAnswer {
    fn from(answer: Result<Span, Refusal>) -> SpanAnswer
        ensures { result ≡ span_answer (stated answer) }
    {
        match answer {
            Ok(span) => SpanAnswer {
                refusal: 0,
                start: span.start,
                end: span.end,
            },
            Err(refusal) => SpanAnswer {
                refusal: u8::from(refusal),
                start: 0,
                end: 0,
            },
        }
    }
}

#[unsafe(no_mangle)]
pub extern "C" fn mt_grid_paths(
    grid: &[f64],
    m: usize,
    n: usize,
    points: &mut [f64],
    starts: &mut [usize],
) -> PathsAnswer
    ensures { afterwards result (path_lists points.new starts.new)
        ≡ answering paths_answer (grid_paths grid.now m n
        (path_lists points.old starts.old)) }
{
    PathsAnswer::from(path::grid_paths(grid, m, n, points, starts))
}

#[unsafe(no_mangle)]
pub extern "C" fn mt_line_span(
    points: &[f64],
    starts: &[usize],
    point_count: usize,
    line_count: usize,
    index: usize,
) -> SpanAnswer
    ensures { result
        ≡ span_answer (line_span points.now starts.now point_count line_count index) }
{
    SpanAnswer::from(path::line_span(points, starts, point_count, line_count, index))
}

// What `get` hands back, as a part of the points: a reference cannot be handed to C. `line_span` says where it begins. No
// `From`: that the products fit is known of a line's span alone.
#[unsafe(no_mangle)]
pub extern "C" fn mt_get(
    points: &[f64],
    starts: &[usize],
    point_count: usize,
    line_count: usize,
    index: usize,
) -> Part
    ensures { Gets points.now starts.now point_count line_count index result }
{
    let length = path::get(points, starts, point_count, line_count, index).len();
    match path::line_span(points, starts, point_count, line_count, index) {
        Ok(span) => Part {
            offset: 3 * span.start,
            length,
        },
        Err(_) => Part { offset: 0, length },
    }
}
