// Rules 9: the lines of a grid, drawn into lists that the caller lends, and one line of such
// lists as a part of the points.
#![tactic(auto)]

mod draw;

ghost use Rattle.std.specs.Prelude.{◌≡◌, IfOk};
ghost use Rattle.refusal.specs.Refusals.{tested, stated};
ghost use Rattle.grid.specs.Grid.{IsGiven};
ghost use Rattle.lent.specs.Lent.{afterwards};
ghost use Rattle.path.specs.GridPaths.{paths_check, grid_paths, path_lists};
ghost use Rattle.path.specs.Line.{line_span, line_at};

use grid::Grid;
use lent::Counts;
use refusal::Refusal;

// The point number at which a line starts, and the one at which it ends.
#[derive(Clone, Copy)]
pub struct Span {
    pub start: usize,
    pub end: usize,
}

// Refusals 1, 2, 3 and 4. The room is that of an M and N that pass 1, so that 1 is tested here too: as a closure in
// `check_grid` it would need clauses of its own, and be no plainer.
#[tactic(auto, unfolding(crate::specs::GridPaths::paths_check, grid::specs::Grid::grid_check))]
fn check_paths<'a>(
    grid: &'a [f64],
    m: usize,
    n: usize,
    points: &[f64],
    starts: &[usize],
) -> Result<Grid<'a>, Refusal>
    ensures check { tested result ≡ paths_check grid.now m n points.now starts.now }
    ensures grid { IfOk result (λ g. IsGiven grid.now m n g.points.now g.cells) }
{
    if !grid::steps_fit(m, n) {
        return Err(Refusal::Steps);
    }
    let room = lent::check_room(
        6 * ((m + 1) * (n + 1)),
        points.len(),
        m + n + 2,
        starts.len(),
    );
    grid::check_grid(grid, m, n, room)
}

// The grid's lines: those along u, v by v, then those along v, u by u. Three f64 a point go into `points`, the number
// of each line's first point into `starts`.
#[tactic(auto, unfolding(crate::specs::GridPaths::grid_paths), using(crate::proofs::Checks::passed_room))]
pub fn grid_paths(
    grid: &[f64],
    m: usize,
    n: usize,
    points: &mut [f64],
    starts: &mut [usize],
) -> Result<Counts, Refusal>
    ensures { afterwards (stated result) (path_lists points.new starts.new)
        ≡ grid_paths grid.now m n (path_lists points.old starts.old) }
{
    let grid = check_paths(grid, m, n, points, starts)?;
    draw::points(&grid, points);
    draw::starts(&grid, starts);
    Ok(Counts {
        points: 2 * ((m + 1) * (n + 1)),
        lines: m + n + 2,
    })
}

// Where a line starts and ends, as point numbers: at the start of the line after it, and the last at the point count.
// The counts are parameters beside the lists, since the C interface has them so.
#[tactic(auto, unfolding(crate::specs::Line::line_span, crate::specs::Line::is_there, crate::specs::Line::line_end))]
pub fn line_span(
    points: &[f64],
    starts: &[usize],
    point_count: usize,
    line_count: usize,
    index: usize,
) -> Result<Span, Refusal>
    ensures { stated result ≡ line_span points.now starts.now point_count line_count index }
{
    // The starts of the lines that are counted.
    let counted = starts.get(..line_count).ok_or(Refusal::NotThere)?;
    let start = *counted.get(index).ok_or(Refusal::NotThere)?;
    let end = *counted.get(index + 1).unwrap_or(&point_count);
    if start <= end && end <= point_count && point_count <= points.len() / 3 {
        Ok(Span { start, end })
    } else {
        Err(Refusal::NotThere)
    }
}

// A line's part of the points: the empty part where there is no such line, as Rules 9.2 say.
#[tactic(auto, unfolding(crate::specs::Line::line_at, crate::specs::Line::line_span, crate::specs::Line::is_there))]
pub fn get<'a, 'b>(
    points: &'a [f64],
    starts: &'b [usize],
    point_count: usize,
    line_count: usize,
    index: usize,
) -> &'a [f64]
    ensures { result.now ≡ line_at points.now starts.now point_count line_count index }
{
    let Ok(line) = line_span(points, starts, point_count, line_count, index) else {
        return &[];
    };
    &points[3 * line.start..3 * line.end]
}
