// Grid lines, and a line as a part of the points.
use cases::answers::told;
use cases::lists::{part, read, same};
use cases::rooms;
use cases::words::{field, is_told, number};

// The part of each list that is lent for output is what the recorded list takes.
pub fn grid_paths(case: &[u64]) -> bool {
    let mut grid = rooms::floats();
    let mut points = rooms::floats();
    let mut starts = rooms::numbers();
    let numbers = field(case, 0);
    let recorded = field(case, 2);
    let (Some(grid), Some(points), Some(starts)) = (
        read(field(case, 1), &mut grid),
        part(field(case, 3), &mut points),
        part(field(case, 4), &mut starts),
    ) else {
        return false;
    };
    let answer = path::grid_paths(grid, number(numbers, 2), number(numbers, 3), points, starts);
    let told = told(recorded, answer, |drawn| {
        is_told(recorded, drawn.points, drawn.lines)
    });
    told && same(points, field(case, 3)) && same(starts, field(case, 4))
}

// `line_span` and `get` of one line.
pub fn line(case: &[u64]) -> bool {
    let mut points = rooms::floats();
    let mut starts = rooms::numbers();
    let numbers = field(case, 0);
    let recorded = field(case, 3);
    let (Some(points), Some(starts)) = (
        read(field(case, 1), &mut points),
        read(field(case, 2), &mut starts),
    ) else {
        return false;
    };
    let drawn = number(numbers, 2);
    let lines = number(numbers, 3);
    let index = number(numbers, 4);
    let answer = path::line_span(points, starts, drawn, lines, index);
    let told = told(recorded, answer, |span| {
        is_told(recorded, span.start, span.end)
    });
    let line = path::get(points, starts, drawn, lines, index);
    told && same(line, field(case, 4))
}
