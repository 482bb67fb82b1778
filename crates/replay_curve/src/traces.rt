// The trace of flat samples.
use cases::answers::told;
use cases::lists::{part, read, same};
use cases::rooms::{self, MARK_ROOM, PAIR_ROOM};
use cases::words::{field, is_told, number, tolerances};
use page::Sheet;

// The call on a sheet, and whether it answers what is recorded.
fn is_drawn(case: &[u64], sheet: &mut Sheet<'_>) -> bool {
    let mut grid = rooms::floats();
    let mut pairs = [0.0; PAIR_ROOM];
    let mut marks = [0; MARK_ROOM];
    let numbers = field(case, 0);
    let recorded = field(case, 4);
    let (Some(grid), Some(pairs), Some(marks)) = (
        read(field(case, 1), &mut grid),
        read(field(case, 2), &mut pairs),
        read(field(case, 3), &mut marks),
    ) else {
        return false;
    };
    let (m, n) = (number(numbers, 2), number(numbers, 3));
    let answer = trace::flat::trace_flat(grid, m, n, tolerances(numbers), pairs, marks, sheet);
    told(recorded, answer, |drawn| {
        is_told(recorded, drawn.points, drawn.lines)
    })
}

// The part of each list that is lent for output is what the recorded list takes.
pub fn trace_flat(case: &[u64]) -> bool {
    let mut points = rooms::floats();
    let mut starts = rooms::numbers();
    let mut sides = rooms::numbers();
    let mut fractions = rooms::floats();
    let mut samples = rooms::numbers();
    let (Some(points), Some(starts), Some(sides), Some(fractions), Some(samples)) = (
        part(field(case, 5), &mut points),
        part(field(case, 6), &mut starts),
        part(field(case, 7), &mut sides),
        part(field(case, 8), &mut fractions),
        part(field(case, 9), &mut samples),
    ) else {
        return false;
    };
    let mut sheet = Sheet::new(points, starts, sides, fractions, samples);
    let drawn = is_drawn(case, &mut sheet);
    let Sheet {
        points,
        starts,
        sides,
        fractions,
        samples,
        ..
    } = sheet;
    let lines = same(points, field(case, 5)) && same(starts, field(case, 6));
    let edges = same(sides, field(case, 7)) && same(fractions, field(case, 8));
    drawn && lines && edges && same(samples, field(case, 9))
}
