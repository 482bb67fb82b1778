// Triangles and flipped pairs, over seams that are found or given.
use crate::seams::{given_seam, is_seam};
use cases::answers::told;
use cases::lists::{part, read, same};
use cases::rooms;
use cases::words::{field, is_told, number, tolerances};

pub fn triangulate_grid(case: &[u64]) -> bool {
    let mut grid = rooms::floats();
    let mut triangles = rooms::numbers();
    let mut flipped = rooms::numbers();
    let numbers = field(case, 0);
    let recorded = field(case, 2);
    let (u, v) = (field(case, 3), field(case, 4));
    let (Some(grid), Some(triangles), Some(flipped)) = (
        read(field(case, 1), &mut grid),
        part(field(case, 5), &mut triangles),
        part(field(case, 6), &mut flipped),
    ) else {
        return false;
    };
    let (m, n) = (number(numbers, 2), number(numbers, 3));
    let tolerances = tolerances(numbers);
    let answer = triangulation::triangulate_grid(grid, m, n, tolerances, triangles, flipped);
    let told = told(recorded, answer, |meshed| {
        is_seam(u, meshed.seams.u)
            && is_seam(v, meshed.seams.v)
            && is_told(recorded, meshed.counts.triangles, meshed.counts.pairs)
    });
    told && same(triangles, field(case, 5)) && same(flipped, field(case, 6))
}

// It begins as the one above: a struct of what both read would name and fill each list for two calls.
pub fn triangulate_seams(case: &[u64]) -> bool {
    let mut grid = rooms::floats();
    let mut triangles = rooms::numbers();
    let mut flipped = rooms::numbers();
    let numbers = field(case, 0);
    let recorded = field(case, 2);
    let (u, v) = (given_seam(field(case, 3)), given_seam(field(case, 4)));
    let (Some(grid), Some(triangles), Some(flipped)) = (
        read(field(case, 1), &mut grid),
        part(field(case, 5), &mut triangles),
        part(field(case, 6), &mut flipped),
    ) else {
        return false;
    };
    let (m, n) = (number(numbers, 2), number(numbers, 3));
    let tolerances = tolerances(numbers);
    let answer = triangulation::triangulate_seams(grid, m, n, tolerances, u, v, triangles, flipped);
    let told = told(recorded, answer, |counts| {
        is_told(recorded, counts.triangles, counts.pairs)
    });
    told && same(triangles, field(case, 5)) && same(flipped, field(case, 6))
}
