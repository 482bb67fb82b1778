// Mappings, the seam search, and the seams of a grid.
use cases::answers::told;
use cases::lists::read;
use cases::rooms::{self, ROW_ROOM};
use cases::words::{field, float, number, tolerances, word};
use cyclic::mapping::CyclicMapping;
use cyclic::seam::SeamSearch;
use refusal::Refusal;

// A mapping whose index is looked up: its direction (0 forward, any other reverse), offset and steps. The record has
// other numbers for the directions of a seam, so that one reader of both would be no plainer.
fn mapping(numbers: &[u64]) -> CyclicMapping {
    let (offset, steps) = (number(numbers, 3), number(numbers, 4));
    match word(numbers, 2) {
        0 => CyclicMapping::Forward(offset, steps),
        _ => CyclicMapping::Reverse(offset, steps),
    }
}

fn is_index(case: &[u64], answer: Result<usize, Refusal>) -> bool {
    let recorded = field(case, 1);
    told(recorded, answer, |index| number(recorded, 1) == index)
}

pub fn map_index(case: &[u64]) -> bool {
    let numbers = field(case, 0);
    is_index(case, mapping(numbers).map_index(number(numbers, 5)))
}

pub fn map_index_inv(case: &[u64]) -> bool {
    let numbers = field(case, 0);
    is_index(case, mapping(numbers).map_index_inv(number(numbers, 5)))
}

// A seam that is recorded as given: its direction (0 for none, 1 forward, any other reverse), offset and steps. C says the
// same by two flags.
pub fn given_seam(words: &[u64]) -> Option<CyclicMapping> {
    let (offset, steps) = (number(words, 1), number(words, 2));
    match word(words, 0) {
        0 => None,
        1 => Some(CyclicMapping::Forward(offset, steps)),
        _ => Some(CyclicMapping::Reverse(offset, steps)),
    }
}

// Whether a search is the recorded one: a seam, by its numbers, which are zero for none, and the count of comparisons.
pub fn is_seam(recorded: &[u64], search: SeamSearch) -> bool {
    let (direction, offset, steps) = match search.seam {
        None => (0, 0, 0),
        Some(CyclicMapping::Forward(offset, steps)) => (1, offset, steps),
        Some(CyclicMapping::Reverse(offset, steps)) => (2, offset, steps),
    };
    word(recorded, 0) == direction
        && number(recorded, 1) == offset
        && number(recorded, 2) == steps
        && word(recorded, 3) == search.comparisons
}

pub fn new_vector(case: &[u64]) -> bool {
    let mut a = [0.0; ROW_ROOM];
    let mut b = rooms::floats();
    let (Some(a), Some(b)) = (read(field(case, 1), &mut a), read(field(case, 2), &mut b)) else {
        return false;
    };
    let tolerance = float(field(case, 0), 2);
    let answer = CyclicMapping::new_vector(a, b, tolerance);
    told(field(case, 3), answer, |search| {
        is_seam(field(case, 4), search)
    })
}

pub fn find_seams(case: &[u64]) -> bool {
    let mut grid = rooms::floats();
    let numbers = field(case, 0);
    let Some(grid) = read(field(case, 1), &mut grid) else {
        return false;
    };
    let (m, n) = (number(numbers, 2), number(numbers, 3));
    let answer = grid_seams::find_seams(grid, m, n, tolerances(numbers));
    told(field(case, 2), answer, |seams| {
        is_seam(field(case, 3), seams.u) && is_seam(field(case, 4), seams.v)
    })
}
