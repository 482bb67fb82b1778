// Rules 3.1 to 3.3: the search for a seam between two rows of points.
ghost use Rattle.std.specs.Prelude.{◌≡◌, true, ℕ, ◌+◌, ◌*◌, ◌/◌, ◌≤◌, ◌<◌, length};
ghost use Rattle.grid.specs.Grid.{point_at};
ghost use Rattle.float.specs.Consts.{eps};
ghost use Rattle.vector.specs.Vectors.{all_close};
ghost use Rattle.refusal.specs.Refusals.{stated};
ghost use Rattle.cyclic.specs.Mapping.{image, offset_of, steps_of, HasIndex};
ghost use Rattle.cyclic.specs.Search.{Rows, close_at, closed, search_rows, search};
ghost use Rattle.cyclic.specs.Search.{row_fits, rows_check, new_vector};

use crate::mapping::CyclicMapping;
use float::consts::EPS;
use refusal::Refusal;
use vector::Vector;

// A row has at most 65,536 points.
const MAX_ROW: usize = 196608;

// What a search found, None or a mapping, and the comparisons it made.
#[derive(Clone, Copy, Debug, PartialEq, Eq)]
pub struct SeamSearch {
    pub seam: Option<CyclicMapping>,
    pub comparisons: u64,
}

// Whether all comparisons held, and how many were made. That is wanted of both, so no Option says it.
#[derive(Clone, Copy)]
pub struct Tried {
    pub fits: bool,
    pub made: u64,
}

// Two rows of so many steps. Point j of a row is point start + j * stride of its list.
#[derive(Clone, Copy)]
pub struct TwoRows<'a> {
    pub a: &'a [f64],
    pub a_start: usize,
    pub b: &'a [f64],
    pub b_start: usize,
    pub stride: usize,
    pub steps: usize,
    pub ghost inside: { Rows a.now a_start b.now b_start stride steps },
}

// Whether point i of a is close to point k of b. Inlined: every comparison of a search is made by it.
#[inline(always)]
pub fn points_close(a: &[f64], i: usize, b: &[f64], k: usize, tolerance: f64) -> bool
    requires { (3 * i + 3 ≤ length a.now) × (3 * k + 3 ≤ length b.now) }
    ensures { result ≡ all_close (point_at a.now i) (point_at b.now k) tolerance }
{
    grid::point_at(a, i).all_close(grid::point_at(b, k), tolerance)
}

impl CyclicMapping {
    // The image of index j at offset 0.
    #[tactic(auto, using(crate::proofs::Mappings::image_zero))]
    fn opposite(self, j: usize) -> usize
        requires { (offset_of self ≡ 0) × (j ≤ steps_of self) }
        ensures { (result ≡ image self j) × (result ≤ steps_of self) }
    {
        match self {
            CyclicMapping::Forward(_, _) => j,
            CyclicMapping::Reverse(_, steps) => steps - j,
        }
    }

    // The image of the index that follows the one of image k.
    #[tactic(auto, using(crate::proofs::Mappings::image_next))]
    fn next_image(self, k: usize) -> usize
        requires { HasIndex self k }
        ensures { (j : ℕ) → j < steps_of self → k ≡ image self j → result ≡ image self (j + 1) }
    {
        match self {
            CyclicMapping::Forward(offset, steps) if offset != 0 && k + 1 == steps => 0,
            CyclicMapping::Forward(_, _) => k + 1,
            CyclicMapping::Reverse(_, steps) if k == 0 => steps - 1,
            CyclicMapping::Reverse(_, _) => k - 1,
        }
    }

    // The seam between two rows of points, three f64 each, where close means by the tolerance.
    #[tactic(auto, using(crate::proofs::Rows::passed_length), unfolding(crate::specs::Search::new_vector))]
    pub fn new_vector(a: &[f64], b: &[f64], tolerance: f64) -> Result<SeamSearch, Refusal>
        ensures { stated result ≡ new_vector a.now b.now tolerance }
    {
        check_rows(a, b, tolerance)?;
        Ok(search(a, b, tolerance))
    }
}

// Each function bounds its own indices: as a type an index would have to carry its rows.
impl TwoRows<'_> {
    ghost use Rattle.cyclic.specs.TwoRows.{row_a, row_b};

    // Point j of a, and point k of b.
    // Two functions: a type of one row would have stride and steps once more in each.
    fn point_a(&self, j: usize) -> Vector
        requires { j ≤ self.now.steps }
        ensures { result ≡ row_a self.now j }
    {
        grid::point_at(self.a, self.a_start + j * self.stride)
    }

    fn point_b(&self, k: usize) -> Vector
        requires { k ≤ self.now.steps }
        ensures { result ≡ row_b self.now k }
    {
        grid::point_at(self.b, self.b_start + k * self.stride)
    }

    // Whether point j of a is close to point k of b.
    pub fn close(&self, j: usize, k: usize, tolerance: f64) -> bool
        requires { (j ≤ self.now.steps) × (k ≤ self.now.steps) }
        ensures { result ≡ close_at tolerance (row_a self.now j) (row_b self.now k) }
    {
        points_close(
            self.a,
            self.a_start + j * self.stride,
            self.b,
            self.b_start + k * self.stride,
            tolerance,
        )
    }

    // Whether they differ by less than EPS in each coordinate, and so are close by EPS. It has no branch, and compares
    // with a constant, and so is fast.
    #[tactic(auto, using(vector::proofs::Close::close_within), unfolding(float::specs::Consts::eps))]
    fn near(&self, j: usize, k: usize) -> bool
        requires { (j ≤ self.now.steps) × (k ≤ self.now.steps) }
        ensures { result ≡ true → close_at eps (row_a self.now j) (row_b self.now k) ≡ true }
    {
        let d = self.point_a(j).sub(self.point_b(k));
        ((-EPS < d.x) & (d.x < EPS)) & ((-EPS < d.y) & (d.y < EPS)) & ((-EPS < d.z) & (d.z < EPS))
    }

    // Whether the rows are closed. The ends of b are compared only where those of a are close.
    #[tactic(auto, unfolding(crate::specs::Search::closed))]
    pub fn closed(&self, tolerance: f64) -> Tried
        ensures { result ≡ closed (close_at tolerance) (row_a self.now) (row_b self.now) self.now.steps }
    {
        let (first, last) = (self.point_a(0), self.point_a(self.steps));
        if !first.all_close(last, tolerance) {
            return Tried {
                fits: false,
                made: 1,
            };
        }
        let (first, last) = (self.point_b(0), self.point_b(self.steps));
        Tried {
            fits: first.all_close(last, tolerance),
            made: 2,
        }
    }

    // How many points of a, from the first on, are known to be close to their images at offset 0. Contiguous
    // rows are compared two points at a time, by EPS, which a tolerance is seldom below; of others nothing is known.
    fn close_run(&self, mapping: CyclicMapping, tolerance: f64) -> usize
        requires { (offset_of mapping ≡ 0) × (steps_of mapping ≡ self.now.steps) }
        ensures { (result ≤ self.now.steps) × ((j : ℕ) → j < result →
            close_at tolerance (row_a self.now j) (row_b self.now (image mapping j)) ≡ true) }
    {
        if self.stride != 1 || !(EPS <= tolerance) {
            return 0;
        }
        let pairs = self.steps / 2;
        for pair in 0..pairs {
            let j = 2 * pair;
            let first = self.near(j, mapping.opposite(j));
            if !(first & self.near(j + 1, mapping.opposite(j + 1))) {
                return j;
            }
        }
        2 * pairs
    }

    // The first offset at which row a fits row b, forward before reverse. Inlined: called, it reads the rows through
    // their reference, and closed rows take a seventh longer.
    #[inline(always)]
    pub fn search(&self, tolerance: f64) -> SeamSearch
        ensures { result ≡ search_rows (close_at tolerance) (row_a self.now) (row_b self.now) self.now.steps }
    {
        // Named once for the loops.
        let steps = self.steps;
        let ends = self.closed(tolerance);
        let end = if ends.fits { steps } else { 1 };
        // Those of the ends, and counted on.
        let mut comparisons = ends.made;
        // A project rule asks for a loop here that a label leaves with the answer, and a `for` is left with none.
        let mut offset: usize = 0;
        'offsets: loop {
            if offset == end {
                break 'offsets SeamSearch {
                    seam: None,
                    comparisons,
                };
            }
            'mappings: for mapping in [
                CyclicMapping::Forward(offset, steps),
                CyclicMapping::Reverse(offset, steps),
            ] {
                // Point 0 meets point `offset`, but at offset 0 the points known to be close are passed over.
                let mut start: usize = 0;
                let mut k = offset;
                if offset == 0 {
                    start = self.close_run(mapping, tolerance);
                    k = mapping.opposite(start);
                }
                for j in start..=steps {
                    if !self.close(j, k, tolerance) {
                        comparisons += j as u64 + 1;
                        continue 'mappings;
                    }
                    k = mapping.next_image(k);
                }
                break 'offsets SeamSearch {
                    seam: Some(mapping),
                    comparisons: comparisons + steps as u64 + 1,
                };
            }
            offset += 1;
        }
    }
}

// Rows of unlike length, or of fewer than two points, have no seam, and nothing is compared; others are searched.
#[tactic(auto, using(crate::proofs::Rows::whole_row), unfolding(crate::specs::Search::search))]
fn search(a: &[f64], b: &[f64], tolerance: f64) -> SeamSearch
    requires { length a.now ≤ 196608 }
    ensures { result ≡ search (close_at tolerance) (point_at a.now) (point_at b.now)
        (length a.now / 3) (length b.now / 3) }
{
    let n = a.len() / 3;
    if n < 2 || n != b.len() / 3 {
        return SeamSearch {
            seam: None,
            comparisons: 0,
        };
    }
    let rows = TwoRows {
        a,
        a_start: 0,
        b,
        b_start: 0,
        stride: 1,
        steps: n - 1,
    };
    rows.search(tolerance)
}

// Whether a row is of whole points, and not too many.
fn row_fits(row: &[f64]) -> bool
    ensures { result ≡ row_fits row.now }
{
    row.len() % 3 == 0 && row.len() <= MAX_ROW
}

// Refusals 2, 13 and 4.
#[tactic(auto, unfolding(crate::specs::Search::rows_check))]
fn check_rows(a: &[f64], b: &[f64], tolerance: f64) -> Result<(), Refusal>
    ensures { result ≡ rows_check a.now b.now tolerance }
{
    if !(row_fits(a) && row_fits(b)) {
        return Err(Refusal::Length);
    }
    if !tolerance::tolerance_fits(tolerance) {
        return Err(Refusal::Tolerance);
    }
    if !(grid::coordinates_fit(a) && grid::coordinates_fit(b)) {
        return Err(Refusal::Coordinate);
    }
    Ok(())
}
