// CyclicMapping and the seam search. A mapping goes in as its direction, its offset and its steps.
// C has neither Option nor an enum with values: flags and the numbers of refusals stand beside the values.
ghost use Rattle.std.specs.Prelude.{◌≡◌, None};
ghost use Rattle.refusal.specs.Refusals.{stated};
ghost use Rattle.cyclic.specs.Mapping.{is_reverse, map_index, map_index_inv};
ghost use Rattle.cyclic.specs.Search.{new_vector, searched};
ghost use Rattle.merlontrispa.specs.Seams.{mapping_of, index_answer, found_seam, rows_answer};

use cyclic::mapping::CyclicMapping;
use cyclic::seam::SeamSearch;
use refusal::Refusal;

// An index, or the number of a refusal.
#[repr(C)]
#[derive(Clone, Copy)]
pub struct IndexAnswer {
    pub refusal: u8,
    pub index: usize,
}

// A seam's mapping, all zero where none was found, and the comparisons made.
#[repr(C)]
#[derive(Clone, Copy)]
pub struct FoundSeam {
    pub found: bool,
    pub reverse: bool,
    pub offset: usize,
    pub steps: usize,
    pub comparisons: u64,
}

// A seam, or the number of a refusal.
#[repr(C)]
#[derive(Clone, Copy)]
pub struct RowsAnswer {
    pub refusal: u8,
    pub seam: FoundSeam,
}

pub fn mapping(reverse: bool, offset: usize, steps: usize) -> CyclicMapping
    ensures { result ≡ mapping_of reverse offset steps }
{
    if reverse {
        CyclicMapping::Reverse(offset, steps)
    } else {
        CyclicMapping::Forward(offset, steps)
    }
}

impl From<Result<usize, Refusal>> for IndexAnswer {
    fn from(answer: Result<usize, Refusal>) -> IndexAnswer
        ensures { result ≡ index_answer (stated answer) }
    {
        match answer {
            Ok(index) => IndexAnswer { refusal: 0, index },
            Err(refusal) => IndexAnswer {
                refusal: u8::from(refusal),
                index: 0,
            },
        }
    }
}

impl From<SeamSearch> for FoundSeam {
    fn from(search: SeamSearch) -> FoundSeam
        ensures { result ≡ found_seam search }
    {
        match search.seam {
            Some(mapping) => FoundSeam {
                found: true,
                reverse: mapping.is_reverse(),
                offset: mapping.offset(),
                steps: mapping.steps(),
                comparisons: search.comparisons,
            },
            None => FoundSeam {
                found: false,
                reverse: false,
                offset: 0,
                steps: 0,
                comparisons: search.comparisons,
            },
        }
    }
}

// What stands beside a refusal: no seam, after no comparison.
pub fn no_seam() -> FoundSeam
    ensures { result ≡ found_seam (searched None 0) }
{
    FoundSeam::from(SeamSearch {
        seam: None,
        comparisons: 0,
    })
}

impl From<Result<SeamSearch, Refusal>> for RowsAnswer {
    fn from(answer: Result<SeamSearch, Refusal>) -> RowsAnswer
        ensures { result ≡ rows_answer (stated answer) }
    {
        match answer {
            Ok(search) => RowsAnswer {
                refusal: 0,
                seam: FoundSeam::from(search),
            },
            Err(refusal) => RowsAnswer {
                refusal: u8::from(refusal),
                seam: no_seam(),
            },
        }
    }
}

#[unsafe(no_mangle)]
pub extern "C" fn mt_is_reverse(reverse: bool, offset: usize, steps: usize) -> bool
    ensures { result ≡ is_reverse (mapping_of reverse offset steps) }
{
    mapping(reverse, offset, steps).is_reverse()
}

#[unsafe(no_mangle)]
pub extern "C" fn mt_map_index(
    reverse: bool,
    offset: usize,
    steps: usize,
    a_idx: usize,
) -> IndexAnswer
    ensures { result ≡ index_answer (map_index (mapping_of reverse offset steps) a_idx) }
{
    IndexAnswer::from(mapping(reverse, offset, steps).map_index(a_idx))
}

#[unsafe(no_mangle)]
pub extern "C" fn mt_map_index_inv(
    reverse: bool,
    offset: usize,
    steps: usize,
    b_idx: usize,
) -> IndexAnswer
    ensures { result ≡ index_answer (map_index_inv (mapping_of reverse offset steps) b_idx) }
{
    IndexAnswer::from(mapping(reverse, offset, steps).map_index_inv(b_idx))
}

#[unsafe(no_mangle)]
pub extern "C" fn mt_new_vector(a: &[f64], b: &[f64], tolerance: f64) -> RowsAnswer
    ensures { result ≡ rows_answer (new_vector a.now b.now tolerance) }
{
    RowsAnswer::from(CyclicMapping::new_vector(a, b, tolerance))
}
