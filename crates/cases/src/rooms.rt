// Arrays for the lists of a case. None is a Vec, so that no memory can lack.
ghost use Rattle.std.specs.Prelude.{◌≡◌, length};

// The places of a room for a list of a case, but for the long ones.
const ROOM: usize = 4096;

// One point more than the longest row that is taken.
pub const ROW_ROOM: usize = 196611;

// The pairs of one mark more than is taken.
pub const PAIR_ROOM: usize = 131076;

// One mark more than is taken.
pub const MARK_ROOM: usize = 65538;

// No place is zero, and no two are the same: a place that a call leaves as it was is told from one that it writes.
pub fn floats() -> [f64; ROOM]
    ensures { 4096 ≡ length result }
{
    std::array::from_fn(|i| -1.5 - i as f64)
}

pub fn numbers() -> [usize; ROOM]
    ensures { 4096 ≡ length result }
{
    std::array::from_fn(|i| usize::MAX - i)
}
