// Recorded lists: read before a call, and compared with what the call left.
ghost use Rattle.std.specs.Prelude.{◌≡◌, IfSome, length, slice_index, take};

use crate::words::{number, same_float, word};
use std::num::f64_from_bits_with_nan;

// What a word of a recorded list is read as.
// No From<u64>, which std does not have for these; and floats are the same by their bits.
pub trait Place: Copy {
    fn of_word(word: u64) -> Self;

    fn same(self, other: Self) -> bool;
}

impl Place for f64 {
    fn of_word(word: u64) -> f64 {
        f64_from_bits_with_nan(word)
    }

    fn same(self, other: f64) -> bool {
        same_float(self, other)
    }
}

impl Place for usize {
    fn of_word(word: u64) -> usize {
        word as usize
    }

    fn same(self, other: usize) -> bool {
        self == other
    }
}

// The low byte of a word.
impl Place for u8 {
    fn of_word(word: u64) -> u8 {
        word.to_le_bytes()[0]
    }

    fn same(self, other: u8) -> bool {
        self == other
    }
}

// The part of a room that a recorded list takes. None where the room has too few places.
pub fn part<'a, T>(recorded: &[u64], room: &'a mut [T]) -> Option<&'a mut [T]>
    ensures front { IfSome result (λ list. list.now ≡ take (slice_index recorded.now 0) room.old) }
    ensures whole { IfSome result (λ list. length list.now ≡ slice_index recorded.now 0) }
{
    room.get_mut(..number(recorded, 0))
}

// A recorded list, read into its part of a room.
pub fn read<'a, T: Place>(recorded: &[u64], room: &'a mut [T]) -> Option<&'a mut [T]>
    ensures { IfSome result (λ list. length list.now ≡ slice_index recorded.now 0) }
{
    let list = part(recorded, room)?;
    for (i, place) in list.iter_mut().enumerate() {
        *place = T::of_word(word(recorded, i + 1));
    }
    Some(list)
}

// Whether a list is the recorded one, place by place.
pub fn same<T: Place>(list: &[T], recorded: &[u64]) -> bool {
    list.len() == number(recorded, 0)
        && list
            .iter()
            .enumerate()
            .all(|(i, x)| x.same(T::of_word(word(recorded, i + 1))))
}
