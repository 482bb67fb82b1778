// The record as words: its text, the fields that it is cut into, and recorded lists.
//
// The text is of numbers to the base 16, each with a space or the end of a line after it. A field is a number and as
// many words: the whole is a row of fields, and so is a case. A recorded list is its length and its places; those that
// it leaves out at the end are zero.

ghost use Rattle.std.specs.Prelude.{◌≡◌, slice_index, from_bits};
ghost use Rattle.std.specs.Float.{binary64};

use refusal::Refusal;
use std::num::{f64_from_bits_with_nan, f64_to_bits_with_nan};
use tolerance::Tolerances;

// What a byte of the text is: a digit of a number, or its end.
// No Option: inside that of `read_byte` a None would say two things.
enum Byte {
    Digit(u64),
    End,
}

// None for a byte that has no place in the text.
fn read_byte(byte: u8) -> Option<Byte> {
    match byte {
        b'0'..=b'9' => Some(Byte::Digit(u64::from(byte - b'0'))),
        b'A'..=b'F' => Some(Byte::Digit(u64::from(byte - b'A') + 10)),
        b' ' | b'\n' => Some(Byte::End),
        _ => None,
    }
}

// The list with the numbers of the text at its start; its other words stay. None where a byte has no place in the text
// or the numbers are too many.
pub fn read_words<'a>(text: &[u8], words: &'a mut [u64]) -> Option<&'a [u64]> {
    let mut value = 0;
    let mut count = 0;
    for byte in text {
        match read_byte(*byte)? {
            Byte::Digit(digit) => value = (value << 4) | digit,
            Byte::End => {
                *words.get_mut(count)? = value;
                count += 1;
                value = 0;
            }
        }
    }
    Some(words)
}

// The first field of a row, and the fields after it. None where the field is not there whole.
fn split_field(words: &[u64]) -> Option<(&[u64], &[u64])> {
    let (size, rest) = words.split_first()?;
    rest.split_at_checked(*size as usize)
}

// Field `index` of a row of fields. None where it is not there whole. The record tells of a field no more than its
// length, so that all before it are passed.
fn whole_field(words: &[u64], index: usize) -> Option<&[u64]> {
    let mut rest = words;
    for _ in 0..index {
        rest = split_field(rest)?.1;
    }
    Some(split_field(rest)?.0)
}

// The same, or no words where it is not there whole: they then read as zero, as those that a list leaves out do.
pub fn field(words: &[u64], index: usize) -> &[u64] {
    whole_field(words, index).unwrap_or(&[])
}

// Word `index`, or zero where there is none.
pub fn word(words: &[u64], index: usize) -> u64
    ensures { result ≡ slice_index words.now index }
{
    words.get(index).copied().unwrap_or(0)
}

// The same as an index or a length.
pub fn number(words: &[u64], index: usize) -> usize
    ensures { result ≡ slice_index words.now index }
{
    word(words, index) as usize
}

// The same as the float of these bits. A NaN's are not told apart.
pub fn float(words: &[u64], index: usize) -> f64
    ensures { result ≡ from_bits binary64 (slice_index words.now index) }
{
    f64_from_bits_with_nan(word(words, index))
}

// The tolerances of a call on a grid: the floats after its m and n, by name, since three in a list are no plainer.
pub fn tolerances(numbers: &[u64]) -> Tolerances {
    Tolerances {
        u: float(numbers, 4),
        v: float(numbers, 5),
        line: float(numbers, 6),
    }
}

// Whether two floats have the same bits, or are both a NaN.
pub fn same_float(x: f64, y: f64) -> bool {
    f64_to_bits_with_nan(x) == f64_to_bits_with_nan(y)
}

// Whether the recorded answer is no refusal. The record has 0 first there, and else the number of the refusal.
pub fn is_answered(recorded: &[u64]) -> bool {
    word(recorded, 0) == 0
}

// Whether the recorded answer is this refusal.
pub fn is_refused(recorded: &[u64], refusal: Refusal) -> bool {
    word(recorded, 0) == u64::from(u8::from(refusal))
}

// Whether the recorded answer is no refusal, and these two numbers.
pub fn is_told(recorded: &[u64], first: usize, second: usize) -> bool {
    is_answered(recorded) && number(recorded, 1) == first && number(recorded, 2) == second
}
