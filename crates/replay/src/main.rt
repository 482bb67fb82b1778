// Replays recorded calls: each case of the record on standard input is one call with its inputs, the answer that the
// original gave or the table of refusals (Rules 11.1) fixes, and every lent list afterwards. It writes the number of
// each case in which the library differs, and how many cases there were. A read or a write that fails ends it.
#![tactic(auto)]

ghost use Rattle.std.specs.Prelude.{◌≤◌, IfOk, length};

use cases::words;
use replay_curve::{textures, traces};
use replay_surface::{lines, meshes, seams, vectors};
use std::io::{self, Input, Read};

// How many bytes of the record are read: what follows them is left out.
const TEXT_ROOM: usize = 524288;

// How many words they may be.
const WORD_ROOM: usize = 65536;

// Whether the library does what is recorded of a case. A case of a kind that is not there differs, and so does a case
// that is missing, since its kind reads as zero. The record numbers the kinds, and they are named by the functions
// alone: an enum of them would say each once more.
fn agrees(case: &[u64]) -> bool {
    match words::word(words::field(case, 0), 0) {
        1 => seams::new_vector(case),
        2 => seams::map_index(case),
        3 => seams::map_index_inv(case),
        4 => meshes::triangulate_grid(case),
        5 => lines::grid_paths(case),
        6 => lines::line(case),
        7 => traces::trace_flat(case),
        8 => textures::plan(case),
        9 => textures::angle(case),
        10 => textures::sample_point(case),
        11 => vectors::vector(case),
        12 => seams::find_seams(case),
        13 => meshes::triangulate_seams(case),
        _ => false,
    }
}

// 1 where a case differs, after its number is written, and 0 where it does not: a number, since these are summed.
fn difference(rt: &impl Print, words: &[u64], index: usize) -> io::Result<usize>
    ensures { IfOk result (λ count. count ≤ 1) }
{
    if agrees(words::field(words, index)) {
        return Ok(0);
    }
    println!(rt; "replay: differs in case {index}")?;
    Ok(1)
}

// Field 0 says how many cases there are; they follow it. They are held to the room, not to the words that there are: a
// case that is missing differs.
fn replay(rt: &impl Print, words: &[u64]) -> io::Result<()> {
    let cases = words::number(words::field(words, 0), 0);
    if cases > words.len() {
        return println!(rt; "replay: the record is shorter than it says");
    }
    let mut differ = 0;
    for index in 1..=cases {
        differ += difference(rt, words, index)?;
    }
    println!(rt; "replay: {cases} cases, {differ} differ")
}

// As much of the input as `text` has room for: the part of it that was read. std reads a list whole or a text to its
// end alone, so that a loop goes on from what was read.
fn read_full<'a>(reader: &mut impl Read, text: &'a mut [u8]) -> io::Result<&'a [u8]>
    ensures { IfOk result (λ read. length read.now ≤ length text.old) }
{
    let mut count = 0;
    while count < text.len() {
        let more = reader.read(&mut text[count..])?;
        if more == 0 {
            break;
        }
        count += more;
    }
    Ok(&text[..count])
}

// The record that is read into the two rooms is replayed. It is given the arrays whole: where `main` cuts a slice of one
// itself, the check goes over its places one by one, and runs out of stack.
fn replay_input<R: Input + Print>(
    rt: &R,
    text: &mut [u8; TEXT_ROOM],
    words: &mut [u64; WORD_ROOM],
) -> io::Result<()> {
    let text = read_full(&mut rt.reader(), text)?;
    let Some(words) = words::read_words(text, words) else {
        return println!(rt; "replay: the record is no list of numbers, or too long");
    };
    replay(rt, words)
}

fn main(rt: HostRuntime) -> io::Result<()> {
    let mut text = [0; TEXT_ROOM];
    let mut words = [0; WORD_ROOM];
    replay_input(&rt, &mut text, &mut words)
}
