// Rules 8: lists that a caller lends for output: whether they have room, zero past what a call writes, and how much a call
// drew into them.
#![tactic(auto)]

ghost use Rattle.std.specs.Prelude.{◌≡◌};
ghost use Rattle.lent.specs.Lent.{room_check, zeroed_from};

use refusal::Refusal;

// How many points and lines a call drew into its lists.
#[derive(Clone, Copy)]
pub struct Counts {
    pub points: usize,
    pub lines: usize,
}

// Refusal 3 of two lists: either is shorter than what the call may write.
pub fn check_room(need: usize, have: usize, need_too: usize, have_too: usize) -> Result<(), Refusal>
    ensures { result ≡ room_check need have need_too have_too }
{
    if need <= have && need_too <= have_too {
        Ok(())
    } else {
        Err(Refusal::Room)
    }
}

// Zero from place `from` on; none where the list ends before it. By a loop, since one function serves f64 and usize:
// `fill` clones, and of any T the check does not know that a clone cannot fail.
pub fn zero_from<T: Copy>(list: &mut [T], from: usize, zero: T)
    ensures { list.new ≡ zeroed_from zero from list.old }
{
    let from = from.min(list.len());
    for place in &mut list[from..] {
        *place = zero;
    }
}
