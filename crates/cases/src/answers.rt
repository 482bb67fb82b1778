// An answer and the recorded one.
ghost use Rattle.std.specs.Prelude.{IfOk, IsTrue, true};

use crate::words::{is_answered, is_refused};
use refusal::Refusal;

// Whether an answer is the recorded one: the same refusal, or none and what `same` says of it.
pub fn told<T: Copy, F: FnOnce(T) -> bool>(
    recorded: &[u64],
    answer: Result<T, Refusal>,
    same: F,
) -> bool
    requires { F.IsAlwaysCallable same }
    ensures { IfOk answer (λ found. IsTrue result → F.post same found true) }
{
    match answer {
        Ok(found) => is_answered(recorded) && same(found),
        Err(refusal) => is_refused(recorded, refusal),
    }
}
