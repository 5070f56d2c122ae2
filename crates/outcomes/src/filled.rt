// Calls that fill one lent buffer: how many items are due in it, and what is told of it.
ghost use Rattle.std.specs.Prelude.{◌≡◌, ℕ, Ok, Err};
ghost use Rattle.outcomes.specs.Dues.{records_due};

use crate::answers::{Answer, say_answer};
use crate::items::Item;
use crate::lent::tell;
use layout::Laid;
use lists::Refusal;
use std::fmt;
use telling::Tally;
use verdicts::Checked;
use writer::Wrote;

// Not for Orders: a read fills four buffers.
pub trait Filled: Answer {
    // The names of the call and of the buffer.
    const CALL: &'static str;

    const BUFFER: &'static str;

    ghost dues: { Self → ℕ → ℕ };

    // How many items are due, for a list of so many codes.
    fn due(self, codes: usize) -> usize
        ensures { result ≡ dues self codes };
}

impl Filled for Laid {
    const CALL: &'static str = "lay";

    const BUFFER: &'static str = "ribbon";

    ghost dues = { λ laid _. laid.bands };

    fn due(self, _codes: usize) -> usize {
        self.bands as usize
    }
}

impl Filled for Checked {
    const CALL: &'static str = "check";

    const BUFFER: &'static str = "records";

    ghost dues = { records_due };

    fn due(self, codes: usize) -> usize {
        match self {
            Checked::Missing(_) => 0,
            Checked::Held(_) => codes,
        }
    }
}

impl Filled for Wrote {
    const CALL: &'static str = "sheet";

    const BUFFER: &'static str = "rows";

    ghost dues = { λ wrote _. wrote.bytes };

    fn due(self, _codes: usize) -> usize {
        self.bytes as usize
    }
}

// How many items are due in all: none where the call refused.
pub fn due<A: Filled>(answer: Result<A, Refusal>, codes: usize) -> usize
    ensures answered { (said : A) → answer ≡ Ok said → result ≡ A.dues said codes }
    ensures refused { (refusal : Refusal) → answer ≡ Err refusal → result ≡ 0 }
{
    match answer {
        Ok(said) => said.due(codes),
        Err(_) => 0,
    }
}

// The line of what a call answers, and that of the buffer that it filled.
pub fn tell_filled<A: Filled, T: Item>(
    t: &mut Tally<impl Print>,
    answer: Result<A, Refusal>,
    buffer: &[T],
    codes: usize,
) -> fmt::Result {
    say_answer(t, A::CALL, answer)?;
    tell(t, A::BUFFER, buffer, due(answer, codes))
}
