// The place of a word on a row, from a first start on.
#![tactic(auto)]

ghost use Rattle.std.specs.Prelude.{◌≡◌};

mod starts;

pub use starts::find_place;

// A way of a word, with the start at which it stands: either for a word that looks alike from both ends. N is the start's type.
#[derive(Clone, Copy, PartialEq, Eq)]
pub enum Way<N> {
    Given(N),
    Turned(N),
    Either(N),
}

impl<N: Copy> Way<N> {
    ghost use Rattle.finding.specs.Answers.{start_of};

    // The start, whichever the way.
    pub fn start(self) -> N
        ensures { result ≡ start_of self }
    {
        match self {
            Way::Given(start) => start,
            Way::Turned(start) => start,
            Way::Either(start) => start,
        }
    }
}
