// The generator's draws.
ghost use Rattle.std.specs.Prelude.{◌≡◌, ◌*◌, ◌%◌, ◌<◌, ◌≤◌};

// The modulus and the factor of the rule by which a state follows another.
const MODULUS: usize = 2147483647;

const FACTOR: usize = 48271;

// A run of draws: each is the state that follows the last.
#[derive(Clone, Copy)]
pub struct Draws {
    pub state: usize,
}

impl Draws {
    pub fn from_seed(seed: usize) -> Self
        ensures { result.state ≡ seed }
    {
        Draws { state: seed }
    }

    // The next draw.
    pub fn next(&mut self) -> usize
        ensures state { self.new.state ≡ self.old.state % 2147483647 * 48271 % 2147483647 }
        ensures value { result ≡ self.new.state }
    {
        self.state = self.state % MODULUS * FACTOR % MODULUS;
        self.state
    }

    // The next draw out of n. Where n is 0, 0 and no Option: a draw is taken all the same, and what it picks from is empty.
    pub fn below(&mut self, n: usize) -> usize
        ensures state { self.new.state ≡ self.old.state % 2147483647 * 48271 % 2147483647 }
        ensures value { 0 < n → result ≡ self.new.state % n }
        ensures below { 0 < n → result < n }
        ensures at_most { result ≤ n }
    {
        self.next().checked_rem(n).unwrap_or(0)
    }
}
