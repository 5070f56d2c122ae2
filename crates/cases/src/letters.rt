// The letters that bands of generated codes are drawn from.
use crate::draws::Draws;

#[derive(Clone, Copy)]
pub enum Letters {
    // The first so many.
    First(usize),
    // A, but for one in 32: bands that are nearly all equal.
    NearlyEqual,
}

impl Letters {
    // The next band.
    pub fn draw(self, draws: &mut Draws) -> u8 {
        match self {
            Letters::First(n) => b'A' + (draws.below(n) % 26) as u8, // below 26
            Letters::NearlyEqual if draws.below(32) == 0 => b'B',
            Letters::NearlyEqual => b'A',
        }
    }
}
