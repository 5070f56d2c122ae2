// One generated code: drawn, a palindrome, or a part of bands that stand already.
use crate::draws::Draws;
use crate::letters::Letters;
use arrayvec::ArrayVec;
use lists::MOST_CODE_BANDS;
use std::iter;

// The bands of a code; there is room for the longest.
pub type Code = ArrayVec<u8, MOST_CODE_BANDS>;

// So many drawn bands.
pub fn fresh<const N: usize>(n: usize, letters: Letters, draws: &mut Draws) -> ArrayVec<u8, N> {
    let mut bands = ArrayVec::new();
    let _ = bands.extend(iter::repeat_with(|| letters.draw(draws)).take(n));
    bands
}

// A palindrome, but for one in four.
pub fn palindrome(letters: Letters, draws: &mut Draws) -> Code {
    let n = 1 + draws.below(9);
    if draws.below(4) == 0 {
        return fresh(n, letters, draws);
    }
    let half: Code = fresh(n.div_ceil(2), letters, draws);
    let mut code = Code::new();
    let _ = code.extend(half.iter().chain(half.iter().rev().skip(n % 2)).copied());
    code
}

// A part of n bands, or its turned form.
pub fn part_of(bands: &[u8], n: usize, draws: &mut Draws) -> Code {
    let from = draws.below(bands.len().saturating_sub(n).saturating_add(1));
    let turned = draws.below(2) == 1;
    let mut code = Code::new();
    let _ = code.extend(bands.iter().skip(from).take(n).copied());
    if turned {
        code.reverse();
    }
    code
}
