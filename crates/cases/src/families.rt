// The families of generated lists: how many codes a list has, and how each is made.
ghost use Rattle.std.specs.Prelude.{◌≤◌};

use crate::code::{Code, fresh, palindrome, part_of};
use crate::codes::Codes;
use crate::draws::Draws;
use crate::letters::Letters;
use arrayvec::ArrayVec;
use lists::{MOST_CODE_BANDS, MOST_CODES};

#[derive(Clone, Copy)]
pub enum Family {
    // Short codes of two bands.
    Ties,
    // Codes some of which are palindromes.
    Palindromes,
    // Parts of codes that stand, among others.
    Nested,
    // Parts of a word.
    Chains,
    // The largest lists.
    Full,
}

impl From<&[u8]> for Family {
    // By its first letter; any other name is that of the largest lists.
    fn from(name: &[u8]) -> Self {
        match name {
            [b't', ..] => Family::Ties,
            [b'p', ..] => Family::Palindromes,
            [b'n', ..] => Family::Nested,
            [b'c', ..] => Family::Chains,
            _ => Family::Full,
        }
    }
}

// The bands that a chain's codes are parts of.
type Word = ArrayVec<u8, 99>;

// What a list is made by: its family, how many codes are due, the letters of its bands, and for chains their word. That stands
// beside the family, since an enum that holds it would name the other four again.
#[derive(Drop)]
pub struct Plan {
    family: Family,
    pub due: usize,
    letters: Letters,
    word: Word,
    ghost some: { 2 ≤ due },
    ghost few: { due ≤ 128 },
}

impl Plan {
    fn new(family: Family, due: usize, letters: Letters) -> Self
        requires { (2 ≤ due) × (due ≤ 128) }
    {
        Plan {
            family,
            due,
            letters,
            word: Word::new(),
        }
    }

    // Parts of a word.
    fn chains(draws: &mut Draws) -> Self {
        let letters = Letters::First(4);
        let n = 40 + draws.below(60);
        let word = fresh(n, letters, draws);
        Plan {
            family: Family::Chains,
            due: 3 + draws.below(18),
            letters,
            word,
        }
    }

    // Case k of a line of a family; the largest lists are of other letters from case to case.
    pub fn draw(family: Family, k: usize, draws: &mut Draws) -> Self {
        match family {
            Family::Ties => Plan::new(family, 2 + draws.below(11), Letters::First(2)),
            Family::Palindromes => {
                let due = 2 + draws.below(9);
                Plan::new(family, due, Letters::First(2 + draws.below(2)))
            }
            Family::Nested => Plan::new(family, 2 + draws.below(15), Letters::First(3)),
            Family::Chains => Plan::chains(draws),
            Family::Full => {
                let letters = [Letters::First(2), Letters::First(26), Letters::NearlyEqual];
                Plan::new(family, MOST_CODES, letters[k % 3])
            }
        }
    }

    // A nested list's first code and one in five of the others are drawn, the rest are parts of those that stand.
    fn nested_code(&self, codes: &Codes, draws: &mut Draws) -> Code {
        let first = draws.next();
        if codes.count() == 0 {
            return fresh(8 + first % 57, self.letters, draws);
        }
        if first % 5 == 0 {
            let n = 1 + draws.below(10);
            return fresh(n, self.letters, draws);
        }
        let whole = codes.word(draws.below(codes.count()));
        let n = 1 + draws.below(whole.len());
        part_of(whole, n, draws)
    }

    // The next code behind those that stand. A second match over the families: no trait with a type for each, since a family is
    // read from a line and a value of one type goes through all cases.
    pub fn next_code(&self, codes: &Codes, draws: &mut Draws) -> Code {
        match self.family {
            Family::Ties => {
                let n = 1 + draws.below(6);
                fresh(n, self.letters, draws)
            }
            Family::Palindromes => palindrome(self.letters, draws),
            Family::Nested => self.nested_code(codes, draws),
            Family::Chains => {
                let n = 4 + draws.below(12);
                part_of(self.word.as_slice(), n, draws)
            }
            Family::Full => {
                let n = MOST_CODE_BANDS - draws.below(8);
                fresh(n, self.letters, draws)
            }
        }
    }
}
