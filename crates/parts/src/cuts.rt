// The codes of a list as parts of its run of bands: no code is copied out of it.
ghost use Rattle.std.specs.Prelude.{◌≡◌, ◌*◌, ◌/◌, ◌%◌, eqb, ◌<◌, ◌≤◌, [], ◌∷◌, ◌++◌, length};
ghost use Rattle.words.specs.Turn.{turned};
ghost use Rattle.lists.specs.Handed.{words_of};
ghost use Rattle.greedy.specs.Dropping.{code_at};
ghost use Rattle.greedy.specs.Reading.{face_of};
ghost use Rattle.matching.specs.Forms.{bands_of};
ghost use Rattle.parts.specs.Parts.{lent};

use lists::{MOST_CODES, Run};
use matching::Form;
use std::marker::Model;

// So few codes as a list has, whatever their bands. Contracts see the list of them. Its memory is fixed, a row and a count: there
// is no heap, and the library takes no type from outside std. That a code has at most 64 bands is no part of the invariant:
// `cut` asks only that there is room, and takes words of any size.
#[derive(Drop)]
pub struct Parts<'a> {
    codes: [&'a [u8]; MOST_CODES],
    count: usize,
}

impl<'a> Model for Parts<'a> {
    ghost use Rattle.std.specs.Prelude.{◌≤◌, List, ℕ, take};
    ghost use Rattle.parts.specs.Parts.{lent};

    ghost Value = { List (List ℕ) };

    ghost view = { λ p. lent (take p.count p.codes) };

    ghost invariant = { λ p. p.count ≤ 128 };
}

impl<'a> Parts<'a> {
    // No codes. Not inlined, nor are those that fill it: each makes its row aside before it hands it back by value, and what it took
    // of the stack is free for the next.
    #[inline(never)]
    pub(crate) fn none() -> Self
        ensures { result ≡ [] }
    {
        Parts {
            codes: [&[]; MOST_CODES],
            count: 0,
        }
    }

    // One code more.
    pub(crate) fn push(&mut self, code: &'a [u8])
        requires { length self.old < 128 }
        ensures { self.new ≡ self.old ++ code.now ∷ [] }
    {
        self.codes[self.count] = code;
        self.count += 1;
    }

    // The codes of a list, which are words of a run.
    #[inline(never)]
    pub fn cut(run: Run<'a>) -> Self
        requires { length (words_of run) ≤ 128 }
        ensures { result ≡ words_of run.entry }
    {
        let mut parts = Parts::none();
        for code in run {
            parts.push(code);
        }
        parts
    }

    // The codes themselves.
    pub(crate) fn codes(&self) -> &[&'a [u8]]
        ensures same { lent result.now ≡ self.now }
        ensures few { length self.now ≤ 128 }
    {
        &self.codes[..self.count]
    }

    // How many there are.
    pub fn len(&self) -> usize
        ensures count { result ≡ length self.now }
        ensures few { length self.now ≤ 128 }
    {
        self.codes().len()
    }

    // Code number k.
    pub fn code(&self, k: usize) -> &'a [u8]
        requires { k < length self.now }
        ensures { result.now ≡ code_at self.now k }
    {
        self.codes()[k]
    }

    // Face f: code f / 2 as given, or turned where f is odd. Document 01 gives code k the faces 2k and 2k + 1.
    pub fn face(&self, f: usize) -> Form<'a>
        requires { f < 2 * length self.now }
        ensures bands { bands_of result ≡ face_of turned self.now f }
        ensures word { result.word.now ≡ code_at self.now (f / 2) }
        ensures way { result.turned ≡ eqb (f % 2) 1 }
    {
        Form {
            word: self.code(f / 2),
            turned: f % 2 == 1,
        }
    }
}
