// The faces of codes, sorted.
ghost use Rattle.std.specs.Prelude.{◌≡◌};
ghost use Rattle.matching.specs.Forms.{bands_of};
ghost use Rattle.sorting.specs.Sorted.{Begin};

use crate::insertion::sort_in;
use crate::ranges::Risen;
use lists::MOST_FACES;
use matching::Form;
use parts::Parts;
use std::cmp::Ordering;
use std::marker::Model;

// Codes, with their faces sorted by their bands. Contracts see the list of the codes.
#[derive(Drop)]
pub struct Sorted<'a> {
    parts: &'a Parts<'a>,
    // a row of fixed memory, as long as any list of faces
    faces: [usize; MOST_FACES],
}

impl<'a> Model for Sorted<'a> {
    ghost use Rattle.std.specs.Prelude.{List, ℕ};
    ghost use Rattle.sorting.specs.Sorted.{AllSorted};

    ghost Value = { List (List ℕ) };

    ghost view = { λ s. s.parts.now };

    ghost invariant = { λ s. AllSorted s.parts.now s.faces };
}

impl<'a> Sorted<'a> {
    // Face after face is put in its place. Not inlined: the row that it fills leaves the stack as it returns.
    #[inline(never)]
    pub fn of(parts: &'a Parts<'a>) -> Self
        ensures { result ≡ parts.now }
    {
        let mut faces = [0; MOST_FACES];
        for f in 0..2 * parts.len() {
            sort_in(parts, f, &mut faces);
        }
        Sorted { parts, faces }
    }

    // The codes.
    pub fn parts(&self) -> &'a Parts<'a>
        ensures { result.now ≡ self.now }
    {
        self.parts
    }

    // The faces that begin with a word.
    pub fn beginning_with(&self, word: Form<'_>) -> &[usize]
        ensures { Begin self.now (bands_of word.entry) result.now }
    {
        let parts = self.parts;
        let faces = &self.faces[..2 * parts.len()];
        let all = Risen { parts, faces };
        let faces = &faces[all.first_place(word, Ordering::Equal)..];
        let from = Risen { parts, faces };
        &faces[..from.range_end(word)]
    }
}
