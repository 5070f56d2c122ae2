// Where the sorted faces that begin with a given word begin and end.
ghost use Rattle.std.specs.Ordering.{ordering_index};
ghost use Rattle.matching.specs.Forms.{bands_of};
ghost use Rattle.sorting.specs.Sorted.{Rising, FirstPlace};

use crate::compare::side;
use matching::Form;
use parts::Parts;
use std::cmp::Ordering;

// Faces of some codes, in rising order.
#[derive(Clone, Copy)]
pub(crate) struct Risen<'a> {
    pub(crate) parts: &'a Parts<'a>,
    pub(crate) faces: &'a [usize],
    pub(crate) ghost rising: { Rising parts.now faces.now },
}

impl Risen<'_> {
    // The first that is on side `least` of a word, or on a later one.
    pub(crate) fn first_place(self, word: Form<'_>, least: Ordering) -> usize
        ensures { FirstPlace self.entry.parts.now self.entry.faces.now (bands_of word.entry) (ordering_index least) result }
    {
        let mut low = 0;
        let mut high = self.faces.len();
        // A bisection by hand: `partition_point` asks for a test that may be called with any number, and this one compares faces.
        while low < high {
            let mid = low + (high - low) / 2;
            if side(self.parts.face(self.faces[mid]), word) < least {
                low = mid + 1;
            } else {
                high = mid;
            }
        }
        low
    }

    // How many of them begin with a word, where none is before those that do. Mostly none does, as the first shows.
    pub(crate) fn range_end(self, word: Form<'_>) -> usize
        ensures { FirstPlace self.entry.parts.now self.entry.faces.now (bands_of word.entry) 2 result }
    {
        let Some((first, others)) = self.faces.split_first() else {
            return 0;
        };
        if Ordering::Equal < side(self.parts.face(*first), word) {
            return 0;
        }
        let others = Risen {
            parts: self.parts,
            faces: others,
        };
        1 + others.first_place(word, Ordering::Greater)
    }
}
