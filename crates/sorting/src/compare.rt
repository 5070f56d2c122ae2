// On which side a word is of those that begin with a given word.
ghost use Rattle.std.specs.Prelude.{◌≡◌};
ghost use Rattle.std.specs.Ordering.{ordering_index};
ghost use Rattle.matching.specs.Forms.{bands_of};
ghost use Rattle.sorting.specs.Sorted.{side_of};

use matching::Form;
use std::cmp::Ordering;

// On which side c is of the words that begin with `word`: before them, one of them or after them.
pub(crate) fn side(c: Form<'_>, word: Form<'_>) -> Ordering
    ensures { ordering_index result ≡ side_of (bands_of c.entry) (bands_of word.entry) }
{
    // Numbers, since a form is read from one end or the other: an iterator of its bands would be a type of its own.
    for i in 0..word.len() {
        if c.len() <= i {
            return Ordering::Less;
        }
        let y = c.band(i);
        let x = word.band(i);
        // Alike or not, before the order: bands are mostly alike, and one comparison tells.
        if y != x {
            return y.cmp(&x);
        }
    }
    Ordering::Equal
}
