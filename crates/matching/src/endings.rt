// The overlap of two words: the longest ending of the one that is also a beginning of the other.
ghost use Rattle.std.specs.Prelude.{◌≡◌};
ghost use Rattle.words.specs.Overlap as o;
ghost use Rattle.matching.specs.Forms.{bands_of};

use crate::Form;
use crate::falling::{MOST_HELD, held_at_end};

// The overlap from a to b. One pass along the last bands of a finds it. More bands than the pass can hold, which no code has,
// are compared before it, the longest ending first.
pub fn overlap(a: Form<'_>, b: Form<'_>) -> usize
    ensures { result ≡ o.overlap (bands_of a.entry) (bands_of b.entry) }
{
    let most = a.len().min(b.len());
    for k in (MOST_HELD + 1..most + 1).rev() {
        if a.last(k).begins(b) {
            return k;
        }
    }
    held_at_end(a.last(most.min(MOST_HELD)), b)
}
