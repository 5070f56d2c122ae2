// Routines on words for the bench, which times them alone. A slice passes as a pointer and a count.
#![tactic(auto)]

ghost use Rattle.std.specs.Prelude.{◌≡◌};
ghost use Rattle.words.specs.Ways.{way_of};
ghost use Rattle.words.specs.Overlap.{overlap};

use matching::Form;

// The overlap from a way of a to a way of b, as overlap gives it. C hands each word over with a flag for its way.
#[unsafe(no_mangle)]
pub extern "C" fn matching_overlap(a: &[u8], a_turned: bool, b: &[u8], b_turned: bool) -> usize
    ensures { result ≡ overlap (way_of a_turned a.now) (way_of b_turned b.now) }
{
    let from = Form {
        word: a,
        turned: a_turned,
    };
    let to = Form {
        word: b,
        turned: b_turned,
    };
    matching::overlap(from, to)
}
