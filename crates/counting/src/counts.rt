// How often a word stands on a row.
ghost use Rattle.std.specs.Prelude.{◌≡◌, ◌==◌, ◌||◌, ◌≤◌, ◌<◌, length};
ghost use Rattle.words.specs.Turn.{turned};
ghost use Rattle.words.specs.Count.{count_of};
ghost use Rattle.counting.specs.Moves.{Moved};

use matching::{Form, Pattern};
use windows::{next_fit, sums_of, window_at};

// A pass: how many bands it has passed, and how many of each way are held there.
#[derive(Clone, Copy)]
struct Pass {
    end: usize,
    given: usize,
    turned: usize,
}

impl Pass {
    // On to a start behind all bands passed, where nothing is held; else it stays.
    fn moved(self, start: usize) -> Pass
        ensures { Moved start self.end self.given self.turned result.end result.given result.turned }
    {
        if self.end <= start {
            Pass {
                end: start,
                given: 0,
                turned: 0,
            }
        } else {
            self
        }
    }

    // One way or the other, of n bands, is held whole.
    fn is_whole(self, n: usize) -> bool
        ensures { result ≡ (self.given == n || self.turned == n) }
    {
        self.given == n || self.turned == n
    }
}

// The number of starts at which c stands on s, either way, each start once: one pass along s holds the longest beginning of
// each way that ends at a band and can still be whole, and where one of them is whole a start counts. Where the next start that
// fits is behind all bands passed, the pass goes on there. 1 to 64 bands, and no type for it, as in finding.
pub fn count_places(c: &[u8], s: &[u8]) -> usize
    requires { (0 < length c.now) × (length c.now ≤ 64) }
    ensures { result ≡ count_of turned c.now s.now }
{
    let n = c.len();
    if s.len() < n {
        return 0;
    }
    // No struct of these, shared with finding: there one pattern falls back, here both go on, so no step would be of it.
    let given = Pattern::of(Form::given(c));
    let turned = Pattern::of(Form::turned(c));
    let sums = sums_of(c);
    let mut w = window_at(s, 0, n);
    let mut count = 0;
    let mut pass = Pass {
        end: 0,
        given: 0,
        turned: 0,
    };
    // An index: the pass leaves out the bands before the next start that fits.
    while pass.end < s.len() {
        w = next_fit(s, n, sums, w, pass.end - pass.given.max(pass.turned));
        let at = pass.moved(w.start);
        let x = s[at.end];
        pass = Pass {
            end: at.end + 1,
            given: given.go_on(at.given, x),
            turned: turned.go_on(at.turned, x),
        };
        // A start counts once, whichever ways stand there.
        let once = usize::from(pass.is_whole(n));
        count += once;
    }
    count
}
