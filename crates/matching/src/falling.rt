// Pattern matching: a pass along one word that holds the longest beginning of another that ends there, and falls back to
// shorter beginnings where the next band does not follow (document 000, section 2.1).
ghost use Rattle.std.specs.Prelude.{◌↔◌, IsTrue, ◌-◌, ◌≤◌, ◌<◌, length};
ghost use Rattle.words.specs.Falling.{Held, FallBacks, Filled, Follows, Advances};
ghost use Rattle.matching.specs.Forms.{bands_of};

use crate::Form;

// The most bands that a pass can hold, as many as a code has. A number of its own: for it alone
// matching would rest on `lists`.
pub const MOST_HELD: usize = 64;

// Band x follows the first k bands of b. Nothing follows all of it.
#[tactic(auto, using(crate::proofs::Sizes::form_size))]
fn follows(b: Form<'_>, k: usize, x: u8) -> bool
    ensures { IsTrue result ↔ Follows (bands_of b.entry) k x }
{
    k < b.len() && b.band(k) == x
}

// One band further: m bands of b are held, and x comes next. The row has the fall-backs from up to m bands. No struct of form,
// row and how far it is filled: `Pattern`, whose row is whole, would carry a count that its form tells already.
pub fn go_on(b: Form<'_>, falls: &[usize], m: usize, x: u8) -> usize
    requires { (m ≤ length b.word.now) × FallBacks (bands_of b) falls.now m }
    ensures { Advances (bands_of b.entry) m x result }
{
    let mut k = m;
    // From fall-back to fall-back, not from number to number.
    while !follows(b, k, x) {
        if k == 0 {
            return 0;
        }
        k = falls[k];
    }
    k + 1
}

// A row that is filled up to n bands suffices for a match of m - 1, and then for one of m. Where that is one band more than it
// has, the fall-back from n goes on with the band that b has next. The answer is how far the row is filled.
pub fn fill_to(b: Form<'_>, falls: &mut [usize], n: usize, m: usize) -> usize
    requires { (m ≤ length b.word.now) × (m < length falls.old) × Filled (bands_of b) falls.old n (m - 1) }
    ensures { Filled (bands_of b.entry) falls.new result m }
{
    if m <= n {
        return n;
    }
    falls[m] = go_on(b, falls, falls[n], b.band(n));
    m
}

// The match held at the end of a pass along a: the longest beginning of b that ends there. The row of fall-backs is filled no
// further than the match has come.
pub fn held_at_end(a: Form<'_>, b: Form<'_>) -> usize
    requires { length a.word.now ≤ 64 }
    ensures { Held (bands_of a.entry) (bands_of b.entry) (length a.entry.word.now) result }
{
    // A row of its own, filled while it is read: fixed memory, and never more bands than a code has.
    let mut falls = [0usize; MOST_HELD + 1];
    let mut filled = 1;
    let mut m = 0;
    // Numbers, since a form is read from one end or the other.
    for i in 0..a.len() {
        m = go_on(b, &falls, m, a.band(i));
        filled = fill_to(b, &mut falls, filled, m);
    }
    m
}
