// Starts at which a word can stand: those from which as many bands as it has add up to the same sum. One number for each band,
// its byte, is added as the window moves on, and one is taken off, so a start that does not fit costs a comparison a way.
ghost use Rattle.std.specs.Prelude.{◌≡◌, ◌⊎◌, ◌↔◌, IsTrue, ◌+◌, ◌≤◌, ◌<◌, length};
ghost use Rattle.words.specs.Turn.{turned};
ghost use Rattle.lists.specs.Runs.{total};
ghost use Rattle.matching.specs.Forms.{bands_of};
ghost use Rattle.windows.specs.Windows.{Windowed, Skipped};

use matching::Form;

// What the bands of a word add up to, as given and turned: a sum of each way, since another way of turning may change the bands.
#[derive(Clone, Copy)]
pub struct Sums {
    pub given: usize,
    pub turned: usize,
}

// As many bands as a word has, from a start on, and what they add up to.
#[derive(Clone, Copy)]
pub struct Window {
    pub start: usize,
    pub sum: usize,
}

// The bands of a word added up. Beside fitness's sum of lengths: one sum of both, generic in the item, would be longer than
// the two lines.
pub fn sum_of(c: &[u8]) -> usize
    requires { length c.now ≤ 64 }
    ensures { result ≡ total c.now }
{
    c.iter().map(|band| usize::from(*band)).sum()
}

// The bands of a form added up, by numbers: a form is read from one end or the other.
fn form_sum(form: Form<'_>) -> usize
    requires { length form.word.now ≤ 64 }
    ensures { result ≡ total (bands_of form.entry) }
{
    let mut sum: usize = 0;
    for i in 0..form.len() {
        sum += usize::from(form.band(i));
    }
    sum
}

// The sums of both ways of a word.
pub fn sums_of(c: &[u8]) -> Sums
    requires { length c.now ≤ 64 }
    ensures { (result.given ≡ total c.now) × (result.turned ≡ total (turned c.now)) }
{
    Sums {
        given: sum_of(c),
        turned: form_sum(Form::turned(c)),
    }
}

// The window of n bands from a start on.
pub fn window_at(s: &[u8], start: usize, n: usize) -> Window
    requires { (n ≤ 64) × (start + n ≤ length s.now) }
    ensures { (result.start ≡ start) × Windowed s.now n result.start result.sum }
{
    Window {
        start,
        sum: sum_of(&s[start..start + n]),
    }
}

// A start is not before the least that is left, and its bands add up as one way's do. By ifs: by `&&` and `||` a row of nearly equal
// codes took a third longer to check.
fn fits(least: usize, sums: Sums, w: Window) -> bool
    ensures { IsTrue result ↔ ((least ≤ w.start) × ((w.sum ≡ sums.given) ⊎ (w.sum ≡ sums.turned))) }
{
    if w.start < least {
        return false;
    }
    if w.sum == sums.given {
        return true;
    }
    w.sum == sums.turned
}

// The next start that fits, none before the least that is left, or the last one of the row: a window of n bands moves on from
// start to start. Row, number of bands and sums are no struct: `window_at` needs no sums, and the searches read the row and the
// number at each step themselves.
pub fn next_fit(s: &[u8], n: usize, sums: Sums, from: Window, least: usize) -> Window
    requires { (0 < n) × (n ≤ 64) × Windowed s.now n from.start from.sum }
    ensures { Windowed s.now n result.start result.sum × Skipped s.now n sums.given sums.turned from.start least result.start }
{
    let mut w = from;
    // No `for` over the starts: with a count beside the window a row of nearly equal codes took a fifth longer to check.
    while w.start + n < s.len() {
        if fits(least, sums, w) {
            return w;
        }
        let start = w.start;
        w = Window {
            start: start + 1,
            sum: w.sum - usize::from(s[start]) + usize::from(s[start + n]),
        };
    }
    w
}
