// The place of a word on a row: the smallest start at which a way of it stands.
ghost use Rattle.std.specs.Prelude.{◌≡◌, ◌+◌, ◌≤◌, ◌<◌, length, MatchOption};
ghost use Rattle.words.specs.Turn.{turned};
ghost use Rattle.words.specs.Place.{FirstStart, place_of};
ghost use Rattle.finding.specs.Answers.{place_in};
ghost use Rattle.finding.specs.Search.{Sought};

use crate::Way;
use matching::{Form, Pattern, begins_way};
use windows::{next_fit, sums_of, window_at};

// The smallest start from one on at which either way of c stands on s, if there is one. At the start i the first j bands are
// alike, and m bands of c turned end there. Behind a mismatch the start moves on by what the fall-back from j bands leaves, and
// the bands of the fall-back are not compared again; where the next start that fits is behind all bands compared, the search
// goes on there. The indices move by more than one, and i + j never goes back. One function with two loops: document 01 names
// the form, nested loops over starts and bands, left by a label, with the start yielded by break.
fn first_start(c: &[u8], s: &[u8], from: usize) -> Option<usize>
    requires { Sought c.now s.now from }
    ensures { MatchOption result (FirstStart turned from c.now s.now (length s.now + 1)) (λ i. (i ≤ length s.now) × FirstStart turned from c.now s.now i) }
{
    // No struct of these, shared with counting: here one pattern falls back and the other goes on, there both go on, so no step
    // would be of it.
    let given = Pattern::of(Form::given(c));
    let turned = Pattern::of(Form::turned(c));
    let n = c.len();
    let sums = sums_of(c);
    let mut w = window_at(s, from, n);
    let mut i = from;
    let mut j = 0;
    let mut m = 0;
    'starts: loop {
        w = next_fit(s, n, sums, w, i + j - j.max(m));
        if i + j <= w.start {
            i = w.start;
            j = 0;
            m = 0;
        }
        // j is no counter: a fall-back takes it back, and i on with it.
        while j < n {
            let end = i + j;
            if m == n {
                break 'starts Some(end - n);
            }
            if end == s.len() {
                break 'starts None;
            }
            let x = s[end];
            if c[j] != x {
                if j == 0 {
                    m = turned.go_on(m, x);
                    i += 1;
                    continue 'starts;
                }
                let back = given.fall_back(j);
                i += j - back;
                j = back;
                continue 'starts;
            }
            m = turned.go_on(m, x);
            j += 1;
        }
        break 'starts Some(i);
    }
}

// The smallest place of c on s from a first start on; there is none where too few bands are left. Where both ways stand at one
// start, c looks alike from both ends. 1 to 64 bands, and no type for it: the words of a list come out as slices, so each of
// the three calls, here and in counting and places, would make the type anew with the same proof.
pub fn find_place(c: &[u8], s: &[u8], from: usize) -> Option<Way<usize>>
    requires { (0 < length c.now) × (length c.now ≤ 64) }
    ensures { place_in result ≡ place_of turned from c.now s.now }
{
    if s.len() < from || s.len() - from < c.len() {
        return None;
    }
    let start = first_start(c, s, from)?;
    let row = &s[start..];
    if !begins_way(Form::given(c), row) {
        Some(Way::Turned(start))
    } else if begins_way(Form::turned(c), row) {
        Some(Way::Either(start))
    } else {
        Some(Way::Given(start))
    }
}
