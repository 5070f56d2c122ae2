// Patterns: forms that are looked for along a row, band by band.
ghost use Rattle.std.specs.Prelude.{◌≡◌, ◌≤◌, ◌<◌, length};
ghost use Rattle.words.specs.Falling.{FallBack, Advances};
ghost use Rattle.matching.specs.Forms.{bands_of};

use crate::Form;
use crate::falling::{MOST_HELD, fill_to, go_on};
use std::marker::Model;

// A form that is looked for, with the fall-backs from all its beginnings: in a contract it is the row of its bands.
#[derive(Drop)]
pub struct Pattern<'a> {
    form: Form<'a>,
    // A row of its own, with no count beside it: fixed memory, and the form says how many it has.
    falls: [usize; MOST_HELD + 1],
}

impl<'a> Model for Pattern<'a> {
    ghost use Rattle.std.specs.Prelude.{List, ℕ};
    ghost use Rattle.matching.specs.Forms.{bands_of};

    ghost Value = { List ℕ };

    ghost view = { λ p. bands_of p.form };

    ghost use Rattle.matching.specs.Patterns.{FallsBack};

    ghost invariant = { FallsBack };
}

impl<'a> Pattern<'a> {
    pub fn of(form: Form<'a>) -> Pattern<'a>
        requires { length form.word.now ≤ 64 }
        ensures { result ≡ bands_of form.entry }
    {
        let mut falls = [0usize; MOST_HELD + 1];
        // Numbers, since each fall-back is made from those before it.
        for n in 1..form.len() {
            fill_to(form, &mut falls, n, n + 1);
        }
        Pattern { form, falls }
    }

    // The longest shorter beginning with which the first k bands end.
    pub fn fall_back(&self, k: usize) -> usize
        requires { (0 < k) × (k ≤ length self.now) }
        ensures { FallBack self.now k result }
    {
        let falls = &self.falls;
        falls[k]
    }

    // One band further: m bands are held, and x comes next.
    pub fn go_on(&self, m: usize, x: u8) -> usize
        requires { m ≤ length self.now }
        ensures { Advances self.now m x result }
    {
        go_on(self.form, &self.falls, m, x)
    }
}
