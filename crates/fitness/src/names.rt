// The rules for names that come with a list: refusal 12.
ghost use Rattle.std.specs.Prelude.{◌≡◌, true, ◌≤◌, length};
ghost use Rattle.lists.specs.Handed.{words_of};
ghost use Rattle.lists.specs.Fit.{all, is_in, name_ok_lem, all_once_lem, names_ok_lem};

use crate::codes::sum_of;
use crate::texts::name_ok;
use lists::{Fault, Run};

// Names of which no clause of refusal 12 holds: one for each of so many codes.
#[derive(Clone, Copy)]
pub struct FitNames<'a> {
    pub names: Run<'a>,
    pub ghost fit: { names_ok_lem (length names.sizes.now) names.bytes.now names.sizes.now ≡ true },
}

impl<'a> FitNames<'a> {
    ghost use Rattle.fitness.specs.Lists.{TakesNames};

    // The names of so many codes in a run of bytes with a length for each, where they are fit. Beside `FitList::of`, since a test
    // of names asks for how many codes they are.
    pub fn of(codes: usize, names: &'a [u8], sizes: &'a [u16]) -> Result<Self, Fault>
        requires { codes ≤ 128 }
        ensures { TakesNames codes names.now sizes.now result }
    {
        if !names_ok(codes, names, sizes) {
            return Err(Fault::FalseList);
        }
        Ok(FitNames {
            names: Run {
                bytes: names,
                sizes,
            },
        })
    }
}

// One of the names in a run has this name.
pub fn is_taken(name: &[u8], mut names: Run) -> bool
    ensures { result ≡ is_in name.now (words_of names.entry) }
{
    names.any(|other| name == other)
}

// Each name in a run keeps the rule for names.
fn all_named(mut names: Run) -> bool
    ensures { result ≡ all name_ok_lem (words_of names.entry) }
{
    names.all(name_ok)
}

// Each name in a run is used once: none is taken by those behind it. By `next` and no `for`, which would keep to itself
// the names that are left.
fn all_once(mut names: Run) -> bool
    ensures { result ≡ all_once_lem (words_of names.entry) }
{
    while let Some(name) = names.next() {
        if is_taken(name, names) {
            return false;
        }
    }
    true
}

// No clause of refusal 12 holds of the names of so many codes, one run of bytes and a length for each (two slices, as calls
// hand them over). The sum comes before the names, so that each is a part of the run.
pub fn names_ok(codes: usize, names: &[u8], sizes: &[u16]) -> bool
    requires { codes ≤ 128 }
    ensures { result ≡ names_ok_lem codes names.now sizes.now }
{
    if sizes.len() != codes || sum_of(sizes) != names.len() {
        return false;
    }
    let run = Run::new(names, sizes);
    all_named(run) && all_once(run)
}
