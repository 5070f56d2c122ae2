// The rules for a list of codes: refusal 12.
ghost use Rattle.std.specs.Prelude.{◌≡◌, true, ◌≤◌, length};
ghost use Rattle.lists.specs.Runs.{total};
ghost use Rattle.lists.specs.Fit.{lengths_ok_lem, list_ok_lem};

use crate::texts::all_bands;
use lists::{Fault, MOST_CODE_BANDS, MOST_CODES, Run};

// A list of codes of which no clause of refusal 12 holds.
#[derive(Clone, Copy)]
pub struct FitList<'a> {
    pub codes: Run<'a>,
    pub ghost fit: { list_ok_lem codes.bytes.now codes.sizes.now ≡ true },
}

impl<'a> FitList<'a> {
    ghost use Rattle.fitness.specs.Lists.{TakesList};

    // The list in a run of bands with a length for each code, where it is fit.
    pub fn of(bands: &'a [u8], lengths: &'a [u16]) -> Result<Self, Fault>
        ensures { TakesList bands.now lengths.now result }
    {
        if !list_ok(bands, lengths) {
            return Err(Fault::FalseList);
        }
        Ok(FitList {
            codes: Run {
                bytes: bands,
                sizes: lengths,
            },
        })
    }
}

// Each length is 1 to 64.
fn lengths_ok(lengths: &[u16]) -> bool
    ensures { result ≡ lengths_ok_lem lengths.now }
{
    lengths
        .iter()
        .all(|n| (1..=MOST_CODE_BANDS).contains(&usize::from(*n)))
}

// The lengths added up. There are too few of them for the sum to overflow.
pub fn sum_of(lengths: &[u16]) -> usize
    requires { length lengths.now ≤ 128 }
    ensures { result ≡ total lengths.now }
{
    lengths.iter().map(|n| usize::from(*n)).sum()
}

// No clause of refusal 12 holds of a run of bands and a length for each code (two slices, as calls hand them over). The
// count comes first, so that the sum of any lengths is safe to make.
pub fn list_ok(bands: &[u8], lengths: &[u16]) -> bool
    ensures { result ≡ list_ok_lem bands.now lengths.now }
{
    (1..=MOST_CODES).contains(&lengths.len())
        && lengths_ok(lengths)
        && sum_of(lengths) == bands.len()
        && all_bands(bands)
}
