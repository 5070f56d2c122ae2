// A list and a ribbon supplied for it: their refusals, and how much longer the ribbon is than the computed one.
ghost use Rattle.std.specs.Prelude.{◌≡◌, ◌≤◌, length};
ghost use Rattle.words.specs.Turn.{turned};
ghost use Rattle.lists.specs.Handed.{words_of};
ghost use Rattle.greedy.specs.Layout.{ribbon_for};
ghost use Rattle.checking.specs.Answers.{less};
ghost use Rattle.verdicts.specs.Supplied.{TakesSupplied};

use fitness::FitList;
use layout::lay_ribbon;
use lists::{Fault, MOST_BANDS, MOST_SUPPLIED_BANDS};

// The list, where it is fit and the ribbon may be supplied; or the fault of the one or the other, 12, 15 or 8.
pub fn take_supplied<'a>(
    bands: &'a [u8],
    lengths: &'a [u16],
    ribbon: &[u8],
) -> Result<FitList<'a>, Fault>
    ensures { TakesSupplied bands.now lengths.now ribbon.now result }
{
    let list = FitList::of(bands, lengths)?;
    if MOST_SUPPLIED_BANDS < ribbon.len() {
        return Err(Fault::LongRibbon);
    }
    if !fitness::all_bands(ribbon) {
        return Err(Fault::UnknownColour);
    }
    Ok(list)
}

// The length of the computed ribbon of a fit list, which is never refused.
pub fn computed_length(list: FitList<'_>) -> usize
    ensures { result ≡ length (ribbon_for turned (words_of list.entry.codes)) }
{
    let mut ribbon = [0u8; MOST_BANDS];
    let laid = lay_ribbon(list.codes.bytes, list.codes.sizes, &mut ribbon).unwrap();
    laid.bands as usize
}

// a minus b, below zero where b is the larger: document 01 names the form, an i32 difference from two lengths, which fit.
pub fn difference(a: usize, b: usize) -> i32
    requires { (a ≤ 16384) × (b ≤ 16384) }
    ensures { result ≡ less a b }
{
    a as i32 - b as i32
}
