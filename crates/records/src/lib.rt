// The caller's slice of place records is filled.
#![tactic(auto)]

ghost use Rattle.verdicts.specs.Calls.{ChecksRibbon};

use lists::Refusal;
use places::Place;
use verdicts::Checked;

// Checks a ribbon that is supplied for a list of codes. It answers held, with the supplied length minus the computed one, and
// puts a record of each code's place, in list order, at the beginning of those that are lent; or missing, with the lowest
// number of a code that stands on the ribbon neither way. It refuses a false list by 12, a ribbon of over 16,384 bands by 15,
// one with another byte than A to Z by 8, and too few records by 13, the last only where it would answer held. Where it does
// not answer held, nothing lent is touched. The list comes as two slices, as C passes it.
pub fn check_ribbon(
    bands: &[u8],
    lengths: &[u16],
    ribbon: &[u8],
    places: &mut [Place],
) -> Result<Checked, Refusal>
    ensures { ChecksRibbon bands.now lengths.now ribbon.now places.old places.new result }
{
    let found = verdicts::check_places(bands, lengths, ribbon, places.len());
    let due = found.due;
    places[..due].copy_from_slice(&found.records[..due]);
    found.answer
}
