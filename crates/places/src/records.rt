// The record of a code that has a place.
ghost use Rattle.std.specs.Prelude.{◌≡◌, ◌≤◌, ◌<◌, length, drop};
ghost use Rattle.words.specs.Turn.{turned};
ghost use Rattle.words.specs.Count.{count_of};
ghost use Rattle.places.specs.Starts.{StartsWithin};
ghost use Rattle.lists.specs.Runs.{codes_in};
ghost use Rattle.greedy.specs.Dropping.{code_at};
ghost use Rattle.places.specs.Calls.{way_at, record_of_lem, place_for, HasPlace};

use crate::Place;
use finding::{Way, find_place};
use fitness::FitList;

// How often a code stands on the ribbon from a start on. 1 to 64 bands, and no type for it, as in finding.
pub fn count_from(code: &[u8], ribbon: &[u8], start: usize) -> usize
    requires { (0 < length code.now) × (length code.now ≤ 64) × (start ≤ length ribbon.now) }
    ensures { result ≡ count_of turned code.now (drop start ribbon.now) }
{
    counting::count_places(code, &ribbon[start..])
}

// The way of a place, with its start in fewer bits. No TryFrom: that the start fits is known, and there is no error to give.
fn narrow(way: Way<usize>) -> Way<u32>
    requires { StartsWithin 16384 (way_at way) }
    ensures { result ≡ way }
{
    match way {
        Way::Given(start) => Way::Given(start as u32),
        Way::Turned(start) => Way::Turned(start as u32),
        Way::Either(start) => Way::Either(start as u32),
    }
}

// The record of a code of a number, with its way and start. The number in fewer bits by `as`, as in `narrow`: it fits.
pub fn record_of(way: Way<usize>, code: usize) -> Place
    requires { StartsWithin 16384 (way_at way) × (code < 128) }
    ensures { record_of_lem result ≡ record { code = code; place = way_at way } }
{
    Place {
        code: code as u32,
        way: narrow(way),
    }
}

// The record of code i alone, which has a place, in a fit list. It stays for those who call it: here `find_places` makes those
// of all.
pub fn find_nth(list: FitList<'_>, ribbon: &[u8], i: usize) -> Place
    requires { HasPlace list.codes.bytes.now list.codes.sizes.now ribbon.now i }
    ensures { result ≡ place_for i (code_at (codes_in list.entry.codes.bytes.now list.entry.codes.sizes.now) i) ribbon.now }
{
    let mut codes = list.codes;
    let code = codes.nth(i).unwrap();
    record_of(find_place(code, ribbon, 0).unwrap(), i)
}
