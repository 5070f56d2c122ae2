// What the rows show of where each code stands.
ghost use Rattle.sheet_rows.specs.Shows.{HasPlace, AllPlaced, ShowsCode, ShowsCodes};

use crate::pieces::Shown;
use fitness::FitList;
use lists::MOST_CODES;
use places::{Place, Way, count_from};

// What is shown of a code that has its place this way. It stands nowhere before its place, so counting begins there.
fn show_code(code: &[u8], ribbon: &[u8], way: Way) -> Shown
    requires { HasPlace code.now ribbon.now way }
    ensures { ShowsCode code.now ribbon.now result }
{
    let mut shown = Shown { way, places: 0 };
    let start = way.start() as usize;
    let places = count_from(code, ribbon, start);
    // no more than the ribbon has bands: it fits, and there is no error to give
    shown.places = places as u32;
    shown
}

// What is shown of each code of a fit list, in list order, by the records of their places. Records and what is shown are rows as
// long as any list may be, so that no memory is asked for: what is of a code has its number. No zip with the records: what is shown
// is written by number, and a record read by the same.
pub fn show_codes(
    list: FitList<'_>,
    ribbon: &[u8],
    records: [Place; MOST_CODES],
) -> [Shown; MOST_CODES]
    requires { AllPlaced list.codes.bytes.now list.codes.sizes.now ribbon.now records }
    ensures { ShowsCodes list.entry.codes.bytes.now list.entry.codes.sizes.now ribbon.now result }
{
    let mut shown = [Shown {
        way: Way::Given(0),
        places: 0,
    }; MOST_CODES];
    for (i, code) in list.codes.enumerate() {
        shown[i] = show_code(code, ribbon, records[i].way);
    }
    shown
}
