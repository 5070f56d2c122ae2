// Places of all codes on a row.
#![tactic(auto)]

ghost use Rattle.std.specs.Prelude.{◌≡◌, ◌≤◌, length};
ghost use Rattle.places.specs.Calls.{FindsPlaces, blanks};

mod records; // the record of a code

use finding::find_place;
use fitness::FitList;
use lists::MOST_CODES;
use records::record_of;
pub use records::{count_from, find_nth};

// A way of a code, with the start at which it stands: either for a code equal to its turned form.
pub type Way = finding::Way<u32>;

// A place record: the code's number, and its way with the start.
#[derive(Clone, Copy, PartialEq, Eq)]
pub struct Place {
    pub code: u32,
    pub way: Way,
}

// The records of the codes that have a place, so many, at the front of a row: no list is longer than the row, and no memory is
// asked for. A count beside the row, since contracts tell what stands behind it as well: none is set there.
#[derive(Drop)]
pub struct Sought {
    pub count: usize,
    pub records: [Place; MOST_CODES],
}

// A row of records for the places of any list, none of them set.
pub fn blank() -> [Place; MOST_CODES]
    ensures { result ≡ blanks }
{
    [Place {
        code: 0,
        way: Way::Given(0),
    }; MOST_CODES]
}

// The places of the codes of a fit list, in list order, until one has none. No type of a list with a ribbon of so many bands:
// verdicts knows the bound by a test and writer by the layout, and each would make the type only to hand it on.
pub fn find_places(list: FitList<'_>, ribbon: &[u8]) -> Sought
    requires { length ribbon.now ≤ 16384 }
    ensures { FindsPlaces list.entry.codes.bytes.now list.entry.codes.sizes.now ribbon.now result.count result.records }
{
    let mut records = blank();
    for (i, code) in list.codes.enumerate() {
        let Some(way) = find_place(code, ribbon, 0) else {
            return Sought { count: i, records };
        };
        records[i] = record_of(way, i);
    }
    Sought {
        count: list.codes.sizes.len(),
        records,
    }
}
