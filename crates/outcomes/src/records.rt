// Place records, as the trials lend them and tell of them.
ghost use Rattle.std.specs.Prelude.{◌≡◌};
ghost use Rattle.outcomes.specs.Marks.{blank, place_mark};

use crate::items::Item;
use places::{Place, Way};
use std::fmt;
use std::fmt::Write;
use telling::Checksum;

// the most that a case lends
pub const MOST_RECORDS: usize = 130;

// A record in which nothing is set, made here and not asked of places: a test says itself what an unset record holds.
pub fn blank_record() -> Place
    ensures { result ≡ blank }
{
    Place {
        code: 0,
        way: Way::Given(0),
    }
}

// A way's name, its number in checksums (which the reference counts by too), and its start.
fn told(way: Way) -> (&'static str, u32, u32) {
    match way {
        Way::Given(start) => ("given", 0, start),
        Way::Turned(start) => ("turned", 1, start),
        Way::Either(start) => ("either", 2, start),
    }
}

impl Item for Place {
    const BETWEEN: &'static str = ";";

    ghost marked = { place_mark };

    fn mark(i: usize) -> Self {
        let n = (i % MOST_RECORDS) as u32; // below 130
        let start = 2000 + n;
        let way = match i % 3 {
            1 => Way::Turned(start),
            2 => Way::Either(start),
            _ => Way::Given(start),
        };
        Place {
            code: 1000 + n,
            way,
        }
    }

    fn fmt<W: Write>(self, f: &mut fmt::Formatter<W>) -> fmt::Result {
        let (way, _, start) = told(self.way);
        write!(f, "{} {way} {start}", self.code)
    }

    fn feed(self, sum: &mut Checksum) {
        let (_, way, start) = told(self.way);
        sum.feed(self.code);
        sum.feed(way);
        sum.feed(start);
    }
}
