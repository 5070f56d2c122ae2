// Checking a supplied ribbon: held or missing, with the records by value.
#![tactic(auto)]

ghost use Rattle.std.specs.Prelude.{◌≡◌};
ghost use Rattle.places.specs.Calls.{blanks};
ghost use Rattle.verdicts.specs.Calls.{ChecksInRoom, ChecksAlone};

mod supplied; // what is supplied or its refusal, and the difference

use lists::{Fault, MOST_CODES, Refusal};
use places::{Place, blank, find_places};
use supplied::{computed_length, difference, take_supplied};

// Missing the code of a number; or held, with the supplied length minus the computed one.
#[derive(Clone, Copy)]
pub enum Checked {
    Missing(u32),
    Held(i32),
}

// The answer of a check, or the refusal, 12, 15, 8 or 13; and the records that are due: so many, at the front of a row, which
// suffices for any list, since no memory is asked for. Behind them none is set, and contracts tell that too: so a count beside
// the row.
#[derive(Drop)]
pub struct Findings {
    pub answer: Result<Checked, Refusal>,
    pub due: usize,
    pub records: [Place; MOST_CODES],
}

// An answer with no record due.
fn without_records(answer: Result<Checked, Refusal>) -> Findings
    ensures { (result.answer ≡ answer) × (result.due ≡ 0) × (result.records ≡ blanks) }
{
    let records = blank();
    Findings {
        answer,
        due: 0,
        records,
    }
}

// Checks a ribbon that is supplied for a list of codes, as records::check_ribbon does where so many records are lent, and
// hands the records that are due back by value. It refuses 12, 15, 8 and 13 as that does. The list comes as two slices, as C
// passes it. No inner function with `?`: that a code is missing is no refusal, so it would still return early, and its contract
// would tell each case once more.
pub fn check_places(bands: &[u8], lengths: &[u16], ribbon: &[u8], room: usize) -> Findings
    ensures { ChecksInRoom bands.now lengths.now ribbon.now room result.answer result.due result.records }
{
    let list = match take_supplied(bands, lengths, ribbon) {
        Ok(list) => list,
        Err(fault) => return without_records(Err(fault.into())),
    };
    let sought = find_places(list, ribbon);
    let count = sought.count;
    if count < lengths.len() {
        // by `as`: no list has more codes than fit
        return without_records(Ok(Checked::Missing(count as u32)));
    }
    if room < count {
        return without_records(Err(Fault::ShortBuffer.into()));
    }
    let longer = difference(ribbon.len(), computed_length(list));
    let records = sought.records;
    Findings {
        answer: Ok(Checked::Held(longer)),
        due: count,
        records,
    }
}

// Checks a ribbon that is supplied for a list of codes, as records::check_ribbon does where there is room enough, for callers
// that want no records. It refuses 12, 15 and 8. The list comes as two slices, as C passes it.
pub fn check_only(bands: &[u8], lengths: &[u16], ribbon: &[u8]) -> Result<Checked, Refusal>
    ensures { ChecksAlone bands.now lengths.now ribbon.now result }
{
    check_places(bands, lengths, ribbon, MOST_CODES).answer
}
