// One row checked: its lowest fault, 2 to 10.
ghost use Rattle.std.specs.Prelude.{◌≡◌};
ghost use Rattle.lists.specs.Answers.{number_told};
ghost use Rattle.lists.specs.Handed.{words_of};
ghost use Rattle.grammar.specs.Orders.{head_fault_lem, entry_fault_lem};
ghost use Rattle.rows.specs.Scans.{TakesRow};
ghost use Rattle.entries.specs.Gathering.{ReadsTwo, ChecksRow};

use lists::{Fault, MOST_CODE_BANDS, MOST_CODES, Run};
use rows::{RowRead, read_row};

// The row that begins here, where it has two fields of which this test finds no fault: they go to the beginnings of the
// buffers.
pub fn check_row<F: Fn(&[u8], &[u8]) -> Result<(), Fault>>(
    here: &[u8],
    names: &mut [u8],
    bands: &mut [u8],
    test: F,
) -> Result<RowRead, Fault>
    requires callable { F.IsAlwaysCallable test }
    requires room { TakesRow here.now names.old bands.old }
    ensures { ChecksRow here.now (F.post test) names.new bands.new result }
{
    let row = read_two(here, names, bands)?;
    test(&names[..row.name], &bands[..row.code])?;
    Ok(row)
}

// The two fields of the row that begins here: the faults 2 and 3 come first. The row as it was read, with its 2: another type
// would be a copy of its other three numbers.
fn read_two(here: &[u8], names: &mut [u8], bands: &mut [u8]) -> Result<RowRead, Fault>
    requires { TakesRow here.now names.old bands.old }
    ensures { ReadsTwo here.now names.new bands.new result }
{
    let row = read_row(here, names, bands).ok_or(Fault::BrokenRow)?;
    if row.fields != 2 {
        return Err(Fault::WrongWidth);
    }
    Ok(row)
}

pub fn head_fault(name: &[u8], code: &[u8]) -> Result<(), Fault>
    ensures { number_told result ≡ head_fault_lem name.now code.now }
{
    if name == b"name".as_slice() && code == b"code".as_slice() {
        return Ok(());
    }
    Err(Fault::WrongHeading)
}

// The lowest of 5 to 10.
#[tactic(auto, using(crate::proofs::Checking::full_fault, crate::proofs::Checking::no_fault))]
pub fn entry_fault(name: &[u8], code: &[u8], before: Run) -> Result<(), Fault>
    ensures { number_told result ≡ entry_fault_lem (words_of before.entry) name.now code.now }
{
    if !fitness::name_ok(name) {
        return Err(Fault::BadName);
    }
    if code.is_empty() {
        return Err(Fault::NoBands);
    }
    if MOST_CODE_BANDS < code.len() {
        return Err(Fault::LongCode);
    }
    if !fitness::all_bands(code) {
        return Err(Fault::UnknownColour);
    }
    if fitness::is_taken(name, before) {
        return Err(Fault::NameTaken);
    }
    if MOST_CODES <= before.sizes.len() {
        return Err(Fault::ListFull);
    }
    Ok(())
}
