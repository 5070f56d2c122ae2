// Writing the sheet of a list with names into a lent buffer.
#![tactic(auto)]

ghost use Rattle.writer.specs.Calls.{Ready, WritesLaid, WritesSheet};

use fitness::{FitList, FitNames};
use layout::lay_ribbon;
use lists::{Fault, Refusal};
use pages::{put_sheet, sheet_size};
use places::find_places;
use sheet_rows::{Rows, show_codes};

// The sheet's length, and what its ribbon saves.
#[derive(Clone, Copy)]
pub struct Wrote {
    pub bytes: u32,
    pub saved: u32,
}

// The sheet of a fit list with names and its ribbon, written where it fits. Not inlined: its rows stand on the stack where those of
// laying out stood.
#[inline(never)]
fn write_laid(
    list: FitList<'_>,
    names: FitNames<'_>,
    ribbon: &[u8],
    saved: u32,
    out: &mut [u8],
) -> Result<Wrote, Refusal>
    requires { Ready list names ribbon.now }
    ensures { WritesLaid list.entry names.entry saved out.old out.new result }
{
    let sought = find_places(list, ribbon);
    let shown = show_codes(list, ribbon, sought.records);
    let rows = Rows {
        names: names.names,
        lengths: list.codes.sizes,
        shown: &shown,
        ribbon,
    };
    let size = sheet_size(&rows);
    if out.len() < size {
        return Err(Fault::ShortBuffer.into());
    }
    put_sheet(&rows, out);
    // The size fits: no sheet has more than 17,181 bytes. No TryFrom: there is no error to give.
    Ok(Wrote {
        bytes: size as u32,
        saved,
    })
}

// Writes the sheet of a list of codes with names into a lent buffer. It answers with the sheet's length and what its ribbon
// saves. It refuses a false list or false names by 12, and a buffer that is too short by 13; then nothing lent is touched. The
// list and its names come as two slices each, as C passes them, and the sheet goes into a lent row: there is no heap.
pub fn write_sheet(
    bands: &[u8],
    lengths: &[u16],
    names: &[u8],
    sizes: &[u16],
    out: &mut [u8],
) -> Result<Wrote, Refusal>
    ensures { WritesSheet bands.now lengths.now names.now sizes.now out.old out.new result }
{
    let list = FitList::of(bands, lengths)?;
    let fit_names = FitNames::of(lengths.len(), names, sizes)?;
    let mut ribbon = [0u8; lists::MOST_BANDS];
    let laid = lay_ribbon(bands, lengths, &mut ribbon)?;
    let count = laid.bands as usize;
    write_laid(list, fit_names, &ribbon[..count], laid.saved, out)
}
