// Row after row: the names and codes of a file, one behind the other.
ghost use Rattle.std.specs.Prelude.{◌≤◌, ◌<◌, length};
ghost use Rattle.grammar.specs.Orders.{read_orders_lem};
ghost use Rattle.entries.specs.Gathering.{Gathers};

use crate::checks::{check_row, entry_fault, head_fault};
use lists::{Fault, MOST_CODES, MOST_FILE_BYTES, Refusal, Run};

// What an order list holds: its codes, and a name for each.
#[derive(Clone, Copy)]
pub struct Gathered<'a> {
    pub codes: Run<'a>,
    pub names: Run<'a>,
}

// The heading, then the entries: each faultless entry is gathered in the buffers behind those before it.
// Four buffers and no struct of them (tried): a struct's run, lent in two parts, bars its lengths from being lent too.
// By `as`, at most 128 codes, 64 bands and 24 bytes of a name, as the test found: each fits, and there is no error to give.
pub fn gather<'a>(
    file: &[u8],
    bands: &'a mut [u8; MOST_FILE_BYTES],
    lengths: &'a mut [u16; MOST_CODES],
    names: &'a mut [u8; MOST_FILE_BYTES],
    sizes: &'a mut [u16; MOST_CODES],
) -> Result<Gathered<'a>, Refusal>
    requires { (0 < length file.now) × (length file.now ≤ 16384) }
    ensures { Gathers (read_orders_lem file.now) result }
{
    let head = check_row(file, names, bands, head_fault).map_err(|fault| fault.in_row(1))?;
    let mut rest = &file[head.size..];
    // three marks counted on: there is no heap to push to
    let mut codes: usize = 0;
    let mut code_end: usize = 0;
    let mut name_end: usize = 0;
    // a `while`: only the row just read says where the next begins, and an iterator of rows could not be lent the buffers
    while !rest.is_empty() {
        let (bytes, next_name) = names.split_at_mut(name_end);
        let (_, next_code) = bands.split_at_mut(code_end);
        let before = Run::new(bytes, &sizes[..codes]);
        let line = (2 + codes) as u32;
        let test = |name: &[u8], code: &[u8]| entry_fault(name, code, before);
        let row = check_row(rest, next_name, next_code, test).map_err(|fault| fault.in_row(line))?;
        lengths[codes] = row.code as u16;
        sizes[codes] = row.name as u16;
        code_end += row.code;
        name_end += row.name;
        codes += 1;
        rest = &rest[row.size..];
    }
    if codes == 0 {
        return Err(Fault::EmptyList.into());
    }
    Ok(Gathered {
        codes: Run::new(&bands[..code_end], &lengths[..codes]),
        names: Run::new(&names[..name_end], &sizes[..codes]),
    })
}
