// What the sheet program writes, from the bytes of its input.
ghost use Rattle.std.specs.Prelude.{◌≤◌, length};
ghost use Rattle.sheets.specs.Sheet.{sheet_text_lem};
ghost use Rattle.programs.specs.Programs.{sheet_output_lem, WritesOver};
ghost use Rattle.ribbons.specs.OrderLists.{codes_of, names_of};

use crate::order_list::OrderList;
use lines::write_line;
use lists::MOST_SHEET_BYTES;
use writer::write_sheet;

// The sheet of a list. A list that was read is not refused.
fn sheet_text(list: &OrderList, out: &mut [u8]) -> usize
    requires { 17181 ≤ length out.old }
    ensures { WritesOver (sheet_text_lem (names_of list.now) (codes_of list.now)) out.old out.new result }
{
    let fit = list.codes();
    let names = list.names();
    let wrote = write_sheet(
        fit.codes.bytes,
        fit.codes.sizes,
        names.names.bytes,
        names.names.sizes,
        out,
    )
    .unwrap();
    wrote.bytes as usize
}

// The whole output, at the beginning of a row that has room for any: the sheet of an order list, or the line of its refusal.
// How many bytes it has: a lent row with a count, since there is no heap. The match is that of the other programs: with a closure
// for its middle the contract would be longer.
pub fn sheet_output(file: &[u8], out: &mut [u8; MOST_SHEET_BYTES]) -> usize
    ensures { WritesOver (sheet_output_lem file.now) out.old out.new result }
{
    match OrderList::read(file) {
        Ok(list) => sheet_text(&list, out),
        Err(r) => write_line(Err(r), out),
    }
}
