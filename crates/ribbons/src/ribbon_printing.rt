// What the ribbon program writes, from the bytes of its input.
ghost use Rattle.std.specs.Prelude.{◌++◌, ◌≤◌, length};
ghost use Rattle.words.specs.Turn.{turned};
ghost use Rattle.grammar.specs.Files.{line_break};
ghost use Rattle.greedy.specs.Layout.{ribbon_for};
ghost use Rattle.programs.specs.Programs.{ribbon_output_lem, WritesOver};
ghost use Rattle.ribbons.specs.OrderLists.{codes_of};

use crate::order_list::OrderList;
use layout::lay_ribbon;
use lines::write_line;
use lists::MOST_BANDS;

// The ribbon of a list, and CR LF. A list that was read is not refused.
fn ribbon_line(list: &OrderList, out: &mut [u8]) -> usize
    requires { 8194 ≤ length out.old }
    ensures { WritesOver (ribbon_for turned (codes_of list.now) ++ line_break) out.old out.new result }
{
    let fit = list.codes();
    let laid = lay_ribbon(fit.codes.bytes, fit.codes.sizes, out).unwrap();
    matching::put_word(b"\r\n", out, laid.bands as usize)
}

// The whole output, at the beginning of a row that has room for any: the ribbon of an order list and CR LF, or the line of
// its refusal. How many bytes it has: a lent row with a count, since there is no heap. The match is that of the other programs:
// with a closure for its middle the contract would be longer.
pub fn ribbon_output(file: &[u8], out: &mut [u8; MOST_BANDS + 2]) -> usize
    ensures { WritesOver (ribbon_output_lem file.now) out.old out.new result }
{
    match OrderList::read(file) {
        Ok(list) => ribbon_line(&list, out),
        Err(r) => write_line(Err(r), out),
    }
}
