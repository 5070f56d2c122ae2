// What the check program writes, from the bytes of its two input files.
ghost use Rattle.std.specs.Prelude.{◌≤◌, length};
ghost use Rattle.programs.specs.Programs.{checked_line, check_output_lem, WritesOver};
ghost use Rattle.ribbons.specs.OrderLists.{codes_of};

use crate::order_list::OrderList;
use lines::{MOST_LINE_BYTES, write_line};
use rows::ribbon_of;
use verdicts::check_only;

// The line for a list and a supplied ribbon: held, missing, or the ribbon's refusal.
fn check_line(list: &OrderList, ribbon: &[u8], out: &mut [u8]) -> usize
    requires { 32 ≤ length out.old }
    ensures { WritesOver (checked_line (codes_of list.now) ribbon.now) out.old out.new result }
{
    let fit = list.codes();
    write_line(check_only(fit.codes.bytes, fit.codes.sizes, ribbon), out)
}

// The whole output, at the beginning of a row that has room for any: what the check of the ribbon in a file finds, or the
// line of a refusal, of the order list before the ribbon. How many bytes it has: a lent row with a count, since there is no heap.
// The match is that of the other programs: with a closure for its middle the contract would be longer.
pub fn check_output(list: &[u8], ribbon_file: &[u8], out: &mut [u8; MOST_LINE_BYTES]) -> usize
    ensures { WritesOver (check_output_lem list.now ribbon_file.now) out.old out.new result }
{
    match OrderList::read(list) {
        Ok(orders) => check_line(&orders, ribbon_of(ribbon_file), out),
        Err(r) => write_line(Err(r), out),
    }
}
