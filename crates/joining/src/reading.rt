// The order that the joins give: the piece that holds face 0, read from its first face on.
ghost use Rattle.std.specs.Prelude.{◌*◌, ◌≤◌, ◌<◌, length};
ghost use Rattle.joins.specs.Rows.{Row, WrotePiece, WroteOrder};
ghost use Rattle.joining.specs.Joins.{row_of};

use crate::ends::{end_from, mirror_of};

// The faces from f on, written at the beginning of order. How many there are.
fn write_piece(after: &[Option<usize>], n: usize, f: usize, order: &mut [usize]) -> usize
    requires { Row n (row_of after.now) × (f < 2 * n) × (256 ≤ length order.old) }
    ensures { WrotePiece n (row_of after.now) f order.old order.new result }
{
    let mut at = f;
    // By numbers: how many faces there are is known only where the piece ends, and the number of the turn is the answer.
    for count in 0..2 * n {
        order[count] = at;
        let Some(next) = after[at] else {
            return count + 1
        };
        at = next;
    }
    2 * n
}

// The order of n codes, written at the beginning of order. How many faces it has: without a heap the row is lent, and what is
// behind them stays as it was.
pub fn write_order(after: &[Option<usize>], n: usize, order: &mut [usize]) -> usize
    requires { Row n (row_of after.now) × (256 ≤ length order.old) }
    ensures { WroteOrder n (row_of after.now) order.old order.new result }
{
    if n == 0 {
        return 0;
    }
    let last = end_from(after, n, mirror_of(0));
    write_piece(after, n, mirror_of(last), order)
}
