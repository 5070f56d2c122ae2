// Joining by one pass: the overlaps from the largest down, and for each the faces in ascending order. What is allowed only
// ever shrinks, so a join that is passed over is not wanted later, and no table of overlaps is needed.
ghost use Rattle.std.specs.Prelude.{◌+◌, ◌*◌, ◌≤◌, ◌<◌, length};
ghost use Rattle.words.specs.Turn.{turned};
ghost use Rattle.joins.specs.Rows.{Unjoined, Wrote};
ghost use Rattle.joining.specs.Joins.{row_of};
ghost use Rattle.greedy.specs.Layout.{order_for};
ghost use Rattle.parts.specs.Parts.{Short};

use joining::{end_from, make_join, mirror_of, write_order};
use lists::{MOST_CODE_BANDS, MOST_FACES};
use parts::Parts;
use sorting::Sorted;

// The faces of codes, sorted, and the joins made so far: at each face the face after it, a row of fixed memory. The sorted faces are
// lent: their row, moved in here, would be on the stack twice.
#[derive(Drop)]
pub(crate) struct Joining<'a> {
    pub(crate) sorted: &'a Sorted<'a>,
    pub(crate) after: [Option<usize>; MOST_FACES],
    pub(crate) ghost short: { Short sorted.now },
}

impl Joining<'_> {
    ghost use Rattle.faces.specs.Joining.{ComesTo, Joined};

    // The join from face a with overlap o, where a ends a piece and some face can follow: of those the lowest.
    fn join_from(&mut self, o: usize, a: usize)
        requires { (a < 2 * length self.old.sorted.now) × ComesTo self.old.sorted.now o a self.old }
        ensures { ComesTo self.old.sorted.now o (a + 1) self.new }
    {
        let next = self.after[a];
        if next.is_some() {
            return;
        }
        let head = mirror_of(end_from(&self.after, self.sorted.parts().len(), mirror_of(a)));
        if let Some(b) = self.lowest_following(a, o, head) {
            make_join(&mut self.after, a, b);
        }
    }

    // All joins with overlap o.
    fn join_faces_at(&mut self, o: usize)
        requires { ComesTo self.old.sorted.now o 0 self.old }
        ensures { ComesTo self.old.sorted.now o (2 * length self.old.sorted.now) self.new }
    {
        for a in 0..2 * self.sorted.parts().len() {
            self.join_from(o, a);
        }
    }

    // The whole pass, from a row with no joins. No face has more than 64 bands.
    fn run_pass(&mut self)
        requires { Unjoined (length self.old.sorted.now) (row_of self.old.after) }
        ensures { Joined self.old.sorted.now self.new }
    {
        for o in (0..MOST_CODE_BANDS + 1).rev() {
            self.join_faces_at(o);
        }
    }
}

// The order that joining the sorted faces gives, as `order_faces` has it. Not inlined, as `Sorted::of` isn't: then the row of joins
// stands on the stack where sorting had its own.
#[inline(never)]
fn order_sorted(sorted: &Sorted<'_>, order: &mut [usize]) -> usize
    requires { Short sorted.now × (256 ≤ length order.old) }
    ensures order { Wrote (order_for turned sorted.now) order.old order.new result }
    ensures few { result ≤ 256 }
{
    let n = sorted.parts().len();
    let mut joining = Joining {
        sorted,
        after: [None; MOST_FACES],
    };
    joining.run_pass();
    write_order(&joining.after, n, order)
}

// The order of the parts' faces that joining gives, written at the beginning of order. How many faces it has, and not a slice of
// them: without a heap the row is lent, and the clause speaks of all of it, what is behind the order too. A slice: a row of just 256
// would ask more of those who have longer ones.
pub fn order_faces(parts: &Parts<'_>, order: &mut [usize]) -> usize
    requires { Short parts.now × (256 ≤ length order.old) }
    ensures order { Wrote (order_for turned parts.now) order.old order.new result }
    ensures few { result ≤ 256 }
{
    order_sorted(&Sorted::of(parts), order)
}
