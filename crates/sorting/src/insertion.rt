// Faces put in their places, one after the other. `sort_unstable_by` asks for a comparison that may be called with any two
// numbers, and only faces can be compared. Pairs of a face and its form would be compared with no codes at hand, and would
// take four times the fixed memory.
ghost use Rattle.std.specs.Prelude.{◌+◌, ◌*◌, ◌≤◌, ◌<◌, length};
ghost use Rattle.sorting.specs.Sorted.{SortedBelow, Inserted};

use crate::ranges::Risen;
use parts::Parts;
use std::cmp::Ordering;

// f goes to place p, and the later ones of the first m move up by one.
fn insert(sorted: &mut [usize], p: usize, m: usize, f: usize)
    requires { (p ≤ m) × (m < length sorted.old) }
    ensures { Inserted sorted.old p m f sorted.new }
{
    sorted.copy_within(p..m, p + 1);
    sorted[p] = f;
}

// Face f goes in before the first sorted face that is not before it.
pub(crate) fn sort_in(parts: &Parts<'_>, f: usize, sorted: &mut [usize])
    requires { (f < 2 * length parts.now) × (f < length sorted.old) × SortedBelow parts.now f sorted.old }
    ensures { SortedBelow parts.now (f + 1) sorted.new }
{
    let below = Risen {
        parts,
        faces: &sorted[..f],
    };
    let p = below.first_place(parts.face(f), Ordering::Equal);
    insert(sorted, p, f, f);
}
