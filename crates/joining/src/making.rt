// A join is made with its mirror.
ghost use Rattle.std.specs.Prelude.{◌≡◌, ◌+◌, ◌≤◌, ◌<◌, length, set};
ghost use Rattle.joins.specs.Faces.{mirror};
ghost use Rattle.joining.specs.Joins.{row_of};

use crate::ends::mirror_of;

// The join from a to b and its mirror, from b's mirror to a's mirror.
pub fn make_join(after: &mut [Option<usize>], a: usize, b: usize)
    requires { (a < 256) × (b < 256) × (256 ≤ length after.old) }
    ensures { row_of after.new ≡ set (set (row_of after.old) (mirror b) (mirror a + 1)) a (b + 1) }
{
    let turned = mirror_of(b);
    after[turned] = Some(mirror_of(a));
    after[a] = Some(b);
}
