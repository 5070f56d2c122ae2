// From a face to the end of its piece. `after` has at each face the face after it, or none where it ends a piece.
ghost use Rattle.std.specs.Prelude.{◌≡◌, ◌*◌, ◌<◌};
ghost use Rattle.joins.specs.Faces.{mirror};
ghost use Rattle.joins.specs.Rows.{Row, EndsAt};
ghost use Rattle.joining.specs.Joins.{row_of};

// The other face of the same code: document 01 gives code k the faces 2k and 2k + 1.
pub fn mirror_of(f: usize) -> usize
    requires { f < 256 }
    ensures { (result ≡ mirror f) × (result < 256) }
{
    if f % 2 == 0 { f + 1 } else { f - 1 }
}

// The last face of the piece that holds f. There are 2n faces, so that no piece has more (a loose bound).
pub fn end_from(after: &[Option<usize>], n: usize, f: usize) -> usize
    requires { Row n (row_of after.now) × (f < 2 * n) }
    ensures { EndsAt n (row_of after.now) f result }
{
    let mut at = f;
    // a walk along the joins: the number limits the turns, and no index counts
    for _passed in 0..2 * n {
        let Some(next) = after[at] else { return at };
        at = next;
    }
    at
}
