// The lowest face that can come after a face with so many bands shared, found among the sorted faces.
ghost use Rattle.std.specs.Prelude.{◌≡◌, ℕ, ◌*◌, ◌<◌, length, get_or};
ghost use Rattle.joins.specs.Rows.{Row};
ghost use Rattle.joining.specs.Joins.{row_of};

use crate::pass::Joining;
use joining::mirror_of;
use lists::MOST_FACES;

// What may come after a face, whatever its bands.
#[derive(Clone, Copy)]
struct Followers<'a> {
    after: &'a [Option<usize>; MOST_FACES],
    // the first face of the face's own piece
    head: usize,
    // the face's mirror
    other: usize,
}

impl Followers<'_> {
    ghost use Rattle.faces.specs.Passing.{Takes, takes_lem, Lower, LowestAmong};

    // b is one of them.
    fn has(self, b: usize) -> bool
        requires { b < 256 }
        ensures { result ≡ takes_lem self.entry b }
    {
        b != self.head && b != self.other && self.after[mirror_of(b)].is_none()
    }

    // b where it is below `best` and may follow, else `best`. Not by `min`: among Options none is the least.
    fn lower(self, b: usize, best: Option<usize>) -> Option<usize>
        requires { b < 256 }
        ensures { Lower (Takes self.entry) b best result }
    {
        match best {
            Some(lowest) if lowest <= b => best,
            _ if self.has(b) => Some(b),
            _ => best,
        }
    }

    // The lowest of some faces that may follow.
    fn lowest_among(self, faces: &[usize]) -> Option<usize>
        requires { (i : ℕ) → i < length faces.now → get_or faces.now i 0 < 256 }
        ensures { LowestAmong (Takes self.entry) faces.now result }
    {
        // Not by `filter` and `min`: tried, and that the test may be called at each turn, with a face, stays unproved.
        let mut best = None;
        for b in faces {
            best = self.lower(*b, best);
        }
        best
    }
}

impl Joining<'_> {
    ghost use Rattle.faces.specs.Passing.{LowestFollows};

    // The lowest face that can come after a with o bands shared: of those that begin with a's last o bands.
    pub(crate) fn lowest_following(&self, a: usize, o: usize, head: usize) -> Option<usize>
        requires { Row (length self.now.sorted.now) (row_of self.now.after) × (a < 2 * length self.now.sorted.now) }
        ensures { LowestFollows self.now.sorted.now (row_of self.now.after) a o head result }
    {
        let face = self.sorted.parts().face(a);
        if face.len() < o {
            return None;
        }
        let followers = Followers {
            after: &self.after,
            head,
            other: mirror_of(a),
        };
        followers.lowest_among(self.sorted.beginning_with(face.last(o)))
    }
}
