// Dropping: a code that another holds is left out.
ghost use Rattle.std.specs.Prelude.{◌≡◌, ◌<◌, length};
ghost use Rattle.words.specs.Turn.{turned};
ghost use Rattle.words.specs.Stand.{some_way};
ghost use Rattle.greedy.specs.Dropping as d;

use crate::cuts::Parts;

impl<'a> Parts<'a> {
    // Code j is longer than code i, or equally long with a lower number; and code i stands in it one way or the other.
    fn held_by(&self, i: usize, j: usize) -> bool
        requires { (i < length self.now) × (j < length self.now) }
        ensures { result ≡ d.held_by_lem (some_way turned) self.now i j }
    {
        let c = self.code(i);
        let s = self.code(j);
        (c.len(), j) < (s.len(), i) && matching::stands(c, s)
    }

    // Code i is held by some code.
    fn is_dropped(&self, i: usize) -> bool
        requires { i < length self.now }
        ensures { result ≡ d.is_dropped_lem (some_way turned) self.now i }
    {
        (0..self.len()).any(|j| self.held_by(i, j))
    }

    // The codes that are kept, in list order.
    #[inline(never)]
    pub fn kept(&self) -> Parts<'a>
        ensures { result ≡ d.kept turned self.now }
    {
        let mut kept = Parts::none();
        // a `for`: with nothing to collect into, a chain by `filter` would end in this push all the same
        for (i, code) in self.codes().iter().enumerate() {
            if !self.is_dropped(i) {
                kept.push(code);
            }
        }
        kept
    }
}
