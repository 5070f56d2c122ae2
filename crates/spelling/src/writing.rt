// The ribbon of an order of faces, whatever the order: its length, what it saves, and its bands.
ghost use Rattle.std.specs.Prelude.{◌≡◌, ◌<◌, ◌≤◌, length};
ghost use Rattle.words.specs.Turn.{turned};
ghost use Rattle.lists.specs.Runs.{over};
ghost use Rattle.greedy.specs.Reading.{skip_at_lem, read_piece};
ghost use Rattle.spelling.specs.Ribbons.{InOrder, Measured, Skips};

use parts::Parts;

// A ribbon's length and what it saves. N is the type of both.
#[derive(Clone, Copy)]
pub struct Sums<N> {
    pub bands: N,
    pub saved: N,
}

// An order of faces of some codes.
#[derive(Clone, Copy)]
pub struct Order<'a> {
    pub parts: &'a Parts<'a>,
    pub faces: &'a [usize],
    pub ghost in_order: { InOrder parts.now faces.now },
}

impl Order<'_> {
    // What face number i shares with the one before it; nothing for the first.
    fn skip_at(&self, i: usize) -> usize
        requires { i < length self.now.faces.now }
        ensures { result ≡ skip_at_lem turned self.now.parts.now self.now.faces.now i }
    {
        if i == 0 {
            return 0;
        }
        let before = self.parts.face(self.faces[i - 1]);
        matching::overlap(before, self.parts.face(self.faces[i]))
    }

    // The sums along the order: what each face adds, and what it shares, which goes into a row of its own.
    pub fn measure(&self, skips: &mut [usize]) -> Sums<usize>
        requires { length self.now.faces.now ≤ length skips.old }
        ensures { Measured self.now.parts.now self.now.faces.now skips.old skips.new result.bands result.saved }
    {
        // by number, which `skip_at` asks for: the walk is along the faces, and the row beside them is filled by the same number
        let mut bands = 0;
        let mut saved = 0;
        for (i, f) in self.faces.iter().enumerate() {
            let o = self.skip_at(i);
            skips[i] = o;
            bands += self.parts.face(*f).len() - o;
            saved += o;
        }
        Sums { bands, saved }
    }

    // The ribbon at the beginning of a row that has room for it.
    pub fn write_bands(&self, skips: &[usize], ribbon: &mut [u8])
        requires skips { Skips self.now.parts.now self.now.faces.now skips.now }
        requires room { length (read_piece turned self.now.parts.now self.now.faces.now) ≤ length ribbon.old }
        ensures { ribbon.new ≡ over (read_piece turned self.now.parts.now self.now.faces.now) ribbon.old }
    {
        let mut at = 0;
        for (f, skip) in self.faces.iter().zip(skips) {
            at = matching::put_way(self.parts.face(*f), *skip, ribbon, at);
        }
    }
}
