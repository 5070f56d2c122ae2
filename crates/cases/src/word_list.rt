// Words side by side in a row of bytes, with the size of each: the codes of a generated list, or their names.
ghost use Rattle.std.specs.Prelude.{◌≡◌, ◌+◌, ◌<◌, ◌≤◌, ◌++◌, ◌∷◌, [], length};
ghost use Rattle.lists.specs.Runs.{total};

use arrayvec::ArrayVec;
use lists::{MOST_CODES, Run};

// Apart, since the calls take plain slices.
#[derive(Drop)]
pub struct Words<const N: usize> {
    bytes: ArrayVec<u8, N>,
    sizes: ArrayVec<u16, MOST_CODES>,
    ghost whole: { total sizes.items ≡ length bytes.items },
}

impl<const N: usize> Words<N> {
    // None yet.
    pub(crate) fn new() -> Self
        ensures { (result.bytes.items ≡ []) × (result.sizes.items ≡ []) }
    {
        Words {
            bytes: ArrayVec::new(),
            sizes: ArrayVec::new(),
        }
    }

    // One word more; there is room for all that are due.
    pub(crate) fn push(&mut self, word: &[u8])
        requires room { length self.old.bytes.items + length word.now ≤ N }
        requires few { length self.old.sizes.items < 128 }
        requires short { length word.now ≤ 64 }
        ensures bytes { self.new.bytes.items ≡ self.old.bytes.items ++ word.now }
        ensures sizes { self.new.sizes.items ≡ self.old.sizes.items ++ length word.now ∷ [] }
    {
        self.sizes.push(word.len() as u16); // a word has at most 64
        let _ = self.bytes.try_extend_from_slice(word);
    }

    pub fn count(&self) -> usize
        ensures { result ≡ length self.now.sizes.items }
    {
        self.sizes.len()
    }

    pub fn bytes(&self) -> &[u8]
        ensures { result.now ≡ self.now.bytes.items }
    {
        self.bytes.as_slice()
    }

    pub fn sizes(&self) -> &[u16]
        ensures { result.now ≡ self.now.sizes.items }
    {
        self.sizes.as_slice()
    }

    // Word j; empty where there is no such word. No Option: it is asked for a word that stands, and could hand nothing on.
    pub(crate) fn word(&self, j: usize) -> &[u8] {
        Run::new(self.bytes(), self.sizes()).nth(j).unwrap_or(&[])
    }
}
