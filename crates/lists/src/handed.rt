// Lists of words as calls hand them over.
ghost use Rattle.std.specs.Prelude.{◌≤◌, length};
ghost use Rattle.lists.specs.Runs.{total};

// Words in one run of bytes, with a length for each, as C hands them over. It gives one word after the other.
#[derive(Clone, Copy)]
pub struct Run<'a> {
    pub bytes: &'a [u8],
    pub sizes: &'a [u16],
    pub ghost in_run: { total sizes.now ≤ length bytes.now },
}

impl<'a> Run<'a> {
    ghost use Rattle.std.specs.Prelude.{◌≡◌};

    pub fn new(bytes: &'a [u8], sizes: &'a [u16]) -> Self
        requires { total sizes.now ≤ length bytes.now }
        ensures { (result.bytes.now ≡ bytes.now) × (result.sizes.now ≡ sizes.now) }
    {
        Run { bytes, sizes }
    }
}

impl<'a> Iterator for Run<'a> {
    ghost use Rattle.std.specs.Iterator.{YieldsFirstRef, item_count};
    ghost use Rattle.lists.specs.Handed.{words_of};

    type Item = &'a [u8];

    ghost next_gives = { YieldsFirstRef words_of };

    ghost remaining = { item_count words_of };

    fn next(&mut self) -> Option<&'a [u8]> {
        let (size, sizes) = self.sizes.split_first()?;
        let (word, bytes) = self.bytes.split_at(usize::from(*size));
        *self = Run { bytes, sizes };
        Some(word)
    }
}
