// A row that texts are written on.
ghost use Rattle.std.specs.Prelude.{◌≡◌};
ghost use Rattle.fields.specs.Filled.{begun, writing};
ghost use Rattle.fields.specs.Writing.{writing_laws};

use crate::sink::Sink;

// The lent row, and the place behind the texts on it: a lent row is filled from its beginning, since there is no heap.
#[derive(Drop)]
pub struct Writer<'a> {
    pub out: &'a mut [u8],
    pub mark: usize,
}

impl<'a> Writer<'a> {
    // A writer that has written nothing.
    pub fn new(out: &'a mut [u8]) -> Writer<'a>
        ensures { result ≡ begun out.entry }
    {
        Writer { out, mark: 0 }
    }
}

impl<'a> Sink for Writer<'a> {
    ghost kind = { writing };

    ghost laws = { writing_laws };

    fn put(&mut self, text: &[u8]) {
        self.mark = matching::put_word(text, &mut *self.out, self.mark);
    }
}
