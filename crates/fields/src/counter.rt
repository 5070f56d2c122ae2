// A counter of bytes.
ghost use Rattle.fields.specs.Counted.{counting};
ghost use Rattle.fields.specs.Counting.{counting_laws};

use crate::sink::Sink;

// How long the texts are together.
#[derive(Clone, Copy)]
pub struct Counter {
    pub size: usize,
}

impl Sink for Counter {
    ghost kind = { counting };

    ghost laws = { counting_laws };

    fn put(&mut self, text: &[u8]) {
        self.size += text.len();
    }
}
