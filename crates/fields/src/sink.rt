// Where texts go, one behind the other: a row that they are written on, or a counter that only tells how long they are.
ghost use Rattle.fields.specs.Sinks.{Kind, Fits, Puts, SinkLaws};

// Not fmt::Write: it promises nothing of a write that fails, and names are bytes, not str.
pub trait Sink {
    ghost kind: { Kind Self };

    ghost laws: { SinkLaws kind };

    // A text is put behind those before it.
    fn put(&mut self, text: &[u8])
        requires { Fits kind self.old text.now }
        ensures { Puts kind self.old text.now self.new };
}
