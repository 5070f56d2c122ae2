// Names as fields of a row: quoted only if they hold a comma or a quote, each quote inside doubled.
ghost use Rattle.std.specs.Prelude.{◌≡◌, [], ◌∷◌};
ghost use Rattle.grammar.specs.Quoting.{needs_quotes_lem, doubled_quotes, field_text};
ghost use Rattle.fields.specs.Sinks.{Fits, Puts};

use crate::sink::Sink;

// The name holds a comma or a quote.
fn needs_quotes(name: &[u8]) -> bool
    ensures { result ≡ needs_quotes_lem name.now }
{
    name.iter().any(|b| *b == b',' || *b == b'"')
}

// A byte of a quoted name is put into a sink, a quote twice.
fn put_byte<S: Sink>(b: u8, sink: &mut S)
    requires { Fits S.kind sink.old (doubled_quotes (b ∷ [])) }
    ensures { Puts S.kind sink.old (doubled_quotes (b ∷ [])) sink.new }
{
    if b == b'"' {
        sink.put(b"\"\"");
        return;
    }
    sink.put(&[b]);
}

// A name with its quotes doubled is put into a sink.
fn put_doubled<S: Sink>(name: &[u8], sink: &mut S)
    requires { Fits S.kind sink.old (doubled_quotes name.now) }
    ensures { Puts S.kind sink.old (doubled_quotes name.now) sink.new }
{
    for b in name {
        put_byte(*b, sink);
    }
}

// A name is put into a sink as a field.
pub fn put_field<S: Sink>(name: &[u8], sink: &mut S)
    requires { Fits S.kind sink.old (field_text name.now) }
    ensures { Puts S.kind sink.old (field_text name.now) sink.new }
{
    if !needs_quotes(name) {
        sink.put(name);
        return;
    }
    sink.put(b"\"");
    put_doubled(name, sink);
    sink.put(b"\"");
}
