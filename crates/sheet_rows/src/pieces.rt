// What a row shows of where a code stands, and the pieces of rows.
ghost use Rattle.fields.specs.Sinks.{Fits, Puts};
ghost use Rattle.sheets.specs.Sheet.{row_text, sheet_heading};
ghost use Rattle.sheet_rows.specs.Placed.{way_text, places_text};

use fields::{Sink, put_decimal};
use places::Way;

// What a row shows of where a code stands: its way with the start, and the number of places.
#[derive(Clone, Copy)]
pub struct Shown {
    pub way: Way,
    pub places: u32,
}

// The heading row is put into a sink.
pub fn put_heading<S: Sink>(sink: &mut S)
    requires { Fits S.kind sink.old (row_text sheet_heading) }
    ensures { Puts S.kind sink.old (row_text sheet_heading) sink.new }
{
    sink.put(b"name,way,start,bands,places\r\n");
}

// A way between its two commas is put into a sink. No Display: it promises its text only of a write that succeeds.
pub(crate) fn put_way_field<S: Sink>(way: Way, sink: &mut S)
    requires { Fits S.kind sink.old (way_text way) }
    ensures { Puts S.kind sink.old (way_text way) sink.new }
{
    match way {
        Way::Given(_) => sink.put(b",given,"),
        Way::Turned(_) => sink.put(b",turned,"),
        Way::Either(_) => sink.put(b",either,"),
    }
}

// The number of places between its comma and CR LF is put into a sink.
pub(crate) fn put_places<S: Sink>(places: u32, sink: &mut S)
    requires { Fits S.kind sink.old (places_text places) }
    ensures { Puts S.kind sink.old (places_text places) sink.new }
{
    sink.put(b",");
    put_decimal(places, sink);
    sink.put(b"\r\n");
}
