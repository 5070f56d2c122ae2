// The line of an answer, as programs write it. Its numbers go by hand into a sink: `Display` promises its text only of a write that
// succeeds.
#![tactic(auto)]

ghost use Rattle.std.specs.Prelude.{◌≤◌, length};
ghost use Rattle.fields.specs.Sinks.{Fits, Puts};
ghost use Rattle.programs.specs.Programs.{signed, WritesOver};
ghost use Rattle.verdicts.specs.Calls.{answer_of};
ghost use Rattle.lines.specs.Lines.{line_of};

use fields::{Sink, Writer, put_decimal};
use lists::Refusal;
use verdicts::Checked;

// No line is longer.
pub const MOST_LINE_BYTES: usize = 32;

// A number is put into a sink in decimal, a `-` before it when below zero. No Display, as above.
fn put_signed<S: Sink>(d: i32, sink: &mut S)
    requires { Fits S.kind sink.old (signed d) }
    ensures { Puts S.kind sink.old (signed d) sink.new }
{
    if d < 0 {
        sink.put(b"-");
    }
    put_decimal(d.unsigned_abs(), sink);
}

// The line of an answer is put into a sink: of a refusal; of a ribbon that holds every code, with how much longer than the computed
// one it is; or of one on which the code of a number has no place.
fn put_line<S: Sink>(answer: Result<Checked, Refusal>, sink: &mut S)
    requires { Fits S.kind sink.old (line_of (answer_of answer)) }
    ensures { Puts S.kind sink.old (line_of (answer_of answer)) sink.new }
{
    match answer {
        Ok(Checked::Held(d)) => {
            sink.put(b"held,");
            put_signed(d, sink);
            sink.put(b"\r\n");
        }
        Ok(Checked::Missing(k)) => {
            sink.put(b"missing,");
            put_decimal(k, sink);
            sink.put(b"\r\n");
        }
        Err(r) => {
            sink.put(b"refused,");
            put_decimal(u32::from(r.number()), sink);
            sink.put(b",");
            put_decimal(r.row, sink);
            sink.put(b"\r\n");
        }
    }
}

// It is written at the beginning of a row that has room for any line; the answer is its length, since a row is lent (no heap).
pub fn write_line(answer: Result<Checked, Refusal>, row: &mut [u8]) -> usize
    requires { 32 ≤ length row.old }
    ensures { WritesOver (line_of (answer_of answer)) row.old row.new result }
{
    let mut line = Writer::new(row);
    put_line(answer, &mut line);
    line.mark
}
