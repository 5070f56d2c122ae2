// The heading, and the rows behind it.
ghost use Rattle.std.specs.Prelude.{◌≡◌, ◌≤◌, length};
ghost use Rattle.fields.specs.Sinks.{Fits, Puts};
ghost use Rattle.sheet_rows.specs.Sheets.{all_rows, sheet};
ghost use Rattle.pages.specs.Pages.{PutsSheet};

use fields::{Counter, Sink, Writer};
use sheet_rows::{Rows, put_heading};

// The rows of all codes are put into a sink, one after the other: by number, no zip of names, lengths and what is shown, since the
// theorem on the rows speaks of each by its number, `nth`.
fn put_rows<S: Sink>(rows: &Rows, sink: &mut S)
    requires { Fits S.kind sink.old (all_rows rows.now) }
    ensures { Puts S.kind sink.old (all_rows rows.now) sink.new }
{
    for i in 0..rows.lengths.len() {
        rows.put_nth(i, sink);
    }
}

// The length of the sheet.
pub fn sheet_size(rows: &Rows) -> usize
    ensures { result ≡ length (sheet rows.now) }
{
    let mut heading = Counter { size: 0 };
    put_heading(&mut heading);
    let mut size = heading.size;

    // A count of each row, not one of all rows: that a count fits is known of a row whose numbers were read. By number as above;
    // no sum of a map: by how much it may grow in each turn, so that it fits, is the loop's invariant. The start of the name goes
    // along from row to row: no sum of the sizes before it anew.
    let mut from = 0;
    for code in 0..rows.lengths.len() {
        let (row, next) = rows.size_from(code, from);
        size += row;
        from = next;
    }
    size
}

// The sheet, row after row, into a buffer that has room for it; how many bytes. A count, no slice: the clause speaks of the whole
// buffer.
pub fn put_sheet(rows: &Rows, out: &mut [u8]) -> usize
    requires { length (sheet rows.now) ≤ length out.old }
    ensures { PutsSheet (sheet rows.now) out.old out.new result }
{
    let mut page = Writer::new(out);
    put_heading(&mut page);
    put_rows(rows, &mut page);
    page.mark
}
