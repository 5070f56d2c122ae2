// The rows of a sheet: each of them put into a sink, and its length.
ghost use Rattle.std.specs.Prelude.{◌+◌, ◌<◌, ◌≤◌, ◌≡◌, length, take};
ghost use Rattle.lists.specs.Runs.{total};
ghost use Rattle.fields.specs.Sinks.{Fits, Puts};
ghost use Rattle.sheet_rows.specs.Placed.{RowsThere};

use crate::pieces::{Shown, put_places, put_way_field};
use fields::{Counter, Sink, put_decimal, put_field};
use fitness::sum_of;
use lists::Run;
use places::Way;

// What the rows of a sheet are made of: the names and the codes' lengths as they are handed over, what is shown of each code,
// and the ribbon.
#[derive(Clone, Copy)]
pub struct Rows<'a> {
    pub names: Run<'a>,
    // A row beside that of what is shown: the lengths stay as they are handed over.
    pub lengths: &'a [u16],
    pub shown: &'a [Shown],
    pub ribbon: &'a [u8],

    // Names, lengths and what is shown are there for each code, and each place lies on the ribbon.
    ghost there: { RowsThere names.bytes.now names.sizes.now lengths.now shown.now ribbon.now },
}

// A row, by its columns.
#[derive(Clone, Copy)]
struct Row<'a> {
    name: &'a [u8],
    way: Way,
    start: u32,
    bands: &'a [u8],
    places: u32,

    ghost short: { (length name.now < 65536) × (length bands.now ≤ 64) },
}

impl Row<'_> {
    ghost use Rattle.sheet_rows.specs.Sheets.{five_columns};

    // The row is put into a sink.
    fn put<S: Sink>(self, sink: &mut S)
        requires { Fits S.kind sink.old (five_columns self) }
        ensures { Puts S.kind sink.old (five_columns self.entry) sink.new }
    {
        put_field(self.name, sink);
        put_way_field(self.way, sink);
        put_decimal(self.start, sink);
        sink.put(b",");
        sink.put(self.bands);
        put_places(self.places, sink);
    }

    // Its length.
    fn size(self) -> usize
        ensures { (result ≡ length (five_columns self.entry)) × (result ≤ 131200) }
    {
        let mut count = Counter { size: 0 };
        self.put(&mut count);
        count.size
    }
}

impl Rows<'_> {
    ghost use Rattle.sheet_rows.specs.Sheets.{five_columns, nth};

    // The row of code i, whose name starts at `from`. The name is cut by its size, no item by `nth`: that a size of 16 bits is read
    // here says that it is short.
    fn row_from(&self, i: usize, from: usize) -> Row<'_>
        requires listed { i < length self.now.lengths.now }
        requires start { from ≡ total (take i self.now.names.sizes.now) }
        ensures row { five_columns result ≡ nth self.now i }
        ensures next { from + length result.name.now ≡ total (take (i + 1) self.now.names.sizes.now) }
        ensures fits { from + length result.name.now < 18446744073709551616 }
    {
        let to = from + usize::from(self.names.sizes[i]);
        let shown = self.shown[i];
        let start = shown.way.start();
        let first = start as usize;
        let end = first + usize::from(self.lengths[i]);
        Row {
            name: &self.names.bytes[from..to],
            way: shown.way,
            start,
            bands: &self.ribbon[first..end],
            places: shown.places,
        }
    }

    // The same; its name starts behind those before it.
    fn row(&self, i: usize) -> Row<'_>
        requires { i < length self.now.lengths.now }
        ensures { five_columns result ≡ nth self.now i }
    {
        let from = sum_of(&self.names.sizes[..i]);
        self.row_from(i, from)
    }

    // The row of code i is put into a sink.
    pub fn put_nth<S: Sink>(&self, i: usize, sink: &mut S)
        requires listed { i < length self.now.lengths.now }
        requires room { Fits S.kind sink.old (nth self.now i) }
        ensures { Puts S.kind sink.old (nth self.now i) sink.new }
    {
        self.row(i).put(sink);
    }

    // The length of the row of code i.
    pub fn nth_size(&self, i: usize) -> usize
        requires { i < length self.now.lengths.now }
        ensures { (result ≡ length (nth self.now i)) × (result ≤ 131200) }
    {
        self.row(i).size()
    }

    // The same of a row whose name starts at `from`, and where the next name starts: who goes from row to row need not add up the
    // sizes before each anew.
    pub fn size_from(&self, i: usize, from: usize) -> (usize, usize)
        requires listed { i < length self.now.lengths.now }
        requires start { from ≡ total (take i self.now.names.sizes.now) }
        ensures size { (result.0 ≡ length (nth self.now i)) × (result.0 ≤ 131200) }
        ensures next { result.1 ≡ total (take (i + 1) self.now.names.sizes.now) }
    {
        let row = self.row_from(i, from);
        (row.size(), from + row.name.len())
    }
}
