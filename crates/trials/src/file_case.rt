// A case of an order list: reading it, and what the ribbon program and the sheet program write.
use cases::FileRooms;
use outcomes::{MOST_BYTES, MOST_NUMBERS, lend, lent_row, say_answer, say_items, tell};
use std::fmt;
use telling::Tally;

// The file read into four lent buffers.
fn tell_read(t: &mut Tally<impl Print>, file: &[u8], rooms: FileRooms) -> fmt::Result {
    // no heap: rows of a fixed size, as callers lend them
    let mut all_bands = [0u8; MOST_BYTES];
    let mut all_lengths = [0u16; MOST_NUMBERS];
    let mut all_names = [0u8; MOST_BYTES];
    let mut all_sizes = [0u16; MOST_NUMBERS];
    let bands = lend(&mut all_bands, rooms.bands);
    let lengths = lend(&mut all_lengths, rooms.lengths);
    let names = lend(&mut all_names, rooms.names);
    let sizes = lend(&mut all_sizes, rooms.sizes);
    let read = ribbons::read_orders(file, bands, lengths, names, sizes);
    say_answer(t, "read", read)?;
    // no `due`: a read fills four buffers
    let orders = read.unwrap_or_default();
    tell(t, "bands", bands, orders.bands as usize)?;
    tell(t, "lengths", lengths, orders.codes as usize)?;
    tell(t, "names", names, orders.names as usize)?;
    tell(t, "sizes", sizes, orders.codes as usize)
}

// The ribbon program's output. Each program has a function: a closure over an array of any length gets no proof.
fn tell_ribbon_output(t: &mut Tally<impl Print>, file: &[u8]) -> fmt::Result {
    let mut out = lent_row();
    let n = ribbons::ribbon_output(file, &mut out);
    tell(t, "ribbon_output", &out, n)
}

// The sheet program's.
fn tell_sheet_output(t: &mut Tally<impl Print>, file: &[u8]) -> fmt::Result {
    let mut out = lent_row();
    let n = ribbons::sheet_output(file, &mut out);
    tell(t, "sheet_output", &out, n)
}

// Runs the next case and tells it.
pub fn run_file(t: &mut Tally<impl Print>, file: &[u8], rooms: FileRooms) -> fmt::Result {
    t.begin_case("file")?;
    say_items(t, "file", file)?;
    tell_read(t, file, rooms)?;
    tell_ribbon_output(t, file)?;
    tell_sheet_output(t, file)
}
