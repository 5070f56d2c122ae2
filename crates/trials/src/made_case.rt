// A generated case: its list, its names, its ribbon and its rooms made, and run.
use crate::list_case::ListCase;
use cases::{Codes, Draws, Family, ListRooms, Names, draw_codes, draw_names, supply};
use outcomes::due;
use ribbons::{MOST_BANDS, MOST_SHEET_BYTES, lay_ribbon, write_sheet};
use std::fmt;
use telling::Tally;

// The ribbon of a list, laid into a row; no band where it is refused, which the case itself tells.
fn computed<'a>(codes: &Codes, row: &'a mut [u8]) -> &'a [u8] {
    let laid = lay_ribbon(codes.bytes(), codes.sizes(), row);
    row.get(..due(laid, codes.count())).unwrap_or(&[])
}

// The length of the sheet of a list with names, or 0 where it is refused, which the case itself tells.
fn sheet_length(codes: &Codes, names: &Names) -> usize {
    // no heap: a row of a fixed size, as callers lend it
    let mut sheet = [0u8; MOST_SHEET_BYTES];
    let wrote = write_sheet(
        codes.bytes(),
        codes.sizes(),
        names.bytes(),
        names.sizes(),
        &mut sheet,
    );
    due(wrote, codes.count())
}

// Runs case i of a line of a family, and tells it.
pub fn run_made(
    t: &mut Tally<impl Print>,
    family: Family,
    i: usize,
    draws: &mut Draws,
) -> fmt::Result {
    let codes = draw_codes(family, i, draws);
    let names = draw_names(codes.count(), draws);
    // no heap: a row of a fixed size, as callers lend it
    let mut row = [0u8; MOST_BANDS];
    let ribbon = computed(&codes, &mut row);
    let supplied = supply(ribbon, draws);
    let rooms = ListRooms::draw(
        ribbon.len(),
        codes.count(),
        sheet_length(&codes, &names),
        draws,
    );
    let case = ListCase {
        bands: codes.bytes(),
        lengths: codes.sizes(),
        names: names.bytes(),
        sizes: names.sizes(),
        ribbon: supplied.as_slice(),
        rooms,
    };
    case.run(t)
}
