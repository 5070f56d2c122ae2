// The cases that stand written out in the file of cases, a line each.
use crate::file_case::run_file;
use crate::list_case::ListCase;
use crate::pair_case::run_pair;
use cases::{FileRooms, Line, ListRooms};
use outcomes::{MOST_BYTES, MOST_NUMBERS};
use std::fmt;
use telling::Tally;

// The case of a line `file FILE ROOMS`.
pub fn file_line(t: &mut Tally<impl Print>, line: Line) -> fmt::Result {
    let file = line.bytes::<MOST_BYTES>(1);
    let rooms = line.numbers::<MOST_NUMBERS>(2);
    run_file(t, file.as_slice(), FileRooms::from(rooms.as_slice()))
}

// The case of a line `list BANDS LENGTHS NAMES SIZES RIBBON ROOMS`.
pub fn list_line(t: &mut Tally<impl Print>, line: Line) -> fmt::Result {
    let bands = line.bytes::<MOST_BYTES>(1);
    let lengths = line.numbers::<MOST_NUMBERS>(2);
    let names = line.bytes::<MOST_BYTES>(3);
    let sizes = line.numbers::<MOST_NUMBERS>(4);
    let ribbon = line.bytes::<MOST_BYTES>(5);
    let rooms = line.numbers::<MOST_NUMBERS>(6);
    let case = ListCase {
        bands: bands.as_slice(),
        lengths: lengths.as_slice(),
        names: names.as_slice(),
        sizes: sizes.as_slice(),
        ribbon: ribbon.as_slice(),
        rooms: ListRooms::from(rooms.as_slice()),
    };
    case.run(t)
}

// The case of a line `pair LIST RIBBON`.
pub fn pair_line(t: &mut Tally<impl Print>, line: Line) -> fmt::Result {
    let list = line.bytes::<MOST_BYTES>(1);
    let ribbon = line.bytes::<MOST_BYTES>(2);
    run_pair(t, list.as_slice(), ribbon.as_slice())
}
