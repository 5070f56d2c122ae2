// A case of a list that other code hands over: laying it out, checking a supplied ribbon in three ways, and its sheet.
use cases::ListRooms;
use outcomes::{
    MOST_BYTES, MOST_RECORDS, blank_record, lend, say_answer, say_items, tell_filled, tell_since,
};
use std::fmt;
use telling::Tally;

// The list, its names, a supplied ribbon, and the rooms that are lent. No runs of words: a case may hand over a false list.
#[derive(Clone, Copy)]
pub struct ListCase<'a> {
    pub bands: &'a [u8],
    pub lengths: &'a [u16],
    pub names: &'a [u8],
    pub sizes: &'a [u16],
    pub ribbon: &'a [u8],
    pub rooms: ListRooms,
}

impl ListCase<'_> {
    fn say(self, t: &mut Tally<impl Print>) -> fmt::Result {
        say_items(t, "codes", self.bands)?;
        say_items(t, "lengths", self.lengths)?;
        say_items(t, "names", self.names)?;
        say_items(t, "sizes", self.sizes)?;
        say_items(t, "supplied", self.ribbon)
    }

    // The list laid out into a lent buffer.
    fn tell_laid(self, t: &mut Tally<impl Print>) -> fmt::Result {
        // no heap: a row of a fixed size, as callers lend it
        let mut row = [0u8; MOST_BYTES];
        let ribbon = lend(&mut row, self.rooms.ribbon);
        let laid = ribbons::lay_ribbon(self.bands, self.lengths, ribbon);
        tell_filled(t, laid, ribbon, self.lengths.len())
    }

    // The ribbon checked into lent records.
    fn tell_checked(self, t: &mut Tally<impl Print>) -> fmt::Result {
        // no heap: a row of a fixed size, as callers lend it
        let mut row = [blank_record(); MOST_RECORDS];
        let records = lend(&mut row, self.rooms.records);
        let answer = ribbons::check_ribbon(self.bands, self.lengths, self.ribbon, records);
        tell_filled(t, answer, records, self.lengths.len())
    }

    // The ribbon checked for so many records, which are handed back by value.
    fn tell_places(self, t: &mut Tally<impl Print>) -> fmt::Result {
        let room = self.rooms.records.min(MOST_RECORDS);
        let findings = ribbons::check_places(self.bands, self.lengths, self.ribbon, room);
        say_answer(t, "places", findings.answer)?;
        tell_since(
            t,
            "found",
            &findings.records,
            findings.due,
            |_| blank_record(),
        )
    }

    // The sheet written into a lent buffer.
    fn tell_sheet(self, t: &mut Tally<impl Print>) -> fmt::Result {
        // no heap: a row of a fixed size, as callers lend it
        let mut row = [0u8; MOST_BYTES];
        let rows = lend(&mut row, self.rooms.sheet);
        let wrote = ribbons::write_sheet(self.bands, self.lengths, self.names, self.sizes, rows);
        tell_filled(t, wrote, rows, self.lengths.len())
    }

    // Runs the next case and tells it.
    pub fn run(self, t: &mut Tally<impl Print>) -> fmt::Result {
        t.begin_case("list")?;
        self.say(t)?;
        self.tell_laid(t)?;
        self.tell_checked(t)?;
        self.tell_places(t)?;
        let checked = ribbons::check_only(self.bands, self.lengths, self.ribbon);
        say_answer(t, "only", checked)?;
        self.tell_sheet(t)
    }
}
