// A case of an order list and a ribbon file: the part of the file that is the ribbon, and what the check program writes.
use outcomes::{lent_row, say_items, tell};
use std::fmt;
use telling::Tally;

// Runs the next case and tells it.
pub fn run_pair(t: &mut Tally<impl Print>, list: &[u8], ribbon: &[u8]) -> fmt::Result {
    t.begin_case("pair")?;
    say_items(t, "list", list)?;
    say_items(t, "ribbon", ribbon)?;
    say_items(t, "bands", ribbons::ribbon_of(ribbon))?;
    // as in file_case: a closure over an array of any length gets no proof
    let mut out = lent_row();
    let n = ribbons::check_output(list, ribbon, &mut out);
    tell(t, "check_output", &out, n)
}
