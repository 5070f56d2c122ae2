// The trials: reads a file of cases from standard input, runs each through the public calls, and writes a line for each group
// with a count and a checksum over all that the calls did. The argument `first` has the texts of each group's first case
// printed too, `all` those of all cases.
#![tactic(auto)]

mod case_lines; // cases written out
mod file_case;
mod groups; // the file of cases, line by line
mod list_case;
mod made_case; // a generated case
mod pair_case;
mod shown; // the texts that are printed

use groups::run_lines;
use shown::Shown;
use std::rt::Env;

// the most bytes of a file of cases
const ROOM: usize = 131072;

// more than the longest word that is asked with
const ARGUMENT: usize = 4096;

// What the first argument asks for. One that is longer than the row leaves its first bytes there, and they tell as much.
fn asked(rt: &HostRuntime) -> Option<Shown> {
    // no heap: a row of a fixed size
    let mut argument = [0u8; ARGUMENT];
    let _ = rt.arg(1, &mut argument);
    Shown::asked(&argument)
}

fn main(rt: HostRuntime) {
    // no heap: a row of a fixed size
    let mut file = [0u8; ROOM];
    let n = files::read_whole(&mut rt.stdin(), &mut file);
    // a failed write is passed over: the checksums tell of the calls all the same
    let _ = rt.write_all(b"group,cases,checksum\n");
    let _ = run_lines(&rt, &file[..n], asked(&rt));
}
