// The sheet program: reads an order list from standard input, and writes its sheet or its refusal.
#![tactic(auto)]

use ribbons::{MOST_FILE_BYTES, MOST_SHEET_BYTES};

// one byte more shows that a file is too long: said in each program, since `files` knows no limits and no call needs the room
const ROOM: usize = MOST_FILE_BYTES + 1;

// As in `print_ribbon`: all but the call and its row stands in `files` and in std.
fn main(rt: HostRuntime) {
    // two rows of a fixed size, each as long as it can be of use: there is no heap
    let mut file = [0u8; ROOM];
    let n = files::read_whole(&mut rt.stdin(), &mut file);
    let mut out = [0u8; MOST_SHEET_BYTES];
    let k = ribbons::sheet_output(&file[..n], &mut out);
    // a failed write is passed over: ./run says where nothing came out
    let _ = rt.write_all(&out[..k]);
}
