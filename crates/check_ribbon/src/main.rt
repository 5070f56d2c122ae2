// The check program: reads the order list that its first argument names, then the ribbon file that its second names, and
// writes what the check of that ribbon finds, or a refusal.
#![tactic(auto)]

use ribbons::{MOST_FILE_BYTES, MOST_LINE_BYTES, MOST_SUPPLIED_BANDS};

// one byte more shows that a file is too long: said in each program, since `files` knows no limits and no call needs the room
const LIST_ROOM: usize = MOST_FILE_BYTES + 1;

// and one more than CR LF, which is no part of the ribbon
const RIBBON_ROOM: usize = MOST_SUPPLIED_BANDS + 3;

fn main(rt: HostRuntime) {
    // three rows of a fixed size, each as long as it can be of use: there is no heap
    let mut list = [0u8; LIST_ROOM];
    let n = files::read_named(&rt, 1, &mut list);
    let mut ribbon = [0u8; RIBBON_ROOM];
    let m = files::read_named(&rt, 2, &mut ribbon);
    let mut out = [0u8; MOST_LINE_BYTES];
    let k = ribbons::check_output(&list[..n], &ribbon[..m], &mut out);
    // a failed write is passed over: ./run says where nothing came out
    let _ = rt.write_all(&out[..k]);
}
