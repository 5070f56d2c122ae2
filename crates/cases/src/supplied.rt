// The supplied ribbon of a generated case.
ghost use Rattle.std.specs.Prelude.{◌≡◌, ◌+◌, ◌≤◌, length};
ghost use Rattle.arrayvec.specs.ArrayVec.{array_vec_len};

use crate::draws::Draws;
use arrayvec::ArrayVec;
use lists::MOST_BANDS;

// a computed ribbon, and one band more
pub const ROOM: usize = MOST_BANDS + 1;

// What becomes of a computed ribbon.
#[derive(Clone, Copy)]
enum Change {
    Kept,
    OneShort,
    OneWrong,
    OneMore,
    Turned,
}

// By draws out of six.
const CHANGES: [Change; 6] = [
    Change::Kept,
    Change::Kept,
    Change::OneShort,
    Change::OneWrong,
    Change::OneMore,
    Change::Turned,
];

// One band becomes another.
fn spoil(ribbon: &mut [u8], draws: &mut Draws)
    ensures { length ribbon.new ≡ length ribbon.old }
{
    if ribbon.is_empty() {
        return;
    }
    let at = draws.below(ribbon.len());
    ribbon[at] = b'Z';
}

// A computed ribbon is supplied as it is, or changed: by one band at most it is longer or shorter.
pub fn supply(computed: &[u8], draws: &mut Draws) -> ArrayVec<u8, ROOM>
    ensures most { array_vec_len result ≤ length computed.now + 1 }
    ensures least { length computed.now ≤ 8192 → length computed.now ≤ array_vec_len result + 1 }
{
    let mut ribbon = ArrayVec::new();
    let _ = ribbon.try_extend_from_slice(computed);
    match CHANGES[draws.below(6)] {
        Change::Kept => {}
        Change::OneShort => {
            let _ = ribbon.pop();
        }
        Change::OneWrong => spoil(ribbon.as_mut_slice(), draws),
        Change::OneMore => {
            let _ = ribbon.try_push(b'A');
        }
        Change::Turned => ribbon.as_mut_slice().reverse(),
    }
    ribbon
}
