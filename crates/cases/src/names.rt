// The names of a generated list.
ghost use Rattle.std.specs.Prelude.{◌≡◌, ◌*◌, ◌≤◌, length, min};

use crate::draws::Draws;
use crate::word_list::Words;
use arrayvec::ArrayVec;
use lists::{MOST_CODES, MOST_NAME_BYTES, MOST_NAME_SIZE};

// The bytes of a name; there is room for the longest.
type Name = ArrayVec<u8, MOST_NAME_SIZE>;

pub type Names = Words<MOST_NAME_BYTES>;

// What a name has behind its letters.
fn marks(draw: usize) -> &'static [u8]
    ensures { length result.now ≤ 22 }
{
    match draw % 8 {
        0 => b",",
        1 => b"\"",
        2 => &[b'"'; 22],
        _ => b"",
    }
}

// The name of code i: the two letters of its number, and marks.
fn name(i: usize, draws: &mut Draws) -> Name {
    // each is below 26
    let letters = [b'a' + (i / 26 % 26) as u8, b'a' + (i % 26) as u8];
    let mut name = Name::new();
    let _ = name.try_extend_from_slice(&letters);
    let _ = name.try_extend_from_slice(marks(draws.next()));
    name
}

// The names of so many codes, of as many as a list has at most.
pub fn draw_names(count: usize, draws: &mut Draws) -> Names
    ensures each { length result.sizes.items ≡ min count 128 }
    ensures short { length result.bytes.items ≤ 24 * length result.sizes.items }
{
    let mut names = Names::new();
    // no chain: each name goes into two rows
    for i in 0..count.min(MOST_CODES) {
        names.push(name(i, draws).as_slice());
    }
    names
}
