// A line of the file of cases: fields, one space apart, and what they stand for.
ghost use Rattle.std.specs.Prelude.{◌≡◌};

use crate::fields::{read_bytes, read_number, read_numbers};
use arrayvec::ArrayVec;

#[derive(Clone, Copy)]
pub struct Line<'a> {
    text: &'a [u8],
}

impl<'a> Line<'a> {
    pub fn new(text: &'a [u8]) -> Self
        ensures { result.text.now ≡ text.now }
    {
        Line { text }
    }

    // The field of this number, the kind of the line being field 0; empty where it is `-` alone, or the line has none. No Option:
    // a line that is cut short runs as a case all the same.
    pub fn field(self, k: usize) -> &'a [u8] {
        match self.text.split(|b| *b == b' ').nth(k) {
            None | Some(b"-") => &[],
            Some(field) => field,
        }
    }

    // The bytes that a field stands for.
    pub fn bytes<const N: usize>(self, k: usize) -> ArrayVec<u8, N> {
        read_bytes(self.field(k))
    }

    // The numbers that a field stands for.
    pub fn numbers<const N: usize>(self, k: usize) -> ArrayVec<u16, N> {
        read_numbers(self.field(k))
    }

    // The one number that a field is.
    pub fn number(self, k: usize) -> usize {
        read_number(self.field(k))
    }
}
