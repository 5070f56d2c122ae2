// The items of buffers, and how they are said. Not by Display alone: bytes and records have texts of the trials' own.
ghost use Rattle.std.specs.Prelude.{◌≡◌, ℕ, ◌+◌, ◌%◌};

use std::fmt;
use std::fmt::Write;
use telling::Checksum;

pub trait Item: Copy + PartialEq {
    // What stands between two items that are said.
    const BETWEEN: &'static str;

    ghost marked: { ℕ → Self };

    // What item i of a lent buffer holds before a call.
    fn mark(i: usize) -> Self
        ensures { result ≡ marked i };

    // It is said.
    fn fmt<W: Write>(self, f: &mut fmt::Formatter<W>) -> fmt::Result;

    // It goes into a checksum. u8 and u16 alike: no body here for both, since a record is no one number.
    fn feed(self, sum: &mut Checksum);
}

impl Item for u8 {
    const BETWEEN: &'static str = "";

    ghost marked = { λ i. 97 + i % 26 };

    fn mark(i: usize) -> Self {
        b'a' + (i % 26) as u8 // below 26
    }

    // Plainly: as itself, or behind a `\` by a letter or two digits.
    fn fmt<W: Write>(self, f: &mut fmt::Formatter<W>) -> fmt::Result {
        match self {
            b'\r' => f.write_str("\\r"),
            b'\n' => f.write_str("\\n"),
            32..=126 => f.write_char(char::from(self)),
            _ => write!(f, "\\{self:02X}"),
        }
    }

    fn feed(self, sum: &mut Checksum) {
        sum.feed(u32::from(self));
    }
}

impl Item for u16 {
    const BETWEEN: &'static str = " ";

    ghost marked = { λ i. 1000 + i % 160 };

    fn mark(i: usize) -> Self {
        1000 + (i % 160) as u16 // below 160
    }

    fn fmt<W: Write>(self, f: &mut fmt::Formatter<W>) -> fmt::Result {
        write!(f, "{self}")
    }

    fn feed(self, sum: &mut Checksum) {
        sum.feed(u32::from(self));
    }
}

// Items side by side.
#[derive(Clone, Copy)]
pub struct Listed<'a, T>(pub &'a [T]);

impl<T: Item> fmt::Display for Listed<'_, T> {
    fn fmt<W: Write>(&self, f: &mut fmt::Formatter<W>) -> fmt::Result {
        for (i, item) in self.0.iter().enumerate() {
            if 0 < i {
                f.write_str(T::BETWEEN)?;
            }
            Item::fmt(*item, f)?;
        }
        Ok(())
    }
}
