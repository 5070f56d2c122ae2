// What the fields of a line stand for: bytes, and numbers. Each character stands for something, so that each line is a case.

use arrayvec::ArrayVec;
use std::iter;

// What the next character of a bytes field is.
#[derive(Clone, Copy)]
enum Next {
    // A byte, or the beginning of more that is said of one.
    Plain,
    // A digit behind those of this number, or the end of it: how often the next byte stands.
    Count(usize),
    // What stands behind a backslash.
    Escape,
    // The second digit of a byte.
    LowDigit(u8),
}

// A bytes field in the reading: what is next, and how often the next byte stands.
#[derive(Drop)]
struct Reading {
    next: Next,
    times: usize,
}

// A number with one digit more; its last ten digits are kept.
fn with_digit(n: usize, b: u8) -> usize {
    n % 1_000_000_000 * 10 + usize::from(b % 16)
}

// The number that digits stand for.
fn number(digits: &[u8]) -> usize {
    digits.iter().fold(0, |n, b| with_digit(n, *b))
}

// The value of a hexadecimal digit, 0-9A-F.
fn hexadecimal(b: u8) -> u8 {
    if b < b'A' { b % 16 } else { b % 16 + 9 }
}

impl Reading {
    // More has to be read.
    fn wait(&mut self, next: Next) -> Option<u8> {
        self.next = next;
        None
    }

    // A byte is whole.
    fn whole(&mut self, byte: u8) -> Option<u8> {
        self.next = Next::Plain;
        Some(byte)
    }

    fn plain(&mut self, b: u8) -> Option<u8> {
        match b {
            b'{' => self.wait(Next::Count(0)),
            b'\\' => self.wait(Next::Escape),
            _ => self.whole(b),
        }
    }

    fn count(&mut self, n: usize, b: u8) -> Option<u8> {
        if b == b'}' {
            self.times = n;
            return self.wait(Next::Plain);
        }
        self.wait(Next::Count(with_digit(n, b)))
    }

    fn escape(&mut self, b: u8) -> Option<u8> {
        match b {
            b'r' => self.whole(b'\r'),
            b'n' => self.whole(b'\n'),
            b's' => self.whole(b' '),
            _ => self.wait(Next::LowDigit(hexadecimal(b))),
        }
    }

    // One character more; the byte that is whole with it.
    fn read(&mut self, b: u8) -> Option<u8> {
        match self.next {
            Next::Plain => self.plain(b),
            Next::Count(n) => self.count(n, b),
            Next::Escape => self.escape(b),
            Next::LowDigit(high) => self.whole(high % 16 * 16 + hexadecimal(b) % 16),
        }
    }
}

// The bytes that a field stands for, as many as there is room for.
pub fn read_bytes<const N: usize>(field: &[u8]) -> ArrayVec<u8, N> {
    let mut row = ArrayVec::new();
    let mut reading = Reading {
        next: Next::Plain,
        times: 1,
    };
    for b in field {
        if let Some(byte) = reading.read(*b) {
            let _ = row.extend(iter::repeat_n(byte, reading.times));
            reading.times = 1;
        }
    }
    row
}

// The one number that a field is; the last where it has more.
pub fn read_number(field: &[u8]) -> usize {
    field
        .rsplit(|b| *b == b',' || *b == b'x')
        .next()
        .map_or(0, number)
}

// The numbers that a field stands for, as many as there is room for.
pub fn read_numbers<const N: usize>(field: &[u8]) -> ArrayVec<u16, N> {
    let mut row = ArrayVec::new();
    // an empty field has no number
    if field.is_empty() {
        return row;
    }
    for part in field.split(|b| *b == b',') {
        let mut pieces = part.rsplit(|b| *b == b'x');
        let value = pieces.next().map_or(0, number);
        let times = pieces.next().map_or(1, number);
        let _ = row.extend(iter::repeat_n((value % 65536) as u16, times));
    }
    row
}
