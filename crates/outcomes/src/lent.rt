// Buffers: their lines, and what those that are lent hold before a call and what is told of them after it.
ghost use Rattle.std.specs.Prelude.{◌≡◌, ℕ, ◌<◌, ◌+◌, ◌%◌, length, min, slice_index_or};

use crate::items::{Item, Listed};
use std::fmt;
use std::fmt::Write;
use telling::Tally;

// the most that a case lends
pub const MOST_BYTES: usize = 17408;

pub const MOST_NUMBERS: usize = 160;

// Each item of a buffer holds its mark.
fn mark_all<T: Item>(buffer: &mut [T])
    ensures { (d : T) (i : ℕ) → i < length buffer.new → slice_index_or buffer.new i d ≡ T.marked i }
{
    for (i, item) in buffer.iter_mut().enumerate() {
        *item = T::mark(i);
    }
}

// The first n items of a buffer, ready for a call; all of them where there are fewer.
pub fn lend<T: Item>(buffer: &mut [T], n: usize) -> &mut [T]
    ensures size { length result.now ≡ min n (length buffer.old) }
    ensures marks { (d : T) (i : ℕ) → i < length result.now → slice_index_or result.now i d ≡ T.marked i }
{
    mark_all(buffer);
    let end = n.min(buffer.len());
    &mut buffer[..end]
}

// A row of bytes that is ready for a call.
pub fn lent_row<const N: usize>() -> [u8; N]
    ensures { (d : ℕ) (i : ℕ) → i < N → slice_index_or result i d ≡ 97 + i % 26 }
{
    let mut row = [0u8; N];
    mark_all(&mut row);
    row
}

// The line of what goes into a call.
pub fn say_items<T: Item>(t: &mut Tally<impl Print>, label: &str, items: &[T]) -> fmt::Result {
    writeln!(t, "{label},{},{}", items.len(), Listed(items))
}

// What is told of a lent buffer of which the first items, so many, are the result: these are said with how many of the others
// hold what they held before; the others go into the checksum.
pub fn tell<T: Item>(
    t: &mut Tally<impl Print>,
    label: &str,
    buffer: &[T],
    res: usize,
) -> fmt::Result {
    tell_since(t, label, buffer, res, |i| T::mark(i))
}

// The same of a buffer that held something else before.
pub fn tell_since<T: Item, F: Fn(usize) -> T>(
    t: &mut Tally<impl Print>,
    label: &str,
    buffer: &[T],
    res: usize,
    before: F,
) -> fmt::Result
    requires { (f : F) (i : ℕ) → F.pre f i }
{
    let told = Listed(&buffer[..res.min(buffer.len())]);
    let rest = buffer.iter().enumerate().skip(res);
    let kept = rest.filter(|(i, item)| **item == before(*i)).count();
    writeln!(t, "{label},{},{told},kept,{kept}", buffer.len())?;
    for item in buffer.iter().skip(res) {
        item.feed(&mut t.sum);
    }
    Ok(())
}
