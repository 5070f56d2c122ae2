// What was read, copied into the lent buffers where each is long enough.
ghost use Rattle.std.specs.Prelude.{◌≡◌, ◌≤◌, ◌↔◌, length, IsTrue};
ghost use Rattle.lists.specs.Runs.{over};
ghost use Rattle.grammar.specs.Answers.{lent};
ghost use Rattle.orders.specs.Calls.{HandsOver};

use crate::Orders;
use entries::Gathered;
use lists::{Fault, Refusal, Run};

// The answer, with the words that were gathered written into the lent buffers where each is long enough. Four buffers, as C
// lends them. A struct of two, a run and its lengths, was tried: moved in here, what they hold at the end stays unproved.
pub fn hand_over(
    all: Gathered,
    bands: &mut [u8],
    lengths: &mut [u16],
    names: &mut [u8],
    sizes: &mut [u16],
) -> Result<Orders, Refusal>
    requires { (length all.codes.sizes.now ≤ 128) × (length all.codes.bytes.now ≤ 16384) × (length all.names.bytes.now ≤ 16384) }
    ensures { HandsOver all.entry (lent bands.old lengths.old names.old sizes.old) (lent bands.new lengths.new names.new sizes.new) result }
{
    if !has_room(all.codes, bands, lengths) || !has_room(all.names, names, sizes) {
        return Err(Fault::ShortBuffer.into());
    }
    put_run(all.codes, bands, lengths);
    put_run(all.names, names, sizes);
    // at most 128 and 16,384, as the contract says: each fits, and there is no error to give
    Ok(Orders {
        codes: all.codes.sizes.len() as u32,
        bands: all.codes.bytes.len() as u32,
        names: all.names.bytes.len() as u32,
    })
}

// Whether two buffers are long enough for these words and their lengths.
fn has_room(run: Run, bytes: &[u8], sizes: &[u16]) -> bool
    ensures { IsTrue result ↔ ((length run.entry.bytes.now ≤ length bytes.now) × (length run.entry.sizes.now ≤ length sizes.now)) }
{
    run.bytes.len() <= bytes.len() && run.sizes.len() <= sizes.len()
}

// The words and their lengths, written at the beginnings of two buffers.
fn put_run(run: Run, bytes: &mut [u8], sizes: &mut [u16])
    requires { (length run.bytes.now ≤ length bytes.old) × (length run.sizes.now ≤ length sizes.old) }
    ensures bytes { bytes.new ≡ over run.entry.bytes.now bytes.old }
    ensures sizes { sizes.new ≡ over run.entry.sizes.now sizes.old }
{
    matching::put_word(run.bytes, bytes, 0);
    put_lengths(run.sizes, sizes);
}

// Lengths, written at the beginning of a buffer. By number: for `copy_from_slice` an archive for C would need memmove from outside.
fn put_lengths(from: &[u16], to: &mut [u16])
    requires { length from.now ≤ length to.old }
    ensures { to.new ≡ over from.now to.old }
{
    for i in 0..from.len() {
        to[i] = from[i];
    }
}
