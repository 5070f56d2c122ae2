// Order lists as RFC 4180 files.
#![tactic(auto)]

ghost use Rattle.grammar.specs.Answers.{lent};
ghost use Rattle.orders.specs.Calls.{ReadsOrders};

mod handover; // the lent buffers filled

use entries::gather;
use handover::hand_over;
use lists::{Fault, MOST_CODES, MOST_FILE_BYTES, Refusal};

// What an order list holds: how many codes there are, how many bands in them, and how many bytes of names.
#[derive(Clone, Copy, Debug, Default, PartialEq, Eq)]
pub struct Orders {
    pub codes: u32,
    pub bands: u32,
    pub names: u32,
}

// Reads an order list into four lent buffers: for the codes their run and a length each, for the names their run and a
// length each, as C lends them. A refused call changes no lent byte. Not inlined: its rows leave the stack as it returns, before a
// program lays out what was read.
#[inline(never)]
pub fn read_orders(
    file: &[u8],
    bands: &mut [u8],
    lengths: &mut [u16],
    names: &mut [u8],
    sizes: &mut [u16],
) -> Result<Orders, Refusal>
    ensures { ReadsOrders file.now (lent bands.old lengths.old names.old sizes.old) (lent bands.new lengths.new names.new sizes.new) result }
{
    if MOST_FILE_BYTES < file.len() {
        return Err(Fault::LongFile.into());
    }
    if file.is_empty() {
        return Err(Fault::WrongHeading.into());
    }
    // four rows of a fixed size, as much as a file may hold: there is no heap
    let mut code_run = [0u8; MOST_FILE_BYTES];
    let mut code_lengths = [0u16; MOST_CODES];
    let mut name_run = [0u8; MOST_FILE_BYTES];
    let mut name_lengths = [0u16; MOST_CODES];
    let all = gather(
        file,
        &mut code_run,
        &mut code_lengths,
        &mut name_run,
        &mut name_lengths,
    )?;
    hand_over(all, bands, lengths, names, sizes)
}
