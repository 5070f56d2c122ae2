// The calls for programs in C. A slice passes as a pointer and a count; an answer is plain data, since an enum cannot pass.
// In each answer with `refused`, that is the refusal's number, and 0 where nothing is refused; what does not apply is 0, or false.
#![tactic(auto)]

ghost use Rattle.grammar.specs.Answers.{lent};
ghost use Rattle.ribbons_c.specs.Calls.{TellsOrders, TellsLaid, TellsChecked, TellsSheet, TellsRibbon};

mod plain; // the answers

pub use plain::{RibbonsChecked, RibbonsLaid, RibbonsOrders, RibbonsSheet};

// Reads an order list into four lent buffers, as read_orders does.
#[unsafe(no_mangle)]
pub extern "C" fn ribbons_read_orders(
    file: &[u8],
    bands: &mut [u8],
    lengths: &mut [u16],
    names: &mut [u8],
    sizes: &mut [u16],
) -> RibbonsOrders
    ensures { TellsOrders file.now (lent bands.old lengths.old names.old sizes.old) (lent bands.new lengths.new names.new sizes.new) result }
{
    ribbons::read_orders(file, bands, lengths, names, sizes).into()
}

// Lays out a list of codes into a lent ribbon, as lay_ribbon does.
#[unsafe(no_mangle)]
pub extern "C" fn ribbons_lay_ribbon(
    bands: &[u8],
    lengths: &[u16],
    ribbon: &mut [u8],
) -> RibbonsLaid
    ensures { TellsLaid bands.now lengths.now ribbon.old ribbon.new result }
{
    ribbons::lay_ribbon(bands, lengths, ribbon).into()
}

// Checks a supplied ribbon, as check_only does.
#[unsafe(no_mangle)]
pub extern "C" fn ribbons_check_ribbon(
    bands: &[u8],
    lengths: &[u16],
    ribbon: &[u8],
) -> RibbonsChecked
    ensures { TellsChecked bands.now lengths.now ribbon.now result }
{
    ribbons::check_only(bands, lengths, ribbon).into()
}

// Writes the sheet of a list with names into a lent buffer, as write_sheet does.
#[unsafe(no_mangle)]
pub extern "C" fn ribbons_write_sheet(
    bands: &[u8],
    lengths: &[u16],
    names: &[u8],
    sizes: &[u16],
    out: &mut [u8],
) -> RibbonsSheet
    ensures { TellsSheet bands.now lengths.now names.now sizes.now out.old out.new result }
{
    ribbons::write_sheet(bands, lengths, names, sizes, out).into()
}

// How many bytes at the front of a ribbon file are its ribbon, the part that ribbon_of gives.
#[unsafe(no_mangle)]
pub extern "C" fn ribbons_ribbon_of(file: &[u8]) -> usize
    ensures { TellsRibbon file.now result }
{
    let ribbon = ribbons::ribbon_of(file);
    ribbon.len()
}
