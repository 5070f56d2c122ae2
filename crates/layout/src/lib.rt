// From a list of codes to its ribbon: contained codes dropped, faces put in order, the ribbon of that order written.
#![tactic(auto)]

ghost use Rattle.std.specs.Prelude.{◌≡◌};
ghost use Rattle.words.specs.Turn.{turned};
ghost use Rattle.lists.specs.Runs.{codes_in};
ghost use Rattle.greedy.specs.Dropping.{kept};
ghost use Rattle.parts.specs.Parts.{Short};
ghost use Rattle.layout.specs.Calls.{Gives, order_outcome, kept_outcome, LaysRibbon};

use faces::order_faces;
use fitness::FitList;
use lists::{Fault, MOST_FACES, Refusal};
use parts::Parts;
use spelling::Order;

// A ribbon's length, and what it saves.
pub type Laid = spelling::Sums<u32>;

// The ribbon of an order of faces, written where it fits. Not inlined, nor are the two stages before it: each leaves the stack,
// and its rows with it, before the next begins.
#[inline(never)]
fn lay_order(order: &Order<'_>, ribbon: &mut [u8]) -> Result<Laid, Refusal>
    ensures { Gives (order_outcome order.now.parts.now order.now.faces.now ribbon.old) ribbon.new result }
{
    // What neighbours share, kept in fixed memory so that no overlap is looked for twice.
    let mut skips = [0usize; MOST_FACES];
    let sums = order.measure(&mut skips);
    if ribbon.len() < sums.bands {
        return Err(Fault::ShortBuffer.into());
    }
    order.write_bands(&skips, ribbon);
    // at most 16,384 each: both fit, and there is no error to give
    Ok(Laid {
        bands: sums.bands as u32,
        saved: sums.saved as u32,
    })
}

// The ribbon of kept codes.
#[inline(never)]
fn lay_kept(parts: &Parts<'_>, ribbon: &mut [u8]) -> Result<Laid, Refusal>
    requires { Short parts.now }
    ensures { Gives (kept_outcome parts.now ribbon.old) ribbon.new result }
{
    // A row of fixed memory, as long as any order, and how much of it there is.
    let mut order = [0usize; MOST_FACES];
    let count = order_faces(parts, &mut order);
    let order = Order {
        parts,
        faces: &order[..count],
    };
    lay_order(&order, ribbon)
}

// The codes of a list that are kept.
#[inline(never)]
fn kept_of(list: FitList<'_>) -> Parts<'_>
    ensures { result ≡ kept turned (codes_in list.entry.codes.bytes.now list.entry.codes.sizes.now) }
{
    Parts::cut(list.codes).kept()
}

// Lays out a list of codes, one run of bands and a length for each, into a lent ribbon. It answers with the ribbon's length
// and what is saved. It refuses a false list by 12, and a ribbon that is too short by 13; then nothing lent is touched.
// The list comes as two slices, as C passes it.
pub fn lay_ribbon(bands: &[u8], lengths: &[u16], ribbon: &mut [u8]) -> Result<Laid, Refusal>
    ensures { LaysRibbon bands.now lengths.now ribbon.old ribbon.new result }
{
    let list = FitList::of(bands, lengths)?;
    lay_kept(&kept_of(list), ribbon)
}
