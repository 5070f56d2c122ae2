// The codes of a generated list.
ghost use Rattle.std.specs.Prelude.{◌*◌, ◌≤◌, length};

use crate::draws::Draws;
use crate::families::{Family, Plan};
use crate::word_list::Words;
use lists::MOST_BANDS;

pub type Codes = Words<MOST_BANDS>;

// The codes of case k of a line of a family.
pub fn draw_codes(family: Family, k: usize, draws: &mut Draws) -> Codes
    ensures some { 2 ≤ length result.sizes.items }
    ensures few { length result.sizes.items ≤ 128 }
    ensures short { length result.bytes.items ≤ 64 * length result.sizes.items }
{
    let mut codes = Codes::new();
    let plan = Plan::draw(family, k, draws);
    // no chain: the next code may be a part of those before it
    for _ in 0..plan.due {
        codes.push(plan.next_code(&codes, draws).as_slice());
    }
    codes
}
