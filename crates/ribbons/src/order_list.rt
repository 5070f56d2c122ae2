// An order list that was read, in memory of its own, as the programs have it.
ghost use Rattle.std.specs.Prelude.{◌≡◌, true, ◌≤◌, length, take};
ghost use Rattle.lists.specs.Fit.{list_ok_lem, names_ok_lem};

use fitness::{FitList, FitNames};
use lists::{MOST_BANDS, MOST_CODES, MOST_NAME_BYTES, Refusal, Run};
use orders::{Orders, read_orders};

// How much was read, at the beginnings of buffers that suffice for any list: no heap, so fixed memory with the counts beside it, as
// read_orders fills slices that are lent and answers counts. Its codes and names are fit.
#[derive(Drop)]
pub struct OrderList {
    pub counts: Orders,
    pub bands: [u8; MOST_BANDS],
    pub lengths: [u16; MOST_CODES],
    pub names: [u8; MOST_NAME_BYTES],
    pub sizes: [u16; MOST_CODES],
    ghost in_bands: { counts.bands ≤ 8192 },
    ghost in_codes: { counts.codes ≤ 128 },
    ghost in_names: { counts.names ≤ 3072 },
    ghost list_fits: { list_ok_lem (take counts.bands bands) (take counts.codes lengths) ≡ true },
    ghost names_fit: { names_ok_lem counts.codes (take counts.names names) (take counts.codes sizes) ≡ true },
}

impl OrderList {
    ghost use Rattle.lists.specs.Handed.{words_of};
    ghost use Rattle.ribbons.specs.OrderLists.{codes_of, names_of, ReadAs};

    // The list in a file, or its refusal, which is never one of our buffers.
    pub fn read(file: &[u8]) -> Result<OrderList, Refusal>
        ensures { ReadAs file.now result }
    {
        let mut bands = [0u8; MOST_BANDS];
        let mut lengths = [0u16; MOST_CODES];
        let mut names = [0u8; MOST_NAME_BYTES];
        let mut sizes = [0u16; MOST_CODES];
        let counts = read_orders(file, &mut bands, &mut lengths, &mut names, &mut sizes)?;
        Ok(OrderList {
            counts,
            bands,
            lengths,
            names,
            sizes,
        })
    }

    // Its codes.
    pub fn codes(&self) -> FitList<'_>
        ensures words { words_of result.codes ≡ codes_of self.now }
        ensures count { length result.codes.sizes.now ≡ self.now.counts.codes }
    {
        let bands = self.counts.bands as usize;
        let codes = self.counts.codes as usize;
        let codes = Run {
            bytes: &self.bands[..bands],
            sizes: &self.lengths[..codes],
        };
        FitList { codes }
    }

    // Its names. A method of their own: codes and names are fit by different rules, and each says its own.
    pub fn names(&self) -> FitNames<'_>
        ensures words { words_of result.names ≡ names_of self.now }
        ensures count { length result.names.sizes.now ≡ self.now.counts.codes }
    {
        let bytes = self.counts.names as usize;
        let names = self.counts.codes as usize;
        let names = Run {
            bytes: &self.names[..bytes],
            sizes: &self.sizes[..names],
        };
        FitNames { names }
    }
}
