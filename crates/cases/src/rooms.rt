// The rooms that a case lends.
ghost use Rattle.std.specs.Prelude.{◌≡◌, ◌≤◌, slice_index_or};

use crate::draws::Draws;
use lists::{MOST_BANDS, MOST_CODES};

// The room of this number in a line; 0 where the line has none. No Option: no room lent is what a line leaves out, and the rooms
// promise it. By position, as the file of cases writes them: no name stands there.
fn room(numbers: &[u16], i: usize) -> usize
    ensures { result ≡ slice_index_or numbers.now i 0 }
{
    numbers.get(i).copied().map_or(0, usize::from)
}

// The rooms of the case of an order list.
#[derive(Clone, Copy)]
pub struct FileRooms {
    pub bands: usize,
    pub lengths: usize,
    pub names: usize,
    pub sizes: usize,
}

impl From<&[u16]> for FileRooms {
    ghost from_gives = { λ n r. r ≡ record {
      bands = slice_index_or n.now 0 0;
      lengths = slice_index_or n.now 1 0;
      names = slice_index_or n.now 2 0;
      sizes = slice_index_or n.now 3 0;
    } };

    fn from(numbers: &[u16]) -> Self {
        FileRooms {
            bands: room(numbers, 0),
            lengths: room(numbers, 1),
            names: room(numbers, 2),
            sizes: room(numbers, 3),
        }
    }
}

// The rooms of the case of a list that is handed over.
#[derive(Clone, Copy)]
pub struct ListRooms {
    pub ribbon: usize,
    pub records: usize,
    pub sheet: usize,
}

impl From<&[u16]> for ListRooms {
    ghost from_gives = { λ n r. r ≡ record {
      ribbon = slice_index_or n.now 0 0;
      records = slice_index_or n.now 1 0;
      sheet = slice_index_or n.now 2 0;
    } };

    fn from(numbers: &[u16]) -> Self {
        ListRooms {
            ribbon: room(numbers, 0),
            records: room(numbers, 1),
            sheet: room(numbers, 2),
        }
    }
}

impl ListRooms {
    // The rooms of a generated case with a ribbon of so many bands, so many codes and a sheet of so many bytes: each is what is
    // due, one less or some more, or for two of them the most. No case lends more than 130 records.
    pub fn draw(bands: usize, codes: usize, sheet: usize, draws: &mut Draws) -> Self
        ensures ribbon { bands ≤ 8192 → result.ribbon ≤ 8195 }
        ensures records { codes ≤ 128 → result.records ≤ 130 }
        ensures sheet { sheet ≤ 17181 → result.sheet ≤ 17186 }
    {
        let ribbon = [
            bands,
            bands.saturating_sub(1),
            bands.saturating_add(3),
            MOST_BANDS,
        ];
        let records = [
            codes,
            codes.saturating_sub(1),
            codes.saturating_add(2),
            MOST_CODES,
        ];
        let sheets = [sheet, sheet.saturating_sub(1), sheet.saturating_add(5)];
        ListRooms {
            ribbon: ribbon[draws.below(4)],
            records: records[draws.below(4)],
            sheet: sheets[draws.below(3)],
        }
    }
}
