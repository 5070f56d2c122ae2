// The rules for bands and for names: which bytes, and how many.
ghost use Rattle.std.specs.Prelude.{◌≡◌};
ghost use Rattle.lists.specs.Fit.{all_bands_lem, name_ok_lem};

use lists::MOST_NAME_SIZE;

// Every byte is a band, A to Z.
pub fn all_bands(s: &[u8]) -> bool
    ensures { result ≡ all_bands_lem s.now }
{
    s.iter().all(|b| b.is_ascii_uppercase())
}

// A name has 1 to 24 bytes, hexadecimal 20 to 7E.
pub fn name_ok(n: &[u8]) -> bool
    ensures { result ≡ name_ok_lem n.now }
{
    (1..=MOST_NAME_SIZE).contains(&n.len()) && n.iter().all(|b| (0x20..=0x7E).contains(b))
}
