// Answers as plain data, since no enum, Option or Result passes to C: what does not apply has the default, 0 or false. The C header
// has four structs, each with its own `refused`: so each says what it gives for a refusal, and two of them differ in one name.
ghost use Rattle.std.specs.Prelude.{◌≡◌};

use ribbons::{Checked, Laid, Orders, Refusal, Wrote};

// The refusal's row; how many codes there are, how many bands in them, and how many bytes of names. `refused` is a number,
// as C reads it.
#[repr(C)]
#[derive(Clone, Copy, Default)]
pub struct RibbonsOrders {
    pub refused: u8,
    pub row: u32,
    pub codes: u32,
    pub bands: u32,
    pub names: u32,
}

impl From<Result<Orders, Refusal>> for RibbonsOrders {
    ghost use Rattle.ribbons_c.specs.Calls.{plain_read};

    ghost from_gives = { λ answer plain. plain ≡ plain_read answer };

    fn from(answer: Result<Orders, Refusal>) -> Self {
        match answer {
            Ok(orders) => RibbonsOrders {
                codes: orders.codes,
                bands: orders.bands,
                names: orders.names,
                ..RibbonsOrders::default()
            },
            Err(refusal) => RibbonsOrders {
                refused: refusal.number(),
                row: refusal.row,
                ..RibbonsOrders::default()
            },
        }
    }
}

// The ribbon's length and the bands saved. `refused` is a number, as C reads it.
#[repr(C)]
#[derive(Clone, Copy, Default)]
pub struct RibbonsLaid {
    pub refused: u8,
    pub bands: u32,
    pub saved: u32,
}

impl From<Result<Laid, Refusal>> for RibbonsLaid {
    ghost use Rattle.ribbons_c.specs.Calls.{plain_laid};

    ghost from_gives = { λ answer plain. plain ≡ plain_laid answer };

    fn from(answer: Result<Laid, Refusal>) -> Self {
        match answer {
            Ok(laid) => RibbonsLaid {
                bands: laid.bands,
                saved: laid.saved,
                ..RibbonsLaid::default()
            },
            Err(r) => RibbonsLaid {
                refused: r.number(),
                ..RibbonsLaid::default()
            },
        }
    }
}

// Whether the ribbon holds every code; if not, the number of the first that is missing; if so, the difference. `refused` is a
// number, and `held` stands beside what it speaks of, as C reads them.
#[repr(C)]
#[derive(Clone, Copy, Default)]
pub struct RibbonsChecked {
    pub refused: u8,
    pub held: bool,
    pub missing: u32,
    pub difference: i32,
}

impl From<Result<Checked, Refusal>> for RibbonsChecked {
    ghost use Rattle.ribbons_c.specs.Calls.{plain_checked};

    ghost from_gives = { λ answer plain. plain ≡ plain_checked answer };

    fn from(answer: Result<Checked, Refusal>) -> Self {
        match answer {
            Ok(Checked::Missing(k)) => RibbonsChecked {
                missing: k,
                ..RibbonsChecked::default()
            },
            Ok(Checked::Held(d)) => RibbonsChecked {
                held: true,
                difference: d,
                ..RibbonsChecked::default()
            },
            Err(r) => RibbonsChecked {
                refused: r.number(),
                ..RibbonsChecked::default()
            },
        }
    }
}

// The sheet's length and the bands that its ribbon saves. `refused` is a number, as C reads it.
#[repr(C)]
#[derive(Clone, Copy, Default)]
pub struct RibbonsSheet {
    pub refused: u8,
    pub bytes: u32,
    pub saved: u32,
}

impl From<Result<Wrote, Refusal>> for RibbonsSheet {
    ghost use Rattle.ribbons_c.specs.Calls.{plain_wrote};

    ghost from_gives = { λ answer plain. plain ≡ plain_wrote answer };

    fn from(answer: Result<Wrote, Refusal>) -> Self {
        match answer {
            Ok(wrote) => RibbonsSheet {
                bytes: wrote.bytes,
                saved: wrote.saved,
                ..RibbonsSheet::default()
            },
            Err(r) => RibbonsSheet {
                refused: r.number(),
                ..RibbonsSheet::default()
            },
        }
    }
}
