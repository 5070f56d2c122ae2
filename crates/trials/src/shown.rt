// Which texts of cases are printed, if any.

#[derive(Clone, Copy, PartialEq, Eq)]
pub enum Shown {
    All,
    // The first of each group.
    First,
}

impl Shown {
    // By the first letter of an argument.
    pub fn asked(argument: &[u8]) -> Option<Self> {
        match argument {
            [b'a', ..] => Some(Shown::All),
            [b'f', ..] => Some(Shown::First),
            _ => None,
        }
    }
}
