// What is refused, by document 01's words. All calls answer with these, so that a wrong one breaks their proofs. 14 is retired
// (M-112): no call answers it, and it is not to be used again.
ghost use Rattle.std.specs.Prelude.{◌≡◌};

// Why something is refused (an error code), with its number in document 01's table.
#[derive(Clone, Copy, Debug, PartialEq, Eq)]
pub enum Fault {
    // More than 16,384 bytes in an order list.
    LongFile = 1,
    // The row breaks RFC 4180's grammar, or holds a byte other than CR, LF and hexadecimal 20 to 7E.
    BrokenRow = 2,
    // The row hasn't two fields.
    WrongWidth = 3,
    // Row 1's fields aren't `name` and `code`, or the file has 0 bytes.
    WrongHeading = 4,
    // The name hasn't 1 to 24 bytes, or has one outside hexadecimal 20 to 7E.
    BadName = 5,
    // The code field is empty.
    NoBands = 6,
    // More than 64 bytes in the code field.
    LongCode = 7,
    // A byte outside A to Z, in a code or in a supplied ribbon.
    UnknownColour = 8,
    // An earlier row after the heading has the same name.
    NameTaken = 9,
    // The row would be code 129.
    ListFull = 10,
    // A right heading and no row after it.
    EmptyList = 11,
    // A list that is handed over breaks a rule for lists, codes or names.
    FalseList = 12,
    // A lent result buffer is shorter than the result.
    ShortBuffer = 13,
    // More than 16,384 bands in a supplied ribbon.
    LongRibbon = 15,
}

impl Fault {
    // In a row of a file.
    pub fn in_row(self, row: u32) -> Refusal
        ensures { result ≡ record { fault = self; row = row } }
    {
        Refusal { fault: self, row }
    }
}

// A refusal: why, and in which row (0 where no row is meant). 0 and no Option: the line of a refusal and the answer for C
// both show 0.
#[derive(Clone, Copy, Debug, PartialEq, Eq)]
pub struct Refusal {
    pub fault: Fault,
    pub row: u32,
}

impl Refusal {
    ghost use Rattle.lists.specs.Answers.{refusal_of};

    // The number in the table.
    pub fn number(self) -> u8
        ensures { result ≡ (refusal_of self).number }
    {
        self.fault as u8
    }
}

// Of the whole input.
impl From<Fault> for Refusal {
    ghost from_gives = { λ fault r. r ≡ record { fault = fault; row = 0 } };

    fn from(fault: Fault) -> Self {
        Refusal { fault, row: 0 }
    }
}
