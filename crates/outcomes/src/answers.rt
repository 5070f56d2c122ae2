// The answers of calls, said.
use layout::Laid;
use lists::Refusal;
use orders::Orders;
use std::fmt;
use std::fmt::Write;
use telling::Tally;
use verdicts::Checked;
use writer::Wrote;

// What a call answers where it refuses nothing. No Display: the types are the library's, the texts are the trials' own.
pub trait Answer: Copy {
    fn say<W: Write>(self, to: &mut W) -> fmt::Result;
}

impl Answer for Orders {
    fn say<W: Write>(self, to: &mut W) -> fmt::Result {
        write!(to, "orders,{},{},{}", self.codes, self.bands, self.names)
    }
}

impl Answer for Laid {
    fn say<W: Write>(self, to: &mut W) -> fmt::Result {
        write!(to, "ribbon,{},{}", self.bands, self.saved)
    }
}

impl Answer for Checked {
    fn say<W: Write>(self, to: &mut W) -> fmt::Result {
        match self {
            Checked::Missing(code) => write!(to, "missing,{code}"),
            Checked::Held(difference) => write!(to, "held,{difference}"),
        }
    }
}

impl Answer for Wrote {
    fn say<W: Write>(self, to: &mut W) -> fmt::Result {
        write!(to, "written,{},{}", self.bytes, self.saved)
    }
}

// The line of what a call answers.
pub fn say_answer<A: Answer>(
    t: &mut Tally<impl Print>,
    label: &str,
    answer: Result<A, Refusal>,
) -> fmt::Result {
    write!(t, "{label},")?;
    match answer {
        Ok(said) => said.say(t)?,
        Err(refusal) => write!(t, "refused,{},{}", refusal.number(), refusal.row)?,
    }
    writeln!(t)
}
