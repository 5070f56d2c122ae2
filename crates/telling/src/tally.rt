// The checksum over the texts of cases. Where a case is printed in full, what is said is printed as well.
ghost use Rattle.std.specs.Prelude.{◌≡◌, ◌%◌};
ghost use Rattle.telling.specs.Sums.{fed, fed_all};

use std::fmt;
use std::fmt::Write;

// the checksum's modulus and factor, both prime
const MODULUS: u64 = 4294967291;

const FACTOR: u64 = 16777619;

#[derive(Clone, Copy, Default)]
pub struct Checksum {
    sum: u32,
}

impl Checksum {
    // A number goes into it.
    pub fn feed(&mut self, n: u32)
        ensures { self.new.sum ≡ fed self.old.sum n }
    {
        let fed = u64::from(self.sum) * FACTOR + u64::from(n) + 1;
        self.sum = (fed % MODULUS) as u32; // the modulus is below 2^32
    }

    // Of a longer number its lowest 32 bits go into it.
    pub fn feed_lowest(&mut self, n: u64)
        ensures { self.new.sum ≡ fed self.old.sum (n % 4294967296) }
    {
        self.feed((n % 4294967296) as u32);
    }

    // Another checksum goes into it.
    pub fn feed_sum(&mut self, other: Checksum)
        ensures { self.new.sum ≡ fed self.old.sum other.sum }
    {
        self.feed(other.sum);
    }
}

impl fmt::Display for Checksum {
    fn fmt<W: fmt::Write>(&self, f: &mut fmt::Formatter<W>) -> fmt::Result {
        write!(f, "{}", self.sum)
    }
}

// What is said of a group's cases: its checksum, whether it is printed, and how many are over, which is the number of the next.
#[derive_where(Clone, Copy)]
pub struct Tally<'a, R: Print> {
    pub rt: &'a R,
    pub sum: Checksum,
    pub loud: bool,
    pub cases: u64,
}

impl<'a, R: Print> Tally<'a, R> {
    // Nothing is said yet.
    pub fn new(rt: &'a R, loud: bool) -> Self
        ensures nothing { (result.sum.sum ≡ 0) × (result.cases ≡ 0) }
        ensures loud { result.loud ≡ loud }
    {
        Tally {
            rt,
            sum: Checksum::default(),
            loud,
            cases: 0,
        }
    }
}

impl<R: Print> Tally<'_, R> {
    // The next case begins, of this kind.
    pub fn begin_case(&mut self, kind: &str) -> fmt::Result {
        let k = self.cases;
        writeln!(self, "case,{k},{kind}")
    }
}

impl<R: Print> fmt::Write for Tally<'_, R> {
    ghost write_str_gives = { λ s text t. t.sum.sum ≡ fed_all s.sum.sum text };

    // A text that cannot be printed still goes into the checksum.
    fn write_str(&mut self, text: &str) -> fmt::Result {
        if self.loud {
            let _ = self.rt.write_all(text.as_bytes());
        }
        for b in text.as_bytes() {
            self.sum.feed(u32::from(*b));
        }
        Ok(())
    }
}
