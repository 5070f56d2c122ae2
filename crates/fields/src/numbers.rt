// Numbers written in decimal.
ghost use Rattle.sheets.specs.Decimal.{decimal};
ghost use Rattle.fields.specs.Sinks.{Fits, Puts};

use crate::sink::Sink;

// The ten digits, of which one is put at a time: put_decimal calls itself, so it holds no array of its own.
const DIGITS: &[u8] = b"0123456789";

// n is put into a sink in decimal, its last digit behind those of its tenth. At most ten calls deep: a u32 has no more digits.
// No Display: it promises its text only of a write that succeeds.
pub fn put_decimal<S: Sink>(n: u32, sink: &mut S)
    requires { Fits S.kind sink.old (decimal n) }
    ensures { Puts S.kind sink.old (decimal n) sink.new }
{
    if n < 10 {
        let only = n as usize;
        sink.put(&DIGITS[only..only + 1]);
        return;
    }
    put_decimal(n / 10, sink);
    let last = (n % 10) as usize;
    sink.put(&DIGITS[last..last + 1]);
}
