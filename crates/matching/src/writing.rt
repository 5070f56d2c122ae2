// Writing a word on a row. The caller lends the row whole, with the place to write at, and goes on behind the word.
ghost use Rattle.std.specs.Prelude.{◌+◌, ◌-◌, ◌≤◌, length, drop};
ghost use Rattle.words.specs.Written.{Written};
ghost use Rattle.matching.specs.Forms.{bands_of};

use crate::Form;

// A form past its first bands, as many as `skip`, is written on the row from `at` on; the answer is the place behind it.
pub fn put_way(form: Form<'_>, skip: usize, row: &mut [u8], at: usize) -> usize
    requires { (skip ≤ length form.word.now) × (at + (length form.word.now - skip) ≤ length row.old) }
    ensures { Written row.old at (drop skip (bands_of form.entry)) row.new result }
{
    let n = form.len() - skip;
    // Numbers, since a form is read from one end or the other.
    for (j, band) in row[at..at + n].iter_mut().enumerate() {
        *band = form.band(skip + j);
    }
    at + n
}

// c is written on the row from `at` on; the answer is the place behind it. By `put_way`: for `copy_from_slice` an archive for C would
// need memmove from outside.
pub fn put_word(c: &[u8], row: &mut [u8], at: usize) -> usize
    requires { at + length c.now ≤ length row.old }
    ensures { Written row.old at c.now row.new result }
{
    put_way(Form::given(c), 0, row, at)
}
