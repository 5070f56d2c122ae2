// Whether a word stands in a row: a way of it begins the row at some start.
ghost use Rattle.std.specs.Prelude.{◌≡◌};
ghost use Rattle.words.specs.Turn.{turned};
ghost use Rattle.words.specs.Stand.{begins, stands_in, some_way};
ghost use Rattle.matching.specs.Forms.{bands_of};

use crate::Form;

// The form begins the row s. No public `begins` in its place: callers have rows, and each would make a form of its row.
pub fn begins_way(form: Form<'_>, s: &[u8]) -> bool
    ensures { result ≡ begins (bands_of form.entry) s.now }
{
    form.begins(Form::given(s))
}

// The form stands at some start of s, the end among them, where a word of no bands stands.
fn stands_way(form: Form<'_>, s: &[u8]) -> bool
    ensures { result ≡ stands_in (bands_of form.entry) s.now }
{
    (0..s.len() + 1).any(|i| begins_way(form, &s[i..]))
}

// One way of c or the other stands in s.
pub fn stands(c: &[u8], s: &[u8]) -> bool
    ensures { result ≡ some_way turned c.now s.now }
{
    stands_way(Form::given(c), s) || stands_way(Form::turned(c), s)
}
