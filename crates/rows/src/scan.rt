// The scan of one row of an RFC 4180 file, byte by byte.
ghost use Rattle.std.specs.Prelude.{◌≡◌, ◌≢◌, ℕ, ◌+◌, ◌<◌, length, slice_set, Option};
ghost use Rattle.grammar.specs.Files.{quote};
ghost use Rattle.grammar.specs.Rows.{Outside, takes_text, outside, inside};
ghost use Rattle.rows.specs.Scans.{TakesRow, ReadsRow};
ghost use Rattle.rows.specs.Taken.{mode_of, Takes};

// A row as read: how many fields it has, the lengths of the contents of the first two, and how many bytes it takes up.
#[derive(Clone, Copy)]
pub struct RowRead {
    pub fields: usize,
    pub name: usize,
    pub code: usize,
    pub size: usize,
}

// Where the scan stands: a field begins, in an unquoted one, after a closing quote, or inside quotes.
#[derive(Clone, Copy)]
enum Mode {
    Start,
    Text,
    AfterQuote,
    Inside,
}

// What a byte does: it breaks the grammar, ends the field, ends the row with the LF after it, or leads to a mode, kept
// in the field's content or not.
#[derive(Clone, Copy)]
enum Step {
    Broken,
    Comma,
    Ends,
    Keep(Mode),
    Skip(Mode),
}

// Inside quotes.
fn take_inside(b: u8) -> Step
    ensures { (n : Option ℕ) → Takes inside b n result }
{
    match b {
        b'"' => Step::Skip(Mode::AfterQuote),
        b'\n' | b'\r' | b' '..=b'~' => Step::Keep(Mode::Inside),
        _ => Step::Broken,
    }
}

// Outside quotes, a quote apart; text says whether unquoted text may stand here. A bool: of the three places outside quotes,
// the first two do alike with all other bytes.
fn take_outside(text: bool, b: u8, next: Option<u8>) -> Step
    requires { b ≢ quote }
    ensures { (o : Outside) → takes_text o ≡ text → Takes (outside o) b next result }
{
    match b {
        b',' => Step::Comma,
        b'\r' if next == Some(b'\n') => Step::Ends,
        b' '..=b'~' if text => Step::Keep(Mode::Text),
        _ => Step::Broken,
    }
}

// What the byte b does, where next comes after it (none at the end of the file).
fn take_byte(mode: Mode, b: u8, next: Option<u8>) -> Step
    ensures { Takes (mode_of mode) b next result }
{
    match (mode, b) {
        (Mode::Inside, _) => take_inside(b),
        (Mode::Start, b'"') => Step::Skip(Mode::Inside),
        (Mode::Text, b'"') => Step::Broken,
        (Mode::AfterQuote, b'"') => Step::Keep(Mode::Inside),
        (Mode::Start | Mode::Text, _) => take_outside(true, b, next),
        (Mode::AfterQuote, _) => take_outside(false, b, next),
    }
}

// The row that begins here, or none where it breaks the grammar: the contents of its first two fields go to the
// beginnings of the buffers. Two buffers and no struct of them: where one that holds a `&mut` is lent on, each contract on the
// way has to say that the reference stays the same (as `at_last` does in the law of fields::Writer), here for two of them.
pub fn read_row(here: &[u8], names: &mut [u8], bands: &mut [u8]) -> Option<RowRead>
    requires { TakesRow here.now names.old bands.old }
    ensures { ReadsRow here.now names.new bands.new result }
{
    let mut mode = Mode::Start;
    let mut row = RowRead {
        fields: 1,
        name: 0,
        code: 0,
        size: 0,
    };
    for (i, &b) in here.iter().enumerate() {
        row.size = i + 1;
        // the next byte by number, which is the row's size so far, and so is counted in any case: no `peekable`
        match take_byte(mode, b, here.get(i + 1).copied()) {
            Step::Comma => {
                row.fields += 1;
                mode = Mode::Start;
            }
            Step::Keep(m) => {
                match row.fields {
                    1 => row.name = keep(names, row.name, b),
                    2 => row.code = keep(bands, row.code, b),
                    _ => {}
                }
                mode = m;
            }
            Step::Skip(m) => mode = m,
            Step::Ends => {
                row.size += 1;
                return Some(row);
            }
            Step::Broken => return None,
        }
    }
    if matches!(mode, Mode::Inside) {
        return None;
    }
    Some(row)
}

// A byte behind the first n of a buffer, and how many there are then: there is no heap to push to.
fn keep(buffer: &mut [u8], n: usize, b: u8) -> usize
    requires { n < length buffer.old }
    ensures put { buffer.new ≡ slice_set buffer.old n b }
    ensures more { result ≡ n + 1 }
{
    buffer[n] = b;
    n + 1
}
