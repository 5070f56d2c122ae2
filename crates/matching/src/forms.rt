// A word read as given or turned, its bands, its last bands, and two of them compared band by band.
ghost use Rattle.std.specs.Prelude.{◌≡◌, true, false, ◌-◌, ◌≤◌, ◌<◌, length, drop, get_or};
ghost use Rattle.words.specs.Stand.{begins};
ghost use Rattle.matching.specs.Forms.{bands_of};

// A word as it is read. What is Copy and borrows has no model of its own, so contracts say what is read by `bands_of`.
#[derive(Clone, Copy)]
pub struct Form<'a> {
    pub word: &'a [u8],
    // A flag and no enum of two: the word is the same both ways, and only `band` and `last` ask which it is.
    pub turned: bool,
}

impl<'a> Form<'a> {
    pub fn given(word: &'a [u8]) -> Form<'a>
        ensures { result ≡ record { word = word.entry; turned = false } }
    {
        Form {
            word,
            turned: false,
        }
    }

    pub fn turned(word: &'a [u8]) -> Form<'a>
        ensures { result ≡ record { word = word.entry; turned = true } }
    {
        Form { word, turned: true }
    }

    pub fn len(self) -> usize
        ensures { result ≡ length self.entry.word.now }
    {
        self.word.len()
    }

    // Band i, as the form is read.
    pub fn band(self, i: usize) -> u8
        requires { i < length self.word.now }
        ensures { result ≡ get_or (bands_of self.entry) i 0 }
    {
        if self.turned {
            self.word[self.word.len() - 1 - i]
        } else {
            self.word[i]
        }
    }

    // The last k bands as a form.
    #[tactic(auto, using(crate::proofs::LastBands::turned_last))]
    pub fn last(self, k: usize) -> Form<'a>
        requires { k ≤ length self.word.now }
        ensures long { length result.word.now ≡ k }
        ensures bands { bands_of result ≡ drop (length (bands_of self.entry) - k) (bands_of self.entry) }
    {
        let n = self.word.len();
        if self.turned {
            Form::turned(&self.word[..k])
        } else {
            Form::given(&self.word[n - k..])
        }
    }

    // All of it begins the other. Numbers, since a form is read from one end or the other.
    pub(crate) fn begins(self, other: Form<'_>) -> bool
        ensures { result ≡ begins (bands_of self.entry) (bands_of other.entry) }
    {
        self.len() <= other.len() && (0..self.len()).all(|i| self.band(i) == other.band(i))
    }
}
