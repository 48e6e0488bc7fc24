//! A line of a map's header, followed a byte at a time: blanks and leading zeros make it as long as
//! they like, so it is not kept.
ghost use Rattle.std.specs.Prelude.{◌≡◌, ◌≤◌};
ghost use Rattle.text_io.specs.Text.{is_blank};
ghost use Rattle.grid.specs.Code.HeaderLine.{word_of, broken, tail_step, octile_step};
ghost use Rattle.grid.specs.Code.HeaderLine.{with_digit, size_step, after_gap, after_word};
ghost use Rattle.grid.specs.Code.HeaderLine.{header_step, word_saying, saying_at};

/// The lines of a map's header.
#[derive(Clone, Copy)]
pub(crate) enum HeaderLine {
    TypeLine,
    HeightLine,
    WidthLine,
    MapLine,
}

/// How far a line has come.
#[derive(Clone, Copy)]
pub(crate) enum Progress {
    /// So many bytes of the line's word.
    Word(usize),
    /// The word and blanks.
    Gap,
    /// The word, blanks, and a CR that may end the line.
    GapReturn,
    /// The word, blanks, and so many bytes of `octile`.
    Octile(usize),
    /// The word, blanks, and digits of a number, which past the greatest size is kept as one past
    /// it.
    Number(u32),
    /// All that the line has to say, its number, and blanks.
    Tail(Option<u32>),
    /// The same and a CR that may end the line.
    Return(Option<u32>),
    /// The word, a blank, and something that is no number.
    OtherValue,
    /// Another form.
    OtherForm,
}

/// What a line says at its end.
#[derive(Clone, Copy)]
pub(crate) enum Saying {
    /// The words that are due.
    Whole,
    /// The word and this number, or one past the greatest size for any above that.
    Size(u32),
    /// The word, a blank, and something that is no number.
    NoSize,
    /// Another form.
    NoForm,
}

const OCTILE: &[u8] = b"octile";

impl HeaderLine {
    /// The word that the line begins with.
    fn word(self) -> &'static [u8]
        ensures { result.now ≡ word_of self }
    {
        match self {
            HeaderLine::TypeLine => b"type",
            HeaderLine::HeightLine => b"height",
            HeaderLine::WidthLine => b"width",
            HeaderLine::MapLine => b"map",
        }
    }

    /// The byte after the whole word.
    fn after_word(self, b: u8) -> Progress
        ensures { result ≡ after_word self b }
    {
        match self {
            HeaderLine::MapLine => Progress::tail(None, b),
            _ if is_blank(b) => Progress::Gap,
            _ => Progress::OtherForm,
        }
    }

    /// The first byte after the blanks.
    fn after_gap(self, b: u8) -> Progress
        ensures { result ≡ after_gap self b }
    {
        match self {
            HeaderLine::TypeLine => Progress::octile(0, b),
            HeaderLine::HeightLine | HeaderLine::WidthLine => Progress::size(b),
            HeaderLine::MapLine => Progress::OtherForm,
        }
    }

    /// What the line says where so many bytes of its word are all of it.
    fn word_saying(self, matched: usize) -> Saying
        ensures { result ≡ word_saying self matched }
    {
        match self {
            HeaderLine::MapLine if matched == 3 => Saying::Whole,
            _ => Saying::NoForm,
        }
    }
}

impl Progress {
    /// Past all that the line has to say comes a byte that is neither blank nor CR.
    fn broken(number: Option<u32>) -> Progress
        ensures { result ≡ broken number }
    {
        match number {
            None => Progress::OtherForm,
            Some(_) => Progress::OtherValue,
        }
    }

    fn tail(number: Option<u32>, b: u8) -> Progress
        ensures { result ≡ tail_step number b }
    {
        match b {
            b' ' | b'\t' => Progress::Tail(number),
            b'\r' => Progress::Return(number),
            _ => Progress::broken(number),
        }
    }

    fn octile(matched: usize, b: u8) -> Progress
        ensures { result ≡ octile_step matched b }
    {
        if matched < OCTILE.len() {
            if OCTILE[matched] == b {
                Progress::Octile(matched + 1)
            } else {
                Progress::OtherForm
            }
        } else {
            Progress::tail(None, b)
        }
    }

    fn size(b: u8) -> Progress
        ensures { result ≡ size_step b }
    {
        if b.is_ascii_digit() {
            Progress::Number(with_digit(0, b))
        } else if b == b'\r' {
            Progress::GapReturn
        } else {
            Progress::OtherValue
        }
    }

    /// One more byte of the line.
    pub(crate) fn step(self, line: HeaderLine, b: u8) -> Progress
        ensures { result ≡ header_step line self b }
    {
        match self {
            Progress::Word(matched) => {
                let word = line.word();
                if matched < word.len() {
                    if word[matched] == b {
                        Progress::Word(matched + 1)
                    } else {
                        Progress::OtherForm
                    }
                } else {
                    line.after_word(b)
                }
            }
            Progress::Gap => {
                if is_blank(b) {
                    Progress::Gap
                } else {
                    line.after_gap(b)
                }
            }
            Progress::GapReturn => Progress::OtherValue,
            Progress::Octile(matched) => Progress::octile(matched, b),
            Progress::Number(n) => {
                if b.is_ascii_digit() {
                    Progress::Number(with_digit(n, b))
                } else {
                    Progress::tail(Some(n), b)
                }
            }
            Progress::Tail(number) => Progress::tail(number, b),
            Progress::Return(number) => Progress::broken(number),
            Progress::OtherValue => Progress::OtherValue,
            Progress::OtherForm => Progress::OtherForm,
        }
    }

    /// What the line says where it ends here.
    pub(crate) fn saying(self, line: HeaderLine) -> Saying
        ensures { result ≡ saying_at line self }
    {
        match self {
            Progress::Word(matched) => line.word_saying(matched),
            Progress::Octile(6) => Saying::Whole,
            Progress::Number(n) | Progress::Tail(Some(n)) | Progress::Return(Some(n)) =>
                Saying::Size(n),
            Progress::Tail(None) | Progress::Return(None) => Saying::Whole,
            Progress::OtherValue => Saying::NoSize,
            Progress::Gap | Progress::GapReturn | Progress::Octile(_) | Progress::OtherForm =>
                Saying::NoForm,
        }
    }
}

/// A space or a tab.
fn is_blank(b: u8) -> bool
    ensures { result ≡ is_blank b }
{
    b == b' ' || b == b'\t'
}

/// The number with one more digit; past the greatest size it stays one past it.
fn with_digit(n: u32, digit: u8) -> u32
    requires { 48 ≤ digit }
    ensures { result ≡ with_digit n digit }
{
    n.saturating_mul(10)
        .saturating_add(u32::from(digit - b'0'))
        .min(65_536)
}
