//! Readers of what has no brackets: blanks, words and numbers.

ghost use Rattle.std.specs.Prelude.{◌≡◌, ◌+◌, ◌<◌, ◌≤◌, length, MatchResult};
ghost use Rattle.json_exact.specs.JsonNumbers.{is_digit};
ghost use Rattle.json_exact.specs.JsonText.{is_blank};
ghost use Rattle.json_exact.specs.Scans.{PassesBlanks, PassesWord, StopsWord, PassesNumber, StopsNumber, is_in_number, then, may_end};

/// What a number was written with last.
#[derive(Clone, Copy, Drop, PartialEq, Eq)]
pub(crate) enum Last {
    Nothing,
    Minus,
    Zero,
    Whole,
    Point,
    Fraction,
    Mark,
    Sign,
    Exponent,
    Misplaced,
}

impl Last {
    /// What is written last with one byte more.
    fn then(self, b: u8) -> Last
        ensures { result ≡ then self b }
    {
        match (self, b) {
            (Last::Nothing, b'-') => Last::Minus,
            (Last::Nothing | Last::Minus, b'0') => Last::Zero,
            (Last::Nothing | Last::Minus | Last::Whole, b'0'..=b'9') => Last::Whole,
            (Last::Zero | Last::Whole, b'.') => Last::Point,
            (Last::Point | Last::Fraction, b'0'..=b'9') => Last::Fraction,
            (Last::Zero | Last::Whole | Last::Fraction, b'e' | b'E') => Last::Mark,
            (Last::Mark, b'+' | b'-') => Last::Sign,
            (Last::Mark | Last::Sign | Last::Exponent, b'0'..=b'9') => Last::Exponent,
            _ => Last::Misplaced,
        }
    }

    fn may_end(self) -> bool
        ensures { result ≡ may_end self }
    {
        matches!(
            self,
            Last::Zero | Last::Whole | Last::Fraction | Last::Exponent
        )
    }
}

pub(crate) fn is_blank(b: u8) -> bool
    ensures { result ≡ is_blank b }
{
    b == b' ' || b == b'\t' || b == b'\n' || b == b'\r'
}

/// The place behind the blanks that stand at `at`.
pub(crate) fn blanks_end(text: &[u8], at: usize) -> usize
    requires { at ≤ length text.now }
    ensures { PassesBlanks text.now at result }
{
    let mut i = at;
    'blanks: while i < text.len() {
        if !is_blank(text[i]) {
            break;
        }
        i += 1;
    }
    i
}

/// The place behind the word that stands at `at`, or where the text differs from it.
pub(crate) fn word_end(text: &[u8], at: usize, word: &[u8]) -> Result<usize, usize>
    requires { at ≤ length text.now }
    ensures { MatchResult result (PassesWord text.now at word.now)
        (StopsWord text.now at word.now) }
{
    let mut i = at;
    'letters: for letter in word {
        if i == text.len() || text[i] != *letter {
            return Err(i);
        }
        i += 1;
    }
    Ok(i)
}

/// The place behind the number that stands at `at`, or that of the first byte that is misplaced in it.
pub(crate) fn number_end(text: &[u8], at: usize) -> Result<usize, usize>
    requires { at ≤ length text.now }
    ensures { MatchResult result (PassesNumber text.now at) (StopsNumber text.now at) }
{
    let mut last = Last::Nothing;
    let mut i = at;
    'digits: while i < text.len() && is_in_number(text[i]) {
        let longer = last.then(text[i]);
        if longer == Last::Misplaced {
            return Err(i);
        }
        last = longer;
        i += 1;
    }
    if last.may_end() { Ok(i) } else { Err(i) }
}

/// What may stand in a number at all.
fn is_in_number(b: u8) -> bool
    ensures { result ≡ is_in_number b }
{
    matches!(b, b'0'..=b'9' | b'+' | b'-' | b'.' | b'e' | b'E')
}

pub(crate) fn is_digit(b: u8) -> bool
    ensures { result ≡ is_digit b }
{
    48 <= b && b <= 57
}
