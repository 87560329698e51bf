//! Cuts a text into lines, and a line into words, and reads numbers. Nothing here allocates memory.
//!
//! A line ends with a line feed, which may be missing at the end of the last line. Words are separated by one space.

ghost use Rattle.std.specs.Prelude.{◌≡◌, ◌≤◌, ◌<◌, ◌∷◌, [], length, IfNone, IfSome};
ghost use Rattle.lfm_text.specs.Text.{parts_at, lines_of, words_of, AreWords, digits_number, number_of, max_digits};

/// The greatest number of digits that a number may have.
pub const MAX_DIGITS: usize = 18;

/// The words of a line, if there are two to four of them.
#[derive(Clone, Copy, Debug)]
pub enum LineWords<'a> {
    /// Two words.
    Two(&'a [u8], &'a [u8]),
    /// Three words.
    Three(&'a [u8], &'a [u8], &'a [u8]),
    /// Four words.
    Four(&'a [u8], &'a [u8], &'a [u8], &'a [u8]),
    /// Any other number of words.
    Other,
}

/// The bytes before the first byte that equals `separator`, and the bytes after it.
fn cut(text: &[u8], separator: u8) -> Option<(&[u8], &[u8])>
    ensures whole { IfNone result (parts_at separator text.now ≡ text.now ∷ []) }
    ensures parts { IfSome result
        (λ x. parts_at separator text.now ≡ x.0.now ∷ parts_at separator x.1.now) }
    ensures shorter { IfSome result (λ x. length x.1.now < length text.now) }
{
    let at = text.iter().position(|byte| *byte == separator)?;
    Some((&text[..at], &text[at + 1..]))
}

/// The first line of a text, without its line feed, and the text after the line feed. `None` if the text is empty.
pub fn first_line(text: &[u8]) -> Option<(&[u8], &[u8])>
    ensures none { IfNone result (text.now ≡ []) }
    ensures first { IfSome result (λ x. lines_of text.now ≡ x.0.now ∷ lines_of x.1.now) }
    ensures shorter { IfSome result (λ x. length x.1.now < length text.now) }
{
    if text.is_empty() {
        return None;
    }
    match cut(text, b'\n') {
        Some((line, rest)) => Some((line, rest)),
        None => Some((text, &[])),
    }
}

/// The words of a line. Two spaces in a row have an empty word between them.
pub fn split_words(line: &[u8]) -> LineWords<'_>
    ensures { AreWords result (words_of line.now) }
{
    let Some((first, rest)) = cut(line, b' ') else {
        return LineWords::Other;
    };
    let Some((second, rest)) = cut(rest, b' ') else {
        return LineWords::Two(first, rest);
    };
    let Some((third, rest)) = cut(rest, b' ') else {
        return LineWords::Three(first, second, rest);
    };
    match cut(rest, b' ') {
        None => LineWords::Four(first, second, third, rest),
        Some(_) => LineWords::Other,
    }
}

/// The number with these digits, at most 18. `None` if a byte is not a digit.
fn read_digits(word: &[u8]) -> Option<u64>
    requires { length word.now ≤ max_digits }
    ensures { result ≡ digits_number word.now }
{
    let mut number = 0;
    for digit in word {
        if !digit.is_ascii_digit() {
            return None;
        }
        number = number * 10 + u64::from(*digit - b'0');
    }
    Some(number)
}

/// The number that a word spells: `0`, or at most 18 digits of which the first is not 0. So the number is below 10^18. `None`
/// for any other word.
pub fn read_number(word: &[u8]) -> Option<u64>
    ensures { result ≡ number_of word.now }
{
    match word {
        [] => None,
        [b'0', _, ..] => None,
        _ if word.len() > MAX_DIGITS => None,
        _ => read_digits(word),
    }
}
