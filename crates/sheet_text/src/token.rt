// Values of a format sheet: a name, a whole number or a blank.
ghost use Rattle.std.specs.Prelude.{◌≡◌, ℕ, ◌^◌, ◌<◌, true, decimal, MatchOption};
ghost use Rattle.std.specs.Option.{option_map};
ghost use Rattle.sheet_text.specs.Chars.{class_of, leads, follows, is_name, digit_of};
ghost use Rattle.sheet_text.specs.Plain.{ProperName};
ghost use Rattle.sheet_text.specs.Rows.{is_number, word_in};
ghost use Rattle.sheet_text.specs.Values.{meaning, value_of, number_of, digits_after};

use super::word::{Word, read_word};

/// What a byte may be in a name.
#[derive(Clone, Copy, PartialEq)]
pub enum NameByte {
    Letter,
    Digit,
    Underscore,
    Other,
}

impl NameByte {
    // Whether a name may begin with it.
    fn leads(self) -> bool
        ensures { result ≡ leads self }
    {
        self == NameByte::Letter
    }

    // Whether it may stand in a name after the first byte.
    fn follows(self) -> bool
        ensures { result ≡ follows self }
    {
        self != NameByte::Other
    }
}

// What a byte may be in a name, by its character.
fn name_byte(b: u8) -> NameByte
    ensures { result ≡ class_of b }
{
    match b as char {
        'a'..='z' | 'A'..='Z' => NameByte::Letter,
        '0'..='9' => NameByte::Digit,
        '_' => NameByte::Underscore,
        _ => NameByte::Other,
    }
}

/// A value; a name borrows its bytes from the sheet's text.
#[derive(Clone, Copy)]
pub enum Token<'a> {
    Name(&'a [u8]),
    Number(u64),
    Blank,
}

impl Token<'_> {
    /// Whether it is the number n.
    pub(crate) fn is_number(self, n: usize) -> bool
        ensures { result ≡ is_number n (meaning self.entry) }
    {
        matches!(self, Token::Number(m) if m == n as u64)
    }

    /// The word that it is, if it is one.
    pub(crate) fn word(self) -> Option<Word>
        ensures { result ≡ word_in (meaning self.entry) }
    {
        match self {
            Token::Name(bytes) => read_word(bytes),
            Token::Number(_) | Token::Blank => None,
        }
    }
}

/// Whether the bytes are a name: a letter, then letters, digits or `_`, at most 16 in all.
#[tactic(auto, using(crate::proofs::Plain::name_is, crate::proofs::Plain::name_made))]
pub fn is_name(bytes: &[u8]) -> bool
    ensures is { result ≡ is_name bytes.now }
    ensures proper { result ≡ true → ProperName bytes.now }
    ensures every { ProperName bytes.now → result ≡ true }
{
    match bytes {
        [first, rest @ ..] => bytes.len() <= 16
            && name_byte(*first).leads()
            && rest.iter().all(|b| name_byte(*b).follows()),
        [] => false,
    }
}

/// The largest number of a sheet.
pub const LIMIT: u64 = 0x7fff_ffff_ffff_ffff;

// The number that decimal digits write, if there are no other bytes and it is at most `LIMIT`. No `parse`:
// that takes a `+`, and has another limit.
fn read_digits(bytes: &[u8]) -> Option<u64>
    ensures { result ≡ digits_after 0 bytes.now }
{
    let mut n: u64 = 0;
    for b in bytes {
        let digit = digit_of(*b)?;
        if n > (LIMIT - digit) / 10 {
            return None;
        }
        n = 10 * n + digit;
    }
    Some(n)
}

fn digit_of(b: u8) -> Option<u64>
    ensures { result ≡ digit_of b }
{
    char::from(b).to_digit(10).map(u64::from)
}

/// The decimal number that the bytes write, without leading zeros: they are what the number is in print.
#[tactic(auto, using(crate::proofs::Decimals::read))]
pub fn read_number(bytes: &[u8]) -> Option<u64>
    ensures is { result ≡ number_of bytes.now }
    ensures printed { MatchOption result ((n : ℕ) → n < 2 ^ 63 → decimal n ≡ bytes.now → ⊥) (λ n. (n < 2 ^ 63) × (decimal n ≡ bytes.now)) }
{
    match bytes {
        [] | [b'0', _, ..] => None,
        _ => read_digits(bytes),
    }
}

// The value that the bytes are, if they are one.
pub(crate) fn read_token(part: &[u8]) -> Option<Token<'_>>
    ensures { option_map meaning result ≡ value_of part.now }
{
    match part {
        [b'-'] => Some(Token::Blank),
        _ if is_name(part) => Some(Token::Name(part)),
        _ => Some(Token::Number(read_number(part)?)),
    }
}
