//! Recognition of a single token.
ghost use Rattle.std.specs.Prelude.{◌≡◌, ◌^◌, ◌<◌, take, length, slice_index, min};
ghost use Rattle.std.specs.Char.{is_ascii_digit};
ghost use Rattle.std.specs.List.{prefix_len};
ghost use Rattle.rc_text.specs.Bytes.{decimal_value};
ghost use Rattle.rc_text.specs.Signs.{long_sign, short_sign};
ghost use Rattle.rc_text.specs.Tokens.{sign_lexeme, number_lexeme, is_assert, lexeme_of};

use crate::bytes::{begins_name, begins_with_word, comment_len, digits_len, is_blank, name_len};
use crate::fault::LexFault;
use crate::token::{Kind, Sign};

/// What a text begins with: bytes to skip, a line feed, a token by its length and kind, or a fault.
#[derive(Clone, Copy, Debug, PartialEq, Eq)]
pub enum Lexeme {
    Trivia(usize),
    LineFeed,
    Token(usize, Kind),
    Fault(LexFault),
}

// Reads what `text` begins with. `at_line_start` says that only blanks come before it on its line.
pub(crate) fn lexeme_of(text: &[u8], at_line_start: bool) -> Lexeme
    requires { 0 < length text.now }
    ensures { result ≡ lexeme_of at_line_start text.now }
{
    let byte = text[0];
    if is_blank(byte) {
        Lexeme::Trivia(1)
    } else if byte == b'\n' {
        Lexeme::LineFeed
    } else if byte == b';' {
        if at_line_start && is_assert(text) {
            Lexeme::Token(7, Kind::Assert)
        } else {
            Lexeme::Trivia(comment_len(text))
        }
    } else if begins_name(byte) {
        Lexeme::Token(name_len(text), Kind::Name)
    } else if byte.is_ascii_digit() {
        number(text)
    } else {
        sign(text)
    }
}

// Returns the sign that two bytes spell.
fn long_sign(first: u8, second: u8) -> Option<Sign>
    ensures { result ≡ long_sign first second }
{
    match (first, second) {
        (b'<', b'=') => Some(Sign::LessEqual),
        (b'>', b'=') => Some(Sign::GreaterEqual),
        (b'=', b'=') => Some(Sign::Equal),
        (b'!', b'=') => Some(Sign::NotEqual),
        (b'&', b'&') => Some(Sign::And),
        (b'|', b'|') => Some(Sign::Or),
        _ => None,
    }
}

// Returns the sign that one byte spells.
fn short_sign(byte: u8) -> Option<Sign>
    ensures { result ≡ short_sign byte }
{
    match byte {
        b'.' => Some(Sign::Dot),
        b',' => Some(Sign::Comma),
        b':' => Some(Sign::Colon),
        b'&' => Some(Sign::Ampersand),
        b'#' => Some(Sign::Hash),
        b'$' => Some(Sign::Dollar),
        b'@' => Some(Sign::At),
        b'{' => Some(Sign::OpenBrace),
        b'}' => Some(Sign::CloseBrace),
        b'(' => Some(Sign::Open),
        b')' => Some(Sign::Close),
        b'+' => Some(Sign::Plus),
        b'-' => Some(Sign::Minus),
        b'*' => Some(Sign::Star),
        b'/' => Some(Sign::Slash),
        b'%' => Some(Sign::Percent),
        b'!' => Some(Sign::Bang),
        b'<' => Some(Sign::Less),
        b'>' => Some(Sign::Greater),
        _ => None,
    }
}

// Returns the value of decimal digits, or 2^32 if it is greater.
#[tactic(auto, using(crate::proofs::NumberSteps::digit_at, crate::proofs::NumberSteps::decimal_more))]
fn decimal(digits: &[u8]) -> u64
    requires { prefix_len is_ascii_digit digits.now ≡ length digits.now }
    ensures { result ≡ min (decimal_value digits.now) (2 ^ 32) }
{
    let mut value: u64 = 0;
    for digit in digits {
        value = (value * 10 + u64::from(*digit - b'0')).min(1 << 32);
    }
    value
}

// Returns whether `text` begins with `;assert`, in letters of any case, and a blank.
fn is_assert(text: &[u8]) -> bool
    ensures { result ≡ is_assert text.now }
{
    begins_with_word(b";assert", text) && text.len() > 7 && is_blank(text[7])
}

// Reads the decimal that `text` begins with, up to 2^32 - 1.
#[tactic(auto, using(crate::proofs::NumberSteps::all_digits))]
fn number(text: &[u8]) -> Lexeme
    ensures { let len = prefix_len is_ascii_digit text.now in
        result ≡ number_lexeme len (decimal_value (take len text.now)) }
{
    let len = digits_len(text);
    let value = decimal(&text[..len]);
    if value < 1 << 32 {
        Lexeme::Token(len, Kind::Number(value as u32))
    } else {
        Lexeme::Fault(LexFault::NumberTooLarge)
    }
}

// Reads the sign that `text` begins with; one of two bytes comes before one of one byte.
fn sign(text: &[u8]) -> Lexeme
    requires { 0 < length text.now }
    ensures { let first = slice_index text.now 0 in
        result ≡ sign_lexeme (long_sign first (slice_index text.now 1)) (short_sign first) }
{
    let second = if text.len() > 1 { text[1] } else { 0 };
    match long_sign(text[0], second) {
        Some(sign) => Lexeme::Token(2, Kind::Sign(sign)),
        None => match short_sign(text[0]) {
            Some(sign) => Lexeme::Token(1, Kind::Sign(sign)),
            None => Lexeme::Fault(LexFault::BadByte),
        },
    }
}
