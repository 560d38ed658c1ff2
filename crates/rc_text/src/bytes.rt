//! Classes of bytes, and the length of what a text begins with.
ghost use Rattle.std.specs.Prelude.{◌≡◌};
ghost use Rattle.std.specs.Char.{is_ascii_digit};
ghost use Rattle.std.specs.List.{prefix_len};
ghost use Rattle.rc_text.specs.Bytes.{is_blank, begins_name, continues_name, is_same_word, begins_with_word};
ghost use Rattle.rc_text.specs.Tokens.{comment_len};

/// Returns whether `byte` is a space, a tab or a carriage return. A line feed ends the line.
pub fn is_blank(byte: u8) -> bool
    ensures { result ≡ is_blank byte }
{
    byte == b' ' || byte == b'\t' || byte == b'\r'
}

/// Returns whether two words are equal, ignoring the case of ASCII letters.
pub fn is_same_word(word: &[u8], name: &[u8]) -> bool
    ensures { result ≡ is_same_word word.now name.now }
{
    word.eq_ignore_ascii_case(name)
}

// Returns whether `byte` is a letter or `_`.
pub(crate) fn begins_name(byte: u8) -> bool
    ensures { result ≡ begins_name byte }
{
    byte.is_ascii_alphabetic() || byte == b'_'
}

// Returns whether `byte` is a letter, a digit or `_`.
pub(crate) fn continues_name(byte: u8) -> bool
    ensures { result ≡ continues_name byte }
{
    begins_name(byte) || byte.is_ascii_digit()
}

// Returns the length of the comment that `text` begins with, without its line feed.
pub(crate) fn comment_len(text: &[u8]) -> usize
    ensures { result ≡ comment_len text.now }
{
    text.iter().take_while(|byte| **byte != b'\n').count()
}

// Counts the blanks that `text` begins with.
pub(crate) fn blanks_len(text: &[u8]) -> usize
    ensures { result ≡ prefix_len is_blank text.now }
{
    text.iter().take_while(|byte| is_blank(**byte)).count()
}

// Returns the length of the name that `text` begins with.
pub(crate) fn name_len(text: &[u8]) -> usize
    ensures { result ≡ prefix_len continues_name text.now }
{
    text.iter()
        .take_while(|byte| continues_name(**byte))
        .count()
}

// Counts the decimal digits that `text` begins with.
pub(crate) fn digits_len(text: &[u8]) -> usize
    ensures { result ≡ prefix_len is_ascii_digit text.now }
{
    text.iter().take_while(|byte| byte.is_ascii_digit()).count()
}

// Returns whether `text` begins with `word`, in letters of any case.
pub(crate) fn begins_with_word(word: &[u8], text: &[u8]) -> bool
    ensures { result ≡ begins_with_word word.now text.now }
{
    text.len() >= word.len() && text[..word.len()].eq_ignore_ascii_case(word)
}
