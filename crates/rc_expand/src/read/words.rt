//! Reserved words, and the words of lines.
ghost use Rattle.std.specs.Prelude.{◌≡◌, ◌&&◌};
ghost use Rattle.rc_text.specs.Bytes.{is_same_word};
ghost use Rattle.rc_text.specs.NameClasses.{class_of};
ghost use Rattle.rc_expand.specs.Read.Lines.{is_reserved_class, is_unreserved_name, is_opcode, has_modifier, word_of_name, word_of};

use crate::read::raw_line::RawWord;
use crate::tokens::{is_dot, is_name_token, is_unjoined};
use rc_text::{Kind, Token, is_opcode_word, is_reserved_name, is_same_word, text_of};

// Returns whether a token is an unreserved name, as each name with joined counters is.
#[tactic(auto, unfolding(crate::specs::Read::Lines::is_unreserved_name))]
pub(crate) fn is_unreserved_name(source: &[u8], token: &Token) -> bool
    ensures { result ≡ is_unreserved_name source.now token.now }
{
    is_name_token(token) && !(is_unjoined(token) && is_reserved(text_of(source, token)))
}

// Returns whether a token is an opcode. A name with joined counters is not an opcode.
#[tactic(auto, unfolding(crate::specs::Read::Lines::is_opcode))]
pub(crate) fn is_opcode(source: &[u8], token: &Token) -> bool
    ensures { result ≡ is_opcode source.now token.now }
{
    is_name_token(token) && is_unjoined(token) && is_opcode_word(text_of(source, token))
}

// Returns whether three tokens are an opcode, a dot and a modifier. Any name passes as a modifier
// here; the assembler checks it.
pub(crate) fn has_modifier(source: &[u8], opcode: &Token, dot: &Token, modifier: &Token) -> bool
    ensures { result ≡ has_modifier source.now opcode.now dot.now modifier.now }
{
    is_opcode(source, opcode) && is_dot(dot) && is_name_token(modifier)
}

// Returns the word of a line by its first token after the labels.
pub(crate) fn word_of(source: &[u8], token: &Token) -> RawWord
    ensures { result ≡ word_of source.now token.now }
{
    match token.kind {
        Kind::Name => word_of_name(text_of(source, token)),
        Kind::Assert => RawWord::Assert,
        _ => RawWord::Code,
    }
}

// Returns whether a name is an opcode or a directive.
#[tactic(auto, using(crate::proofs::Reading::LabelSteps::reserved_is))]
fn is_reserved(name: &[u8]) -> bool
    ensures { result ≡ is_reserved_class (class_of name.now) }
{
    is_reserved_name(name)
}

// Returns the directive that a name spells, in letters of any case, or `Code`.
#[tactic(auto, unfolding(crate::specs::Read::Lines::word_of_name))]
fn word_of_name(name: &[u8]) -> RawWord
    ensures { result ≡ word_of_name name.now }
{
    if is_same_word(b"ORG", name) {
        RawWord::Org
    } else if is_same_word(b"END", name) {
        RawWord::End
    } else if is_same_word(b"EQU", name) {
        RawWord::Equ
    } else if is_same_word(b"FOR", name) {
        RawWord::For
    } else if is_same_word(b"ROF", name) {
        RawWord::Rof
    } else {
        RawWord::Code
    }
}
