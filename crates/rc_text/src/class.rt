//! Classes of names: reserved, predefined or free.
ghost use Rattle.std.specs.Prelude.{◌≡◌, ◌∷◌, [], ◌&&◌};
ghost use Rattle.std.specs.List.{list_all};
ghost use Rattle.std.specs.Str.{bytes_eq};
ghost use Rattle.rc_text.specs.Bytes.{continues_name};
ghost use Rattle.rc_text.specs.NameClasses.{is_name, directives, is_one_of, is_lower_of, is_opcode_word, is_reserved, is_predefined, class_of};

use crate::bytes::{begins_name, continues_name};
use rc_instr::opcode_named;

/// The class of a name.
#[derive(Clone, Copy, Debug, PartialEq, Eq)]
pub enum NameClass {
    /// Not a name: anything but a letter or `_` and then letters, digits and `_`.
    NoName,
    /// An opcode (the 1994 draft's with CMP; SEQ, SNE and NOP of pMARS), or a directive: ORG, END,
    /// EQU, FOR or ROF; in letters of any case.
    Reserved,
    /// CORESIZE, MAXPROCESSES, MAXCYCLES, MAXLENGTH, MINDISTANCE, WARRIORS, VERSION or CURLINE
    /// (pMARS), in capitals.
    Predefined,
    /// Any other name.
    Free,
}

/// Returns whether a name is an opcode, in letters of any case.
#[tactic(auto, unfolding(crate::specs::NameClasses::is_opcode_word))]
pub fn is_opcode_word(name: &[u8]) -> bool
    ensures { result ≡ is_opcode_word name.now }
{
    opcode_named(name).is_some()
}

/// Returns whether a name is an opcode or a directive, in letters of any case (class `Reserved`).
/// Cheaper than `name_class`, which tells the other classes apart too.
pub fn is_reserved_name(name: &[u8]) -> bool
    ensures { result ≡ (is_reserved name.now && is_name name.now) }
{
    is_reserved(name) && is_name(name)
}

/// Returns the class of a name: the first of [`NameClass`] that applies, in their order.
pub fn name_class(bytes: &[u8]) -> NameClass
    ensures { result ≡ class_of bytes.now }
{
    if !is_name(bytes) {
        NameClass::NoName
    } else if is_reserved(bytes) {
        NameClass::Reserved
    } else if is_predefined(bytes) {
        NameClass::Predefined
    } else {
        NameClass::Free
    }
}

fn continues(rest: &[u8]) -> bool
    ensures { result ≡ list_all continues_name rest.now }
{
    rest.iter().all(|byte| continues_name(*byte))
}

// Returns whether `bytes` are a letter or `_`, and then letters, digits and `_`.
#[tactic(auto, using(crate::proofs::WordSteps::name_of_more, crate::proofs::WordSteps::name_of_none))]
fn is_name(bytes: &[u8]) -> bool
    ensures { result ≡ is_name bytes.now }
{
    match bytes {
        [] => false,
        [first, rest @ ..] => begins_name(*first) && continues(rest),
    }
}

// Returns whether `name` is `word`, case included.
fn is_exactly(word: &[u8], name: &[u8]) -> bool
    ensures { result ≡ bytes_eq name.now word.now }
{
    name == word
}

// Returns whether a name is an opcode or a directive.
fn is_reserved(name: &[u8]) -> bool
    ensures { result ≡ is_reserved name.now }
{
    is_opcode_word(name) || is_directive(name)
}

// Returns whether a name is a directive. All have three letters.
fn is_directive(name: &[u8]) -> bool
    ensures { result ≡ is_one_of directives name.now }
{
    match name {
        [first, second, third] => is_directive_word(
            first.to_ascii_lowercase(),
            second.to_ascii_lowercase(),
            third.to_ascii_lowercase(),
        ),
        _ => false,
    }
}

// Returns whether these letters are `org` or `end` (1994 draft), `equ`, `for` or `rof` (pMARS).
#[inline(always)]
fn is_directive_word(first: u8, second: u8, third: u8) -> bool
    ensures { result ≡ is_lower_of directives (first ∷ second ∷ third ∷ []) }
{
    match (first, second, third) {
        (b'o', b'r', b'g') => true,
        (b'e', b'n', b'd') => true,
        (b'e', b'q', b'u') => true,
        (b'f', b'o', b'r') => true,
        (b'r', b'o', b'f') => true,
        _ => false,
    }
}

// Returns whether a name is predefined (pMARS), in capitals only.
fn is_predefined(name: &[u8]) -> bool
    ensures { result ≡ is_predefined name.now }
{
    is_exactly(b"CORESIZE", name)
        || is_exactly(b"MAXPROCESSES", name)
        || is_exactly(b"MAXCYCLES", name)
        || is_exactly(b"MAXLENGTH", name)
        || is_exactly(b"MINDISTANCE", name)
        || is_exactly(b"WARRIORS", name)
        || is_exactly(b"VERSION", name)
        || is_exactly(b"CURLINE", name)
}
