//! The words of opcodes and modifiers, from an opcode to its word and back.
ghost use Rattle.std.specs.Prelude.{◌≡◌, ◌∷◌, []};
ghost use Rattle.rc_instr.specs.Words.{opcode_text, modifier_text, opcode_of, modifier_of, opcode_or_cmp, opcode_named, modifier_named};

use crate::instruction::{Modifier, Opcode};

/// Returns the opcode whose word is `name`, in letters of any case. CMP is another word for SEQ.
pub fn opcode_named(name: &[u8]) -> Option<Opcode>
    ensures { result ≡ opcode_named name.now }
{
    match name {
        [first, second, third] => opcode_or_cmp(
            first.to_ascii_uppercase(),
            second.to_ascii_uppercase(),
            third.to_ascii_uppercase(),
        ),
        _ => None,
    }
}

/// Returns the modifier whose word is `name`, in letters of any case.
pub fn modifier_named(name: &[u8]) -> Option<Modifier>
    ensures { result ≡ modifier_named name.now }
{
    match name {
        [letter] => modifier_of_letter(letter.to_ascii_uppercase()),
        [first, second] => {
            modifier_of_letters(first.to_ascii_uppercase(), second.to_ascii_uppercase())
        }
        _ => None,
    }
}

// Returns the word of an opcode in capitals: SEQ, never CMP.
pub(crate) fn opcode_word(opcode: Opcode) -> &'static [u8]
    ensures { result.now ≡ opcode_text opcode }
{
    match opcode {
        Opcode::Dat => b"DAT",
        Opcode::Mov => b"MOV",
        Opcode::Add => b"ADD",
        Opcode::Sub => b"SUB",
        Opcode::Mul => b"MUL",
        Opcode::Div => b"DIV",
        Opcode::Mod => b"MOD",
        Opcode::Jmp => b"JMP",
        Opcode::Jmz => b"JMZ",
        Opcode::Jmn => b"JMN",
        Opcode::Djn => b"DJN",
        Opcode::Seq => b"SEQ",
        Opcode::Sne => b"SNE",
        Opcode::Slt => b"SLT",
        Opcode::Spl => b"SPL",
        Opcode::Nop => b"NOP",
    }
}

// Returns the word of a modifier in capitals.
pub(crate) fn modifier_word(modifier: Modifier) -> &'static [u8]
    ensures { result.now ≡ modifier_text modifier }
{
    match modifier {
        Modifier::A => b"A",
        Modifier::B => b"B",
        Modifier::AB => b"AB",
        Modifier::BA => b"BA",
        Modifier::F => b"F",
        Modifier::X => b"X",
        Modifier::I => b"I",
    }
}

// Returns the opcode whose word these capitals are. CMP is not a word of the table.
pub(crate) fn opcode_of(first: u8, second: u8, third: u8) -> Option<Opcode>
    ensures { result ≡ opcode_of (first ∷ second ∷ third ∷ []) }
{
    match (first, second, third) {
        (b'D', b'A', b'T') => Some(Opcode::Dat),
        (b'M', b'O', b'V') => Some(Opcode::Mov),
        (b'A', b'D', b'D') => Some(Opcode::Add),
        (b'S', b'U', b'B') => Some(Opcode::Sub),
        (b'M', b'U', b'L') => Some(Opcode::Mul),
        (b'D', b'I', b'V') => Some(Opcode::Div),
        (b'M', b'O', b'D') => Some(Opcode::Mod),
        (b'J', b'M', b'P') => Some(Opcode::Jmp),
        (b'J', b'M', b'Z') => Some(Opcode::Jmz),
        (b'J', b'M', b'N') => Some(Opcode::Jmn),
        (b'D', b'J', b'N') => Some(Opcode::Djn),
        (b'S', b'E', b'Q') => Some(Opcode::Seq),
        (b'S', b'N', b'E') => Some(Opcode::Sne),
        (b'S', b'L', b'T') => Some(Opcode::Slt),
        (b'S', b'P', b'L') => Some(Opcode::Spl),
        (b'N', b'O', b'P') => Some(Opcode::Nop),
        _ => None,
    }
}

// Returns the modifier whose word this capital is.
pub(crate) fn modifier_of_letter(letter: u8) -> Option<Modifier>
    ensures { result ≡ modifier_of (letter ∷ []) }
{
    match letter {
        b'A' => Some(Modifier::A),
        b'B' => Some(Modifier::B),
        b'F' => Some(Modifier::F),
        b'X' => Some(Modifier::X),
        b'I' => Some(Modifier::I),
        _ => None,
    }
}

// Returns the modifier whose word these capitals are.
pub(crate) fn modifier_of_letters(first: u8, second: u8) -> Option<Modifier>
    ensures { result ≡ modifier_of (first ∷ second ∷ []) }
{
    match (first, second) {
        (b'A', b'B') => Some(Modifier::AB),
        (b'B', b'A') => Some(Modifier::BA),
        _ => None,
    }
}

// Returns the opcode whose word these capitals are, or SEQ for CMP.
fn opcode_or_cmp(first: u8, second: u8, third: u8) -> Option<Opcode>
    ensures { result ≡ opcode_or_cmp (first ∷ second ∷ third ∷ []) }
{
    match (first, second, third) {
        (b'C', b'M', b'P') => Some(Opcode::Seq),
        _ => opcode_of(first, second, third),
    }
}
