//! The words and signs of a line of code: opcodes, modifiers, modes.
ghost use Rattle.std.specs.Prelude.{◌≡◌, None};
ghost use Rattle.rc_expand.specs.Read.Lines.{is_dot};
ghost use Rattle.rc_asm.specs.Words.{mode_in, is_comma, is_plain, opcode_in, modifier_in};

use rc_instr::{Mode, Modifier, Opcode, modifier_named, opcode_named};
use rc_text::{Kind, Sign, Token, text_of};

#[tactic(auto, unfolding(crate::specs::Words::opcode_in))]
pub(crate) fn opcode_in(source: &[u8], token: &Token) -> Option<Opcode>
    ensures { result ≡ opcode_in source.now token.now }
{
    if is_plain(token) {
        opcode_named(text_of(source, token))
    } else {
        None
    }
}

#[tactic(auto, unfolding(crate::specs::Words::modifier_in))]
pub(crate) fn modifier_in(source: &[u8], token: &Token) -> Option<Modifier>
    ensures { result ≡ modifier_in source.now token.now }
{
    if is_plain(token) {
        modifier_named(text_of(source, token))
    } else {
        None
    }
}

pub(crate) fn mode_in(token: &Token) -> Option<Mode>
    ensures { result ≡ mode_in token.now }
{
    match token.kind {
        Kind::Sign(Sign::Hash) => Some(Mode::Immediate),
        Kind::Sign(Sign::Dollar) => Some(Mode::Direct),
        Kind::Sign(Sign::Star) => Some(Mode::AIndirect),
        Kind::Sign(Sign::At) => Some(Mode::BIndirect),
        Kind::Sign(Sign::OpenBrace) => Some(Mode::APredecrement),
        Kind::Sign(Sign::Less) => Some(Mode::BPredecrement),
        Kind::Sign(Sign::CloseBrace) => Some(Mode::APostincrement),
        Kind::Sign(Sign::Greater) => Some(Mode::BPostincrement),
        _ => None,
    }
}

pub(crate) fn is_comma(token: &Token) -> bool
    ensures { result ≡ is_comma token.now }
{
    matches!(token.kind, Kind::Sign(Sign::Comma))
}

pub(crate) fn is_dot(token: &Token) -> bool
    ensures { result ≡ is_dot token.now }
{
    matches!(token.kind, Kind::Sign(Sign::Dot))
}

// Returns whether a token is a name without a joined counter.
fn is_plain(token: &Token) -> bool
    ensures { result ≡ is_plain token.now }
{
    match token.kind {
        Kind::Name => token.joined.is_empty(),
        _ => false,
    }
}
