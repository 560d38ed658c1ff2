//! Readers for the words of a load file: a mode, an opcode or a modifier at the front of bytes.
ghost use Rattle.std.specs.Prelude.{◌≡◌, ◌∷◌, [], Some, None, MatchOption};
ghost use Rattle.rc_instr.specs.LoadText.{mode_of};
ghost use Rattle.rc_instr.specs.LoadReaders.{mode_at, opcode_at, modifier_at};

use crate::bytes::after;
use crate::instruction::{Mode, Modifier, Opcode};
use crate::words::{modifier_of_letter, modifier_of_letters, opcode_of};

#[tactic(auto, unfolding(crate::specs::LoadReaders::mode_at))]
pub(crate) fn mode_at(bytes: &[u8]) -> Option<(Mode, &[u8])>
    ensures { MatchOption result (mode_at bytes.now ≡ None) (λ x. mode_at bytes.now ≡ Some (x.0, x.1.now)) }
{
    let (sign, rest) = bytes.split_first()?;
    Some((mode_of(*sign)?, rest))
}

#[tactic(auto, unfolding(crate::specs::LoadReaders::opcode_at))]
pub(crate) fn opcode_at(bytes: &[u8]) -> Option<(Opcode, &[u8])>
    ensures { MatchOption result (opcode_at bytes.now ≡ None) (λ x. opcode_at bytes.now ≡ Some (x.0, x.1.now)) }
{
    let (first, rest) = bytes.split_first()?;
    let (second, rest) = rest.split_first()?;
    let (third, rest) = rest.split_first()?;
    Some((opcode_of(*first, *second, *third)?, rest))
}

// Also reads the space after the modifier, since `A` alone begins `AB` too.
#[tactic(auto, unfolding(crate::specs::LoadReaders::modifier_at))]
pub(crate) fn modifier_at(bytes: &[u8]) -> Option<(Modifier, &[u8])>
    ensures { MatchOption result (modifier_at bytes.now ≡ None) (λ x. modifier_at bytes.now ≡ Some (x.0, x.1.now)) }
{
    let (first, rest) = bytes.split_first()?;
    let (second, rest) = rest.split_first()?;
    if *second == b' ' {
        return Some((modifier_of_letter(*first)?, rest));
    }
    Some((modifier_of_letters(*first, *second)?, after(b' ', rest)?))
}

// Returns the mode of a sign.
fn mode_of(sign: u8) -> Option<Mode>
    ensures { result ≡ mode_of (sign ∷ []) }
{
    match sign {
        b'#' => Some(Mode::Immediate),
        b'$' => Some(Mode::Direct),
        b'*' => Some(Mode::AIndirect),
        b'@' => Some(Mode::BIndirect),
        b'{' => Some(Mode::APredecrement),
        b'<' => Some(Mode::BPredecrement),
        b'}' => Some(Mode::APostincrement),
        b'>' => Some(Mode::BPostincrement),
        _ => None,
    }
}
