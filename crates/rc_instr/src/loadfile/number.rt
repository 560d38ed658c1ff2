//! Readers for the numbers of a load file, which have a sign that depends on the core size.
ghost use Rattle.std.specs.Prelude.{◌≡◌, Some, None, MatchOption};
ghost use Rattle.rc_instr.specs.LoadReaders.{short_number_at, small_at, large_at, number_at};

use crate::bytes::after;
use crate::decimal::decimal_at;

// Reads a decimal up to 65535.
pub(crate) fn short_number_at(bytes: &[u8]) -> Option<(u16, &[u8])>
    ensures { MatchOption result (short_number_at bytes.now ≡ None) (λ x. short_number_at bytes.now ≡ Some (x.0, x.1.now)) }
{
    let (number, rest) = decimal_at(bytes)?;
    if number > 65535 {
        return None;
    }
    Some((number as u16, rest))
}

// Reads an A-number or B-number, which is below the core size.
#[tactic(auto, unfolding(crate::specs::LoadReaders::number_at))]
pub(crate) fn number_at(core: u16, bytes: &[u8]) -> Option<(u16, &[u8])>
    ensures { MatchOption result (number_at core bytes.now ≡ None) (λ x. number_at core bytes.now ≡ Some (x.0, x.1.now)) }
{
    match after(b'-', bytes) {
        Some(digits) => large_at(core, digits),
        None => small_at(core, bytes),
    }
}

// Reads a number up to half the core size, written without a sign.
fn small_at(core: u16, bytes: &[u8]) -> Option<(u16, &[u8])>
    ensures { MatchOption result (small_at core bytes.now ≡ None) (λ x. small_at core bytes.now ≡ Some (x.0, x.1.now)) }
{
    match short_number_at(bytes) {
        Some((number, rest)) if 2 * u32::from(number) <= u32::from(core) => Some((number, rest)),
        _ => None,
    }
}

// Reads a number above half the core size, from the digits after its minus sign.
fn large_at(core: u16, bytes: &[u8]) -> Option<(u16, &[u8])>
    ensures { MatchOption result (large_at core bytes.now ≡ None) (λ x. large_at core bytes.now ≡ Some (x.0, x.1.now)) }
{
    match short_number_at(bytes) {
        Some((number, rest)) if 0 < number && 2 * u32::from(number) < u32::from(core) => {
            Some((core - number, rest))
        }
        _ => None,
    }
}
