//! The numbers of a range line.
ghost use Rattle.std.specs.Prelude.{◌≡◌, ◌<◌, ◌≤ℤ◌, ℤ, pos, negsuc, IfSome};
ghost use Rattle.tune_template.specs.Ranges.{small_number, signed_number, step_number};

use rc_instr::padded_decimal;

// Reads an optional minus and 1 to 5 digits, -65535 to 65535.
pub(crate) fn signed_number(word: &[u8]) -> Option<i32>
    ensures value { result ≡ signed_number word.now }
    ensures low { IfSome result (λ z. negsuc 65534 ≤ℤ z) }
    ensures high { IfSome result (λ z. z ≤ℤ pos 65535) }
{
    match word {
        [] => None,
        [first, digits @ ..] => if *first == b'-' {
            Some(-i32::from(small_number(digits)?))
        } else {
            Some(i32::from(small_number(word)?))
        },
    }
}

// Reads 1 to 5 digits, 1 to 65535.
pub(crate) fn step_number(word: &[u8]) -> Option<u16>
    ensures value { result ≡ step_number word.now }
    ensures some { IfSome result (λ n. 0 < n) }
{
    let step = small_number(word)?;
    if step > 0 { Some(step) } else { None }
}

// Reads 1 to 5 digits, 0 to 65535.
fn small_number(word: &[u8]) -> Option<u16>
    ensures { result ≡ small_number word.now }
{
    if word.len() > 5 {
        return None;
    }
    u16::try_from(padded_decimal(word)?).ok()
}
