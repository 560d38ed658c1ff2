//! Decimals in texts: 0 to 4294967295 without leading zeros, or 1 to 9 digits with or without them.
ghost use Rattle.std.specs.Prelude.{◌≡◌, ℕ, ◌<◌, ◌≤◌, ◌^◌, true, List, ◌++◌, length, IfSome, IsSomeAnd, Some};
ghost use Rattle.std.specs.Fmt.{decimal};
ghost use Rattle.std.specs.Str.{all_ascii_digits};
ghost use Rattle.rc_instr.specs.Digits.{NoDigitFirst, digits_len, read_on};
ghost use Rattle.rc_instr.specs.Decimal.{padded_decimal};

/// Reads the decimal at the front and returns its value and the rest of `bytes`.
///
/// All digits at the front belong to it. Returns `None` if there are none, if the first of several
/// is 0, or if the value is above 4294967295.
pub fn decimal_at(bytes: &[u8]) -> Option<(u32, &[u8])>
    ensures found { IfSome result (λ x. (bytes.now ≡ decimal x.0 ++ x.1.now) × (x.0 < 2 ^ 32)) }
    ensures all_digits { IfSome result (λ x. NoDigitFirst x.1.now) }
    ensures only { (n : ℕ) (rest : List ℕ) → n < 2 ^ 32 → NoDigitFirst rest → bytes.now ≡ decimal n ++ rest
        → IsSomeAnd result (λ x. (x.0 ≡ n) × (x.1.now ≡ rest)) }
{
    let (digits, rest) = bytes.split_at(digits_len(bytes));
    match digits_number(digits) {
        Some(number) => Some((number, rest)),
        None => None,
    }
}

/// Reads all of `bytes` as one decimal, 0 to 4294967295. A leading zero or any other byte gives
/// `None`.
#[tactic(auto, using(crate::proofs::Decimals::ends))]
pub fn decimal_of(bytes: &[u8]) -> Option<u32>
    ensures found { IfSome result (λ n. (bytes.now ≡ decimal n) × (n < 2 ^ 32)) }
    ensures only { (n : ℕ) → n < 2 ^ 32 → bytes.now ≡ decimal n → result ≡ Some n }
{
    match decimal_at(bytes) {
        Some((number, [])) => Some(number),
        _ => None,
    }
}

/// Reads 1 to 9 digits as a number. Leading zeros are allowed; anything else gives `None`.
#[tactic(auto, unfolding(crate::specs::Decimal::padded_decimal))]
pub fn padded_decimal(digits: &[u8]) -> Option<u32>
    ensures { result ≡ padded_decimal digits.now }
{
    if digits.is_empty() {
        return None;
    }
    if digits.len() > 9 {
        return None;
    }
    let mut number = 0u32;
    for digit in digits {
        if !digit.is_ascii_digit() {
            return None;
        }
        number = number * 10 + u32::from(*digit - b'0');
    }
    Some(number)
}

// Counts the digits at the front.
fn digits_len(bytes: &[u8]) -> usize
    ensures { result ≡ digits_len bytes.now }
{
    bytes
        .iter()
        .take_while(|byte| byte.is_ascii_digit())
        .count()
}

// Returns the value of at most ten digits. More digits might not fit a `u64`.
fn digits_value(digits: &[u8]) -> u64
    requires short { length digits.now ≤ 10 }
    requires digits { all_ascii_digits digits.now ≡ true }
    ensures { result ≡ read_on 0 digits.now }
{
    let mut number = 0u64;
    for digit in digits {
        number = number * 10 + u64::from(*digit - b'0');
    }
    number
}

// Reads `digits` as a `u32`. A leading zero or a larger value gives `None`.
#[tactic(auto, using(crate::proofs::Decimals::decimals))]
fn digits_number(digits: &[u8]) -> Option<u32>
    requires { all_ascii_digits digits.now ≡ true }
    ensures found { IfSome result (λ n. (digits.now ≡ decimal n) × (n < 2 ^ 32)) }
    ensures only { (n : ℕ) → n < 2 ^ 32 → digits.now ≡ decimal n → result ≡ Some n }
{
    if digits.is_empty() || digits.len() > 10 {
        return None;
    }
    if digits.len() > 1 && digits[0] == b'0' {
        return None;
    }
    let number = digits_value(digits);
    if number > u64::from(u32::MAX) {
        return None;
    }
    Some(number as u32)
}
