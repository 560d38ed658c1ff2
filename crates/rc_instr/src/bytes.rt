//! Takes one expected byte off the front of a slice.
ghost use Rattle.std.specs.Prelude.{◌≡◌, ℕ, List, ◌∷◌, IfSome, IsSomeAnd};

/// Returns the rest of `bytes` if the first of them is `byte`.
pub fn after(byte: u8, bytes: &[u8]) -> Option<&[u8]>
    ensures found { IfSome result (λ rest. bytes.now ≡ byte ∷ rest.now) }
    ensures only { (rest : List ℕ) → bytes.now ≡ byte ∷ rest → IsSomeAnd result (λ r. r.now ≡ rest) }
{
    match bytes {
        [first, rest @ ..] if *first == byte => Some(rest),
        _ => None,
    }
}
