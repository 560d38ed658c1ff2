//! How the text of a reader begins.
ghost use Rattle.std.specs.Prelude.{◌≡◌, ◌↔◌, take, length, IfOk, IfSome, IsTrue};

use std::alloc::Global;
use std::io;
use std::io::Read;

// Returns whether a text begins with `beginning`.
pub(crate) fn begins_with<R: Read>(
    alloc: Global,
    input: &mut R,
    beginning: &[u8],
) -> io::Result<bool>
    ensures { IfOk result (λ yes. IfSome (R.remaining input.old) (λ text. IsTrue yes ↔ (take (length beginning.now) text ≡ beginning.now))) }
{
    let mut front = Vec::new(alloc);
    input.take(beginning.len() as u64).read_to_end(&mut front)?;
    Ok(front.as_slice() == beginning)
}
