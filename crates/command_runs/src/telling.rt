//! Lines on standard error. A write that fails ends them silently.
ghost use Rattle.std.specs.Prelude.{◌≡◌, false, map, IsTrue};
ghost use Rattle.std.specs.List.{concat};
ghost use Rattle.std.specs.Io.KnownBytes.{Appends};

pub(crate) mod fault_line;
pub(crate) mod finding;
pub(crate) mod refused;
pub(crate) mod witness;

use rc_instr::Outlet;
use std::io::Write;

/// Writes the parts of a line. Writes nothing once a write has failed.
pub fn tell<V: Write>(err: &mut Outlet<V>, parts: &[&str])
    ensures written { err.new.failed ≡ false → Appends err.old.bytes err.new.bytes (concat (map (λ part. part.now) parts.now)) }
    ensures silent { IsTrue err.old.failed → err.new ≡ err.old }
{
    for part in parts {
        tell_bytes(err, (*part).as_bytes());
    }
}

/// Writes bytes that need not be UTF-8. Writes nothing once a write has failed.
pub fn tell_bytes<V: Write>(err: &mut Outlet<V>, bytes: &[u8])
    ensures written { err.new.failed ≡ false → Appends err.old.bytes err.new.bytes bytes.now }
    ensures silent { IsTrue err.old.failed → err.new ≡ err.old }
{
    if !err.failed() {
        let _ = err.write_all(bytes);
    }
}
