//! Outlets for bytes: writers that give up at the first failure and remember it.
ghost use Rattle.std.specs.Prelude.{◌≡◌, ◌<◌, ◌≤◌, true, false, take, length, IfOk, OnOk, OnErr, IsErr, IsTrue, is_err, is_ok};
ghost use Rattle.std.specs.Io.KnownBytes.{Appends, Keeps};

use std::io::Write;
use std::marker::Model;
use thiserror::Error;

/// A writer that is never called again after its first failure.
#[derive(Drop)]
pub struct Outlet<X: Write> {
    inner: X,
    has_failed: bool,
    is_flushed: bool,
}

impl<X: Write> Model for Outlet<X> {
    ghost use Rattle.rc_instr.specs.Outlet.{OutletView};

    ghost Value = { OutletView };

    ghost view = { λ o. record { bytes = X.contents o.inner; failed = o.has_failed; flushed = o.is_flushed } };
}

/// A write or a flush failed, now or earlier.
#[derive(Clone, Copy, Debug, PartialEq, Eq, Error)]
#[error("write failed")]
pub struct WriteFailed;

impl<X: Write> Outlet<X> {
    /// Wraps `inner`. No write has failed yet, and nothing is flushed.
    pub fn new(inner: X) -> Outlet<X>
        ensures bytes { result.bytes ≡ X.contents inner }
        ensures failed { result.failed ≡ false }
        ensures flushed { result.flushed ≡ false }
    {
        Outlet {
            inner,
            has_failed: false,
            is_flushed: false,
        }
    }

    /// Writes a prefix of `piece` and returns its length, which is 0 only for an empty `piece`.
    ///
    /// If the writer fails, or takes no byte of a `piece` that is not empty, the outlet fails for
    /// good: this call and all later ones return `WriteFailed`, and the writer is not called again.
    pub fn write(&mut self, piece: &[u8]) -> Result<usize, WriteFailed>
        ensures count { IfOk result (λ n. n ≤ length piece.now) }
        ensures some { IfOk result (λ n. 0 < length piece.now → 0 < n) }
        ensures bytes { IfOk result (λ n. Appends self.old.bytes self.new.bytes (take n piece.now)) }
        ensures kept { OnErr result (Keeps self.old.bytes self.new.bytes) }
        ensures failed { self.new.failed ≡ is_err result }
        ensures flushed { self.old.failed ≡ false → self.new.flushed ≡ false }
        ensures again { IsTrue self.old.failed → IsErr result }
        ensures unchanged { IsTrue self.old.failed → self.new ≡ self.old }
    {
        if self.has_failed {
            return Err(WriteFailed);
        }
        self.is_flushed = false;
        match self.inner.write(piece) {
            Ok(count) if count > 0 || piece.is_empty() => Ok(count),
            _ => Err(self.fail()),
        }
    }

    /// Writes all of `text`, in as many calls of the writer as it takes.
    ///
    /// After `WriteFailed` an unknown part of `text` may be written: none if the outlet had failed
    /// before.
    #[tactic(auto, using(crate::proofs::Pieces::appends_more))]
    pub fn write_all(&mut self, text: &[u8]) -> Result<(), WriteFailed>
        ensures bytes { OnOk result (Appends self.old.bytes self.new.bytes text.now) }
        ensures failed { self.new.failed ≡ is_err result }
        ensures flushed { OnOk result (0 < length text.now → self.new.flushed ≡ false) }
        ensures unchanged { IsTrue self.old.failed → self.new ≡ self.old }
    {
        if self.has_failed {
            return Err(WriteFailed);
        }
        let mut sent = 0usize;
        while sent < text.len() {
            let count = self.write(&text[sent..])?;
            sent += count;
        }
        Ok(())
    }

    /// Calls the writer's `flush`, unless the outlet has failed before. Returns `Ok` if that
    /// succeeds.
    ///
    /// After `WriteFailed` the outlet has failed for good. What was written stays written.
    pub fn finish(&mut self) -> Result<(), WriteFailed>
        ensures bytes { Keeps self.old.bytes self.new.bytes }
        ensures failed { self.new.failed ≡ is_err result }
        ensures flushed { self.new.flushed ≡ is_ok result }
    {
        self.is_flushed = false;
        if self.has_failed {
            return Err(WriteFailed);
        }
        match self.inner.flush() {
            Ok(()) => {
                self.is_flushed = true;
                Ok(())
            }
            Err(_) => Err(self.fail()),
        }
    }

    /// Returns whether a write or a flush has failed.
    pub fn failed(&self) -> bool
        ensures { result ≡ self.now.failed }
    {
        self.has_failed
    }

    /// Returns the writer, without writing anything more.
    pub fn into_inner(self) -> X
        ensures { X.contents result ≡ self.bytes }
    {
        let Outlet {
            inner,
            has_failed: _,
            is_flushed: _,
        } = self;
        inner
    }

    // Gives the writer up.
    fn fail(&mut self) -> WriteFailed
        ensures bytes { self.new.bytes ≡ self.old.bytes }
        ensures failed { self.new.failed ≡ true }
        ensures flushed { self.new.flushed ≡ self.old.flushed }
    {
        self.has_failed = true;
        WriteFailed
    }
}
