//! A writer that fails.
ghost use Rattle.std.specs.Prelude.{IsErr};

use std::alloc::Global;
use std::io;
use std::io::Write;

fn failure<T>() -> io::Result<T>
    ensures { IsErr result }
{
    Err(io::Error::from(io::ErrorKind::BrokenPipe))
}

// The most bytes that a `Failing` takes at a write.
pub(crate) const PIECE: usize = 7;

// Takes up to `PIECE` bytes at each of its first writes. Then each write fails, or takes no byte.
// Unless it `flushes`, each flush fails.
#[derive(Drop)]
pub(crate) struct Failing {
    pub(crate) taken: Vec<u8>,
    writes: usize,
    fails: bool,
    flushes: bool,
}

impl Failing {
    // Returns a writer that takes `writes` writes, and then fails or takes nothing.
    pub(crate) fn after(alloc: Global, writes: usize, fails: bool) -> Failing {
        Failing {
            taken: Vec::new(alloc),
            writes,
            fails,
            flushes: true,
        }
    }

    // Returns a writer that takes `writes` writes, and fails at each flush.
    pub(crate) fn at_flush(alloc: Global, writes: usize) -> Failing {
        Failing {
            taken: Vec::new(alloc),
            writes,
            fails: true,
            flushes: false,
        }
    }
}

impl Write for Failing {
    fn write(&mut self, buf: &[u8]) -> io::Result<usize> {
        if self.writes == 0 {
            return if self.fails { failure() } else { Ok(0) };
        }
        self.writes -= 1;
        let count = buf.len().min(PIECE);
        self.taken.extend_from_slice(&buf[..count])?;
        Ok(count)
    }

    fn flush(&mut self) -> io::Result<()> {
        if self.flushes { Ok(()) } else { failure() }
    }
}
