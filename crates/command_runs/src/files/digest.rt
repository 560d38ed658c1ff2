//! The size and the SHA-256 digest of a text.

use sha2::{Digest, Sha256};

// The size of a text in bytes, and its digest.
#[derive(Clone, Copy, PartialEq, Eq)]
pub(crate) struct Digested {
    pub(crate) size: u64,
    pub(crate) digest: [u8; 32],
}

impl Digested {
    // Returns the size and the digest of a whole text.
    pub(crate) fn of(text: &[u8]) -> Digested {
        let mut digesting = Digesting::new();
        digesting.add(text);
        digesting.end()
    }
}

// The size and the digest so far of a text that comes piece by piece.
#[derive(Drop)]
pub(crate) struct Digesting {
    size: u64,
    hasher: Sha256,
}

impl Digesting {
    pub(crate) fn new() -> Digesting {
        Digesting {
            size: 0,
            hasher: Sha256::new(),
        }
    }

    pub(crate) fn add(&mut self, piece: &[u8]) {
        self.size = self.size.saturating_add(piece.len() as u64);
        self.hasher.update(piece);
    }

    pub(crate) fn end(self) -> Digested {
        Digested {
            size: self.size,
            digest: self.hasher.finalize(),
        }
    }
}
