//! The load files of the warriors that several modules fight with.

// Loses its only task in its first turn.
pub(crate) const DAT: &[u8] = b"ORG 0\nDAT.F $0, $0\n";

// Never loses its task.
pub(crate) const IMP: &[u8] = b"ORG 0\nMOV.I $0, $1\n";

// Jumps to itself, and writes nothing.
pub(crate) const WAIT: &[u8] = b"ORG 0\nJMP.B $0, $0\n";

// Lowers the B-number of its second cell, and copies its first cell to where that then points.
pub(crate) const COPIER: &[u8] = b"ORG 0\nMOV.I $0, <1\nDAT.F $0, $4\n";

// Adds a task at each SPL, until it has as many as the rules allow.
pub(crate) const SPLITS_AND_JUMPS: &[u8] = b"ORG 0\nSPL.B $0, $0\nJMP.B $-1, $0\n";
