//! The state of the second pass, and a block that is to be copied.
ghost use Rattle.std.specs.Prelude.{◌≡◌};
ghost use Rattle.rc_expand.specs.Results.{Returns};
ghost use Rattle.rc_expand.specs.Unroll.{nothing_unrolled, with_line, with_copy};

use crate::fault::{ExpandFault, ExpandKind, at_line};
use crate::limits;
use crate::read::blocks::BlockSlice;
use crate::unroll::reached::Reached;
use std::alloc::Global;
use std::marker::Model;

// The lines so far, and the number of copies of blocks.
#[derive(Drop)]
pub(crate) struct UnrolledSoFar<'a> {
    lines: Vec<Reached<'a>>,
    copy_count: usize,
}

impl<'a> Model for UnrolledSoFar<'a> {
    ghost use Rattle.std.specs.Prelude.{◌+◌, ◌≤◌, length};
    ghost use Rattle.rc_expand.specs.Limits.{MOST_LINES};
    ghost use Rattle.rc_expand.specs.Unroll.{UnrolledSoFarView};

    ghost Value = { UnrolledSoFarView };

    ghost view = { λ u. record { lines = u.lines.items; copy_count = u.copy_count } };

    ghost invariant = { λ u. length u.lines.items + u.copy_count ≤ MOST_LINES };
}

impl<'a> UnrolledSoFar<'a> {
    // Begins with nothing, without allocating.
    pub(crate) fn new(alloc: Global) -> Self
        ensures { result ≡ nothing_unrolled }
    {
        UnrolledSoFar {
            lines: Vec::new(alloc),
            copy_count: 0,
        }
    }

    // Adds a line. `TooManyLines` if there is no room.
    pub(crate) fn push(&mut self, line: Reached<'a>) -> Result<(), ExpandFault>
        ensures { Returns (λ u. self.new) result (with_line line.entry self.old) }
    {
        if self.lines.len() + self.copy_count >= limits::MOST_LINES {
            return Err(at_line(line.number(), ExpandKind::TooManyLines));
        }
        self.lines.push(line)?;
        Ok(())
    }

    // Counts a copy of the block whose FOR is at `line`. `TooManyLines` if there is no room.
    pub(crate) fn add_copy(&mut self, line: u64) -> Result<(), ExpandFault>
        ensures { Returns (λ u. self.new) result (with_copy line self.old) }
    {
        if self.lines.len() + self.copy_count >= limits::MOST_LINES {
            return Err(at_line(line, ExpandKind::TooManyLines));
        }
        self.copy_count += 1;
        Ok(())
    }

    pub(crate) fn into_lines(self) -> Vec<Reached<'a>>
        ensures { result.items ≡ self.entry.lines }
    {
        self.lines
    }
}

// A block to be copied `count` times, with the line of its FOR.
#[derive(Drop)]
pub(crate) struct BlockToCopy<'a> {
    pub(crate) line: u64,
    pub(crate) counter: Option<&'a [u8]>,
    pub(crate) count: u16,
    pub(crate) inside: BlockSlice<'a>,
}
