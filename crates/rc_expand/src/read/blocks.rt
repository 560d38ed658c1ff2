//! The blocks of a text: for each FOR its ROF.
ghost use Rattle.std.specs.Prelude.{◌≡◌, IfSome, IfNone};
ghost use Rattle.rc_instr.specs.Results.{mapped};
ghost use Rattle.rc_expand.specs.Results.{Returns};
ghost use Rattle.rc_expand.specs.Read.Tree.{NoLine, OneLine, Block, blocks_of, tree_of, distances, HaveDistances};

use crate::fault::{ExpandFault, ExpandKind, at_line};
use crate::limits;
use crate::read::raw_line::{RawLine, RawWord};
use std::alloc::Global;
use std::collections::VecDeque;

// The lines of a text, and a number for each: the distance from a FOR to its ROF, 1 if they are
// neighbours, and 0 for any other line.
#[derive(Drop)]
pub(crate) struct Blocks {
    pub(crate) lines: Vec<RawLine>,
    distances: Vec<usize>,
    ghost paired: { HaveDistances lines.items distances.items },
}

// Lines of a text whose blocks are whole.
#[derive(Clone, Copy)]
pub(crate) struct BlockSlice<'a> {
    pub(crate) lines: &'a [RawLine],
    distances: &'a [usize],
    ghost paired: { HaveDistances lines.now distances.now },
}

impl Blocks {
    // Finds the blocks of lines.
    //
    // Refuses, at the first line that has one of them, a ninth FOR inside eight (`ForTooDeep`) and
    // a ROF without its FOR (`RofWithoutFor`); then a FOR that is still open at the end
    // (`ForWithoutRof`), at the line of the outermost one. Blocks that will be dropped count too.
    pub(crate) fn find(alloc: Global, lines: Vec<RawLine>) -> Result<Blocks, ExpandFault>
        ensures { Returns (λ b. tree_of b.lines.items) result (blocks_of lines.items) }
    {
        let distances = check_blocks(alloc, &lines)?;
        Ok(Blocks { lines, distances })
    }

    pub(crate) fn as_slice(&self) -> BlockSlice<'_>
        ensures { result.lines.now ≡ self.now.lines.items }
    {
        BlockSlice {
            lines: self.lines.as_slice(),
            distances: self.distances.as_slice(),
        }
    }
}

impl<'a> BlockSlice<'a> {
    // Splits off the first line, and its whole block if it is a FOR. Returns the line, then the
    // lines of the block and the ROF, then the lines after all of these.
    pub(crate) fn split_first(
        &self,
    ) -> Option<
        (
            &'a RawLine,
            Option<(BlockSlice<'a>, &'a RawLine)>,
            BlockSlice<'a>,
        ),
    >
        ensures none { IfNone result (tree_of self.now.lines.now ≡ NoLine) }
        ensures line { IfSome result (λ p. IfNone p.1 (tree_of self.now.lines.now ≡ OneLine p.0.now (tree_of p.2.lines.now))) }
        ensures block { IfSome result (λ p. IfSome p.1 (λ b. tree_of self.now.lines.now ≡ Block p.0.now (tree_of b.0.lines.now) b.1.now (tree_of p.2.lines.now))) }
    {
        let (raw, after) = self.lines.split_first()?;
        let distance = self.distances[0];
        match raw.word {
            RawWord::For => {
                let inside = BlockSlice {
                    lines: &self.lines[1..distance],
                    distances: &self.distances[1..distance],
                };
                let rest = BlockSlice {
                    lines: &self.lines[distance + 1..],
                    distances: &self.distances[distance + 1..],
                };
                Some((raw, Some((inside, &self.lines[distance])), rest))
            }
            _ => {
                let rest = BlockSlice {
                    lines: after,
                    distances: &self.distances[1..],
                };
                Some((raw, None, rest))
            }
        }
    }
}

// Returns the distances that `Blocks` keeps. Refuses what `find` refuses.
fn check_blocks(alloc: Global, lines: &[RawLine]) -> Result<Vec<usize>, ExpandFault>
    ensures { Returns (λ v. v.items) result (mapped distances (blocks_of lines.now)) }
{
    let mut distances = Vec::with_capacity(alloc, lines.len())?;
    let mut open = VecDeque::new(alloc);
    let mut outermost: u64 = 0;
    for i in 0..lines.len() {
        let raw = &lines[i];
        match raw.word {
            RawWord::For => {
                if open.len() == limits::DEEPEST_BLOCK {
                    return Err(at_line(raw.number, ExpandKind::ForTooDeep));
                }
                if open.is_empty() {
                    outermost = raw.number;
                }
                open.push_front(i)?;
            }
            RawWord::Rof => match open.pop_front() {
                None => return Err(at_line(raw.number, ExpandKind::RofWithoutFor)),
                Some(start) => distances[start] = i - start,
            },
            _ => {}
        }
        distances.push(0)?;
    }
    if !open.is_empty() {
        return Err(at_line(outermost, ExpandKind::ForWithoutRof));
    }
    Ok(distances)
}
