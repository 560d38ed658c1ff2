//! The first pass: the lines of a text up to END, each with its labels, its word and what comes
//! after it. Each FOR needs its ROF, and each EQU line outside of blocks gives a name and its
//! tokens. No block is unrolled and no EQU name replaced yet.
ghost use Rattle.std.specs.Prelude.{Ok};
ghost use Rattle.rc_expand.specs.Results.{Returns};
ghost use Rattle.rc_expand.specs.Contexts.{seen_given_names};
ghost use Rattle.rc_expand.specs.Read.{first_pass};
ghost use Rattle.rc_expand.specs.Read.Tree.{tree_of};

pub(crate) mod blocks;
pub(crate) mod equs;
pub(crate) mod labels;
pub(crate) mod lines;
pub(crate) mod raw_line;
pub(crate) mod words;

use crate::fault::ExpandFault;
use crate::name_table::NameTable;
use crate::names::GivenNames;
use crate::read::blocks::Blocks;
use crate::read::equs::{Equ, collect_equs};
use crate::read::lines::read_lines;
use std::alloc::Global;

// Reads the lines of a text, finds their blocks, and collects the EQU names outside of these.
#[tactic(auto, unfolding(crate::specs::Read::first_pass))]
pub(crate) fn first_pass(
    alloc: Global,
    source: &[u8],
    given: &GivenNames,
) -> Result<(Blocks, NameTable<Equ>), ExpandFault>
    ensures { Returns (λ p. record { blocks = tree_of p.0.lines.items; equs = p.1 }) result (first_pass source.now (seen_given_names given.now)) }
{
    let lines = read_lines(alloc, source)?;
    let blocks = Blocks::find(alloc, lines)?;
    let equs = collect_equs(alloc, source, given, &blocks.as_slice())?;
    Ok((blocks, equs))
}
