//! The expansion of a text: its lines are read, blocks are unrolled, and EQU names are replaced.
ghost use Rattle.rc_expand.specs.Results.{Returns};
ghost use Rattle.rc_expand.specs.Names.{table_in};
ghost use Rattle.rc_expand.specs.Expansion.{expansion_of};

use crate::constants::Constants;
use crate::context::Context;
use crate::equ_tokens::links::link_equs;
use crate::fault::ExpandFault;
use crate::line::{Expanded, Lines};
use crate::names::GivenNames;
use crate::read::first_pass;
use crate::replace::replace_lines;
use crate::unroll::unroll;
use rc_instr::Rules;
use std::alloc::Global;

/// Expands a text into plain lines.
///
/// The lines up to the first with END are read with their labels. FOR blocks are replaced by their
/// copies, outer blocks first, with the numbers of their counters in place, or joined to names by
/// `&`. EQU lines are dropped, and EQU names are replaced by their tokens. (FOR, ROF, EQU and `&`
/// are from pMARS.)
///
/// # Errors
///
/// The first fault of these checks. Each is made over all lines before the next begins, the last
/// two over the lines in the order in which they are unrolled:
///
/// - `Text`: a byte or a decimal that is not a token, up to the line with END.
/// - The first FOR nested more than 8 deep (`ForTooDeep`) or ROF without a FOR (`RofWithoutFor`);
///   then the outermost FOR without a ROF (`ForWithoutRof`).
/// - `BadDirective`, `DuplicateName`: an EQU line outside of blocks without exactly one plain name
///   before EQU, or whose name is taken: a constant, a predefined name or an earlier EQU name.
/// - While blocks are unrolled, line by line:
///   - `BadDirective`: a ninth counter joined to a name; a counter that is not a plain name; an EQU
///     in a block; or, after the lines of its block, a ROF with labels or tokens beside it.
///   - `DuplicateName`: a counter that is a constant, a predefined name, the counter of an
///     enclosing block, or an EQU name (at the later of the two lines).
///   - `EquTooDeep`, `TooManyTokens`: EQU names in a count nest too deep, or give too many tokens.
///   - `CountRefused`: a count that has no value, or one above 4096.
///   - `TooManyLines`: more than 4096 lines and copies.
/// - In each unrolled line, first `DuplicateName`: a label or an EQU name that is defined before,
///   or is a constant or a predefined name; then, whichever is met first, `EquTooDeep`: EQU names
///   nested more than 16 deep; or `TooManyTokens`: more than 4096 tokens or EQU replacements in a
///   line.
///
/// `OutOfMemory`, at line 0, can come at any point. Otherwise it is proved that the result is the
/// expansion, or the first fault with its line.
#[tactic(auto, unfolding(crate::specs::Expansion::expansion_of))]
pub fn expand(
    alloc: Global,
    source: &[u8],
    constants: &Constants,
    rules: &Rules,
) -> Result<Expanded, ExpandFault>
    ensures { Returns (λ e. e.lines) result (expansion_of source.now (table_in constants.now) rules.now) }
{
    let given = GivenNames { constants, rules };
    let (blocks, equs) = first_pass(alloc, source, &given)?;
    let links = link_equs(alloc, source, &equs)?;
    let context = Context {
        alloc,
        source,
        given: &given,
        equs: &equs,
        links: &links,
    };
    let reached = unroll(&context, &blocks.as_slice())?;
    let lines = replace_lines(&context, reached.as_slice())?;
    Ok(Expanded {
        lines: Lines::from_vec(lines),
    })
}
