//! The second pass: each FOR block is replaced by copies of its lines, outer blocks first. In a
//! copy the name of the counter becomes its number, or its number is joined to the name before `&`.
//! Copies are lazy: `Reached` keeps a line of the text and the copies that it is in, and the third
//! pass makes the copied line.
ghost use Rattle.std.specs.Prelude.{◌≡◌};
ghost use Rattle.rc_expand.specs.Results.{Returns};
ghost use Rattle.rc_expand.specs.Contexts.{seen_context};
ghost use Rattle.rc_expand.specs.Read.Tree.{tree_of};
ghost use Rattle.rc_expand.specs.Unroll.{with_line, with_earlier, copies_from, word_check, line_check, one_line, unrolled_in, unrolled};
ghost use Rattle.rc_expand.specs.Unroll.Copies.{is_in_block, line_in};
ghost use Rattle.rc_expand.specs.Unroll.Openings.{earlier_of};
ghost use Rattle.rc_expand.specs.Unroll.Reached.{copies_in, reached_part};
ghost use Rattle.rc_expand.specs.Unroll.Steps.{step_of_block, step_of_copy};

pub(crate) mod copy;
pub(crate) mod opening;
pub(crate) mod reached;
pub(crate) mod unrolling;

use crate::context::Context;
use crate::fault::{ExpandFault, ExpandKind, at_line};
use crate::read::blocks::BlockSlice;
use crate::read::raw_line::{RawLine, RawWord};
use crate::unroll::opening::{check_rof, read_opening};
use crate::unroll::reached::{
    BlockCopy, Reached, have_no_counter, inner_copies, is_short_line, line_in,
};
use crate::unroll::unrolling::{BlockToCopy, UnrolledSoFar};

// Unrolls the blocks of lines.
#[tactic(auto, unfolding(crate::specs::Unroll::unrolled))]
pub(crate) fn unroll<'a>(
    context: &Context<'a>,
    blocks: &BlockSlice<'a>,
) -> Result<Vec<Reached<'a>>, ExpandFault>
    ensures { Returns (λ v. v.items) result (unrolled (seen_context context.now) (tree_of blocks.now.lines.now)) }
{
    let mut out = UnrolledSoFar::new(context.alloc);
    append_lines(&mut out, context, &[], blocks)?;
    Ok(out.into_lines())
}

// Appends lines as they are in `copies`, with their blocks unrolled.
#[cycle(unroll)]
fn append_lines<'a>(
    out: &mut UnrolledSoFar<'a>,
    context: &Context<'a>,
    copies: &[BlockCopy<'a>],
    blocks: &BlockSlice<'a>,
) -> Result<(), ExpandFault>
    ensures { Returns (λ u. out.new) result (unrolled_in (seen_context context.now) (tree_of blocks.now.lines.now) (copies_in copies.now) out.old) }
{
    let mut rest = *blocks;
    while let Some((raw, block, after)) = rest.split_first() {
        match block {
            None => append_line(out, context, copies, raw)?,
            Some((inside, rof)) => append_block(out, context, copies, raw, &inside, rof)?,
        }
        rest = after;
    }
    Ok(())
}

// Appends a line other than FOR and ROF.
fn append_line<'a>(
    out: &mut UnrolledSoFar<'a>,
    context: &Context<'a>,
    copies: &[BlockCopy<'a>],
    raw: &'a RawLine,
) -> Result<(), ExpandFault>
    ensures { Returns (λ u. out.new) result (one_line (seen_context context.now) (copies_in copies.now) raw.now out.old) }
{
    check_copied_line(context, copies, raw)?;
    append_reached(out, context, copies, raw, false)
}

// Checks a line as it is in `copies`. Makes the copied line only if a ninth counter might be joined
// to one of its names.
fn check_copied_line(
    context: &Context,
    copies: &[BlockCopy],
    raw: &RawLine,
) -> Result<(), ExpandFault>
    ensures { Returns (λ u. u) result (line_check (is_in_block (copies_in copies.now)) (line_in context.now.source.now (copies_in copies.now) raw.now)) }
{
    let in_block = !copies.is_empty();
    if have_no_counter(copies) || is_short_line(raw) {
        return check_word(raw, in_block);
    }
    let made = line_in(context.alloc, context.source, copies, raw)?;
    check_word(&made, in_block)
}

// Refuses an EQU in a block and a spoiled line. Reads only the number, the word and `spoiled`.
// Copying changes none of these in a short line, so the line of the text will do.
fn check_word(raw: &RawLine, in_block: bool) -> Result<(), ExpandFault>
    ensures { Returns (λ u. u) result (word_check raw.now.number raw.now.word in_block raw.now.spoiled) }
{
    if raw.spoiled || (in_block && raw.word == RawWord::Equ) {
        return Err(at_line(raw.number, ExpandKind::BadDirective));
    }
    Ok(())
}

// Appends a block unrolled: the labels before its counter, then its copies. Its ROF is looked at
// when it is reached, after the lines of the block.
#[cycle(unroll)]
fn append_block<'a>(
    out: &mut UnrolledSoFar<'a>,
    context: &Context<'a>,
    copies: &[BlockCopy<'a>],
    raw: &'a RawLine,
    inside: &BlockSlice<'a>,
    rof: &'a RawLine,
) -> Result<(), ExpandFault>
    ensures { Returns (λ u. out.new) result (step_of_block context.now copies.now inside.now raw.now rof.now out.old) }
{
    let made = line_in(context.alloc, context.source, copies, raw)?;
    let opening = read_opening(context, &made)?;
    append_earlier(out, context, copies, raw, &made)?;
    let block = BlockToCopy {
        line: raw.number,
        counter: opening.counter,
        count: opening.count,
        inside: *inside,
    };
    append_copies(out, context, copies, &block)?;
    let made_rof = line_in(context.alloc, context.source, copies, rof)?;
    check_rof(&made_rof)
}

// Appends the copies of a block.
#[cycle(unroll)]
fn append_copies<'a>(
    out: &mut UnrolledSoFar<'a>,
    context: &Context<'a>,
    copies: &[BlockCopy<'a>],
    block: &BlockToCopy<'a>,
) -> Result<(), ExpandFault>
    ensures { Returns (λ u. out.new) result (copies_from (step_of_copy context.now copies.now block.now) block.now.count 1 out.old) }
{
    for done in 0..block.count {
        append_copy(out, context, copies, block, done + 1)?;
    }
    Ok(())
}

// Appends the copy of a block for one `number` of its counter.
#[cycle(unroll)]
fn append_copy<'a>(
    out: &mut UnrolledSoFar<'a>,
    context: &Context<'a>,
    copies: &[BlockCopy<'a>],
    block: &BlockToCopy<'a>,
    number: u16,
) -> Result<(), ExpandFault>
    ensures { Returns (λ u. out.new) result (step_of_copy context.now copies.now block.now number out.old) }
{
    out.add_copy(block.line)?;
    let copy = BlockCopy {
        counter: block.counter,
        number,
    };
    let inner = inner_copies(context.alloc, copies, copy)?;
    append_lines(out, context, &inner, &block.inside)
}

// Appends the labels before a counter as a line of their own, if there are any. `made` is the
// line of the FOR as it is in `copies`.
#[tactic(auto, using(crate::proofs::Unrolling::Reaching::no_earlier))]
fn append_earlier<'a>(
    out: &mut UnrolledSoFar<'a>,
    context: &Context<'a>,
    copies: &[BlockCopy<'a>],
    raw: &'a RawLine,
    made: &RawLine,
) -> Result<(), ExpandFault>
    requires { made.now ≡ line_in context.now.source.now (copies_in copies.now) raw.now }
    ensures { Returns (λ u. out.new) result (with_earlier raw.now.number (earlier_of made.now.labels) out.old) }
{
    if made.labels.as_slice().len() < 2 {
        return Ok(());
    }
    append_reached(out, context, copies, raw, true)
}

// Appends a line as it is in `copies`; with `is_earlier`, only the labels before its counter.
fn append_reached<'a>(
    out: &mut UnrolledSoFar<'a>,
    context: &Context<'a>,
    copies: &[BlockCopy<'a>],
    raw: &'a RawLine,
    is_earlier: bool,
) -> Result<(), ExpandFault>
    ensures { Returns (λ u. out.new) result (with_line (reached_part is_earlier (line_in context.now.source.now (copies_in copies.now) raw.now)) out.old) }
{
    let line = Reached::new(context, copies, raw, is_earlier)?;
    out.push(line)
}
