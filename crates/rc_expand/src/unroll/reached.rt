//! Lines that the unrolling has reached: each is kept as a line of the text and the copies that it
//! is in, and made when it is needed.
ghost use Rattle.std.specs.Prelude.{◌≡◌, ◌++◌, ◌∷◌, [], IfOk, IfSome};
ghost use Rattle.rc_expand.specs.Read.Lines.{bare_line, is_unjoined};
ghost use Rattle.rc_expand.specs.Unroll.Copies.{line_in, is_short, is_short_line};
ghost use Rattle.rc_expand.specs.Unroll.Openings.{earlier_of};
ghost use Rattle.rc_expand.specs.Unroll.Reached.{copies_in, have_no_counter, reached_part};
ghost use Rattle.std.specs.List.{list_all};

use crate::context::Context;
use crate::limits;
use crate::line::Tokens;
use crate::read::raw_line::{RawLine, clone_raw_line};
use crate::tokens::is_unjoined;
use crate::unroll::copy::Numbering;
use crate::unroll::opening::earlier_labels;
use rc_text::Token;
use std::alloc::{AllocError, Global};
use std::marker::Model;

// A copy of a block: its counter, if it has one, and the counter's number.
#[derive(Clone, Copy)]
pub(crate) struct BlockCopy<'a> {
    pub counter: Option<&'a [u8]>,
    pub number: u16,
}

// A line of the text, and the copies that it is in, the outermost first. `is_earlier` is set for
// the labels that a FOR has before its counter, which are a line of their own.
#[derive(Drop)]
pub(crate) struct Reached<'a> {
    source: &'a [u8],
    raw: &'a RawLine,
    copies: Vec<BlockCopy<'a>>,
    is_earlier: bool,
}

impl<'a> Model for Reached<'a> {
    ghost use Rattle.rc_expand.specs.declared.read.raw_line.RawLine.{RawLine};
    ghost use Rattle.rc_expand.specs.Unroll.Copies.{line_in};
    ghost use Rattle.rc_expand.specs.Unroll.Reached.{copies_in, reached_part};

    ghost Value = { RawLine };

    ghost view = { λ r. reached_part r.is_earlier (line_in r.source.now (copies_in r.copies.items) r.raw.now) };
}

impl<'a> Reached<'a> {
    // Keeps a line as it is in `copies`, or, with `is_earlier`, the labels before its counter
    // alone.
    pub(crate) fn new(
        context: &Context<'a>,
        copies: &[BlockCopy<'a>],
        raw: &'a RawLine,
        is_earlier: bool,
    ) -> Result<Reached<'a>, AllocError>
        ensures { IfOk result (λ r. r ≡ reached_part is_earlier (line_in context.now.source.now (copies_in copies.now) raw.now)) }
    {
        let copies = clone_copies(context.alloc, copies)?;
        Ok(Reached {
            source: context.source,
            raw,
            copies,
            is_earlier,
        })
    }

    pub(crate) fn number(&self) -> u64
        ensures { result ≡ self.now.number }
    {
        self.raw.number
    }

    // Returns the line if it is as the text has it: no copy that it is in has a counter, and it is
    // not of earlier labels alone.
    #[tactic(auto, using(crate::proofs::Unrolling::Reaching::uncounted))]
    pub(crate) fn as_written(&self) -> Option<&'a RawLine>
        ensures { IfSome result (λ line. line.now ≡ self.now) }
    {
        if !self.is_earlier && have_no_counter(&self.copies) {
            Some(self.raw)
        } else {
            None
        }
    }

    // Makes the line as it is in its copies.
    pub(crate) fn make(&self, alloc: Global) -> Result<RawLine, AllocError>
        ensures { IfOk result (λ made. made ≡ self.now) }
    {
        let made = line_in(alloc, self.source, &self.copies, self.raw)?;
        if !self.is_earlier {
            return Ok(made);
        }
        earlier_line(alloc, &made)
    }
}

// Makes the line of the labels before a counter.
fn earlier_line(alloc: Global, raw: &RawLine) -> Result<RawLine, AllocError>
    ensures { IfOk result (λ made. made ≡ bare_line raw.now.number (earlier_of raw.now.labels)) }
{
    let labels = earlier_labels(alloc, raw.labels.as_slice())?;
    Ok(RawLine::bare(alloc, raw.number, labels))
}

// Returns `raw` as it is in `copies`, the outermost first: each copy with a counter numbers the
// line that the one before made. Clones `raw` only if no copy has a counter.
pub(crate) fn line_in(
    alloc: Global,
    source: &[u8],
    copies: &[BlockCopy],
    raw: &RawLine,
) -> Result<RawLine, AllocError>
    ensures { IfOk result (λ made. made ≡ line_in source.now (copies_in copies.now) raw.now) }
{
    match copies.split_first() {
        None => clone_raw_line(alloc, raw),
        Some((copy, inner)) => match copy.counter {
            None => line_in(alloc, source, inner, raw),
            Some(counter) => {
                let numbering = Numbering {
                    source,
                    counter,
                    number: copy.number,
                };
                let made = numbering.copy_line(alloc, raw)?;
                copy_for_each(alloc, source, inner, made)
            }
        },
    }
}

// Numbers `line` for each of `copies` that has a counter, the outermost first.
fn copy_for_each(
    alloc: Global,
    source: &[u8],
    copies: &[BlockCopy],
    line: RawLine,
) -> Result<RawLine, AllocError>
    ensures { IfOk result (λ made. made ≡ line_in source.now (copies_in copies.now) line) }
{
    let mut made = line;
    for i in 0..copies.len() {
        if let Some(counter) = copies[i].counter {
            let numbering = Numbering {
                source,
                counter,
                number: copies[i].number,
            };
            made = numbering.copy_line(alloc, &made)?;
        }
    }
    Ok(made)
}

// Returns `copies` with `copy` as the innermost.
pub(crate) fn inner_copies<'a>(
    alloc: Global,
    copies: &[BlockCopy<'a>],
    copy: BlockCopy<'a>,
) -> Result<Vec<BlockCopy<'a>>, AllocError>
    ensures { IfOk result (λ v. v.items ≡ copies.now ++ (copy.entry ∷ [])) }
{
    let mut all = clone_copies(alloc, copies)?;
    all.push(copy)?;
    Ok(all)
}

fn clone_copies<'a>(
    alloc: Global,
    copies: &[BlockCopy<'a>],
) -> Result<Vec<BlockCopy<'a>>, AllocError>
    ensures { IfOk result (λ v. v.items ≡ copies.now) }
{
    let mut cloned = Vec::with_capacity(alloc, copies.len())?;
    for copy in copies {
        cloned.push(*copy)?;
    }
    Ok(cloned)
}

// Returns whether no copy has a counter. A line in `copies` is then as the text has it.
pub(crate) fn have_no_counter(copies: &[BlockCopy]) -> bool
    ensures { result ≡ have_no_counter copies.now }
{
    copies.iter().all(|copy| copy.counter.is_none())
}

// Returns whether a line has too few tokens to join nine counters to one name, in however many
// copies.
pub(crate) fn is_short_line(raw: &RawLine) -> bool
    ensures { result ≡ is_short_line raw.now }
{
    are_short(raw.labels.as_slice()) && is_short(raw.rest.as_slice())
}

fn are_short(labels: &[Tokens]) -> bool
    ensures { result ≡ list_all is_short labels.now }
{
    labels.iter().all(|label| is_short(label.as_slice()))
}

// The most tokens among which no ninth counter can be joined to a name: each that is joined takes
// two tokens away, itself and its `&`.
const MOST_SHORT: usize = 2 * (limits::MOST_JOINED + 1);

fn is_short(tokens: &[Token]) -> bool
    ensures { result ≡ is_short tokens.now }
{
    tokens.len() <= MOST_SHORT && are_unjoined(tokens)
}

fn are_unjoined(tokens: &[Token]) -> bool
    ensures { result ≡ list_all (λ t. is_unjoined t.joined) tokens.now }
{
    tokens.iter().all(|t| is_unjoined(t))
}
