//! The third pass, line by line: defines the labels and the EQU name of the line, and then puts the
//! tokens of EQU names in the place of the names. EQU lines are dropped.
ghost use Rattle.std.specs.Prelude.{◌∷◌, [], map, Ok, Err};
ghost use Rattle.rc_text.specs.Symbols.{name_of};
ghost use Rattle.rc_expand.specs.Results.{Returns};
ghost use Rattle.rc_expand.specs.Contexts.{seen_context};
ghost use Rattle.rc_expand.specs.NameTables.{names_in};
ghost use Rattle.rc_expand.specs.Replace.Lines.{with_names, line_replaced, replaced};

pub(crate) mod finish;

use crate::context::Context;
use crate::fault::{ExpandFault, ExpandKind, at_line};
use crate::line::Line;
use crate::name_table::NameTable;
use crate::names::is_taken;
use crate::read::raw_line::{RawLine, RawWord};
use crate::replace::finish::{line_of, split_labels};
use crate::unroll::reached::Reached;
use rc_text::Token;
use std::marker::Model;

// The names defined so far, and the lines of the expansion.
#[derive(Drop)]
pub(crate) struct LinesSoFar {
    names: NameTable<()>,
    lines: Vec<Line>,
}

impl Model for LinesSoFar {
    ghost use Rattle.rc_expand.specs.NameTables.{names_in};
    ghost use Rattle.rc_expand.specs.Replace.Lines.{LinesSoFarView};

    ghost Value = { LinesSoFarView };

    ghost view = { λ r. record { names = names_in r.names; lines = r.lines.items } };
}

// Makes the lines of the expansion.
#[tactic(auto, unfolding(crate::specs::Replace::Lines::replaced))]
pub(crate) fn replace_lines(
    context: &Context,
    reached: &[Reached],
) -> Result<Vec<Line>, ExpandFault>
    ensures { Returns (λ v. v.items) result (replaced (seen_context context.now) reached.now) }
{
    let mut out = LinesSoFar {
        names: NameTable::new(context.alloc),
        lines: Vec::new(context.alloc),
    };
    for i in 0..reached.len() {
        replace_reached(&mut out, context, &reached[i])?;
    }
    Ok(out.lines)
}

// Adds an unrolled line. If no copy changes it, the line of the text is used, without a clone.
fn replace_reached(
    out: &mut LinesSoFar,
    context: &Context,
    reached: &Reached,
) -> Result<(), ExpandFault>
    ensures { Returns (λ u. out.new) result (line_replaced (seen_context context.now) reached.now out.old) }
{
    if let Some(raw) = reached.as_written() {
        return replace_line(out, context, raw);
    }
    let raw = reached.make(context.alloc)?;
    replace_line(out, context, &raw)
}

// Defines the names of a line, and adds the line with its EQU names replaced, unless it is an EQU
// line.
fn replace_line(out: &mut LinesSoFar, context: &Context, raw: &RawLine) -> Result<(), ExpandFault>
    ensures { Returns (λ u. out.new) result (line_replaced (seen_context context.now) raw.now out.old) }
{
    let (labels, others) = split_labels(context.alloc, context.source, raw.labels.as_slice())?;
    define_names(&mut out.names, context, labels.as_slice(), raw.number)?;
    match raw.word {
        RawWord::Equ => Ok(()),
        _ => {
            let line = line_of(context, raw, labels, others)?;
            out.lines.push(line)?;
            Ok(())
        }
    }
}

// Defines the names of tokens, one after the other.
fn define_names(
    names: &mut NameTable<()>,
    context: &Context,
    labels: &[Token],
    line: u64,
) -> Result<(), ExpandFault>
    ensures { Returns (λ u. names_in names.new) result (with_names (seen_context context.now) line (map (name_of context.now.source.now) labels.now) (names_in names.old)) }
{
    let mut rest = labels;
    while let Some((label, after)) = rest.split_first() {
        define_name(names, context, label, line)?;
        rest = after;
    }
    Ok(())
}

// Defines the name of a token. `DuplicateName` if it is a constant, a predefined name or defined
// already.
fn define_name(
    names: &mut NameTable<()>,
    context: &Context,
    label: &Token,
    line: u64,
) -> Result<(), ExpandFault>
    ensures { Returns (λ u. names_in names.new) result (with_names (seen_context context.now) line (name_of context.now.source.now label.now ∷ []) (names_in names.old)) }
{
    if is_taken(context.given, context.source, label) {
        return Err(at_line(line, ExpandKind::DuplicateName));
    }
    if names.add(context.alloc, context.source, label, ())? {
        Ok(())
    } else {
        Err(at_line(line, ExpandKind::DuplicateName))
    }
}
