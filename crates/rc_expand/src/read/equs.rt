//! EQU lines: the table of EQU names and their tokens.
ghost use Rattle.std.specs.Prelude.{◌≡◌, [], ◌∷◌, ◌++◌, false, is_some, option_map, IfOk};
ghost use Rattle.rc_text.specs.Symbols.{name_of};
ghost use Rattle.rc_instr.specs.Results.{mapped};
ghost use Rattle.rc_expand.specs.Results.{Returns};
ghost use Rattle.rc_expand.specs.Read.{equ_token, equs_of, equs_after_line, with_equ};
ghost use Rattle.rc_expand.specs.Read.Tree.{tree_of};
ghost use Rattle.rc_expand.specs.Contexts.{seen_given_names};
ghost use Rattle.rc_expand.specs.Names.{entry_of};

use crate::fault::{ExpandFault, ExpandKind, at_line};
use crate::line::Tokens;
use crate::name_table::{KeptName, NameTable, kept_name};
use crate::names::{GivenNames, is_taken};
use crate::read::blocks::BlockSlice;
use crate::read::labels::plain_token;
use crate::read::raw_line::{RawLine, RawWord};
use crate::tokens::clone_tokens;
use rc_text::Token;
use std::alloc::Global;
use std::marker::Model;

// The tokens of an EQU name, and the line that defines it.
#[derive(Debug, Drop)]
pub(crate) struct Equ {
    tokens: Tokens,
    line: u64,
}

impl Model for Equ {
    ghost use Rattle.rc_expand.specs.Equs.{EquView};

    ghost Value = { EquView };

    ghost view = { λ e. record { tokens = e.tokens; line = e.line } };
}

impl Equ {
    pub(crate) fn tokens(&self) -> &[Token]
        ensures { result.now ≡ self.now.tokens }
    {
        self.tokens.as_slice()
    }
}

// Collects the EQU names outside blocks, with their tokens.
//
// Refuses, line by line, a line without exactly one plain name before EQU (`BadDirective`) and a
// name that is an earlier EQU name, a constant or a predefined name (`DuplicateName`).
#[tactic(auto, unfolding(crate::specs::Read::equs_of))]
pub(crate) fn collect_equs(
    alloc: Global,
    source: &[u8],
    given: &GivenNames,
    blocks: &BlockSlice,
) -> Result<NameTable<Equ>, ExpandFault>
    ensures { Returns (λ t. t) result (equs_of source.now (seen_given_names given.now) (tree_of blocks.now.lines.now)) }
{
    let mut equs = NameTable::new(alloc);
    let mut rest = *blocks;
    while let Some((raw, block, after)) = rest.split_first() {
        if block.is_none() {
            add_equ(alloc, source, given, &mut equs, raw)?;
        }
        rest = after;
    }
    Ok(equs)
}

// Adds the EQU name of a line, if it is an EQU line.
fn add_equ(
    alloc: Global,
    source: &[u8],
    given: &GivenNames,
    equs: &mut NameTable<Equ>,
    raw: &RawLine,
) -> Result<(), ExpandFault>
    ensures { Returns (λ u. equs.new) result (equs_after_line source.now (seen_given_names given.now) raw.now.word raw.now equs.old) }
{
    if raw.word == RawWord::Equ {
        let (name, equ) = read_equ(alloc, source, given, equs, raw)?;
        equs.insert(name, equ)?;
    }
    Ok(())
}

// Reads an EQU line. Its name must not be defined already.
fn read_equ(
    alloc: Global,
    source: &[u8],
    given: &GivenNames,
    equs: &NameTable<Equ>,
    raw: &RawLine,
) -> Result<(KeptName, Equ), ExpandFault>
    ensures equ { Returns (λ e. equs.now ++ (e ∷ [])) result (with_equ source.now (seen_given_names given.now) raw.now equs.now) }
    ensures new { IfOk result (λ e. is_some (entry_of equs.now e.0) ≡ false) }
{
    let token = equ_token(source, raw)?;
    if is_taken(given, source, token) || equ_line(equs, source, token).is_some() {
        return Err(at_line(raw.number, ExpandKind::DuplicateName));
    }
    let name = kept_name(alloc, source, token)?;
    let tokens = clone_tokens(alloc, raw.rest.as_slice())?;
    let line = raw.number;
    Ok((name, Equ { tokens, line }))
}

// Returns the name before EQU. `BadDirective` unless it is the only label, written without `&`.
fn equ_token<'a>(source: &[u8], raw: &'a RawLine) -> Result<&'a Token, ExpandFault>
    ensures token { mapped (λ t. t.now) result ≡ equ_token source.now raw.now }
    ensures written { IfOk result (λ t. t.now.joined ≡ []) }
{
    let plain = match raw.labels.as_slice() {
        [label] => plain_token(source, label.as_slice()),
        _ => None,
    };
    match plain {
        Some(token) => Ok(token),
        None => Err(at_line(raw.number, ExpandKind::BadDirective)),
    }
}

// Looks up `token` as an EQU name. Returns the line that defines it.
pub(crate) fn equ_line(equs: &NameTable<Equ>, source: &[u8], token: &Token) -> Option<u64>
    ensures { result ≡ option_map (λ e. e.line) (entry_of equs.now (name_of source.now token.now)) }
{
    let equ = equs.get(source, token)?;
    Some(equ.line)
}
