//! Lines as they are read and copied, before EQU names are replaced.
ghost use Rattle.std.specs.Prelude.{◌≡◌, ◌∷◌, ◌++◌, [], IfOk, OnOk};
ghost use Rattle.rc_expand.specs.Read.Lines.{bare_line};

use crate::line::Tokens;
use crate::tokens::{clone_token, clone_tokens};
use rc_text::Token;
use std::alloc::{AllocError, Global};
use std::marker::Model;

// A line as it is read or copied. `directive` is the token of a directive, and `rest` comes after
// it; in a line of code `rest` begins with the opcode.
#[derive(Debug, Drop)]
pub(crate) struct RawLine {
    pub number: u64,
    pub labels: Labels,
    pub word: RawWord,
    pub directive: Option<Token>,
    pub rest: Tokens,
    // Set if a ninth counter was to be joined to a name of the line. Its labels and `rest` are then
    // empty.
    pub spoiled: bool,
}

impl RawLine {
    // Makes a line that has labels alone.
    pub(crate) fn bare(alloc: Global, number: u64, labels: Labels) -> RawLine
        ensures { result ≡ bare_line number labels }
    {
        RawLine {
            number,
            labels,
            word: RawWord::Bare,
            directive: None,
            rest: Tokens::from_vec(Vec::new(alloc)),
            spoiled: false,
        }
    }
}

// The word of a line: nothing (`Bare`), a directive, or anything else (`Code`).
#[derive(Clone, Copy, Debug, PartialEq, Eq)]
pub(crate) enum RawWord {
    Bare,
    Code,
    Org,
    End,
    Assert,
    Equ,
    For,
    Rof,
}

// Labels in order, each by its tokens: names joined by `&`, perhaps with a colon.
#[derive(Debug, Drop)]
pub(crate) struct Labels {
    labels: Vec<Tokens>,
}

impl Model for Labels {
    ghost use Rattle.std.specs.Prelude.{List};
    ghost use Rattle.rc_text.specs.declared.token.Token.{Token};

    ghost Value = { List (List Token) };

    ghost view = { λ l. l.labels.items };
}

impl Labels {
    // Makes an empty list, without allocating.
    pub(crate) fn none(alloc: Global) -> Self
        ensures { result ≡ [] }
    {
        Labels {
            labels: Vec::new(alloc),
        }
    }

    pub(crate) fn push(&mut self, label: Tokens) -> Result<(), AllocError>
        ensures { OnOk result (self.new ≡ self.old ++ label ∷ []) }
    {
        self.labels.push(label)?;
        Ok(())
    }

    pub(crate) fn as_slice(&self) -> &[Tokens]
        ensures { result.now ≡ self.now }
    {
        self.labels.as_slice()
    }
}

pub(crate) fn clone_raw_line(alloc: Global, raw: &RawLine) -> Result<RawLine, AllocError>
    ensures { IfOk result (λ clone. clone ≡ raw.now) }
{
    let labels = clone_labels(alloc, raw.labels.as_slice())?;
    let directive = clone_directive(&raw.directive)?;
    let rest = clone_tokens(alloc, raw.rest.as_slice())?;
    Ok(RawLine {
        number: raw.number,
        labels,
        word: raw.word,
        directive,
        rest,
        spoiled: raw.spoiled,
    })
}

pub(crate) fn clone_labels(alloc: Global, labels: &[Tokens]) -> Result<Labels, AllocError>
    ensures { IfOk result (λ l. l ≡ labels.now) }
{
    let mut cloned = Labels::none(alloc);
    for label in labels {
        cloned.push(clone_tokens(alloc, label.as_slice())?)?;
    }
    Ok(cloned)
}

pub(crate) fn clone_directive(directive: &Option<Token>) -> Result<Option<Token>, AllocError>
    ensures { IfOk result (λ d. d ≡ directive.now) }
{
    match directive {
        None => Ok(None),
        Some(token) => Ok(Some(clone_token(token)?)),
    }
}
