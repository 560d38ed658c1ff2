//! What all lines share, and the values of names in one line.
ghost use Rattle.std.specs.Prelude.{◌≡◌};
ghost use Rattle.rc_asm.specs.Names.{stands_for, label_value, value_at};
ghost use Rattle.rc_asm.specs.Seen.{seen_names};

use crate::labels::{Labels, LineAddress};
use rc_expand::{GivenNames, spells};
use rc_text::{EvalFault, Names, Token, eval};

// What all lines share: the names that are given, and the labels.
#[derive(Clone, Copy)]
pub(crate) struct Context<'a> {
    pub(crate) given: &'a GivenNames<'a>,
    pub(crate) labels: &'a Labels,
}

// What labels stand for in an expression: for their addresses, or for the distances to them from
// the line of the expression.
#[derive(Clone, Copy)]
pub(crate) enum LabelsAs {
    Addresses,
    Distances,
}

// The names in an expression of the line at `address`.
#[derive(Drop)]
struct Scope<'a> {
    context: Context<'a>,
    address: LineAddress,
    labels_as: LabelsAs,
}

impl<'a> Names for Scope<'a> {
    ghost use Rattle.rc_asm.specs.Names.{stands_for};
    ghost use Rattle.rc_asm.specs.Seen.{seen_names};

    ghost meaning = { λ s. stands_for (seen_names s.context) s.address.number s.labels_as };

    #[tactic(auto, unfolding(crate::specs::Names::stands_for))]
    fn value(&self, source: &[u8], name: &Token) -> Option<i64> {
        if let Some(value) = self.context.given.value(source, name) {
            return Some(value);
        }
        if spells(source, name, b"CURLINE") {
            return Some(self.address.number as i64);
        }
        let label = self.context.labels.address_of(source, name)?;
        Some(label_value(self.labels_as, self.address, label))
    }
}

// Evaluates `tokens` in the line at `address`.
pub(crate) fn value_at(
    source: &[u8],
    context: &Context,
    address: LineAddress,
    labels_as: LabelsAs,
    tokens: &[Token],
) -> Result<i64, EvalFault>
    ensures { result ≡ value_at source.now (seen_names context.now) address.number labels_as tokens.now }
{
    let scope = Scope {
        context: *context,
        address,
        labels_as,
    };
    eval(source, tokens, &scope)
}

// Returns the value of a label with the address `label` in the line at `address`.
fn label_value(labels_as: LabelsAs, address: LineAddress, label: LineAddress) -> i64
    ensures { result ≡ label_value labels_as address.number label.number }
{
    match labels_as {
        LabelsAs::Addresses => label.number as i64,
        LabelsAs::Distances => label.number as i64 - address.number as i64,
    }
}
