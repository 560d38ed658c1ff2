//! Labels and their addresses.
ghost use Rattle.std.specs.Prelude.{◌≡◌, ◌<◌, ◌+◌, ◌^◌, IfOk, OnOk, option_map};
ghost use Rattle.rc_text.specs.Symbols.{name_of};
ghost use Rattle.rc_expand.specs.Names.{entry_of};
ghost use Rattle.rc_asm.specs.Names.{address_after, labels_of};

use rc_expand::{Line, LineWord, NameTable};
use rc_text::Token;
use std::alloc::{AllocError, Global};
use std::marker::Model;

// The address of a line: the number of lines of code before it.
#[derive(Clone, Copy, Debug)]
pub(crate) struct LineAddress {
    pub(crate) number: usize,
    ghost small: { number < 2 ^ 63 },
}

// The labels of a text with their addresses.
#[derive(Drop)]
pub(crate) struct Labels {
    table: NameTable<LineAddress>,
}

impl Model for Labels {
    ghost use Rattle.std.specs.Prelude.{map};
    ghost use Rattle.rc_asm.specs.Names.{Labels};

    ghost Value = { Labels };

    ghost view = { λ l. map (λ e. (e.0, e.1.number)) l.table };
}

impl Labels {
    ghost use Rattle.std.specs.Prelude.{map, ◌++◌};
    ghost use Rattle.rc_asm.specs.Names.{Labels as LabelList};
    ghost use Rattle.rc_asm.specs.Names.{Agree};

    // Adds the labels of one line. A name that is already in the table keeps its first address. The
    // expansion has refused such names, but no clause here says so.
    fn insert_all(
        &mut self,
        alloc: Global,
        source: &[u8],
        tokens: &[Token],
        address: usize,
    ) -> Result<(), AllocError>
        requires { address < 2 ^ 63 }
        ensures { OnOk result ((rest : LabelList) → Agree (self.new ++ rest) (self.old ++ (map (λ t. (name_of source.now t, address)) tokens.now ++ rest))) }
    {
        let mut rest = tokens;
        while let Some((token, after)) = rest.split_first() {
            self.table
                .add(alloc, source, token, LineAddress { number: address })?;
            rest = after;
        }
        Ok(())
    }

    // Collects the labels of all lines, each with its address.
    pub(crate) fn of_lines(alloc: Global, source: &[u8], lines: &[Line]) -> Result<Self, AllocError>
        ensures { IfOk result (λ labels. Agree labels (labels_of source.now lines.now)) }
    {
        let mut labels = Labels {
            table: NameTable::with_capacity(alloc, lines.len())?,
        };
        let mut address: usize = 0;
        let mut rest = lines;
        while let Some((line, after)) = rest.split_first() {
            labels.insert_all(alloc, source, line.labels.as_slice(), address)?;
            address = address_after(line.word, address);
            rest = after;
        }
        Ok(labels)
    }

    pub(crate) fn address_of(&self, source: &[u8], token: &Token) -> Option<LineAddress>
        ensures { option_map (λ address. address.number) result ≡ entry_of self.now (name_of source.now token.now) }
    {
        let address = self.table.get(source, token)?;
        Some(*address)
    }
}

// Returns the address after a line at `address`.
pub(crate) fn address_after(word: LineWord, address: usize) -> usize
    requires { address < 2 ^ 63 }
    ensures { result ≡ address_after word address }
{
    match word {
        LineWord::Code => address + 1,
        _ => address,
    }
}
