//! For each EQU body: which of its tokens are EQU names themselves. Looked up once, since a name
//! may be as long as the text.
ghost use Rattle.std.specs.Prelude.{◌≡◌, IfOk};
ghost use Rattle.rc_expand.specs.Equs.{equ_in};
ghost use Rattle.rc_expand.specs.NameTables.{at_index, AreIndices, AreLinks};

use crate::name_table::NameTable;
use crate::read::equs::Equ;
use crate::tokens::is_name_token;
use rc_text::Token;
use std::alloc::{AllocError, Global};

// Looks up each of `tokens` in the table of EQU names: its index there, or `None`.
pub(crate) fn link_tokens(
    alloc: Global,
    source: &[u8],
    tokens: &[Token],
    equs: &NameTable<Equ>,
) -> Result<Vec<Option<usize>>, AllocError>
    ensures { IfOk result (λ v. AreIndices source.now equs.now tokens.now v.items) }
{
    let mut indices = Vec::with_capacity(alloc, tokens.len())?;
    for token in tokens {
        indices.push(equ_index(source, token, equs))?;
    }
    Ok(indices)
}

// Looks up the tokens of every EQU body.
pub(crate) fn link_equs(
    alloc: Global,
    source: &[u8],
    equs: &NameTable<Equ>,
) -> Result<Vec<Vec<Option<usize>>>, AllocError>
    ensures { IfOk result (λ v. AreLinks source.now equs.now v.items) }
{
    let mut links = Vec::new(alloc);
    let mut index = 0;
    while let Some(equ) = equs.at(index) {
        links.push(link_tokens(alloc, source, equ.tokens(), equs)?)?;
        index += 1;
    }
    Ok(links)
}

// Looks up `token` as an EQU name. Returns its index in the table.
fn equ_index(source: &[u8], token: &Token, equs: &NameTable<Equ>) -> Option<usize>
    ensures { at_index equs.now result ≡ equ_in source.now equs.now token.now }
{
    if is_name_token(token) {
        equs.index_of(source, token)
    } else {
        None
    }
}
