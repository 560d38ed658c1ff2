//! The lines of an expansion, written as a text.
use crate::fixtures::constant_name;
use rc_expand::{Constants, ExpandKind, Line, LineWord, expand, name_of};
use rc_instr::Rules;
use rc_text::{Kind, Token};
use std::alloc::Global;
use std::test::Fail;

// Expands `source` under the standard rules with the constant K = 7. Returns its lines as text, or
// the text of its fault. Out of memory is an error.
pub(crate) fn lines_of(alloc: Global, source: &[u8]) -> Result<Vec<u8>, Fail> {
    let names = constant_name(alloc)?;
    let constants = Constants {
        names: &names,
        values: &[7],
    };
    match expand(alloc, source, &constants, &Rules::standard()) {
        Ok(expanded) => lines_text(alloc, source, expanded.lines.as_slice()),
        Err(fault) => {
            if fault.kind == ExpandKind::OutOfMemory {
                return Err(Fail::from(fault));
            }
            Ok(format!(in alloc; "{fault}")?.into_bytes())
        }
    }
}

// Appends each token after a blank: a decimal as its value, a name with its counters.
fn push_tokens(
    alloc: Global,
    out: &mut Vec<u8>,
    source: &[u8],
    tokens: &[Token],
) -> Result<(), Fail> {
    for token in tokens {
        out.push(b' ')?;
        match token.kind {
            Kind::Number(value) => {
                out.extend_from_slice(format!(in alloc; "{}", value)?.as_bytes())?;
            }
            _ => out.extend_from_slice(&name_of(alloc, source, token)?)?,
        }
    }
    Ok(())
}

// Returns how a word is printed: code as a minus.
fn word_text(word: LineWord) -> &'static [u8] {
    match word {
        LineWord::Bare => b"",
        LineWord::Code => b" -",
        LineWord::Org => b" ORG",
        LineWord::End => b" END",
        LineWord::Assert => b" ;assert",
    }
}

// Appends a line: its number, its labels, a colon, its word, and its tokens.
fn push_line(alloc: Global, out: &mut Vec<u8>, source: &[u8], line: &Line) -> Result<(), Fail> {
    out.extend_from_slice(format!(in alloc; "{}", line.number)?.as_bytes())?;
    push_tokens(alloc, out, source, line.labels.as_slice())?;
    out.push(b':')?;
    out.extend_from_slice(word_text(line.word))?;
    push_tokens(alloc, out, source, line.tokens.as_slice())?;
    out.push(b'\n')?;
    Ok(())
}

fn lines_text(alloc: Global, source: &[u8], lines: &[Line]) -> Result<Vec<u8>, Fail> {
    let mut out = Vec::new(alloc);
    for line in lines {
        push_line(alloc, &mut out, source, line)?;
    }
    Ok(out)
}
