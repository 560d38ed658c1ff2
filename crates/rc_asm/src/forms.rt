//! The forms of the lines. They are checked only after a fault: that of a malformed line comes
//! before those of values and of the warrior.
ghost use Rattle.std.specs.Prelude.{◌≡◌};
ghost use Rattle.rc_asm.specs.Faults.{form_check, forms_check};

use crate::fault::{AsmFault, AsmKind, at_line};
use crate::form::form_of;
use rc_expand::{Line, LineWord};

// Refuses the first line that is malformed.
pub(crate) fn check_forms(source: &[u8], lines: &[Line]) -> Result<(), AsmFault>
    ensures { result ≡ forms_check source.now lines.now }
{
    let mut rest = lines;
    while let Some((line, after)) = rest.split_first() {
        match check_form(source, line) {
            Ok(()) => {}
            Err(kind) => return Err(at_line(line.number, kind)),
        }
        rest = after;
    }
    Ok(())
}

// Lines of code must parse, and ORG needs an expression. Other lines have no form to check.
fn check_form(source: &[u8], line: &Line) -> Result<(), AsmKind>
    ensures { result ≡ form_check source.now line.now.word line.now.tokens }
{
    let tokens = line.tokens.as_slice();
    match line.word {
        LineWord::Code => {
            form_of(source, tokens)?;
            Ok(())
        }
        LineWord::Org => match tokens {
            [] => Err(AsmKind::MissingOperand),
            _ => Ok(()),
        },
        _ => Ok(()),
    }
}
