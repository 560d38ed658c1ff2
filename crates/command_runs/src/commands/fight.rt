//! The command `fight`: from a fight text to a result line.
ghost use Rattle.std.specs.Prelude.{◌≡◌, false, List, ℕ, Err, IsErrOf};
ghost use Rattle.tune_runs.specs.Runs.{writer};
ghost use Rattle.tune_runs.specs.FightRun.{fight_output};
ghost use Rattle.tune_runs.specs.declared.fault.RunFault.{RunFault};
ghost use Rattle.command_runs.specs.Commands.{WritesFightIn, EndsUnderstood};
ghost use Rattle.command_runs.specs.Input.{IsInput};

use crate::ending::Ending;
use crate::files::reading::read_text;
use crate::host::Host;
use crate::telling::witness::Witness;
use rc_instr::Outlet;
use std::io::{Read, Write};
use std::rt::Files;
use tune_runs::fight_run;

// Runs the command on the text that `input` holds.
pub(crate) fn fight<F: Files, R: Read, T: Witness, W: Write, V: Write>(
    host: &mut Host<'_, F, T, V>,
    input: &mut R,
    out: &mut Outlet<W>,
) -> Result<(), Ending>
    requires { out.old.failed ≡ false }
    ensures ended { EndsUnderstood (WritesFightIn (R.remaining input.old) (writer out.old out.new)) out.old out.new result }
    ensures refused { IsErrOf result Ending.Refused → (text : List ℕ) × (fault : RunFault) × IsInput (R.remaining input.old) text × (fight_output text ≡ Err fault) }
{
    let text = match read_text(host.alloc, input) {
        Ok(text) => text,
        Err(error) => return Err(host.fail("read", "-", &error)),
    };
    match fight_run(host.alloc, text.as_slice(), out) {
        Ok(()) => Ok(()),
        Err(fault) => Err(host.end(fault)),
    }
}
