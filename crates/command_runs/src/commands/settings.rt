//! The command `settings`: from a template to the number of its settings, and its constants.
ghost use Rattle.std.specs.Prelude.{◌≡◌, ℕ, List, false};
ghost use Rattle.tune_runs.specs.Runs.{writer};
ghost use Rattle.tune_runs.specs.SettingsRun.{WritesSettings};
ghost use Rattle.command_runs.specs.Commands.{EndsUnderstood};

use crate::ending::Ending;
use crate::host::Host;
use crate::telling::refused::Refused;
use crate::telling::witness::Witness;
use rc_instr::Outlet;
use std::io::Write;
use std::rt::Files;
use tune_runs::settings_run;

// Runs the command on a file.
pub(crate) fn settings<F: Files, T: Witness, W: Write, V: Write>(
    host: &mut Host<'_, F, T, V>,
    file: &str,
    out: &mut Outlet<W>,
) -> Result<(), Ending>
    requires { out.old.failed ≡ false }
    ensures { EndsUnderstood ((source : List ℕ) × WritesSettings source (writer out.old out.new)) out.old out.new result }
{
    let source = host.read(file)?;
    let text = source.as_slice();
    host.witness.before_template(host.alloc, file, text);
    match settings_run(host.alloc, text, out) {
        Ok(()) => Ok(()),
        Err(fault) => Err(host.refuse(&Refused::Template { file, text }, fault)),
    }
}
