//! The settings of a template: from a template to the number of its settings, and its constants.
ghost use Rattle.std.specs.Prelude.{◌≡◌, false};
ghost use Rattle.tune_runs.specs.Runs.{Returns, IsRun};
ghost use Rattle.tune_runs.specs.SettingsRun.{settings_output};

use crate::fault::RunFault;
use crate::inputs::template_of;
use crate::settings_text::settings_text_of;
use rc_instr::Outlet;
use std::alloc::Global;
use std::io::Write;

/// Writes how many settings a template has, and a line for each of its constants: its name, the
/// number of its values, and its value in the start setting.
///
/// The outlet must not have failed.
///
/// # Errors
///
/// `Template` with the fault of the text, as `tune_run` has it: nothing is written. `Write` if the
/// writer failed: an unknown part of the text may be out. `OutOfMemory` if an allocation failed:
/// nothing is written.
pub fn settings_run<W: Write>(
    alloc: Global,
    source: &[u8],
    out: &mut Outlet<W>,
) -> Result<(), RunFault>
    requires { out.old.failed ≡ false }

    ensures run { IsRun (settings_output source.now) result out.old out.new }
{
    let text = text_of(alloc, source)?;
    out.write_all(text.as_slice())?;
    Ok(())
}

fn text_of(alloc: Global, source: &[u8]) -> Result<Vec<u8>, RunFault>
    ensures { Returns (λ text. (tt, text.items)) result (settings_output source.now) }
{
    let template = template_of(alloc, source)?;
    Ok(settings_text_of(alloc, &template)?)
}
