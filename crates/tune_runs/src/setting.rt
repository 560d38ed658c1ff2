//! A setting: from a template to the load file of one of its settings.
ghost use Rattle.std.specs.Prelude.{◌≡◌, ◌<◌, false, IfOk, IfErr};
ghost use Rattle.rc_instr.specs.Warrior.{Fits};
ghost use Rattle.tune_template.specs.Instances.{setting_count};
ghost use Rattle.tune_runs.specs.Runs.{Returns, IsRun, IsOutOfMemory};
ghost use Rattle.tune_runs.specs.SettingRun.{index_meant, index_within, setting_warrior, setting_output};

use crate::asm::loadfile_of;
use crate::fault::RunFault;
use crate::inputs::template_of;
use rc_instr::{Outlet, Rules, Warrior};
use std::alloc::Global;
use std::io::Write;
use tune_template::{Template, WhichSetting};

/// Assembles a template with the values of one of its settings under `rules`, and writes the load
/// file of the warrior. A tuning plays this setting with the same warrior.
///
/// The outlet must not have failed.
///
/// # Errors
///
/// The first that applies: `Template` with the fault of its text, `NoSuchSetting` if the template
/// has no setting at this index, `Asm` if the text does not assemble with the values, with the
/// first fault and its line, from 1, or 0 if the fault has no line. Nothing is written then.
/// `Write` if the writer failed: an unknown part of the load file may be out. `OutOfMemory` if an
/// allocation failed: nothing is written.
pub fn setting_run<W: Write>(
    alloc: Global,
    source: &[u8],
    which: WhichSetting,
    rules: &Rules,
    out: &mut Outlet<W>,
) -> Result<(), RunFault>
    requires { out.old.failed ≡ false }

    ensures run { IsRun (setting_output source.now which rules.now) result out.old out.new }
{
    let text = setting_text(alloc, source, which, rules)?;
    out.write_all(text.as_slice())?;
    Ok(())
}

fn setting_text(
    alloc: Global,
    source: &[u8],
    which: WhichSetting,
    rules: &Rules,
) -> Result<Vec<u8>, RunFault>
    ensures { Returns (λ file. (tt, file.items)) result (setting_output source.now which rules.now) }
{
    let warrior = warrior_at(alloc, source, which, rules)?;
    Ok(loadfile_of(alloc, &warrior, rules)?)
}

#[tactic(auto, unfolding(crate::specs::SettingRun::setting_warrior))]
fn warrior_at(
    alloc: Global,
    source: &[u8],
    which: WhichSetting,
    rules: &Rules,
) -> Result<Warrior, RunFault>
    ensures warrior { Returns (λ w. w) result (setting_warrior source.now which rules.now) }
    ensures fits { IfOk result (Fits rules.now) }
{
    let template = template_of(alloc, source)?;
    let index = index_of(&template, which)?;
    Ok(template.instance(alloc, index, rules)?)
}

// Returns the index of the setting that is meant, or `NoSuchSetting` if the template has no such
// setting.
fn index_of(template: &Template, which: WhichSetting) -> Result<u32, RunFault>
    ensures index { Returns (λ i. i) result (index_within (setting_count template.now) (index_meant which template.now.ranges.spans)) }
    ensures inside { IfOk result (λ i. i < setting_count template.now) }
    ensures memory { IfErr result (λ e. ¬ IsOutOfMemory e) }
{
    let index = index_meant(template, which);
    if index < template.count() {
        Ok(index)
    } else {
        Err(RunFault::NoSuchSetting { index })
    }
}

fn index_meant(template: &Template, which: WhichSetting) -> u32
    ensures { result ≡ index_meant which template.now.ranges.spans }
{
    match which {
        WhichSetting::Start => template.start_number(),
        WhichSetting::Index(index) => index,
    }
}
