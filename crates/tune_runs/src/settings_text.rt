//! The text of the settings: how many settings a template has, and a line for each constant.
ghost use Rattle.std.specs.Prelude.{◌≡◌, ◌++◌, map, IfOk, OnOk};
ghost use Rattle.tune_runs.specs.SettingsRun.{span_text, constant_line, constant_lines, settings_text};

use crate::report::add_number;
use itoa::Buffer;
use rc_instr::OutOfMemory;
use std::alloc::Global;
use tune_template::{Span, Template};

// Makes the text of a template's settings.
#[tactic(auto, unfolding(crate::specs::SettingsRun::settings_text))]
pub(crate) fn settings_text_of(alloc: Global, template: &Template) -> Result<Vec<u8>, OutOfMemory>
    ensures { IfOk result (λ text. text.items ≡ settings_text template.now) }
{
    let mut text = Vec::new(alloc);
    add_number(&mut text, b"vectors ", template.count())?;
    add_constant_lines(&mut text, template.names(), template.spans())?;
    Ok(text)
}

// Appends the line of a constant, as in `constant STEP 19 3045`.
#[tactic(auto, unfolding(crate::specs::SettingsRun::constant_line))]
fn add_constant_line(text: &mut Vec<u8>, name: &[u8], span: Span) -> Result<(), OutOfMemory>
    ensures { OnOk result (text.new.items ≡ text.old.items ++ constant_line name.now span) }
{
    text.extend_from_slice(b"constant ")?;
    text.extend_from_slice(name)?;
    add_span(text, span)
}

// Appends the number of a constant's values and its value in the start setting, as in ` 19 3045`,
// and ends the line.
#[tactic(auto, unfolding(crate::specs::SettingsRun::span_text))]
fn add_span(text: &mut Vec<u8>, span: Span) -> Result<(), OutOfMemory>
    ensures { OnOk result (text.new.items ≡ text.old.items ++ span_text span) }
{
    text.extend_from_slice(b" ")?;
    text.extend_from_slice(Buffer::new().format(span.count).as_bytes())?;
    text.extend_from_slice(b" ")?;
    text.extend_from_slice(Buffer::new().format(span.value_at(span.start)).as_bytes())?;
    text.extend_from_slice(b"\n")?;
    Ok(())
}

fn add_constant_lines(
    text: &mut Vec<u8>,
    names: &[Vec<u8>],
    spans: &[Span],
) -> Result<(), OutOfMemory>
    ensures { OnOk result (text.new.items ≡ text.old.items ++ constant_lines (map (λ n. n.items) names.now) spans.now) }
{
    let mut left = (names, spans);
    while let (Some((name, names)), Some((span, spans))) = (
        left.0.split_first(),
        left.1.split_first(),
    ) {
        add_constant_line(text, name.as_slice(), *span)?;
        left = (names, spans);
    }
    Ok(())
}
