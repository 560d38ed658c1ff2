//! The values of one constant.
ghost use Rattle.std.specs.Prelude.{◌≡◌, ◌≤◌, ◌<◌, ◌≤ℤ◌, ◌-ℤ◌, ℤ, pos, negsuc, IfOk};
ghost use Rattle.rc_asm.specs.Instructions.{natural};
ghost use Rattle.tune_template.specs.Spans.{span_of, span_value};
ghost use Rattle.tune_template.specs.Steps.{HasValues};

use crate::fault::TemplateKind;

/// The values of a constant: `low`, `low + step`, .., `count` of them. A template makes only spans
/// within the ranges below.
#[derive(Clone, Copy, Debug)]
pub struct Span {
    /// The least value, -65535 to 65535.
    pub low: i32,
    /// From one value to the next, 1 to 65535.
    pub step: u16,
    /// How many values there are, 1 to 131071.
    pub count: u32,
    /// The index of the value that the start setting has, below `count`.
    pub start: u32,
}

impl Span {
    // Makes the span of `low`, `low + step`, .. up to `high`, with `start` as one of its values.
    // Returns `EmptyRange` before `StartOutside`.
    #[tactic(auto, unfolding(crate::specs::Spans::span_of))]
    pub(crate) fn try_new(low: i32, high: i32, step: u16, start: i32) -> Result<Span, TemplateKind>
        requires low { negsuc 65534 ≤ℤ low }
        requires high { high ≤ℤ pos 65535 }
        requires step { 0 < step }
        ensures span { result ≡ span_of low high step start }
        ensures values { IfOk result HasValues }
    {
        if high < low {
            return Err(TemplateKind::EmptyRange);
        }
        if start < low {
            return Err(TemplateKind::StartOutside);
        }
        if high < start {
            return Err(TemplateKind::StartOutside);
        }
        let above = measure(low, start);
        if above % u32::from(step) != 0 {
            return Err(TemplateKind::StartOutside);
        }
        Ok(Span {
            low,
            step,
            count: measure(low, high) / u32::from(step) + 1,
            start: above / u32::from(step),
        })
    }

    /// Returns the value at `index`: `low + index * step`. The least value is at 0. `index` need
    /// not be below `count`.
    pub fn value_at(&self, index: u32) -> i64
        ensures { result ≡ span_value self.now index }
    {
        i64::from(self.low) + i64::from(index) * i64::from(self.step)
    }
}

// Returns `to - from`, which is not negative.
fn measure(from: i32, to: i32) -> u32
    requires low { negsuc 65534 ≤ℤ from }
    requires order { from ≤ℤ to }
    requires high { to ≤ℤ pos 65535 }
    ensures value { result ≡ natural (to -ℤ from) }
    ensures small { result ≤ 131070 }
{
    (to - from) as u32
}
