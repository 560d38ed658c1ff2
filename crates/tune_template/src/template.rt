//! Templates: texts with constants that run over ranges.
ghost use Rattle.std.specs.Prelude.{◌≡◌, ◌<◌, ◌≤◌, ◌/◌, ◌%◌, [], length, map, slice_get, Some, Ok, Err, IfOk, OnOk, All};
ghost use Rattle.rc_instr.specs.Warrior.{Fits};
ghost use Rattle.tune_template.specs.Faults.{Returns};
ghost use Rattle.tune_template.specs.Limits.{MOST_CONSTANTS, MOST_SETTINGS};
ghost use Rattle.tune_template.specs.Lines.{lines_of};
ghost use Rattle.tune_template.specs.Ranges.{Ranges, ranges, vector_count, line_added, ranges_from};
ghost use Rattle.tune_template.specs.Vectors.{vectors_of, start_vector, start_index};
ghost use Rattle.rc_asm.specs.Faults.{Returns as Assembled};
ghost use Rattle.tune_template.specs.Instances.{instance_of, setting_count, template_of};
ghost use Rattle.tune_template.specs.Steps.{seen_ranges, AreCounted, HasValues};

use crate::fault::{TemplateFault, TemplateKind, at_line};
use crate::lines::{first_line, is_range_line};
use crate::range::RangesSoFar;
use crate::span::Span;
use crate::vector::Vector;
use rc_asm::limits::MOST_BYTES;
use rc_asm::{AsmFault, assemble};
use rc_expand::Constants;
use rc_instr::{Rules, Warrior};
use std::alloc::Global;
use std::marker::Model;

/// A Redcode text that leaves up to 8 constants open, each with a range of values.
#[derive(Debug, Drop)]
pub struct Template {
    text: Vec<u8>,
    names: Vec<Vec<u8>>,
    spans: Vec<Span>,
    count: u32,
}

impl Model for Template {
    ghost use Rattle.std.specs.Prelude.{map};
    ghost use Rattle.tune_template.specs.Ranges.{ranges, HasRanges};
    ghost use Rattle.tune_template.specs.Instances.{TemplateView};
    ghost use Rattle.tune_template.specs.Steps.{AreCounted};

    ghost Value = { TemplateView };

    ghost view = { λ t. record { text = t.text.items; ranges = ranges (map (λ n. n.items) t.names.items) t.spans.items } };

    ghost invariant = { λ t. HasRanges t.text.items (ranges (map (λ n. n.items) t.names.items) t.spans.items)
        × AreCounted (ranges (map (λ n. n.items) t.names.items) t.spans.items) t.count };
}

impl Template {
    /// Parses a template.
    ///
    /// A line `;@tune NAME LOW HIGH STEP START` is a range, wherever it is in the text. Its five
    /// words are separated by blanks; a blank or the end of the line follows `;@tune`. The constant
    /// NAME has the values LOW, LOW + STEP, .. up to HIGH, and a search begins with START, which is
    /// one of them. NAME is a letter or `_`, then letters, digits and `_`. LOW, HIGH and START are
    /// -65535 to 65535, written as an optional minus and 1 to 5 digits; STEP is 1 to 65535. The
    /// assembler takes these lines for comments.
    ///
    /// # Errors
    ///
    /// `TextTooLong`, at line 0, if the text has more than 65536 bytes. Else the first faulty line
    /// is reported, with the first of its faults in this order:
    ///
    /// - `TooManyConstants`: it is the ninth range.
    /// - `BadLine`: it is malformed.
    /// - `ReservedName`: the constant is a reserved word or a predefined name.
    /// - `DuplicateName`: an earlier line has the same constant.
    /// - `EmptyRange`: LOW is above HIGH.
    /// - `StartOutside`: START is not one of the values.
    /// - `TooManyVectors`: there are more than 1000000 settings.
    ///
    /// `OutOfMemory`, at line 0, can come at any point.
    #[tactic(auto, unfolding(crate::specs::Ranges::ranges_of))]
    pub fn read(alloc: Global, bytes: &[u8]) -> Result<Template, TemplateFault>
        ensures { Returns (λ t. t) result (template_of bytes.now) }
    {
        if bytes.len() > MOST_BYTES {
            return Err(at_line(0, TemplateKind::TextTooLong));
        }
        let text = bytes.to_vec(alloc)?;
        let RangesSoFar {
            names,
            spans,
            count,
        } = read_lines(alloc, bytes)?;
        Ok(Template {
            text,
            names,
            spans,
            count,
        })
    }

    /// Returns the text.
    pub fn text(&self) -> &[u8]
        ensures { result.now ≡ self.now.text }
    {
        self.text.as_slice()
    }

    /// Returns the number of settings, 1 to 1000000.
    #[tactic(auto, using(crate::proofs::VectorSteps::vectors_len, crate::proofs::VectorSteps::some_vector))]
    pub fn count(&self) -> u32
        ensures count { result ≡ setting_count self.now }
        ensures some { 0 < result }
        ensures few { result ≤ MOST_SETTINGS }
    {
        self.count
    }

    /// Returns the setting at `index`, from 0, which must be below `count`: one value for each
    /// constant. Settings are in lexicographic order, with the first constant slowest and rising
    /// values.
    pub fn vector(&self, index: u32) -> Vector
        requires { index < setting_count self.now }
        ensures { slice_get (vectors_of self.now.ranges.spans) index ≡ Some result }
    {
        vector_at(&self.spans, self.count, index)
    }

    /// Returns the index of the setting of the start values.
    pub fn start_number(&self) -> u32
        ensures index { result ≡ start_index self.now.ranges.spans }
        ensures start { slice_get (vectors_of self.now.ranges.spans) result ≡ Some (start_vector self.now.ranges.spans) }
        ensures inside { result < setting_count self.now }
    {
        start_of(&self.spans, self.count)
    }

    /// Returns the constants, in the order of their lines.
    pub fn names(&self) -> &[Vec<u8>]
        ensures { map (λ n. n.items) result.now ≡ self.now.ranges.names }
    {
        self.names.as_slice()
    }

    /// Returns the span of each constant's values, in the order of the lines.
    pub fn spans(&self) -> &[Span]
        ensures { result.now ≡ self.now.ranges.spans }
    {
        self.spans.as_slice()
    }

    /// Assembles the text with the values of the setting at `index`, which must be below `count`.
    ///
    /// Fails as `rc_asm::assemble` does for the text with these values.
    pub fn instance(&self, alloc: Global, index: u32, rules: &Rules) -> Result<Warrior, AsmFault>
        requires { index < setting_count self.now }
        ensures meaning { Assembled (λ w. w) result (instance_of self.now rules.now index) }
        ensures fits { IfOk result (Fits rules.now) }
    {
        let vector = self.vector(index);
        let constants = Constants {
            names: self.names(),
            values: vector.as_slice(),
        };
        assemble(alloc, &self.text, &constants, rules)
    }
}

// Adds the constant of a line, if it is a range line.
fn add_line(
    reading: &mut RangesSoFar,
    alloc: Global,
    number: u64,
    line: &[u8],
) -> Result<(), TemplateFault>
    requires counted { AreCounted (seen_ranges reading.old) reading.old.count }
    ensures added { Returns (λ u. seen_ranges reading.new) result (line_added number (seen_ranges reading.old) line.now) }
    ensures counted { OnOk result (AreCounted (seen_ranges reading.new) reading.new.count) }
{
    if !is_range_line(line) {
        return Ok(());
    }
    match reading.next_range(line) {
        Ok((name, span)) => reading.push(alloc, name, span),
        Err(kind) => Err(at_line(number, kind)),
    }
}

fn read_lines(alloc: Global, bytes: &[u8]) -> Result<RangesSoFar, TemplateFault>
    ensures read { Returns seen_ranges result (ranges_from 1 (ranges [] []) (lines_of bytes.now)) }
    ensures counted { IfOk result (λ r. AreCounted (seen_ranges r) r.count) }
{
    let mut reading = RangesSoFar::new(alloc);
    let mut number: u64 = 1;
    let mut rest = Some(bytes);
    while let Some(text) = rest {
        let (line, others) = first_line(text);
        add_line(&mut reading, alloc, number, line)?;
        number += 1;
        rest = others;
    }
    Ok(reading)
}

// Decodes the setting at `index` of `count`: one digit for each span, the first constant slowest.
fn vector_at(spans: &[Span], count: u32, index: u32) -> Vector
    requires few { length spans.now ≤ MOST_CONSTANTS }
    requires values { All HasValues spans.now }
    requires count { vector_count spans.now ≡ count }
    requires inside { index < count }
    ensures { slice_get (vectors_of spans.now) index ≡ Some result }
{
    let mut vector = Vector::new();
    let mut size = count;
    let mut place = index;
    let mut rest = spans;
    while let Some((span, after)) = rest.split_first() {
        size /= span.count;
        vector.push(span.value_at(place / size));
        place %= size;
        rest = after;
    }
    vector
}

// Encodes the setting of the start values, as `vector_at` decodes it.
fn start_of(spans: &[Span], count: u32) -> u32
    requires values { All HasValues spans.now }
    requires count { vector_count spans.now ≡ count }
    ensures index { result ≡ start_index spans.now }
    ensures start { slice_get (vectors_of spans.now) result ≡ Some (start_vector spans.now) }
    ensures inside { result < length (vectors_of spans.now) }
{
    let mut index = 0;
    let mut size = count;
    let mut rest = spans;
    while let Some((span, after)) = rest.split_first() {
        size /= span.count;
        index += span.start * size;
        rest = after;
    }
    index
}
