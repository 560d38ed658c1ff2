//! The values of the lines, in order.
ghost use Rattle.std.specs.Prelude.{◌≡◌, Result};
ghost use Rattle.rc_instr.specs.Results.{with_fault};
ghost use Rattle.rc_asm.specs.Faults.{Returns, at_line};
ghost use Rattle.rc_asm.specs.Instructions.{instruction_at};
ghost use Rattle.rc_asm.specs.Lines.{nothing_read, line_value, after_line, after_lines};
ghost use Rattle.rc_asm.specs.Seen.{seen_names, seen_reading};

use crate::fault::{AsmFault, AsmKind, at_line};
use crate::instruction::instruction_at;
use crate::labels::LineAddress;
use crate::scope::{Context, LabelsAs, value_at};
use crate::starts::Starts;
use rc_expand::{Line, LineWord};
use rc_instr::Instruction;
use std::alloc::Global;

// The code and the starts of the lines so far.
#[derive(Drop)]
pub(crate) struct Reading {
    pub(crate) code: Vec<Instruction>,
    pub(crate) starts: Starts,
}

// Reads all lines, or returns the fault of the first line that has one.
pub(crate) fn read_lines(
    alloc: Global,
    source: &[u8],
    context: &Context,
    lines: &[Line],
) -> Result<Reading, AsmFault>
    ensures { Returns seen_reading result (after_lines source.now (seen_names context.now) lines.now nothing_read) }
{
    let mut reading = Reading {
        code: Vec::with_capacity(alloc, lines.len())?,
        starts: Starts::none(),
    };
    let mut rest = lines;
    while let Some((line, after)) = rest.split_first() {
        read_line(source, context, line, &mut reading)?;
        rest = after;
    }
    Ok(reading)
}

// Reads a line after those that gave `reading`.
#[tactic(auto, unfolding(crate::specs::Lines::after_line))]
fn read_line(
    source: &[u8],
    context: &Context,
    line: &Line,
    reading: &mut Reading,
) -> Result<(), AsmFault>
    ensures { Returns (λ _. seen_reading reading.new) result (after_line source.now (seen_names context.now) line.now (seen_reading reading.old)) }
{
    let address = LineAddress {
        number: reading.code.len(),
    };
    match line.word {
        LineWord::Code => {
            let instruction = line_instruction(source, context, address, line)?;
            reading.code.push(instruction)?;
            Ok(())
        }
        LineWord::Org => {
            let value = line_value(source, context, address, line)?;
            reading.starts.org = Some(value);
            Ok(())
        }
        LineWord::End => {
            if !line.tokens.as_slice().is_empty() {
                let value = line_value(source, context, address, line)?;
                reading.starts.end = Some(value);
            }
            Ok(())
        }
        LineWord::Assert => {
            let value = line_value(source, context, address, line)?;
            if value == 0 {
                return Err(at_line(line.number, AsmKind::AssertFailed));
            }
            Ok(())
        }
        LineWord::Bare => Ok(()),
    }
}

// Reads the instruction of a line of code at `address`.
fn line_instruction(
    source: &[u8],
    context: &Context,
    address: LineAddress,
    line: &Line,
) -> Result<Instruction, AsmFault>
    ensures { result ≡ with_fault (at_line line.now.number) (instruction_at source.now (seen_names context.now) address.number line.now.tokens) }
{
    match instruction_at(source, context, address, line.tokens.as_slice()) {
        Ok(instruction) => Ok(instruction),
        Err(kind) => Err(at_line(line.number, kind)),
    }
}

// Evaluates the expression of a line at `address` that is not code.
fn line_value(
    source: &[u8],
    context: &Context,
    address: LineAddress,
    line: &Line,
) -> Result<i64, AsmFault>
    ensures { result ≡ with_fault (at_line line.now.number) (line_value source.now (seen_names context.now) address.number line.now.tokens) }
{
    match value_at(
        source,
        context,
        address,
        LabelsAs::Addresses,
        line.tokens.as_slice(),
    ) {
        Ok(value) => Ok(value),
        Err(fault) => Err(at_line(line.number, AsmKind::Value(fault))),
    }
}
