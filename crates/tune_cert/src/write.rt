//! Writes certificates.
ghost use Rattle.std.specs.Prelude.{◌≡◌, ◌<◌, ◌↔◌, ◌^◌, ◌++◌, ◌∷◌, [], false, length, flat_map, IfOk, OnOk, IfErr, IsErrOf, IsTrue};
ghost use Rattle.std.specs.Fmt.{decimal};
ghost use Rattle.std.specs.Io.KnownBytes.{Appends};
ghost use Rattle.csv.specs.Writing.{default_writer, row_text};
ghost use Rattle.tune_cert.specs.CertText.{item_text, spaced_text, list_text, row_fields, rows_fields, answer_fields, records_text, statement_with, statement_text, cert_text};
ghost use Rattle.tune_problem.specs.Valid.{cert_of};
ghost use Rattle.tune_cert.specs.Spelling.{IsVersion};
ghost use Rattle.tune_cert.specs.Steps.{IsReady, AddsText};

use crate::fault::CertFault;
use csv::{Writer, WriterBuilder};
use itoa::Buffer;
use rc_instr::{OutOfMemory, Outlet};
use std::alloc::Global;
use std::io::Write;
use tune_problem::{Answer, Best, Found, Row, Rows};

/// Writes the certificate of what a search found.
///
/// The lines are `cwcert,V,N` for version V and N settings, `best,W,T` for the best setting and its
/// total, and then for each setting v its row: `refused,v,-`, `same,v,u`, or `cap,v,LIST` with its
/// fights as in `0:3 1:1`, or `-` for none. The version must be 1 or 2, there must be fewer than
/// 4294967296 rows, and the outlet must not have failed. The text is built in memory and then
/// written whole.
///
/// # Errors
///
/// `Write` if the writer failed: an unknown part of the text may be out. `OutOfMemory` if an
/// allocation failed: nothing was written.
pub fn write_cert<W: Write>(
    alloc: Global,
    found: &Found,
    out: &mut Outlet<W>,
) -> Result<(), CertFault>
    requires works { out.old.failed ≡ false }
    requires version { IsVersion found.now.version }
    requires few { length found.now.rows < 2 ^ 32 }
    ensures bytes { OnOk result (Appends out.old.bytes out.new.bytes (cert_text (cert_of found.now))) }
    ensures write { IsErrOf result CertFault.Write ↔ IsTrue out.new.failed }
    ensures memory { IfErr result (λ e. e ≡ CertFault.OutOfMemory → out.new ≡ out.old) }
{
    let best = Best {
        vector: found.best,
        total: found.total,
    };
    write_answer(alloc, found.version, Answer::Best(best), &found.rows, out)
}

/// Writes a certificate with either answer.
///
/// The second line is `best,W,T` as that of `write_cert`, or `none,-,F` if no setting totals F or
/// more. The version must be 1 or 2, there must be fewer than 4294967296 rows, and the outlet must
/// not have failed.
///
/// # Errors
///
/// Those of `write_cert`.
pub fn write_answer<W: Write>(
    alloc: Global,
    version: u32,
    answer: Answer,
    rows: &Rows,
    out: &mut Outlet<W>,
) -> Result<(), CertFault>
    requires works { out.old.failed ≡ false }
    requires version { IsVersion version }
    requires few { length rows.now < 2 ^ 32 }
    ensures bytes { OnOk result (Appends out.old.bytes out.new.bytes (statement_text (statement_with version answer rows.now))) }
    ensures write { IsErrOf result CertFault.Write ↔ IsTrue out.new.failed }
    ensures memory { IfErr result (λ e. e ≡ CertFault.OutOfMemory → out.new ≡ out.old) }
{
    let text = text_of(alloc, version, answer, rows)?;
    out.write_all(text.as_slice())?;
    Ok(())
}

// Builds the whole text in memory.
#[tactic(auto, using(crate::proofs::Written::whole_text))]
fn text_of(alloc: Global, version: u32, answer: Answer, rows: &Rows) -> Result<Vec<u8>, OutOfMemory>
    requires { length rows.now < 2 ^ 32 }
    ensures { IfOk result (λ text. text.items ≡ statement_text (statement_with version answer rows.now)) }
{
    let mut writer = WriterBuilder::new().from_writer(Vec::new(alloc));
    let rows = rows.as_slice();
    write_numbers(&mut writer, b"cwcert", version, rows.len() as u32)?;
    write_answer_record(&mut writer, answer)?;
    write_rows(alloc, &mut writer, rows)?;
    writer.into_inner().map_err(|_refused| OutOfMemory)
}

// Writes a record of a word and two numbers.
fn write_numbers(
    writer: &mut Writer<Vec<u8>>,
    word: &[u8],
    first: u32,
    second: u32,
) -> Result<(), OutOfMemory>
    requires { IsReady writer.old }
    ensures { OnOk result (AddsText writer.old writer.new (row_text default_writer (word.now ∷ decimal first ∷ decimal second ∷ []))) }
{
    write_record(
        writer,
        word,
        Buffer::new().format(first).as_bytes(),
        Buffer::new().format(second).as_bytes(),
    )
}

fn write_answer_record(writer: &mut Writer<Vec<u8>>, answer: Answer) -> Result<(), OutOfMemory>
    requires { IsReady writer.old }
    ensures { OnOk result (AddsText writer.old writer.new (row_text default_writer (answer_fields answer))) }
{
    match answer {
        Answer::Best(best) => write_numbers(writer, b"best", best.vector, best.total),
        Answer::NoneFrom(floor) => {
            write_record(
                writer,
                b"none",
                b"-",
                Buffer::new().format(floor).as_bytes(),
            )
        }
    }
}

fn write_rows(alloc: Global, writer: &mut Writer<Vec<u8>>, rows: &[Row]) -> Result<(), OutOfMemory>
    requires ready { IsReady writer.old }
    requires few { length rows.now < 2 ^ 32 }
    ensures { OnOk result (AddsText writer.old writer.new (records_text (rows_fields rows.now 0))) }
{
    let mut list = Vec::new(alloc);
    let mut vector = 0u32;
    for row in rows {
        write_row(writer, &mut list, vector, row)?;
        vector += 1;
    }
    Ok(())
}

// Writes the row of setting `vector`. Builds the text of a list in `list`, so that all rows share
// one allocation.
fn write_row(
    writer: &mut Writer<Vec<u8>>,
    list: &mut Vec<u8>,
    vector: u32,
    row: &Row,
) -> Result<(), OutOfMemory>
    requires { IsReady writer.old }
    ensures { OnOk result (AddsText writer.old writer.new (row_text default_writer (row_fields vector row.now))) }
{
    let mut buffer = Buffer::new();
    let setting = buffer.format(vector).as_bytes();
    match row {
        Row::Refused => write_record(writer, b"refused", setting, b"-"),
        Row::Same(other) => {
            write_record(
                writer,
                b"same",
                setting,
                Buffer::new().format(*other).as_bytes(),
            )
        }
        Row::Cap(fights) => {
            set_list(list, fights.as_slice())?;
            write_record(writer, b"cap", setting, list.as_slice())
        }
    }
}

fn write_record(
    writer: &mut Writer<Vec<u8>>,
    first: &[u8],
    second: &[u8],
    third: &[u8],
) -> Result<(), OutOfMemory>
    requires { IsReady writer.old }
    ensures { OnOk result (AddsText writer.old writer.new (row_text default_writer (first.now ∷ second.now ∷ third.now ∷ []))) }
{
    writer
        .write_fields(&[first, second, third])
        .map_err(|_refused| OutOfMemory)
}

// Replaces `text` by the list of a cap row: its fights, or `-` for none.
#[tactic(auto, unfolding(crate::specs::CertText::list_text))]
fn set_list(text: &mut Vec<u8>, items: &[(u32, u8)]) -> Result<(), OutOfMemory>
    ensures { OnOk result (text.new.items ≡ list_text items.now) }
{
    text.clear();
    let Some((first, others)) = items.split_first() else {
        text.push(b'-')?;
        return Ok(());
    };
    add_item(text, *first)?;
    add_others(text, others)
}

// Appends a fight with its points, as in `7:3`.
#[tactic(auto, unfolding(crate::specs::CertText::item_text))]
fn add_item(text: &mut Vec<u8>, item: (u32, u8)) -> Result<(), OutOfMemory>
    ensures { OnOk result (text.new.items ≡ text.old.items ++ item_text item) }
{
    add_decimal(text, item.0)?;
    text.push(b':')?;
    add_decimal(text, u32::from(item.1))
}

// Appends the fights after the first, each with a space before it.
fn add_others(text: &mut Vec<u8>, items: &[(u32, u8)]) -> Result<(), OutOfMemory>
    ensures { OnOk result (text.new.items ≡ text.old.items ++ flat_map spaced_text items.now) }
{
    for item in items {
        add_spaced(text, *item)?;
    }
    Ok(())
}

// Appends a space, then a fight with its points.
#[tactic(auto, unfolding(crate::specs::CertText::spaced_text))]
fn add_spaced(text: &mut Vec<u8>, item: (u32, u8)) -> Result<(), OutOfMemory>
    ensures { OnOk result (text.new.items ≡ text.old.items ++ spaced_text item) }
{
    text.push(b' ')?;
    add_item(text, item)
}

fn add_decimal(text: &mut Vec<u8>, number: u32) -> Result<(), OutOfMemory>
    ensures { OnOk result (text.new.items ≡ text.old.items ++ decimal number) }
{
    text.extend_from_slice(Buffer::new().format(number).as_bytes())?;
    Ok(())
}
