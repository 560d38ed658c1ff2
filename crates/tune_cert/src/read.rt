//! Reads certificates.
ghost use Rattle.std.specs.Prelude.{◌≡◌, ◌==◌, ◌≤◌, ◌<◌, ◌^◌, false, length, drop, IfOk, OnOk, IfSome};
ghost use Rattle.std.specs.List.{position};
ghost use Rattle.std.specs.Option.{option_map};
ghost use Rattle.csv.specs.Records.{fields_of};
ghost use Rattle.rc_instr.specs.Results.{with_fault};
ghost use Rattle.tables.specs.Records.{records_of};
ghost use Rattle.tune_cert.specs.Spelling.{decimal_of, version_of, points_of, item_of, listing_of, count_of, best_of, none_of, answer_of, row_by, row_of, record_of, first_as, rows_from, statement_of, cert_by, cert_of_records, Returns};
ghost use Rattle.tune_cert.specs.Steps.{AreParts};
ghost use Rattle.tune_cert.specs.declared.fault.ReadFault.TheVariants.{Malformed};

use crate::fault::ReadFault;
use csv::ByteRecord;
use rc_instr::{OutOfMemory, decimal_of};
use std::alloc::Global;
use tables::{Records, three_fields};
use tune_problem::{Answer, Best, Cert, Listing, Row, Rows, Statement};

/// Parses a certificate, without judging it: `check` compares it with the inputs of a tuning.
///
/// The crate `csv` splits the bytes into records, so fields may be quoted and records may end with
/// LF, CR or CR LF. Each record has three fields: `cwcert,V,N` with version V, 1 or 2, then
/// `best,W,T`, then for each setting v from 0 on `refused,v,-`, `same,v,u`, or `cap,v,LIST` with a
/// list of fights such as `0:3 4:1`, or `-` for none. Decimals are at most 4294967295 and have no
/// leading zero. There may be more or fewer rows than N.
///
/// # Errors
///
/// `Malformed` names the first record that is not of this form, or record 0 or 1 if it is missing.
/// `OutOfMemory` if an allocation failed.
pub fn read_cert(alloc: Global, bytes: &[u8]) -> Result<Cert, ReadFault>
    ensures { Returns (λ c. c) result (with_fault Malformed (cert_of_records (records_of bytes.now))) }
{
    let statement = read_statement(alloc, false, bytes)?;
    cert_by(statement)
}

/// Parses a certificate with either answer, without judging it.
///
/// The form is that of `read_cert`. With `floors`, record 1 may also be `none,-,F`: no setting
/// totals F or more.
///
/// # Errors
///
/// Those of `read_cert`.
pub fn read_statement(alloc: Global, floors: bool, bytes: &[u8]) -> Result<Statement, ReadFault>
    ensures { Returns (λ s. s) result (with_fault Malformed (statement_of floors (records_of bytes.now))) }
{
    let mut records = Records::new(alloc, bytes);
    let mut fields = ByteRecord::new(alloc);
    let (version, count) = read_count(&mut records, &mut fields)?;
    let answer = read_answer(&mut records, &mut fields, floors)?;
    let rows = read_rows(alloc, &mut records, &mut fields)?;
    Ok(Statement {
        version,
        count,
        answer,
        rows: Rows::from_vec(rows),
    })
}

// Returns a statement as a certificate. One without a best setting, which is read only with floors,
// is malformed at record 1.
fn cert_by(statement: Statement) -> Result<Cert, ReadFault>
    ensures { result ≡ with_fault Malformed (cert_by statement statement.answer) }
{
    match statement.answer {
        Answer::Best(best) => Ok(Cert {
            version: statement.version,
            count: statement.count,
            best: best.vector,
            total: best.total,
            rows: statement.rows,
        }),
        Answer::NoneFrom(_) => Err(ReadFault::Malformed { row: 1 }),
    }
}

// Reads record 0: `cwcert,V,N`. Returns the version V, 1 or 2, and N, the number of settings.
fn read_count(records: &mut Records, fields: &mut ByteRecord) -> Result<(u32, u32), ReadFault>
    ensures count { Returns (λ x. x) result (with_fault Malformed (first_as count_of 0 records.old)) }
    ensures rest { OnOk result (drop 1 records.old ≡ records.new) }
{
    if records.read(fields)? {
        if let Some(count) = count_of(fields) {
            return Ok(count);
        }
    }
    Err(ReadFault::Malformed { row: 0 })
}

// Reads record 1: `best,W,T`, or with `floors` also `none,-,F`.
fn read_answer(
    records: &mut Records,
    fields: &mut ByteRecord,
    floors: bool,
) -> Result<Answer, ReadFault>
    ensures answer { Returns (λ a. a) result (with_fault Malformed (first_as (answer_of floors) 1 records.old)) }
    ensures rest { OnOk result (drop 1 records.old ≡ records.new) }
{
    if records.read(fields)? {
        if let Some(answer) = answer_of(fields, floors) {
            return Ok(answer);
        }
    }
    Err(ReadFault::Malformed { row: 1 })
}

// Reads the rows, which begin at record 2. A row names its own setting, so one that is left out or
// repeated makes the next one malformed.
fn read_rows(
    alloc: Global,
    records: &mut Records,
    fields: &mut ByteRecord,
) -> Result<Vec<Row>, ReadFault>
    ensures { Returns (λ v. v.items) result (with_fault Malformed (rows_from 0 records.old)) }
{
    let mut rows = Vec::new(alloc);
    let mut vector = 0u64;
    while records.read(fields)? {
        if vector > u64::from(u32::MAX) {
            return Err(ReadFault::Malformed {
                row: record_of(vector),
            });
        }
        match row_of(alloc, vector as u32, fields)? {
            Some(row) => rows.push(row)?,
            None => return Err(ReadFault::Malformed {
                row: record_of(vector),
            }),
        }
        vector += 1;
    }
    Ok(rows)
}

// Returns the record of a setting's row. Record 0 has the count, and record 1 the answer.
pub(crate) fn record_of(vector: u64) -> u64
    requires { vector ≤ 2 ^ 32 }
    ensures { result ≡ record_of vector }
{
    vector + 2
}

fn count_of(fields: &ByteRecord) -> Option<(u32, u32)>
    ensures { result ≡ count_of (fields_of fields.now) }
{
    let (name, version, count) = three_fields(fields)?;
    if name == b"cwcert".as_slice() {
        Some((version_of(version)?, number_of(count)?))
    } else {
        None
    }
}

fn answer_of(fields: &ByteRecord, floors: bool) -> Option<Answer>
    ensures { result ≡ answer_of floors (fields_of fields.now) }
{
    if let Some(answer) = best_of(fields) {
        return Some(answer);
    }
    if floors { none_of(fields) } else { None }
}

fn best_of(fields: &ByteRecord) -> Option<Answer>
    ensures { result ≡ best_of (fields_of fields.now) }
{
    let (name, best, total) = three_fields(fields)?;
    if name == b"best".as_slice() {
        let vector = number_of(best)?;
        let total = number_of(total)?;
        Some(Answer::Best(Best { vector, total }))
    } else {
        None
    }
}

fn none_of(fields: &ByteRecord) -> Option<Answer>
    ensures { result ≡ none_of (fields_of fields.now) }
{
    let (name, dash, floor) = three_fields(fields)?;
    if name == b"none".as_slice() && dash == b"-".as_slice() {
        Some(Answer::NoneFrom(number_of(floor)?))
    } else {
        None
    }
}

// Parses a record as the row of setting `vector`, or returns `None` if it is not one.
fn row_of(alloc: Global, vector: u32, fields: &ByteRecord) -> Result<Option<Row>, OutOfMemory>
    ensures { IfOk result (λ row. row ≡ row_of vector (fields_of fields.now)) }
{
    let Some((kind, setting, last)) = three_fields(fields) else {
        return Ok(None);
    };
    match number_of(setting) {
        Some(found) if found == vector => row_by(alloc, kind, last),
        _ => Ok(None),
    }
}

// Parses a row from its first field, the kind, and its last field.
fn row_by(alloc: Global, kind: &[u8], last: &[u8]) -> Result<Option<Row>, OutOfMemory>
    ensures { IfOk result (λ row. row ≡ row_by kind.now last.now) }
{
    if kind == b"refused".as_slice() {
        return if last == b"-".as_slice() {
            Ok(Some(Row::Refused))
        } else {
            Ok(None)
        };
    }
    if kind == b"same".as_slice() {
        return match number_of(last) {
            Some(other) => Ok(Some(Row::Same(other))),
            None => Ok(None),
        };
    }
    if kind == b"cap".as_slice() {
        return match read_listing(alloc, last)? {
            Some(items) => Ok(Some(Row::Cap(Listing::from_vec(items)))),
            None => Ok(None),
        };
    }
    Ok(None)
}

// Parses the list of a cap row: fights with their points, or `-` for none.
fn read_listing(alloc: Global, bytes: &[u8]) -> Result<Option<Vec<(u32, u8)>>, OutOfMemory>
    ensures { IfOk result (λ o. option_map (λ v. v.items) o ≡ listing_of bytes.now) }
{
    let mut items = Vec::new(alloc);
    if bytes == b"-".as_slice() {
        return Ok(Some(items));
    }
    let mut rest = Some(bytes);
    while let Some(list) = rest {
        let (text, others) = cut(b' ', list);
        match item_of(text) {
            Some(item) => items.push(item)?,
            None => return Ok(None),
        }
        rest = others;
    }
    Ok(Some(items))
}

// Parses a fight with its points, as in `7:3`.
fn item_of(text: &[u8]) -> Option<(u32, u8)>
    ensures { result ≡ item_of text.now }
{
    let (fight, points) = cut(b':', text);
    Some((number_of(fight)?, points_of(points?)?))
}

fn points_of(text: &[u8]) -> Option<u8>
    ensures { result ≡ points_of text.now }
{
    if text == b"0".as_slice() {
        Some(0)
    } else if text == b"1".as_slice() {
        Some(1)
    } else if text == b"3".as_slice() {
        Some(3)
    } else {
        None
    }
}

fn version_of(text: &[u8]) -> Option<u32>
    ensures { result ≡ version_of text.now }
{
    if text == b"1".as_slice() {
        Some(1)
    } else if text == b"2".as_slice() {
        Some(2)
    } else {
        None
    }
}

// Calls `decimal_of`. The clause says its result as one equation, as the proofs of callers need it.
fn number_of(text: &[u8]) -> Option<u32>
    ensures { result ≡ decimal_of text.now }
{
    decimal_of(text)
}

// Cuts at the first `byte`: returns what is before it, and what is after it if it is there.
fn cut(byte: u8, bytes: &[u8]) -> (&[u8], Option<&[u8]>)
    ensures parts { AreParts byte bytes.now result.0.now result.1 }
    ensures shorter { IfSome result.1 (λ rest. length rest.now < length bytes.now) }
{
    match index_of(byte, bytes) {
        Some(at) => (&bytes[..at], Some(&bytes[at + 1..])),
        None => (bytes, None),
    }
}

fn index_of(byte: u8, bytes: &[u8]) -> Option<usize>
    ensures { result ≡ position (λ b. b == byte) bytes.now }
{
    bytes.iter().position(|b| *b == byte)
}
