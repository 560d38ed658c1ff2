//! The records of a text of comma-separated values, one after another.
ghost use Rattle.std.specs.Prelude.{◌≡◌, ◌≢◌, ◌∷◌, [], length, IfOk, OnErr, IfSome, IfNone};
ghost use Rattle.std.specs.Bool.{MatchBool};
ghost use Rattle.csv.specs.Records.{fields_of};
ghost use Rattle.tables.specs.Records.{records_of};

use csv::{ByteRecord, Reader, ReaderBuilder};
use rc_instr::OutOfMemory;
use std::alloc::Global;
use std::marker::Model;

/// The records of a text that are still to be read. Contracts see a list of lists of fields.
///
/// The crate `csv` reads them: fields are separated by commas, records by LF, CR or CR LF, and a
/// field may be in double quotes, inside which `""` stands for one. Empty lines are skipped, and so
/// is a byte order mark at the very front.
#[derive(Drop)]
pub struct Records<'a> {
    reader: Reader<&'a [u8]>,
    // Whether a read has met the end or has failed: then the reader is not asked again.
    ended: bool,
}

impl<'a> Model for Records<'a> {
    ghost use Rattle.std.specs.Prelude.{List, [], Some, if◌then◌else◌};
    ghost use Rattle.csv.specs.Reading.{reader_state, source_of};
    ghost use Rattle.tables.specs.Records.{Fields, records_left, TakesAllOrFailed};

    ghost Value = { List Fields };

    ghost view = { λ r. if r.ended then [] else records_left (reader_state r.reader) (source_of (λ s. Some s.now) r.reader) };

    ghost invariant = { λ r. TakesAllOrFailed r.reader };
}

impl<'a> Records<'a> {
    /// Takes all records of `text`, the first one included. Nothing is trimmed, and records may
    /// have any number of fields.
    pub fn new(alloc: Global, text: &'a [u8]) -> Records<'a>
        ensures { result ≡ records_of text.now }
    {
        let reader = ReaderBuilder::new()
            .has_headers(false)
            .flexible(true)
            .from_reader(alloc, text);
        Records {
            reader,
            ended: false,
        }
    }

    /// Reads the next record into `fields`. Returns `false` if there is none.
    ///
    /// If there is none, or memory runs out, `fields` is unspecified, and no more records come.
    /// Nothing else can fail: the bytes are at hand, and a record may have any number of fields.
    pub fn read(&mut self, fields: &mut ByteRecord) -> Result<bool, OutOfMemory>
        ensures read { IfOk result (λ found. MatchBool found (self.old ≡ fields_of fields.new ∷ self.new) ((self.old ≡ []) × (self.new ≡ []))) }
        ensures refused { OnErr result (self.new ≡ []) }
    {
        if self.ended {
            return Ok(false);
        }
        match self.reader.read_byte_record(fields) {
            Ok(true) => Ok(true),
            Ok(false) => {
                self.end();
                Ok(false)
            }
            Err(_refused) => {
                self.end();
                Err(OutOfMemory)
            }
        }
    }

    fn end(&mut self)
        ensures { self.new ≡ [] }
    {
        self.ended = true;
    }
}

/// Returns the fields of a record that has exactly three.
#[tactic(auto, using(crate::proofs::Fields::fields))]
pub fn three_fields(fields: &ByteRecord) -> Option<(&[u8], &[u8], &[u8])>
    ensures some { IfSome result (λ x. fields_of fields.now ≡ x.0.now ∷ x.1.now ∷ x.2.now ∷ []) }
    ensures none { IfNone result (length (fields_of fields.now) ≢ 3) }
{
    if fields.len() != 3 {
        return None;
    }
    Some((fields.get(0)?, fields.get(1)?, fields.get(2)?))
}

/// Returns the fields of a record that has exactly four.
#[tactic(auto, using(crate::proofs::Fields::fields))]
pub fn four_fields(fields: &ByteRecord) -> Option<(&[u8], &[u8], &[u8], &[u8])>
    ensures some { IfSome result (λ x. fields_of fields.now ≡ x.0.now ∷ x.1.now ∷ x.2.now ∷ x.3.now ∷ []) }
    ensures none { IfNone result (length (fields_of fields.now) ≢ 4) }
{
    if fields.len() != 4 {
        return None;
    }
    Some((
        fields.get(0)?,
        fields.get(1)?,
        fields.get(2)?,
        fields.get(3)?,
    ))
}
