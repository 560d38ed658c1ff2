//! One record of a schedule: the header, or a fight.
ghost use Rattle.std.specs.Prelude.{◌≡◌};
ghost use Rattle.csv.specs.Records.{fields_of};
ghost use Rattle.rc_instr.specs.Decimal.{padded_decimal};
ghost use Rattle.mars_fight.specs.Schedule.{opponent_of, position_of, mover_named, weight_of, begins_header, columns_of, unweighted_fight, weighted_fight, fight_of};

use crate::fault::ScheduleFaultKind;
use crate::fight::{Fight, is_weight, keeps_distance};
use csv::ByteRecord;
use mars_core::Side;
use rc_instr::{Rules, padded_decimal};
use tables::{four_fields, three_fields};

// Which fields the records of a schedule have. The header says it for all of them.
#[derive(Clone, Copy, Debug, PartialEq, Eq)]
pub(crate) enum Columns {
    // Opponent, position and first mover: every fight counts once.
    Unweighted,
    // These, and then the weight.
    Weighted,
}

// Reads the header. Anything else gives `None`.
pub(crate) fn read_columns(fields: &ByteRecord) -> Option<Columns>
    ensures { result ≡ columns_of (fields_of fields.now) }
{
    if let Some((opponent, position, first)) = three_fields(fields) {
        return if begins_header(opponent, position, first) {
            Some(Columns::Unweighted)
        } else {
            None
        };
    }
    let (opponent, position, first, weight) = four_fields(fields)?;
    if begins_header(opponent, position, first) && weight == b"weight".as_slice() {
        Some(Columns::Weighted)
    } else {
        None
    }
}

// Returns whether the first three fields have the names of a header.
fn begins_header(opponent: &[u8], position: &[u8], first: &[u8]) -> bool
    ensures { result ≡ begins_header opponent.now position.now first.now }
{
    opponent == b"opponent".as_slice()
        && position == b"position".as_slice()
        && first == b"first".as_slice()
}

// Reads a fight with these columns. Of several faults the leftmost field's is returned.
#[tactic(auto, unfolding(crate::specs::Schedule::fight_of))]
pub(crate) fn read_fight(
    fields: &ByteRecord,
    columns: Columns,
    opponents: u32,
    rules: &Rules,
) -> Result<Fight, ScheduleFaultKind>
    ensures { result ≡ fight_of rules.now opponents columns (fields_of fields.now) }
{
    match columns {
        Columns::Unweighted => read_unweighted(fields, opponents, rules),
        Columns::Weighted => read_weighted(fields, opponents, rules),
    }
}

// Reads a fight of three fields, which counts once.
fn read_unweighted(
    fields: &ByteRecord,
    opponents: u32,
    rules: &Rules,
) -> Result<Fight, ScheduleFaultKind>
    ensures { result ≡ unweighted_fight rules.now opponents (fields_of fields.now) }
{
    let Some((opponent, position, first)) = three_fields(fields) else {
        return Err(ScheduleFaultKind::FieldCount);
    };
    Ok(Fight {
        opponent: read_opponent(opponent, opponents)?,
        position: read_position(position, rules)?,
        first: read_mover(first)?,
        weight: 1,
    })
}

// Reads a fight of four fields.
fn read_weighted(
    fields: &ByteRecord,
    opponents: u32,
    rules: &Rules,
) -> Result<Fight, ScheduleFaultKind>
    ensures { result ≡ weighted_fight rules.now opponents (fields_of fields.now) }
{
    let Some((opponent, position, first, weight)) = four_fields(fields) else {
        return Err(ScheduleFaultKind::FieldCount);
    };
    Ok(Fight {
        opponent: read_opponent(opponent, opponents)?,
        position: read_position(position, rules)?,
        first: read_mover(first)?,
        weight: read_weight(weight)?,
    })
}

// Reads the index of one of `opponents` opponents.
fn read_opponent(field: &[u8], opponents: u32) -> Result<u32, ScheduleFaultKind>
    ensures { result ≡ opponent_of opponents (padded_decimal field.now) }
{
    match padded_decimal(field) {
        Some(opponent) if opponent < opponents => Ok(opponent),
        Some(_) => Err(ScheduleFaultKind::NoSuchOpponent),
        None => Err(ScheduleFaultKind::BadNumber),
    }
}

// Reads a position that keeps the distance.
fn read_position(field: &[u8], rules: &Rules) -> Result<u32, ScheduleFaultKind>
    ensures { result ≡ position_of rules.now (padded_decimal field.now) }
{
    match padded_decimal(field) {
        Some(position) if keeps_distance(rules, position) => Ok(position),
        Some(_) => Err(ScheduleFaultKind::BadPosition),
        None => Err(ScheduleFaultKind::BadNumber),
    }
}

// Reads which side moves first: `c` or `o`.
fn read_mover(field: &[u8]) -> Result<Side, ScheduleFaultKind>
    ensures { result ≡ mover_named field.now }
{
    match field {
        [b'c'] => Ok(Side::Candidate),
        [b'o'] => Ok(Side::Opponent),
        _ => Err(ScheduleFaultKind::BadFirst),
    }
}

// Reads a weight from 1 to `MOST_WEIGHT`.
fn read_weight(field: &[u8]) -> Result<u32, ScheduleFaultKind>
    ensures { result ≡ weight_of (padded_decimal field.now) }
{
    match padded_decimal(field) {
        Some(weight) if is_weight(weight) => Ok(weight),
        Some(_) => Err(ScheduleFaultKind::BadWeight),
        None => Err(ScheduleFaultKind::BadNumber),
    }
}
