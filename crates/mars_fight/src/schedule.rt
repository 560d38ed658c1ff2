//! Schedules: lists of fights.
ghost use Rattle.std.specs.Prelude.{◌≡◌, ◌<◌, ◌≤◌, ◌*◌, ◌↔◌, length, drop, IfOk, OnOk, IsTrue, All};
ghost use Rattle.tables.specs.Records.{records_of};
ghost use Rattle.mars_fight.specs.Limits.{MOST_FIGHTS, MOST_WEIGHT};
ghost use Rattle.mars_fight.specs.Listed.{IsFight, IsPlain, IsWeight, greatest_total};
ghost use Rattle.mars_fight.specs.declared.fight.Fight.{Fight};
ghost use Rattle.mars_fight.specs.Faults.{Returns};
ghost use Rattle.mars_fight.specs.Schedule.{header_of, scheduled, schedule_of};

use crate::fault::{ScheduleFault, ScheduleFaultKind, at_row};
use crate::fight::{Fight, MOST_POINTS};
use crate::limits;
use crate::record::{Columns, read_columns, read_fight};
use csv::ByteRecord;
use rc_instr::Rules;
use std::alloc::Global;
use std::marker::Model;
use tables::Records;

/// 1 to 10000 fights. Contracts see the list. A fight that is listed twice is played twice.
#[derive(Debug, Drop)]
pub struct Schedule {
    fights: Vec<Fight>,
    greatest: u32,
}

impl Model for Schedule {
    ghost use Rattle.std.specs.Prelude.{◌≡◌, ◌<◌, ◌≤◌, ◌*◌, List, length, All};
    ghost use Rattle.mars_fight.specs.Limits.{MOST_FIGHTS, MOST_WEIGHT};
    ghost use Rattle.mars_fight.specs.Listed.{IsWeight, greatest_total};
    ghost use Rattle.mars_fight.specs.declared.fight.Fight.{Fight};

    ghost Value = { List Fight };

    ghost view = { λ s. s.fights.items };

    ghost invariant = { λ s. (0 < length s.fights.items) × (length s.fights.items ≤ MOST_FIGHTS) × All (λ (f : Fight). IsWeight f.weight) s.fights.items × (s.greatest ≡ greatest_total s.fights.items) × (s.greatest ≤ 3 * MOST_WEIGHT * length s.fights.items) };
}

impl Schedule {
    /// Parses a schedule for `opponents` opponents under `rules`.
    ///
    /// The first record is the header `opponent,position,first` or
    /// `opponent,position,first,weight`. Each other record is a fight: the opponent's index; the
    /// address at which it is loaded, at least the distance of the rules and at most the core size
    /// minus the distance; `c` or `o`, for the candidate or the opponent to move first; and under
    /// the second header its weight, 1 to 1000, which otherwise is 1. Numbers have 1 to 9 digits.
    /// The crate `csv` says how a text is split into records.
    ///
    /// # Errors
    ///
    /// The first faulty record is reported, and in it the leftmost faulty field:
    ///
    /// - `Header`, at record 0: the first record is not the header, or there is none.
    /// - `Empty`, at record 0: only the header.
    /// - `TooMany`, at record 10001, whatever that record holds.
    /// - `FieldCount`: the record does not have as many fields as the header.
    /// - `BadNumber`: the opponent, the position or the weight is not 1 to 9 digits.
    /// - `NoSuchOpponent`, `BadPosition`, `BadFirst`, `BadWeight`: not a value as above.
    /// - `OutOfMemory`, at record 0: an allocation failed.
    #[tactic(auto, unfolding(crate::specs::Schedule::schedule_of))]
    pub fn read(
        alloc: Global,
        bytes: &[u8],
        opponents: u32,
        rules: &Rules,
    ) -> Result<Schedule, ScheduleFault>
        ensures fights { Returns (λ s. s) result (schedule_of rules.now opponents bytes.now) }
        ensures fit { IfOk result (λ s. All (IsFight rules.now opponents) s) }
    {
        let fights = read_fights(alloc, bytes, opponents, rules)?;
        let greatest = greatest_of(fights.as_slice());
        Ok(Schedule { fights, greatest })
    }

    /// Returns the fights, 1 to 10000, in the order of the text. The one at index 0 is record 1.
    pub fn fights(&self) -> &[Fight]
        ensures fights { result.now ≡ self.now }
        ensures few { (0 < length self.now) × (length self.now ≤ MOST_FIGHTS) }
    {
        self.fights.as_slice()
    }

    /// Returns whether in every fight the opponent is one of `opponents`, the position is at least
    /// the distance of the rules and at most the core size minus the distance, and the weight is
    /// from 1 to 1000.
    pub fn fits(&self, rules: &Rules, opponents: u32) -> bool
        ensures { IsTrue result ↔ All (IsFight rules.now opponents) self.now }
    {
        self.fights
            .iter()
            .all(|fight| fight.is_fight(rules, opponents))
    }

    /// Returns whether every fight has the weight 1.
    pub fn plain(&self) -> bool
        ensures { IsTrue result ↔ IsPlain self.now }
    {
        self.fights.iter().all(|fight| fight.weight == 1)
    }

    /// Returns the greatest total, 3 times the sum of the weights: 3 to 30000000.
    pub fn greatest(&self) -> u32
        ensures greatest { result ≡ greatest_total self.now }
        ensures small { result ≤ 3 * MOST_WEIGHT * length self.now }
    {
        self.greatest
    }
}

// Adds up 3 times the weights of fights.
#[tactic(auto, unfolding(crate::specs::Listed::greatest_total))]
fn greatest_of(fights: &[Fight]) -> u32
    requires few { length fights.now ≤ MOST_FIGHTS }
    requires weights { All (λ (f : Fight). IsWeight f.weight) fights.now }
    ensures greatest { result ≡ greatest_total fights.now }
    ensures small { result ≤ 3 * MOST_WEIGHT * length fights.now }
{
    let mut greatest: u32 = 0;
    for fight in fights {
        greatest += MOST_POINTS * fight.weight;
    }
    greatest
}

// Reads the first record, which must be a header.
fn read_header(records: &mut Records, fields: &mut ByteRecord) -> Result<Columns, ScheduleFault>
    ensures columns { Returns (λ columns. columns) result (header_of records.old) }
    ensures rest { OnOk result (drop 1 records.old ≡ records.new) }
{
    if records.read(fields)? {
        if let Some(columns) = read_columns(fields) {
            return Ok(columns);
        }
    }
    Err(at_row(0, ScheduleFaultKind::Header))
}

// Reads the header and the fights after it: at least 1, at most `MOST_FIGHTS`.
fn read_fights(
    alloc: Global,
    bytes: &[u8],
    opponents: u32,
    rules: &Rules,
) -> Result<Vec<Fight>, ScheduleFault>
    ensures fights { Returns (λ v. v.items) result (scheduled rules.now opponents (records_of bytes.now)) }
    ensures few { IfOk result (λ v. (0 < length v.items) × (length v.items ≤ MOST_FIGHTS)) }
{
    let mut records = Records::new(alloc, bytes);
    let mut fields = ByteRecord::new(alloc);
    let columns = read_header(&mut records, &mut fields)?;
    let mut fights = Vec::new(alloc);
    while records.read(&mut fields)? {
        if fights.len() == limits::MOST_FIGHTS {
            return Err(at_row(limits::MOST_FIGHTS as u64 + 1, ScheduleFaultKind::TooMany));
        }
        match read_fight(&fields, columns, opponents, rules) {
            Ok(fight) => fights.push(fight)?,
            Err(kind) => return Err(at_row(fights.len() as u64 + 1, kind)),
        }
    }
    if fights.is_empty() {
        return Err(at_row(0, ScheduleFaultKind::Empty));
    }
    Ok(fights)
}
