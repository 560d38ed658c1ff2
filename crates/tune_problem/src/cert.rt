//! Certificates, their rows and listings, and what a search finds.
ghost use Rattle.std.specs.Prelude.{◌≡◌, ◌<◌, IfOk, length};
ghost use Rattle.std.specs.List.{slice_set};

use std::alloc::{AllocError, Global};
use std::marker::Model;

/// A certificate as its text spells it. `tune_cert::check` decides whether it is right.
#[derive(Debug, Drop)]
pub struct Cert {
    /// The version, 1 or 2. Version 1 is for schedules in which every fight has the weight 1.
    pub version: u32,
    /// The number of settings that the certificate claims.
    pub count: u32,
    /// The index of the best setting, from 0.
    pub best: u32,
    /// The total that the certificate claims for it.
    pub total: u32,
    /// The rows, in the order of the settings. If the certificate was read, there may be more or
    /// fewer than `count`.
    pub rows: Rows,
}

/// What a certificate says of one setting.
#[derive(Debug, Drop)]
pub enum Row {
    /// It does not assemble.
    Refused,
    /// It makes the same warrior as another setting, at this index from 0, whose row is a `Cap`.
    Same(u32),
    /// It assembles and makes these points in these fights. Its cap is the score in these, and 3
    /// points times the weight for each other fight. The best setting lists every fight. Any other
    /// lists enough that its cap does not beat the best setting, or is below the floor that no
    /// setting is said to reach.
    Cap(Listing),
}

impl Row {
    /// Returns a copy. Fails only if out of memory.
    pub fn copy(&self, alloc: Global) -> Result<Row, AllocError>
        ensures { IfOk result (λ row. row ≡ self.now) }
    {
        match self {
            Row::Refused => Ok(Row::Refused),
            Row::Same(other) => Ok(Row::Same(*other)),
            Row::Cap(listing) => {
                let listing = listing.copy(alloc)?;
                Ok(Row::Cap(listing))
            }
        }
    }
}

/// Fights of the schedule by index, from 0, each with the points that a warrior made in it.
///
/// Contracts see the list of these pairs.
#[derive(Debug, Drop)]
pub struct Listing {
    fights: Vec<(u32, u8)>,
}

impl Model for Listing {
    ghost use Rattle.std.specs.Prelude.{List, ℕ};

    ghost Value = { List (ℕ × ℕ) };

    ghost view = { λ l. l.fights.items };
}

impl Listing {
    /// Makes a listing of pairs of a fight's index and its points.
    pub fn from_vec(fights: Vec<(u32, u8)>) -> Listing
        ensures { result ≡ fights.items }
    {
        Listing { fights }
    }

    /// Returns the pairs, in order.
    pub fn as_slice(&self) -> &[(u32, u8)]
        ensures { result.now ≡ self.now }
    {
        self.fights.as_slice()
    }

    /// Returns a copy. Fails only if out of memory.
    pub fn copy(&self, alloc: Global) -> Result<Listing, AllocError>
        ensures { IfOk result (λ listing. listing ≡ self.now) }
    {
        let fights = Vec::from_slice(alloc, self.fights.as_slice())?;
        Ok(Listing { fights })
    }

    /// Returns the pairs as a `Vec`.
    pub fn into_vec(self) -> Vec<(u32, u8)>
        ensures { result.items ≡ self }
    {
        let Listing { fights } = self;
        fights
    }
}

/// The rows of a certificate, in the order of the settings. Contracts see a list.
#[derive(Debug, Drop)]
pub struct Rows {
    rows: Vec<Row>,
}

impl Model for Rows {
    ghost use Rattle.std.specs.Prelude.{List};
    ghost use Rattle.tune_problem.specs.declared.cert.Row.{Row};

    ghost Value = { List Row };

    ghost view = { λ r. r.rows.items };
}

impl Rows {
    /// Makes a list of rows.
    pub fn from_vec(rows: Vec<Row>) -> Rows
        ensures { result ≡ rows.items }
    {
        Rows { rows }
    }

    /// Returns the rows, in order.
    pub fn as_slice(&self) -> &[Row]
        ensures { result.now ≡ self.now }
    {
        self.rows.as_slice()
    }

    /// Replaces the row at `index`, which is below the number of rows.
    pub fn set(&mut self, index: usize, row: Row)
        requires inside { index < length self.old }
        ensures { self.new ≡ slice_set self.old index row }
    {
        self.rows[index] = row;
    }

    /// Returns the rows as a `Vec`.
    pub fn into_vec(self) -> Vec<Row>
        ensures { result.items ≡ self }
    {
        let Rows { rows } = self;
        rows
    }
}

/// What a search finds: the optimum, and the rows of its certificate. It is in this crate so that
/// `tune_cert::write_cert` can take it.
#[derive(Debug, Drop)]
pub struct Found {
    /// The version of its certificate: 1 if every fight has the weight 1, and otherwise 2.
    pub version: u32,
    /// The index of the optimum, from 0.
    pub best: u32,
    /// Its total: the points of all fights, each times the fight's weight. At most 30000000.
    pub total: u32,
    /// A row for each setting.
    pub rows: Rows,
    /// The number of fights played.
    pub fights: u64,
    /// The number of settings that assemble.
    pub candidates: u32,
    /// The index of the setting whose row is a copy of the start setting's, if there is one: it has
    /// the same warrior and the smaller index.
    pub copied: Option<u32>,
}
