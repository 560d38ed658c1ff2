//! Settings: one value for each constant. The code and the formats call them vectors.
ghost use Rattle.std.specs.Prelude.{◌≡◌, ◌<◌, ◌++◌, ◌∷◌, [], length};
ghost use Rattle.tune_template.specs.Limits.{MOST_CONSTANTS};

use crate::limits;
use arrayvec::ArrayVec;
use std::marker::Model;

/// A setting: one value for each constant of a template, in the order of its lines. At most 8.
#[derive(Clone, Debug, Drop)]
pub struct Vector {
    values: ArrayVec<i64, { limits::MOST_CONSTANTS }>,
}

impl Model for Vector {
    ghost use Rattle.std.specs.Prelude.{List, ℤ};

    ghost Value = { List ℤ };

    ghost view = { λ v. v.values.items };
}

impl Vector {
    pub(crate) fn new() -> Self
        ensures { result ≡ [] }
    {
        Vector {
            values: ArrayVec::new(),
        }
    }

    pub(crate) fn push(&mut self, value: i64)
        requires { length self.old < MOST_CONSTANTS }
        ensures { self.new ≡ self.old ++ value ∷ [] }
    {
        self.values.push(value);
    }

    /// Returns the values, in the order of the constants.
    pub fn as_slice(&self) -> &[i64]
        ensures { result.now ≡ self.now }
    {
        self.values.as_slice()
    }
}

/// Which setting of a template is meant.
#[derive(Clone, Copy, Debug, PartialEq, Eq)]
pub enum WhichSetting {
    /// The setting of the start values.
    Start,
    /// The setting at this index, from 0. The first constant changes slowest, and values rise.
    Index(u32),
}
