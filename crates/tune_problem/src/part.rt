//! Parts of the settings of a template.
ghost use Rattle.std.specs.Prelude.{◌≡◌, ◌≤◌, ◌↔◌, IsTrue};
ghost use Rattle.tune_problem.specs.Parts.{IsPart, part_first, part_end};

/// A part of the settings of a template, which are split into `parts` parts of nearly equal size.
///
/// Of N settings, counted from 0, part I of K begins at index `(I - 1) * N / K` and ends before
/// `I * N / K`; quotients are rounded down. It is a part if I is 1 to K and K is at most N, so no
/// part is empty.
#[derive(Clone, Copy, Debug, PartialEq, Eq)]
pub struct Part {
    /// Which part it is, counted from 1.
    pub number: u32,
    /// How many parts there are.
    pub parts: u32,
}

impl Part {
    /// Returns part 1 of 1: all settings.
    pub fn whole() -> Part
        ensures { result ≡ record { number = 1; parts = 1 } }
    {
        Part {
            number: 1,
            parts: 1,
        }
    }

    // Returns whether this is a part of `count` settings.
    pub(crate) fn is_part_of(self, count: u32) -> bool
        ensures { IsTrue result ↔ IsPart self count }
    {
        1 <= self.number && self.number <= self.parts && self.parts <= count
    }

    /// Returns the index of its first setting, out of `count`. `number` must be 1 to `parts`.
    pub fn first(self, count: u32) -> u32
        requires some { 1 ≤ self.number }
        requires within { self.number ≤ self.parts }
        ensures { result ≡ part_first self count }
    {
        (u64::from(self.number - 1) * u64::from(count) / u64::from(self.parts)) as u32
    }

    /// Returns the index after its last setting, out of `count`. `number` must be 1 to `parts`.
    pub fn end(self, count: u32) -> u32
        requires some { 1 ≤ self.number }
        requires within { self.number ≤ self.parts }
        ensures end { result ≡ part_end self count }
    {
        (u64::from(self.number) * u64::from(count) / u64::from(self.parts)) as u32
    }
}
