//! Shares of the rows of a certificate.
ghost use Rattle.std.specs.Prelude.{◌≡◌, ◌≤◌};
ghost use Rattle.tune_problem.specs.Parts.{part, part_first, part_end};

use tune_problem::Part;

/// A share of the rows of a certificate, which are split into `shares` shares of nearly equal size.
///
/// Of N settings, counted from 0, share I of K has the rows of those from index `(I - 1) * N / K`
/// to before `I * N / K`; quotients are rounded down. I is 1 to K. If K is above N, some shares are
/// empty.
#[derive(Clone, Copy, Debug, PartialEq, Eq)]
pub struct Share {
    /// Which share it is, counted from 1.
    pub number: u32,
    /// How many shares there are.
    pub shares: u32,
    ghost among: { (1 ≤ number) × (number ≤ shares) },
}

impl Share {
    /// Returns share 1 of 1: all rows.
    pub fn whole() -> Share
        ensures number { result.number ≡ 1 }
        ensures shares { result.shares ≡ 1 }
    {
        Share {
            number: 1,
            shares: 1,
        }
    }

    // Returns the index of the first of its settings, out of `count`.
    #[tactic(auto, using(crate::proofs::ShareBounds::rise))]
    pub(crate) fn first(self, count: u32) -> u32
        ensures first { result ≡ part_first (part self.number self.shares) count }
        ensures before { result ≤ part_end (part self.number self.shares) count }
    {
        self.part().first(count)
    }

    // Returns the index after the last of its settings, out of `count`.
    #[tactic(auto, using(crate::proofs::ShareBounds::inside))]
    pub(crate) fn end(self, count: u32) -> u32
        ensures end { result ≡ part_end (part self.number self.shares) count }
        ensures inside { result ≤ count }
    {
        self.part().end(count)
    }

    // Returns the part of the settings whose rows it has.
    fn part(self) -> Part
        ensures part { result ≡ part self.number self.shares }
        ensures some { 1 ≤ result.number }
        ensures within { result.number ≤ result.parts }
    {
        Part {
            number: self.number,
            parts: self.shares,
        }
    }
}
