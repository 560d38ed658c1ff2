//! The two sides of a fight.

/// One of the two warriors of a fight.
#[derive(Clone, Copy, Debug, PartialEq, Eq)]
pub enum Side {
    /// The warrior that is tuned: loaded from address 0, and points are counted for it.
    Candidate,
    /// The warrior that the candidate plays against.
    Opponent,
}
