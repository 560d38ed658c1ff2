//! The aim of a search.

/// What a search is asked for: the `keep` best of the settings that total `floor` or more.
#[derive(Clone, Copy, Debug, PartialEq, Eq)]
pub struct Aim {
    /// The number of settings, 1 to 1000.
    pub keep: u32,
    /// The least total, 0 for any.
    pub floor: u32,
}

impl Aim {
    /// Asks for the best setting alone, whatever its total.
    pub const BEST: Aim = Aim { keep: 1, floor: 0 };
}
