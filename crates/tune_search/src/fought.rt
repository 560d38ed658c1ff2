//! Settings that were fought.

// A fought setting, and its cap by the fights that were played.
#[derive(Clone, Copy)]
pub(crate) struct Fought {
    pub(crate) vector: u32,
    pub(crate) cap: u32,
}
