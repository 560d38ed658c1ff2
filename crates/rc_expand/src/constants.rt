//! Constants that are given from outside of a text.

/// Names and values from outside of a text, such as a template's constants.
///
/// A template gives at most 8, with distinct names that are neither reserved nor predefined. Other
/// callers may give any: the first of equal names counts, and a name without a value is not a
/// constant.
#[derive(Clone, Copy, Debug)]
pub struct Constants<'a> {
    /// The names, by their bytes.
    pub names: &'a [Vec<u8>],
    /// The value of each name, in the order of `names`.
    pub values: &'a [i64],
}
