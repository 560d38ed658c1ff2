//! Laws of the definitions: functions with an empty body, whose contract is what is proved.
ghost use Rattle.std.specs.Prelude.{◌<◌, ℕ, List, length};
ghost use Rattle.tune_template.specs.Ranges.{Ranges, HasRanges};
ghost use Rattle.tune_template.specs.Vectors.{vectors_of};
ghost use Rattle.tune_template.specs.Laws.{AreOfLines};

/// States that the constants of a template are the first words of its range lines, in the order of
/// the lines, and that each name is free, no two are the same, and there are at most 8. A template
/// has at least one setting, even without a range.
pub fn ranges_are_the_range_lines()
    ensures some { (text : List ℕ) (r : Ranges) → HasRanges text r → 0 < length (vectors_of r.spans) }
    ensures lines { (text : List ℕ) (r : Ranges) → HasRanges text r → AreOfLines text r }
{}
