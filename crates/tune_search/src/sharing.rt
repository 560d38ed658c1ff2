//! Which settings copy the row of another.
ghost use Rattle.std.specs.Prelude.{◌≡◌};
ghost use Rattle.tune_search.specs.Sharing.{copies};

use tune_problem::Best;

// Returns whether setting `vector` copies the row of setting `other`, which has the same warrior:
// `other` is the start setting and the lead, and `vector` has the smaller index.
pub(crate) fn copies(start: u32, other: u32, vector: u32, lead: Option<Best>) -> bool
    ensures { result ≡ copies start other vector lead }
{
    match lead {
        None => false,
        Some(lead) => other == start && lead.vector == other && vector < other,
    }
}
