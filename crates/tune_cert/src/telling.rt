//! What the checker tells a watcher.
ghost use Rattle.std.specs.Prelude.{◌≡◌, ◌+◌, ◌%◌, ◌^◌};
ghost use Rattle.tune_problem.specs.Valid.{listed_in};

use tune_problem::{Best, Row, Standing, Watcher};

// Returns how far the check of a certificate is before the first row. `best` is the setting that it
// names.
pub(crate) fn before_rows(best: Option<Best>, count: u32) -> Standing
    ensures { result ≡ record { settings = 0; count = count; fights = 0; best = best } }
{
    Standing {
        settings: 0,
        count,
        fights: 0,
        best,
    }
}

// Counts a checked row and its fights, and tells the watcher.
pub(crate) fn tell_row<T: Watcher>(row: &Row, standing: &mut Standing, watcher: &mut T)
    ensures settings { standing.new.settings ≡ (standing.old.settings + 1) % 2 ^ 32 }
    ensures fights { standing.new.fights ≡ (standing.old.fights + listed_in row.now) % 2 ^ 64 }
    ensures count { standing.new.count ≡ standing.old.count }
    ensures best { standing.new.best ≡ standing.old.best }
{
    standing.settings = standing.settings.wrapping_add(1);
    standing.fights = standing.fights.wrapping_add(listed_count(row));
    watcher.see(*standing);
}

fn listed_count(row: &Row) -> u64
    ensures { result ≡ listed_in row.now }
{
    match row {
        Row::Cap(listing) => listing.as_slice().len() as u64,
        _ => 0,
    }
}
