//! The orders of settings and of fights.
ghost use Rattle.std.specs.Prelude.{◌≡◌, ◌++◌, if◌then◌else◌, IfOk, OnOk};
ghost use Rattle.std.specs.List.{range_with_len};
ghost use Rattle.std.specs.List.Sorted.{IsPermutation, IsSorted};
ghost use Rattle.tune_search.specs.Order.{with_points, by_points};
ghost use Rattle.tune_search.specs.Visits.{setting_visited};
ghost use Rattle.tune_search.specs.State.{by_index};

use std::alloc::{AllocError, Global};

// Returns the setting that is visited after `visits` others: `start` first, then the others in
// order.
pub(crate) fn setting_visited(start: u32, visits: u32) -> u32
    ensures { result ≡ setting_visited start visits }
{
    if visits == 0 {
        start
    } else if start < visits {
        visits
    } else {
        visits - 1
    }
}

// Returns the indices of the fights in order.
#[tactic(auto, using(crate::proofs::Ranges::range_more))]
pub(crate) fn all_in_order(alloc: Global, fights: u32) -> Result<Vec<u32>, AllocError>
    ensures { IfOk result (λ order. order.items ≡ range_with_len 0 fights) }
{
    let mut order = Vec::with_capacity(alloc, fights as usize)?;
    for index in 0..fights {
        order.push(index)?;
    }
    Ok(order)
}

// At the first visit, replaces `order` by the indices of `fights`, by rising points.
pub(crate) fn learn_order(
    alloc: Global,
    order: &mut Vec<u32>,
    first: bool,
    fights: &[(u32, u8)],
) -> Result<(), AllocError>
    ensures { OnOk result (order.new.items ≡ (if first then by_points fights.now else order.old.items)) }
{
    if first {
        *order = by_rising_points(alloc, fights)?;
    }
    Ok(())
}

// Returns the fights by rising points. Fights with equal points keep their order.
fn by_rising_points(alloc: Global, fights: &[(u32, u8)]) -> Result<Vec<u32>, AllocError>
    ensures { IfOk result (λ order. order.items ≡ by_points fights.now) }
{
    let mut order = Vec::with_capacity(alloc, fights.len())?;
    push_with(&mut order, fights, 0)?;
    push_with(&mut order, fights, 1)?;
    push_with(&mut order, fights, 3)?;
    Ok(order)
}

// Appends the fights that gave `points`, in their order.
fn push_with(order: &mut Vec<u32>, fights: &[(u32, u8)], points: u8) -> Result<(), AllocError>
    ensures { OnOk result (order.new.items ≡ order.old.items ++ with_points points fights.now) }
{
    for (index, made) in fights {
        if *made == points {
            order.push(*index)?;
        }
    }
    Ok(())
}

// Sorts fights by index.
pub(crate) fn sort_by_index(mut fights: Vec<(u32, u8)>) -> Vec<(u32, u8)>
    ensures same { IsPermutation fights.items result.items }
    ensures sorted { IsSorted by_index result.items }
{
    fights.sort_unstable();
    fights
}
