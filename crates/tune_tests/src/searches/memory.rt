//! A call that allocates: the search for the best setting.
ghost use Rattle.std.specs.Prelude.{◌≤◌};
ghost use Rattle.tune_search.specs.Limits.{MOST_CAPACITY};

use crate::fixtures::{TUNINGS, TWO_IN_TURN, TWO_IN_TURN_CERT, inputs_of};
use rc_instr::Outlet;
use std::alloc::Global;
use std::test::Fail;
use tune_cert::write_cert;
use tune_search::search;

// How many fights a search plays, and the certificate of what it finds.
#[derive(Drop)]
struct Searched {
    fights: u64,
    cert: Vec<u8>,
}

// Searches with a cache of `capacity` settings.
fn search_with(alloc: Global, text: &[u8], capacity: u32) -> Result<Searched, Fail>
    requires { (1 ≤ capacity) × (capacity ≤ MOST_CAPACITY) }
{
    let inputs = inputs_of(alloc, text)?;
    let found = search(alloc, &inputs, capacity)?;
    let mut out = Outlet::new(Vec::with_capacity(alloc, 256)?);
    write_cert(alloc, &found, &mut out)?;
    Ok(Searched {
        fights: found.fights,
        cert: out.into_inner(),
    })
}

#[test]
fn search_finds_the_optimum(rt: HostRuntime) -> Result<(), Fail> {
    for case in &TUNINGS {
        let found = search_with(rt.alloc(), case.template, 4096)?;
        assert_eq!(rt; found.fights, case.fights, "{}", case.name);
        assert_eq!(rt; found.cert.as_slice(), case.cert, "{}", case.name);
    }
    Ok(())
}

// The cache has room for both warriors: one plays both fights, and the other its tie.
#[test]
fn search_with_a_cache_of_two(rt: HostRuntime) -> Result<(), Fail> {
    let found = search_with(rt.alloc(), TWO_IN_TURN, 2)?;
    assert_eq!(rt; found.fights, 3);
    assert_eq!(rt; found.cert.as_slice(), TWO_IN_TURN_CERT);
    Ok(())
}
