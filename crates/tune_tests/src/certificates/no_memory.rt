//! Calls that take no memory: rows and listings are moved, and nothing is demanded.
use crate::fixtures::{ask, five_rows, use_up};
use std::test::Fail;
use tune_cert::{Demand, Listing, Row, Rows, Share};

#[test]
fn rows_are_moved(rt: HostRuntime) -> Result<(), Fail> {
    let mut rows = five_rows(rt.alloc())?.rows;
    use_up(rt.alloc())?;
    rows.set(1, Row::Refused);
    let mut listed = 0usize;
    for row in rows.as_slice() {
        if let Row::Cap(listing) = row {
            listed = listed.saturating_add(listing.as_slice().len());
        }
    }
    assert_eq!(rt; listed, 3);
    assert_eq!(rt; Rows::from_vec(rows.into_vec()).as_slice().len(), 5);
    ask(rt.alloc())
}

#[test]
fn a_listing_is_handed_back(rt: HostRuntime) -> Result<(), Fail> {
    let fights = [(0, 3), (4, 1)].to_vec(rt.alloc())?;
    use_up(rt.alloc())?;
    let listing = Listing::from_vec(fights);
    assert_eq!(rt; listing.into_vec().as_slice(), [(0, 3), (4, 1)].as_slice());
    ask(rt.alloc())
}

#[test]
fn nothing_is_demanded_of_all_rows(rt: HostRuntime) -> Result<(), Fail> {
    use_up(rt.alloc())?;
    assert!(rt; Demand::none().keep.is_none() && Demand::none().floor.is_none());
    assert_eq!(rt; (Share::whole().number, Share::whole().shares), (1, 1));
    ask(rt.alloc())
}
