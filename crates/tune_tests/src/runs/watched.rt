//! What runs tell their watchers.
ghost use Rattle.tune_search.specs.Method.{HasCapacity};

use crate::fixtures::{THREE_UNEQUAL, THREE_UNEQUAL_CERT, both_opponents, small_rules, texts_of};
use rc_instr::Outlet;
use std::alloc::Global;
use std::test::Fail;
use tune_runs::{
    Aim, Demand, Inputs, Method, RunFault, Standing, TuneTexts, Watcher, check_for_run,
    tune_for_run,
};

// Counts the begins, settings, fights and ends that it is told of, and what it is told after an
// end.
#[derive(Clone, Copy, Debug, PartialEq, Eq)]
struct Told {
    begins: u32,
    settings: u32,
    fights: u32,
    ends: u32,
    late: u32,
}

impl Told {
    fn nothing() -> Told {
        Told {
            begins: 0,
            settings: 0,
            fights: 0,
            ends: 0,
            late: 0,
        }
    }

    // Returns what is told of a run of `settings` settings and `fights` fights: it begins once and
    // ends once, and nothing comes after its end.
    fn once(settings: u32, fights: u32) -> Told {
        Told {
            begins: 1,
            settings,
            fights,
            ends: 1,
            late: 0,
        }
    }

    // Notes what comes after an end.
    fn note(&mut self) {
        if self.ends > 0 {
            self.late = self.late.saturating_add(1);
        }
    }
}

impl Watcher for Told {
    fn begin(&mut self, _inputs: &Inputs) {
        self.note();
        self.begins = self.begins.saturating_add(1);
    }

    fn see(&mut self, _standing: Standing) {
        self.note();
        self.settings = self.settings.saturating_add(1);
    }

    fn hear(&mut self, _fights: u64) {
        self.note();
        self.fights = self.fights.saturating_add(1);
    }

    fn end(&mut self) {
        self.note();
        self.ends = self.ends.saturating_add(1);
    }
}

// Tunes `texts`, and tells `told` of it. Nobody reads the report and the certificate.
fn tune(
    alloc: Global,
    texts: &TuneTexts<'_>,
    method: Method,
    told: &mut Told,
) -> Result<(), RunFault>
    requires capacity { HasCapacity method }
{
    let mut report = Outlet::new(Vec::new(alloc));
    let mut cert = Outlet::new(Vec::new(alloc));
    let aim = Aim::BEST;
    tune_for_run(alloc, texts, aim, method, told, &mut report, &mut cert)
}

// Each method, and how many fights it plays of three settings. One setting is dropped after one
// fight of two.
const METHODS: [(Method, u32); 2] = [
    (Method::Dropping { capacity: 4096 }, 5),
    (Method::PlayingAll, 6),
];

#[test]
fn a_tuning_tells_its_watcher_once(rt: HostRuntime) -> Result<(), Fail> {
    let rules = small_rules()?;
    let opponents = both_opponents(rt.alloc())?;
    let texts = texts_of(THREE_UNEQUAL, opponents.as_slice(), &rules);
    for &(method, fights) in &METHODS {
        let mut told = Told::nothing();
        tune(rt.alloc(), &texts, method, &mut told)?;
        assert_eq!(rt; told, Told::once(3, fights), "{method:?}");
    }
    Ok(())
}

// No setting assembles.
#[test]
fn a_refused_tuning_tells_its_watcher_once(rt: HostRuntime) -> Result<(), Fail> {
    let rules = small_rules()?;
    let opponents = both_opponents(rt.alloc())?;
    let template = b";@tune K 0 1 1 0\nMOV 0, K\nDAT 1/0\n";
    let texts = texts_of(template, opponents.as_slice(), &rules);
    let mut told = Told::nothing();
    match tune(rt.alloc(), &texts, Method::PlayingAll, &mut told) {
        Err(RunFault::NoCandidate) => {}
        Err(other) => return Err(Fail::from(other)),
        Ok(()) => return Err(Fail::from("not refused")),
    }
    assert_eq!(rt; told, Told::once(2, 0));
    Ok(())
}

// Without a demand, and with one.
#[test]
fn a_check_tells_its_watcher_once(rt: HostRuntime) -> Result<(), Fail> {
    let rules = small_rules()?;
    let opponents = both_opponents(rt.alloc())?;
    let texts = texts_of(THREE_UNEQUAL, opponents.as_slice(), &rules);
    for &keep in &[None, Some(2)] {
        let mut told = Told::nothing();
        let mut lines = Outlet::new(Vec::new(rt.alloc()));
        let accepted = check_for_run(
            rt.alloc(),
            &texts,
            Demand { keep, floor: None },
            None,
            &mut told,
            THREE_UNEQUAL_CERT,
            &mut lines,
        )?;
        assert!(rt; accepted);
        assert_eq!(rt; told, Told::once(3, 5));
    }
    Ok(())
}
