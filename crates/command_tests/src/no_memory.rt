//! Calls that take no memory, when none is left.
//!
//! `make test` also runs these tests with every request for memory refused that comes after
//! `use_up` (gate/refuse/growth.py). They then end at their last line, which makes a request.
use command_runs::program::end_without_words;
use command_runs::{Finding, tell, tell_asm_names, tell_bytes};
use command_words::{
    MethodWords, aim_meant, asks_for_fight, is_given, mentions_help, method_meant,
};
use mars_fight::Schedule;
use rc_asm::{AsmFault, AsmKind};
use rc_instr::{Outlet, Rules, read_loadfile};
use std::alloc::{AllocError, Global};
use std::io;
use std::test::Fail;
use tune_cert::Demand;
use tune_problem::{Aim, Best, Inputs, Standing};
use tune_search::Method;
use tune_template::Template;

// Makes a request that is larger than all others.
fn use_up(alloc: Global) -> Result<(), AllocError> {
    drop(Vec::<u8>::with_capacity(alloc, 16_777_216)?);
    Ok(())
}

// Makes a small request.
fn ask(alloc: Global) -> Result<(), Fail> {
    drop(Vec::<u8>::with_capacity(alloc, 1)?);
    Ok(())
}

fn words_of(alloc: Global, words: &[&str]) -> Result<Vec<String>, Fail> {
    let mut list = Vec::new(alloc);
    for word in words {
        list.push(String::from_str(alloc, *word)?)?;
    }
    Ok(list)
}

#[test]
fn words_are_looked_at(rt: HostRuntime) -> Result<(), Fail> {
    let words = words_of(rt.alloc(), &["tune", "--all", "--", "--log"])?;
    let help = words_of(rt.alloc(), &["tune", "--help"])?;
    use_up(rt.alloc())?;
    assert!(rt; is_given(words.as_slice(), "--all") && !is_given(words.as_slice(), "--log"));
    assert!(rt; mentions_help(help.as_slice()) && !asks_for_fight(help.as_slice()));
    ask(rt.alloc())
}

#[test]
fn options_have_meanings(rt: HostRuntime) -> Result<(), Fail> {
    use_up(rt.alloc())?;
    let demand = Demand {
        keep: Some(3),
        floor: Some(5),
    };
    assert_eq!(rt; aim_meant(demand), Aim { keep: 3, floor: 5 });
    let words = MethodWords {
        all: false,
        cache: Some(7),
    };
    assert_eq!(rt; method_meant(words), Method::Dropping { capacity: 7 });
    ask(rt.alloc())
}

#[test]
fn faults_are_told(rt: HostRuntime) -> Result<(), Fail> {
    let room = Vec::with_capacity(rt.alloc(), 128)?;
    use_up(rt.alloc())?;
    let mut err = Outlet::new(room);
    tell(&mut err, &["a", "b"]);
    tell_bytes(&mut err, b"\xff");
    let fault = AsmFault {
        line: 7,
        kind: AsmKind::AssertFailed,
    };
    tell_asm_names(&mut err, fault);
    let error = io::Error::from(io::ErrorKind::InvalidData);
    assert_eq!(rt; end_without_words(&mut err, &error), 2);
    let told = err.into_inner();
    assert!(rt;
        told.as_slice()
            .starts_with(b"ab\xff line 7 AssertFailederror: a word of")
    );
    ask(rt.alloc())
}

// The inputs of a tuning with three settings, of which the second is the start setting.
fn three_settings(alloc: Global) -> Result<Inputs, Fail> {
    let template = Template::read(alloc, b";@tune K 0 2 1 1\nMOV 0, 1\nDAT K")?;
    let rules = Rules::try_new(16, 20, 4, 4, 4)?;
    let imp = read_loadfile(alloc, b"ORG 0\nMOV.I $0, $1\n", &rules)?;
    let mut opponents = Vec::new(alloc);
    opponents.push(imp)?;
    let schedule = Schedule::read(alloc, b"opponent,position,first\n0,8,c\n", 1, &rules)?;
    Ok(Inputs::new(template, opponents, schedule, rules))
}

#[test]
fn findings_are_told(rt: HostRuntime) -> Result<(), Fail> {
    let mut finding = Finding::new(rt.alloc());
    finding.begin(&three_settings(rt.alloc())?);
    let room = Vec::with_capacity(rt.alloc(), 64)?;
    use_up(rt.alloc())?;
    finding.see(&Standing {
        settings: 1,
        count: 3,
        fights: 1,
        best: Some(Best {
            vector: 1,
            total: 3,
        }),
    });
    let mut err = Outlet::new(room);
    finding.tell_progress(&mut err);
    let told = err.into_inner();
    assert_eq!(rt;
        told.as_slice(),
        b", best 1 total 3 K=1, START 3".as_slice()
    );
    ask(rt.alloc())
}
