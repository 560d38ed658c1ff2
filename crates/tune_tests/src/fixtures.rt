//! Rules, warriors, templates and certificates that several modules use.
//!
//! All expected values are worked out by hand from this. A candidate fights both opponents once. An
//! imp wins against the first, for 3 points, and ties with the second, for 1: its total is 4 of 6,
//! and its row lists `0:3 1:1`. The other settings order their fights by the points of the start
//! setting, the fewest first. So an imp that cannot beat the lead plays its tie, has a cap of 4,
//! and is dropped: its row lists `1:1`. The row of setting v is record v + 2 of a certificate.
ghost use Rattle.std.specs.Prelude.{◌≡◌, IfOk, length, All};
ghost use Rattle.rc_instr.specs.Checks.{rules_of};
ghost use Rattle.rc_instr.specs.Rules.{rules_view};
ghost use Rattle.rc_instr.specs.Warrior.{Fits};

use mars_fight::Schedule;
use rc_instr::{Rules, RulesError, Warrior, read_loadfile};
use std::alloc::{AllocError, Global};
use std::test::Fail;
use tune_cert::{Reason, Verdict};
use tune_problem::{Best, Found, Inputs, Listing, Part, Row, Rows};
use tune_runs::TuneTexts;
use tune_template::Template;

// A warrior that loses its only task in its first turn: its text, and its load file.
pub(crate) const DAT_TEXT: &[u8] = b"DAT 0\n";

pub(crate) const DAT_FILE: &[u8] = b"ORG 0\nDAT.F $0, $0\n";

// A warrior that never loses its task.
pub(crate) const IMP_TEXT: &[u8] = b"MOV 0, 1\n";

pub(crate) const IMP_FILE: &[u8] = b"ORG 0\nMOV.I $0, $1\n";

// A schedule of one fight against each of the two opponents, at address 8.
pub(crate) const TWO_FIGHTS: &[u8] = b"opponent,position,first\n0,8,c\n1,8,c\n";

// Two imps, which tie.
pub(crate) const FIGHT_OF_IMPS: &[u8] = b"rules 16 20 4 4 4\nfight 8 c\n\
    candidate\nORG 0\nMOV.I $0, $1\nopponent\nORG 0\nMOV.I $0, $1\n";

// Six settings: (0, 5), (0, 7), (0, 9), (1, 5), (1, 7) and (1, 9), of which the last is the start
// setting.
pub(crate) const TWO_CONSTANTS: &[u8] = b";@tune A 0 1 1 1\n;@tune B 5 9 2 9\nDAT A, B";

// The only setting of a template without constants, an imp; and its certificate.
pub(crate) const ONE_IMP: &[u8] = b"MOV 0, 1";

pub(crate) const ONE_IMP_CERT: &[u8] = b"cwcert,1,1\nbest,0,4\ncap,0,0:3 1:1\n";

// Three imps with different warriors, of which the second is the start setting and the first the
// optimum; their report, and their certificate.
pub(crate) const THREE_UNEQUAL: &[u8] = b";@tune K 0 2 1 1\nMOV 0, 1\nDAT K";

pub(crate) const THREE_UNEQUAL_REPORT: &[u8] =
    b"vectors 3\ncandidates 3\nbest 0\nconstants K=0\ntotal 4 of 6\nfights 5 of 6\n";

pub(crate) const THREE_UNEQUAL_CERT: &[u8] =
    b"cwcert,1,3\nbest,0,4\ncap,0,0:3 1:1\ncap,1,0:3 1:1\ncap,2,1:1\n";

// A certificate that none of the three imps totals 5 or more.
pub(crate) const THREE_UNEQUAL_NONE_FROM_5: &[u8] =
    b"cwcert,1,3\nnone,-,5\ncap,0,1:1\ncap,1,0:3 1:1\ncap,2,1:1\n";

// Three settings: the first does not assemble, the others are imps. The second is the start
// setting. And their certificate.
pub(crate) const FIRST_REFUSED: &[u8] = b";@tune K 0 2 1 1\nMOV 0, 1\nDAT 1/K";

pub(crate) const FIRST_REFUSED_CERT: &[u8] =
    b"cwcert,1,3\nbest,1,4\nrefused,0,-\ncap,1,0:3 1:1\ncap,2,1:1\n";

// Four settings with one warrior, of which the third is the start setting; and their certificate.
pub(crate) const FOUR_EQUAL: &[u8] = b";@tune K 0 3 1 2\nMOV 0, 1";

pub(crate) const FOUR_EQUAL_CERT: &[u8] =
    b"cwcert,1,4\nbest,0,4\ncap,0,0:3 1:1\nsame,1,2\ncap,2,0:3 1:1\nsame,3,2\n";

// The verdict on `FOUR_EQUAL_CERT` and on `ONE_IMP_CERT`.
pub(crate) const ACCEPTED: Verdict = Verdict::Accepted { best: 0, total: 4 };

// A certificate of `FOUR_EQUAL`: how many rows it has, the verdict of a check, and the line that a
// run writes. The cases are in the order in which a check looks for what is wrong.
pub(crate) struct CertCase {
    pub(crate) name: &'static str,
    pub(crate) text: &'static [u8],
    pub(crate) rows: usize,
    pub(crate) verdict: Verdict,
    pub(crate) line: &'static [u8],
}

pub(crate) const FOUR_EQUAL_CASES: [CertCase; 8] = [
    CertCase {
        name: "a valid certificate",
        text: FOUR_EQUAL_CERT,
        rows: 4,
        verdict: ACCEPTED,
        line: b"accepted best 0 total 4\n",
    },
    CertCase {
        name: "a row too few",
        text: b"cwcert,1,4\nbest,0,4\ncap,0,0:3 1:1\nsame,1,2\ncap,2,0:3 1:1\n",
        rows: 3,
        verdict: Verdict::Rejected {
            row: 0,
            reason: Reason::RowCount,
        },
        line: b"rejected row 0 RowCount\n",
    },
    CertCase {
        name: "a total above that of the best setting",
        text: b"cwcert,1,4\nbest,0,5\ncap,0,0:3 1:1\nsame,1,2\ncap,2,0:3 1:1\nsame,3,2\n",
        rows: 4,
        verdict: Verdict::Rejected {
            row: 1,
            reason: Reason::BestRow,
        },
        line: b"rejected row 1 BestRow\n",
    },
    CertCase {
        name: "a candidate whose row says that it does not assemble",
        text: b"cwcert,1,4\nbest,0,4\ncap,0,0:3 1:1\nsame,1,2\ncap,2,0:3 1:1\nrefused,3,-\n",
        rows: 4,
        verdict: Verdict::Rejected {
            row: 5,
            reason: Reason::NotRefused,
        },
        line: b"rejected row 5 NotRefused\n",
    },
    CertCase {
        name: "a fight listed twice",
        text: b"cwcert,1,4\nbest,0,4\ncap,0,0:3 1:1\nsame,1,2\ncap,2,0:3 0:3\nsame,3,2\n",
        rows: 4,
        verdict: Verdict::Rejected {
            row: 4,
            reason: Reason::RepeatedFight,
        },
        line: b"rejected row 4 RepeatedFight\n",
    },
    CertCase {
        name: "a tie listed as a win",
        text: b"cwcert,1,4\nbest,0,4\ncap,0,0:3 1:1\nsame,1,2\ncap,2,0:3 1:3\nsame,3,2\n",
        rows: 4,
        verdict: Verdict::Rejected {
            row: 4,
            reason: Reason::WrongPoints,
        },
        line: b"rejected row 4 WrongPoints\n",
    },
    CertCase {
        name: "a row that refers to one without fights",
        text: b"cwcert,1,4\nbest,0,4\ncap,0,0:3 1:1\nsame,1,2\ncap,2,0:3 1:1\nsame,3,1\n",
        rows: 4,
        verdict: Verdict::Rejected {
            row: 5,
            reason: Reason::NotSame,
        },
        line: b"rejected row 5 NotSame\n",
    },
    CertCase {
        name: "a best setting that is not the first of its equals",
        text: b"cwcert,1,4\nbest,2,4\nsame,0,2\nsame,1,2\ncap,2,0:3 1:1\nsame,3,2\n",
        rows: 4,
        verdict: Verdict::Rejected {
            row: 2,
            reason: Reason::CapTooHigh,
        },
        line: b"rejected row 2 CapTooHigh\n",
    },
];

// Six settings whose warriors take turns: those of an even K are equal, and those of an odd K. And
// their certificate by a search that remembers both warriors.
pub(crate) const TWO_IN_TURN: &[u8] = b";@tune K 0 5 1 0\nMOV 0, 1\nDAT K % 2";

pub(crate) const TWO_IN_TURN_CERT: &[u8] =
    b"cwcert,1,6\nbest,0,4\ncap,0,0:3 1:1\ncap,1,1:1\nsame,2,0\nsame,3,1\nsame,4,0\nsame,5,1\n";

// The certificate of what `five_rows` returns.
pub(crate) const FIVE: &[u8] = b"cwcert,2,5\nbest,2,7\nrefused,0,-\n\
    cap,1,10:0 4:3\ncap,2,0:3 1:1 2:3\ncap,3,-\nsame,4,4294967295\n";

// A template, and what a search finds that remembers 4096 settings: how many fights it plays, the
// report, and the certificate, whose `cap` rows list these fights. A copied row lists those of
// another again. The report counts the fights played, of those of all candidates.
pub(crate) struct TuningCase {
    pub(crate) name: &'static str,
    pub(crate) template: &'static [u8],
    pub(crate) fights: u64,
    pub(crate) report: &'static [u8],
    pub(crate) cert: &'static [u8],
}

pub(crate) const TUNINGS: [TuningCase; 4] = [
    TuningCase {
        name: "one setting",
        template: ONE_IMP,
        fights: 2,
        report: b"vectors 1\ncandidates 1\nbest 0\nconstants -\ntotal 4 of 6\nfights 2 of 2\n",
        cert: ONE_IMP_CERT,
    },
    TuningCase {
        name: "four settings with one warrior",
        template: FOUR_EQUAL,
        fights: 2,
        report: b"vectors 4\ncandidates 4\nbest 0\nconstants K=0\ntotal 4 of 6\nfights 2 of 8\n",
        cert: FOUR_EQUAL_CERT,
    },
    TuningCase {
        name: "a first setting that does not assemble",
        template: FIRST_REFUSED,
        fights: 3,
        report: b"vectors 3\ncandidates 2\nbest 1\nconstants K=1\ntotal 4 of 6\nfights 3 of 4\n",
        cert: FIRST_REFUSED_CERT,
    },
    TuningCase {
        name: "three settings with different warriors",
        template: THREE_UNEQUAL,
        fights: 5,
        report: THREE_UNEQUAL_REPORT,
        cert: THREE_UNEQUAL_CERT,
    },
];

// A setting whose warrior is an imp, with its total.
pub(crate) fn imp(vector: u32) -> Best {
    Best { vector, total: 4 }
}

// Makes a cap row.
fn cap(alloc: Global, fights: &[(u32, u8)]) -> Result<Row, AllocError> {
    Ok(Row::Cap(Listing::from_vec(fights.to_vec(alloc)?)))
}

// Returns what a search found, with rows of each kind. The fights of one row are not in order.
pub(crate) fn five_rows(alloc: Global) -> Result<Found, Fail>
    ensures rows { IfOk result (λ f. length f.rows ≡ 5) }
    ensures version { IfOk result (λ f. f.version ≡ 2) }
{
    let mut rows = Vec::new(alloc);
    rows.push(Row::Refused)?;
    rows.push(cap(alloc, &[(10, 0), (4, 3)])?)?;
    rows.push(cap(alloc, &[(0, 3), (1, 1), (2, 3)])?)?;
    rows.push(cap(alloc, &[])?)?;
    rows.push(Row::Same(4_294_967_295))?;
    Ok(Found {
        version: 2,
        best: 2,
        total: 7,
        rows: Rows::from_vec(rows),
        fights: 5,
        candidates: 4,
        copied: None,
    })
}

// Makes rules of 16 cells, 20 cycles, 4 tasks, length 4 and distance 4.
pub(crate) fn small_rules() -> Result<Rules, RulesError>
    ensures { result ≡ rules_of (rules_view 16 20 4 4 4) }
{
    Rules::try_new(16, 20, 4, 4, 4)
}

// Makes the same rules with a core of 4000 cells.
pub(crate) fn large_rules() -> Result<Rules, RulesError> {
    Rules::try_new(4000, 20, 4, 4, 4)
}

// Reads `DAT_FILE` and `IMP_FILE`.
pub(crate) fn two_opponents(alloc: Global, rules: &Rules) -> Result<Vec<Warrior>, Fail>
    ensures few { IfOk result (λ o. length o.items ≡ 2) }
    ensures fit { IfOk result (λ o. All (Fits rules.now) o.items) }
{
    let dat = read_loadfile(alloc, DAT_FILE, rules)?;
    let imp = read_loadfile(alloc, IMP_FILE, rules)?;
    let mut opponents = Vec::new(alloc);
    opponents.push(dat)?;
    opponents.push(imp)?;
    Ok(opponents)
}

// Returns the texts of the two opponents in the form that the runs take.
pub(crate) fn both_opponents(alloc: Global) -> Result<Vec<Vec<u8>>, AllocError> {
    let mut texts = Vec::new(alloc);
    texts.push(DAT_TEXT.to_vec(alloc)?)?;
    texts.push(IMP_TEXT.to_vec(alloc)?)?;
    Ok(texts)
}

// Returns the texts of a tuning of `template` against the opponents of `both_opponents`.
pub(crate) fn texts_of<'a>(
    template: &'a [u8],
    opponents: &'a [Vec<u8>],
    rules: &'a Rules,
) -> TuneTexts<'a> {
    TuneTexts {
        template,
        opponents,
        schedule: TWO_FIGHTS,
        rules,
        part: Part::whole(),
    }
}

// Reads the inputs of a tuning of `text` under `small_rules`.
pub(crate) fn inputs_of(alloc: Global, text: &[u8]) -> Result<Inputs, Fail> {
    inputs_under(alloc, text, small_rules()?)
}

// Reads the inputs of a tuning of `text`.
pub(crate) fn inputs_under(alloc: Global, text: &[u8], rules: Rules) -> Result<Inputs, Fail> {
    let template = Template::read(alloc, text)?;
    let opponents = two_opponents(alloc, &rules)?;
    let schedule = Schedule::read(alloc, TWO_FIGHTS, 2, &rules)?;
    Ok(Inputs::new(template, opponents, schedule, rules))
}

// Makes a request for memory that is larger than all others. `no_memory` takes none after it.
pub(crate) fn use_up(alloc: Global) -> Result<(), AllocError> {
    drop(Vec::<u8>::with_capacity(alloc, 16_777_216)?);
    Ok(())
}

// Makes a small request for memory.
pub(crate) fn ask(alloc: Global) -> Result<(), Fail> {
    drop(Vec::<u8>::with_capacity(alloc, 1)?);
    Ok(())
}
