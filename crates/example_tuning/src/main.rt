//! Calls the library `tune_runs`: tunes a small template and prints the report. The contract of
//! `print_optimum` is the theorem that `tune_run` carries, at the texts of this program.
#![tactic(auto)]

ghost use Rattle.std.specs.Prelude.{◌≡◌, [], ◌∷◌, false, OnOk};
ghost use Rattle.rc_instr.specs.Rules.{rules_view};
ghost use Rattle.tune_runs.specs.Runs.{writer};
ghost use Rattle.tune_runs.specs.TuneRun.{texts, WritesOptimum};

use rc_instr::{Outlet, Rules};
use std::alloc::Global;
use std::io::Write;
use tune_runs::{Method, RunFault, tune_run};

// A warrior that copies a DAT to the address AIM, and then waits. AIM is 3998 to 4001: at 4000 the
// DAT hits the opponent, so setting 2 is the best.
const TEMPLATE: &[u8] = b";@tune AIM 3998 4001 1 3998\nMOV bomb, AIM\nJMP 0\nbomb DAT 0\n";

// A warrior that waits.
const OPPONENT: &[u8] = b"JMP 0\n";

// One fight, with the opponent at 4000, and the candidate moves first.
const SCHEDULE: &[u8] = b"opponent,position,first\n0,4000,c\n";

// Prints the report of the best setting of TEMPLATE, and drops its certificate.
fn print_optimum<W: Write>(alloc: Global, out: &mut Outlet<W>) -> Result<(), RunFault>
    requires { out.old.failed ≡ false }

    // What was printed is the report of the optimum of these texts under the standard rules, found
    // by a search that remembers one setting.
    ensures { let t = texts TEMPLATE.now (OPPONENT.now ∷ []) SCHEDULE.now (rules_view 8000 80000 8000 100 100) in
        OnOk result (WritesOptimum t (Method.Dropping 1) (writer out.old out.new)) }
{
    let opponents = [OPPONENT.to_vec(alloc)?];
    let rules = Rules::standard();
    let mut cert = Outlet::new(Vec::new(alloc));
    tune_run(
        alloc, TEMPLATE, &opponents, SCHEDULE, &rules, 1, out, &mut cert,
    )
}

fn main(rt: HostRuntime) -> Result<(), RunFault> {
    print_optimum(rt.alloc(), &mut Outlet::new(rt.stdout()))
}
