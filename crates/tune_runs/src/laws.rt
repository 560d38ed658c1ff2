//! Laws of tunings and their certificates: functions with an empty body, whose contract is what is
//! proved.
ghost use Rattle.std.specs.Prelude.{◌≡◌, ◌≤◌, ◌⊎◌, ℕ, Bool, List, Some, None, true, Err, IsTrue};
ghost use Rattle.tune_problem.specs.Inputs.{InputsView};
ghost use Rattle.tune_problem.specs.Parts.{ForEach};
ghost use Rattle.tune_problem.specs.Problem.{problem_of};
ghost use Rattle.tune_problem.specs.Ranking.{IsAim};
ghost use Rattle.tune_problem.specs.Valid.{cert_of};
ghost use Rattle.tune_problem.specs.declared.part.Part.{Part};
ghost use Rattle.tune_problem.specs.declared.watcher.Best.{Best};
ghost use Rattle.tune_cert.specs.Judgement.{no_demand};
ghost use Rattle.tune_cert.specs.Spelling.{Spells};
ghost use Rattle.tune_cert.specs.Verdict.{IsRightVerdict};
ghost use Rattle.tune_runs.specs.TuneRun.{Texts, of_part, meaning_of, is_text_fault, Means, HasNoCandidate, WritesTuning};
ghost use Rattle.tune_runs.specs.Runs.{Writer, Gets};
ghost use Rattle.tune_runs.specs.CheckRun.{Accepts, AcceptsFor, WritesCheck, verdict_line};
ghost use Rattle.tune_runs.specs.Agreement.{filled, TuningBytes, GivesBytes, MayFind, written, Checks, IsRightLine, Agree, ChecksFor, NamesAnswer, IsBestShown, IsBestOfAll, AreShownBelow, AreAllBelow, AllAccept, AllName, AcceptsAsWhole};
ghost use Rattle.tune_runs.specs.AimedRuns.{Asked, IsAsked, TunesAsked, ChecksAsked, AgreeAsked};

use crate::fault::RunFault;
use tune_cert::{Answer, Demand, Found, Verdict};
use tune_problem::Aim;
use tune_search::Method;

/// States that the texts of a tuning have at most one meaning, and which faults they may have:
/// `NoCandidate` and `Write` are not among them.
pub fn texts_have_one_meaning()
    ensures one { (t : Texts) (i j : InputsView) → Means t i → Means t j → i ≡ j }
    ensures faults { (t : Texts) (e : RunFault) → meaning_of t ≡ Err e → IsTrue (is_text_fault e) ⊎ (e ≡ RunFault.Part) }
{}

/// States that, whatever a search finds, the text of its certificate spells that certificate, and
/// the right verdict on this text is Accepted, with its best setting and total.
pub fn a_written_certificate_is_accepted()
    ensures spelled { (t : Texts) (method : Method) (i : InputsView) (f : Found) → MayFind t method i f → Spells (written f) (cert_of f) }
    ensures accepted { (t : Texts) (method : Method) (i : InputsView) (f : Found) (v : Verdict) → MayFind t method i f
        → IsRightVerdict (problem_of i) (written f) v → v ≡ Verdict.Accepted f.best f.total }
{}

/// States that a tuning can be repeated: from empty writers the same texts, the same aim and the
/// same method give the same bytes of the report and of the certificate.
pub fn equal_tunings_write_equal_bytes()
    ensures { (t : Texts) (aim : Aim) (method : Method) (one other : TuningBytes) → IsAim aim
        → GivesBytes t aim method one → GivesBytes t aim method other → one ≡ other }
{}

/// States that the line of a check is that of the right verdict on the bytes, whoever made them:
/// what the verdict says holds, every check before the one that fails holds, an accepted
/// certificate names the optimum and its total, and a valid one is accepted.
pub fn a_check_writes_the_right_verdict()
    ensures { (t : Texts) (bytes : List ℕ) (accepted : Bool) (out : Writer) → Checks t bytes accepted out → IsRightLine t bytes accepted out }
{}

/// States that a check accepts the bytes that a tuning wrote with the same `keep` and the same
/// `floor`, each given to both or to neither. Its lines name the best setting and the total of the
/// report, or the floor that no setting reaches, and the ranking, if the report has one. So does a
/// check of any share of the rows.
pub fn a_tuning_is_accepted_by_its_check()
    ensures { (a : Asked) (bytes : List ℕ) (accepted : Bool) (report out : Writer) → IsAsked a
        → TunesAsked a report (filled bytes) → ChecksAsked a bytes accepted out → (accepted ≡ true) × AgreeAsked a report out }
{}

/// States the certified optimum: if a tuning wrote its certificate and its report, and a check of
/// any bytes for the same texts accepts them, then the check's line names the best setting and the
/// total of that report. The certificate that was written is of the same finding as the report.
pub fn an_accepted_certificate_names_the_optimum()
    ensures { (t : Texts) (method : Method) (bytes : List ℕ) (report cert out : Writer)
        → WritesTuning t method report cert → Checks t bytes true out → Agree t method report cert out }
{}

/// States that accepted certificates of parts name the optimum of the whole. Suppose that each part
/// has a line of acceptance, or no candidate. Then the best setting of the first part with the
/// greatest total is the optimum of all settings, with this total. Its index in the whole is its
/// index in the part plus the index at which the part begins.
///
/// A part may also be shown to have no setting that reaches a floor. The floor must be at most the
/// greatest total; in a part after the best one it may be one more. If no part has a setting that
/// reaches a floor, the whole has none. If no part has a candidate, the whole has none.
pub fn accepted_parts_name_the_optimum()
    // If a check accepts, its line names the setting and the total of the right verdict.
    ensures line { (t : Texts) (bytes : List ℕ) (out : Writer) → Checks t bytes true out
        → (best total : ℕ) × Accepts t bytes best total × Gets out (verdict_line None (Verdict.Accepted best total)) }
    // So does the first line of a check with a demand.
    ensures answer { (t : Texts) (demand : Demand) (bytes : List ℕ) (out : Writer) → ChecksFor t demand bytes true out → NamesAnswer t demand bytes out }
    ensures optimum { (t : Texts) (parts number : ℕ) (best : Best) → IsBestShown t parts number best → IsBestOfAll t parts number best }
    ensures below { (t : Texts) (parts floor : ℕ) → AreShownBelow t parts floor → AreAllBelow t floor }
    ensures none { (t : Texts) (parts : ℕ) → 1 ≤ parts → ForEach parts (λ n. HasNoCandidate (of_part t n parts)) → HasNoCandidate (of_part t 1 1) }
{}

/// States that a check can be shared, whatever the demand: if each of `shares` shares of the same
/// bytes, checked for the same texts, wrote lines of acceptance, then a check of all rows accepts
/// these bytes, and each first line names its answer. The other way round, bytes that a check of
/// all rows accepts are accepted by each share, with the same answer. Without a demand the answer
/// is a best setting with its total: the optimum.
pub fn accepted_shares_name_the_optimum()
    ensures answer { (t : Texts) (demand : Demand) (shares : ℕ) (bytes : List ℕ) (out : ℕ → Writer) → AllAccept t demand shares bytes out
        → (answer : Answer) × AcceptsFor t demand bytes answer × AllName shares answer out }
    ensures each { (t : Texts) (demand : Demand) (share : Part) (bytes : List ℕ) (accepted : Bool) (out : Writer)
        → WritesCheck t demand (Some share) bytes accepted out → AcceptsAsWhole t demand share bytes accepted out }

    // An answer that is accepted without a demand is a best setting, by the right verdict.
    ensures optimum { (t : Texts) (bytes : List ℕ) (answer : Answer) → AcceptsFor t no_demand bytes answer
        → (best : Best) × (answer ≡ Answer.Best best) × Accepts t bytes best.vector best.total }
{}
