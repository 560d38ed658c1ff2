//! Laws of the text of certificates and of their checks, beside those of `tune_problem`: functions
//! with an empty body, whose contract is what is proved.
ghost use Rattle.std.specs.Prelude.{◌≡◌, ◌↔◌, ◌≤◌, ℕ, true, List, Ok, Err};
ghost use Rattle.tables.specs.Records.{Fields, records_of};
ghost use Rattle.tune_problem.specs.Parts.{whole};
ghost use Rattle.tune_problem.specs.Problem.{Problem, IsProblem};
ghost use Rattle.tune_problem.specs.Valid.{IsValid};
ghost use Rattle.tune_problem.specs.declared.part.Part.{Part};
ghost use Rattle.tune_problem.specs.declared.statement.Statement.{Statement};
ghost use Rattle.tune_cert.specs.CertText.{cert_text, statement_text, statement_fields, stated};
ghost use Rattle.tune_cert.specs.Spelling.{IsCert, IsStatement, IsFirstMalformed, Spells, statement_of, cert_of_records};
ghost use Rattle.tune_cert.specs.Shares.{InEachShare, IsValidInShare};
ghost use Rattle.tune_cert.specs.Verdict.{IsVerdictOf, IsRightVerdict};
ghost use Rattle.tune_cert.specs.Judgement.{no_demand, MeetsDemand, ShareAccepts};

use crate::demand::Demand;
use crate::verdict::Verdict;
use tune_problem::Cert;
pub use tune_problem::laws::{
    a_certificate_below_a_floor_is_right, a_valid_certificate_names_the_optimum,
    an_exact_certificate_has_the_first_of_the_ranking, the_best_part_has_the_optimum,
};

/// States that the text of a statement that can be written down is read back as this statement, and
/// that the text of a certificate spells this certificate.
pub fn a_written_certificate_is_read()
    ensures statement { (s : Statement) → IsStatement s → statement_of true (records_of (statement_text s)) ≡ Ok s }
    ensures cert { (c : Cert) → IsCert c → Spells (records_of (cert_text c)) c }
{}

/// States that reading returns what records spell: with floors a statement, without them a
/// certificate, or else the first malformed record.
pub fn records_are_read_as_they_are_spelled()
    ensures statement { (records : List Fields) (s : Statement)
        → (statement_of true records ≡ Ok s) ↔ (IsStatement s × (records ≡ statement_fields s)) }
    ensures cert { (records : List Fields) (c : Cert) → (cert_of_records records ≡ Ok c) ↔ Spells records c }
    ensures fault { (records : List Fields) (n : ℕ) → (cert_of_records records ≡ Err n) ↔ IsFirstMalformed records n }
{}

/// States that records spell at most one certificate.
pub fn records_spell_at_most_one_certificate()
    ensures { (records : List Fields) (c d : Cert) → Spells records c → Spells records d → c ≡ d }
{}

/// States that a share has one verdict on records, and what a verdict on all rows promises: what it
/// says of the bytes holds, every check before the one that fails holds, an accepted certificate
/// names the optimum and its total, whoever made it, and a valid one is accepted.
pub fn the_verdict_is_right()
    ensures one { (p : Problem) (share : Part) (records : List Fields) (v w : Verdict)
        → IsVerdictOf p share records v → IsVerdictOf p share records w → v ≡ w }
    ensures right { (p : Problem) (records : List Fields) (v : Verdict) → IsProblem p → IsVerdictOf p whole records v → IsRightVerdict p records v }
{}

/// States that without a demand a share accepts a certificate exactly if it is valid in the share,
/// and then names its best setting and total; and that a certificate is valid exactly if it is
/// valid in each share, into however many shares its rows are split.
pub fn accepted_in_every_share_is_valid()
    ensures accepted { (p : Problem) (share : Part) (c : Cert) → ShareAccepts p no_demand share (stated c) ↔ IsValidInShare p share c }
    ensures shares { (p : Problem) (shares : ℕ) (c : Cert) → IsProblem p → 1 ≤ shares → InEachShare shares (λ share. IsValidInShare p share c) ↔ IsValid p c }
{}

/// States that a check of all rows with a demand accepts a statement exactly if it meets the
/// demand. With a best setting the statement must be a valid certificate of it, and exact if a
/// ranking is asked for. Else its floor must be the one that is asked for, and its rows must show
/// that no setting reaches it. The check then names the answer, and the ranking that the rows list.
pub fn a_demand_is_met()
    ensures { (p : Problem) (demand : Demand) (s : Statement) → IsProblem p → ShareAccepts p demand whole s ↔ MeetsDemand p demand s }
{}

/// States that all shares of the rows accept a statement for a demand exactly if a check of all
/// rows does, each with the same answer and ranking.
pub fn accepted_in_every_share_meets_the_demand()
    ensures { (p : Problem) (shares : ℕ) (demand : Demand) (s : Statement) → 1 ≤ shares
        → InEachShare shares (λ share. ShareAccepts p demand share s) ↔ ShareAccepts p demand whole s }
{}
