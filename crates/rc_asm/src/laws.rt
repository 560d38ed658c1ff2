//! Laws of the assembler.
ghost use Rattle.std.specs.Prelude.{◌≡◌, ◌↔◌, ◌<◌, List, [], ℕ, Some, Ok, All};
ghost use Rattle.rc_instr.specs.Rules.{RulesView, IsRules};
ghost use Rattle.rc_instr.specs.Warrior.{WarriorView, IsBelow, IsWarrior, Fits};
ghost use Rattle.rc_instr.specs.LoadText.{load_text};
ghost use Rattle.rc_expand.specs.Names.{Table};
ghost use Rattle.rc_expand.specs.declared.line.Line.{Line};
ghost use Rattle.rc_asm.specs.Names.{NameValues};
ghost use Rattle.rc_asm.specs.Lines.{ReadingView, nothing_read, after_lines};
ghost use Rattle.rc_asm.specs.Assembly.{Assembles, text_warrior};

/// A text assembles to at most one warrior.
pub fn one_warrior()
    ensures { (source : List ℕ) (constants : Table) (rules : RulesView) (w v : WarriorView) → Assembles source constants rules w → Assembles source constants rules v → w ≡ v }
{}

/// A text assembles to exactly the warrior that `text_warrior` computes.
pub fn assembly_is_computed()
    ensures { (source : List ℕ) (constants : Table) (rules : RulesView) (w : WarriorView) → Assembles source constants rules w ↔ (text_warrior source constants rules ≡ Some w) }
{}

/// A load file, taken as a Redcode text without constants, assembles to its warrior.
pub fn a_load_file_assembles_to_its_warrior()
    ensures { (rules : RulesView) (w : WarriorView) → IsRules rules → IsWarrior w → Fits rules w → Assembles (load_text rules.core w) [] rules w }
{}

/// The warrior to which a text assembles fits the rules.
#[tactic(auto, using(crate::proofs::Outcomes::text_fits))]
pub fn an_assembled_warrior_fits_its_rules()
    ensures { (source : List ℕ) (constants : Table) (rules : RulesView) (w : WarriorView) → IsRules rules → Assembles source constants rules w → IsWarrior w × Fits rules w }
{}

/// The numbers of the instructions that lines give are below the core size, so a text is never
/// refused for one of them.
#[tactic(auto, using(crate::proofs::Numbers::numbers_below))]
pub fn numbers_are_below_the_core_size()
    ensures { (text : List ℕ) (names : NameValues) (lines : List Line) (r : ReadingView) → 0 < names.rules.core → after_lines text names lines nothing_read ≡ Ok r
        → All (IsBelow names.rules.core) r.code }
{}
