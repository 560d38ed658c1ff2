//! Laws of rules, of warriors, and of load files and their words.
ghost use Rattle.std.specs.Prelude.{◌≡◌, ◌≢◌, ◌↔◌, ℕ, ◌+◌, ◌<◌, ◌^◌, List, [], ◌++◌, length, All, Some, None, Ok, Err, MatchResult};
ghost use Rattle.rc_instr.specs.Checks.{rules_of, warrior_of};
ghost use Rattle.rc_instr.specs.Rules.{RulesView, IsRules, IsCoreSize};
ghost use Rattle.rc_instr.specs.Warrior.{WarriorView, IsWarrior, IsBelow, Fits};
ghost use Rattle.rc_instr.specs.LoadMeaning.{lines_at, code_of, load_meaning};
ghost use Rattle.rc_instr.specs.LoadReaders.{line_at, start_at};
ghost use Rattle.rc_instr.specs.Words.{opcode_text, modifier_text, opcode_named, modifier_named};
ghost use Rattle.rc_instr.specs.LoadText.{line_text, start_text, code_text, load_text};
ghost use Rattle.rc_instr.specs.declared.instruction.Instruction.{Instruction};
ghost use Rattle.rc_instr.specs.declared.instruction.Opcode.{Opcode};
ghost use Rattle.rc_instr.specs.declared.instruction.Modifier.{Modifier};
ghost use Rattle.rc_instr.specs.declared.loadfile.fault.LoadFault.TheVariants.{OutOfMemory, Malformed};

use crate::loadfile::{LoadFault, read_loadfile, write_loadfile};
use crate::memory::OutOfMemory as MemoryRefused;
use crate::rules::Rules;
use crate::warrior::Warrior;
use std::alloc::Global;

/// Five numbers are accepted as rules exactly if each is within its limits, and none is changed.
#[tactic(auto, using(crate::proofs::CheckSteps::rules_kept, crate::proofs::CheckSteps::rules_pass))]
pub fn rules_are_within_their_limits()
    ensures { (r w : RulesView) → rules_of r ≡ Ok w ↔ (w ≡ r) × IsRules r }
{}

/// Code and a start are accepted as a warrior exactly if they make a warrior that fits the rules.
/// Neither is changed.
#[tactic(auto, using(crate::proofs::CheckSteps::warrior_fits, crate::proofs::CheckSteps::warrior_passes))]
pub fn a_warrior_fits_its_rules()
    ensures { (r : RulesView) (v w : WarriorView) → IsRules r → warrior_of r v ≡ Ok w ↔ (w ≡ v) × IsWarrior v × Fits r v }
{}

/// Writes a load file of `warrior` and reads it back: the result is the same warrior. Fails only if
/// out of memory.
pub fn load_text_reads_as_its_warrior(
    alloc: Global,
    warrior: &Warrior,
    rules: &Rules,
) -> Result<Warrior, LoadFault>
    requires { Fits rules.now warrior.now }
    ensures { MatchResult result (λ w. w ≡ warrior.now) (λ e. e ≡ LoadFault.OutOfMemory) }
{
    prove!(0 < rules.core());
    prove!((warrior.start() as usize) < warrior.code().len());
    let mut text = Vec::new(alloc);
    match write_loadfile(alloc, warrior, rules, &mut text) {
        Ok(()) => read_loadfile(alloc, text.as_slice(), rules),
        Err(MemoryRefused) => Err(LoadFault::OutOfMemory),
    }
}

/// The word of an opcode or a modifier names it.
pub fn a_word_names_what_it_is_of()
    ensures opcode { (o : Opcode) → opcode_named (opcode_text o) ≡ Some o }
    ensures modifier { (m : Modifier) → modifier_named (modifier_text m) ≡ Some m }
{}

/// Bytes are the load file of a warrior under rules exactly if they are its one spelling, and it is
/// a warrior that fits the rules.
pub fn a_load_file_means_its_warrior()
    ensures { (rules : RulesView) (bytes : List ℕ) (w : WarriorView) → IsRules rules
        → load_meaning rules bytes ≡ Ok w ↔ (bytes ≡ load_text rules.core w) × IsWarrior w × Fits rules w }
{}

/// A first line is read exactly if it is the text of a start, and a line of code exactly if it is
/// the text of an instruction. Reading stops before the first line that is not a line of code; the
/// bytes that were read are the text of the instructions.
pub fn lines_are_read_as_they_are_written()
    ensures start { (bytes rest : List ℕ) (n : ℕ) → start_at bytes ≡ Some (n, rest) ↔ (bytes ≡ start_text n ++ rest) × (n < 2 ^ 16) }
    ensures line { (m : ℕ) (bytes rest : List ℕ) (i : Instruction) → IsCoreSize m
        → line_at m bytes ≡ Some (i, rest) ↔ (bytes ≡ line_text m i ++ rest) × IsBelow m i }
    ensures lines { (m : ℕ) (code : List Instruction) (rest : List ℕ) → IsCoreSize m → All (IsBelow m) code → line_at m rest ≡ None
        → lines_at m (code_text m code ++ rest) ≡ (code, rest) }
    ensures read { (m : ℕ) (bytes : List ℕ) → IsCoreSize m → let read = lines_at m bytes in
        (bytes ≡ code_text m read.0 ++ read.1) × All (IsBelow m) read.0 × (line_at m read.1 ≡ None) }
{}

/// Line 1 is malformed exactly if no first line is read. Otherwise the malformed line is the one
/// after the last line of code, if bytes are left there.
pub fn a_malformed_line_is_the_first()
    ensures start { (rules : RulesView) (bytes : List ℕ) → load_meaning rules bytes ≡ Err (Malformed 1) ↔ start_at bytes ≡ None }
    ensures later { (r : RulesView) (bytes lines : List ℕ) (start n : ℕ) → start_at bytes ≡ Some (start, lines)
        → load_meaning r bytes ≡ Err (Malformed n) ↔ code_of r.core lines ≡ Err (Malformed n) }
    ensures code { (m n : ℕ) (lines : List ℕ) → let read = lines_at m lines in
        code_of m lines ≡ Err (Malformed n) ↔ (n ≡ length read.0 + 2) × (read.1 ≢ []) }
{}

/// Equal load files under equal rules mean equal warriors.
pub fn equal_load_texts_are_equal_warriors()
    ensures { (rules : RulesView) (v w : WarriorView) → IsRules rules → IsWarrior v → IsWarrior w → Fits rules v → Fits rules w
        → load_text rules.core v ≡ load_text rules.core w → v ≡ w }
{}
