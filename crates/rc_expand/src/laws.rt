//! Laws of expansions, of FOR blocks and of labels.
ghost use Rattle.std.specs.Prelude.{◌≡◌, ◌↔◌, ◌++◌, List, ℕ, Result, flat_map, All};
ghost use Rattle.rc_text.specs.declared.token.Token.{Token};
ghost use Rattle.rc_instr.specs.Rules.{RulesView};
ghost use Rattle.rc_expand.specs.declared.line.Line.{Line};
ghost use Rattle.rc_expand.specs.declared.fault.ExpandFault.{ExpandFault};
ghost use Rattle.rc_expand.specs.declared.read.raw_line.RawLine.{RawLine};
ghost use Rattle.rc_expand.specs.Names.{Table};
ghost use Rattle.rc_expand.specs.Expansion.{IsExpansion, LineLies};
ghost use Rattle.rc_expand.specs.Read.Lines.{label_split};
ghost use Rattle.rc_expand.specs.Read.Tree.{BlockTree, blocks_of};
ghost use Rattle.rc_expand.specs.Read.Nesting.{AreBlocks};

/// A text has at most one expansion.
pub fn one_expansion()
    ensures { (source : List ℕ) (constants : Table) (rules : RulesView) (a b : List Line) → IsExpansion source constants rules a → IsExpansion source constants rules b → a ≡ b }
{}

/// The span of each token of an expansion lies in the text.
pub fn tokens_lie_in_the_text()
    ensures { (source : List ℕ) (constants : Table) (rules : RulesView) (lines : List Line) → IsExpansion source constants rules lines → All (LineLies source) lines }
{}

/// The tree of a text has the text's lines, FOR and ROF in their places, and at most 8 blocks are
/// nested. A text without a tree has a ROF after closed blocks, a FOR inside 8 open ones, or else
/// blocks that are open at its end, and the fault is at that ROF, at that FOR, or at the outermost
/// FOR that is open. Each text has exactly one of these.
#[tactic(auto, using(crate::proofs::Reading::NestingSteps::said, crate::proofs::Reading::NestingSteps::found))]
pub fn blocks_are_closed_or_have_a_fault()
    ensures { (raws : List RawLine) (r : Result BlockTree ExpandFault) → blocks_of raws ≡ r ↔ AreBlocks raws r }
{}

/// The labels of a line and the tokens after them are its tokens, in order.
#[tactic(auto, using(crate::proofs::Reading::LabelLaws::labels_and_rest))]
pub fn labels_come_before_the_rest()
    ensures { (source : List ℕ) (ts : List Token) → flat_map (λ x. x) (label_split source ts).labels ++ (label_split source ts).after ≡ ts }
{}
