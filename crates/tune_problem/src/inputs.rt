//! What a tuning starts from.
ghost use Rattle.std.specs.Prelude.{◌≡◌, ◌≤◌, ◌<◌, ◌+◌, length, slice_get, All, Some, MatchOption};
ghost use Rattle.rc_instr.specs.Warrior.{Fits};
ghost use Rattle.mars_fight.specs.Listed.{IsFight};
ghost use Rattle.tune_template.specs.Limits.{MOST_SETTINGS};
ghost use Rattle.tune_template.specs.Instances.{setting_count};
ghost use Rattle.tune_problem.specs.Limits.{MOST_OPPONENTS};
ghost use Rattle.tune_problem.specs.Parts.{whole, IsPart, part_first};
ghost use Rattle.tune_problem.specs.Inputs.{AreInputs, with_part, settings_of, index_among, part_start};

use crate::part::Part;
use mars_fight::Schedule;
use rc_instr::{Rules, Warrior};
use std::marker::Model;
use tune_template::{Template, Vector};

/// A template, the opponents of its warriors, the schedule of their fights, the rules, and the part
/// of the template's settings that is searched.
#[derive(Debug, Drop)]
pub struct Inputs {
    template: Template,
    opponents: Vec<Warrior>,
    schedule: Schedule,
    rules: Rules,
    part: Part,
}

impl Model for Inputs {
    ghost use Rattle.tune_problem.specs.Inputs.{InputsView, AreInputs};

    ghost Value = { InputsView };

    ghost view = { λ i. record { template = i.template; opponents = i.opponents.items; schedule = i.schedule; rules = i.rules; part = i.part } };

    ghost invariant = { λ i. AreInputs (record { template = i.template; opponents = i.opponents.items; schedule = i.schedule; rules = i.rules; part = i.part }) };
}

impl Inputs {
    /// Makes the inputs of a tuning of all settings. There must be at most 64 opponents, which fit
    /// the rules; the schedule must fit the rules and the opponents.
    #[tactic(auto, using(crate::proofs::PartSteps::whole_is_part))]
    pub fn new(
        template: Template,
        opponents: Vec<Warrior>,
        schedule: Schedule,
        rules: Rules,
    ) -> Inputs
        requires few { length opponents.items ≤ MOST_OPPONENTS }
        requires fit { All (Fits rules) opponents.items }
        requires fights { All (IsFight rules (length opponents.items)) schedule }
        ensures { result ≡ record { template = template; opponents = opponents.items; schedule = schedule; rules = rules; part = whole } }
    {
        prove!(0 < template.count());
        Inputs {
            template,
            opponents,
            schedule,
            rules,
            part: Part::whole(),
        }
    }

    /// Returns these inputs with `part` in place of their part, which is tuned as if the template
    /// had no other settings: indices count from 0 within it.
    ///
    /// Returns `None` unless `part.number` is 1 to `part.parts`, and `part.parts` is at most the
    /// number of the template's settings.
    pub fn part(self, part: Part) -> Option<Inputs>
        ensures { MatchOption result (IsPart part (setting_count self.template) → ⊥)
            (λ i. i ≡ with_part self part) }
    {
        if !part.is_part_of(self.template.count()) {
            return None;
        }
        Some(Inputs {
            template: self.template,
            opponents: self.opponents,
            schedule: self.schedule,
            rules: self.rules,
            part,
        })
    }

    /// Returns the template.
    pub fn template(&self) -> &Template
        ensures template { result.now ≡ self.now.template }
    {
        &self.template
    }

    /// Returns the opponents, at most 64. Each fits the rules.
    pub fn opponents(&self) -> &[Warrior]
        ensures opponents { result.now ≡ self.now.opponents }
        ensures inputs { AreInputs self.now }
    {
        self.opponents.as_slice()
    }

    /// Returns the schedule. It fits the rules and the opponents.
    pub fn schedule(&self) -> &Schedule
        ensures schedule { result.now ≡ self.now.schedule }
        ensures inputs { AreInputs self.now }
    {
        &self.schedule
    }

    /// Returns the rules of all fights.
    pub fn rules(&self) -> &Rules
        ensures { result.now ≡ self.now.rules }
    {
        &self.rules
    }

    /// Returns the number of settings of the part, 1 to 1000000.
    #[tactic(auto, using(crate::proofs::PartSteps::settings_len, crate::proofs::PartSteps::some_settings, crate::proofs::PartSteps::few_settings))]
    pub fn count(&self) -> u32
        ensures count { result ≡ length (settings_of self.now) }
        ensures some { 0 < result }
        ensures few { result ≤ MOST_SETTINGS }
    {
        let whole = self.template.count();
        self.part.end(whole) - self.part.first(whole)
    }

    /// Returns the index of the start setting: of START, or 0 if the part does not have START.
    #[tactic(auto, using(crate::proofs::PartSteps::start_placed))]
    pub fn start_number(&self) -> u32
        ensures index { result ≡ part_start self.now }
        ensures inside { result < length (settings_of self.now) }
    {
        index_among(self.first(), self.count(), self.template.start_number())
    }

    /// Returns the part's setting at `index`, from 0, which must be below `count`.
    #[tactic(auto, using(crate::proofs::PartSteps::setting_found))]
    pub fn vector(&self, index: u32) -> Vector
        requires { index < length (settings_of self.now) }
        ensures { slice_get (settings_of self.now) index ≡ Some result }
    {
        self.template().vector(self.index_in_template(index))
    }

    /// Returns the index in the template of the part's setting at `index`, which must be below
    /// `count`.
    #[tactic(auto, using(crate::proofs::PartSteps::setting_inside))]
    pub fn index_in_template(&self, index: u32) -> u32
        requires { index < length (settings_of self.now) }
        ensures index { result ≡ part_first self.now.part (setting_count self.now.template) + index }
        ensures inside { result < setting_count self.now.template }
        ensures inputs { AreInputs self.now }
    {
        prove!(0 < self.template.count());
        self.first() + index
    }

    // Returns the index in the template of the part's first setting.
    fn first(&self) -> u32
        ensures first { result ≡ part_first self.now.part (setting_count self.now.template) }
        ensures inputs { AreInputs self.now }
    {
        self.part.first(self.template.count())
    }
}

// Returns `index - first` if `index` is one of the `count` numbers from `first` on, else 0.
fn index_among(first: u32, count: u32, index: u32) -> u32
    requires { 0 < count }
    ensures index { result ≡ index_among first count index }
    ensures inside { result < count }
{
    if first <= index && index - first < count {
        index - first
    } else {
        0
    }
}
