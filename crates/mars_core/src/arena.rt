//! The arena in which two warriors fight.
ghost use Rattle.std.specs.Prelude.{◌≡◌, ◌+◌, ◌*◌, ◌<◌, ◌≤◌, length, slice_index, IfOk};
ghost use Rattle.rc_instr.specs.Warrior.{Fits, IsBelow};
ghost use Rattle.mars_core.specs.Core.{cell_at, filled_in};
ghost use Rattle.mars_core.specs.State.{start_of, turn_of, play_of, tasks_of};

use crate::cell::Cell;
use crate::cells::{Cells, PlainCells, load_code, read};
use crate::fight_loop::decide;
use crate::packed_cells::PackedCells;
use crate::side::Side;
use crate::snapshot::Snapshot;
use crate::tasks::Tasks;
use crate::turn::take_turn;
use rc_instr::{Instruction, OutOfMemory, Rules, Warrior};
use std::alloc::Global;
use std::marker::Model;

/// How a fight ended.
#[derive(Clone, Copy, Debug, PartialEq, Eq)]
pub struct Outcome {
    /// The candidate's points: 3 for a win, 1 for a tie, 0 for a loss.
    pub points: u8,
    /// The turns of both sides together.
    pub turns: u32,
}

/// A core and the tasks of two warriors, under fixed rules.
///
/// Contracts see the rules, the state, the turns since the load, how many fights were run, and the
/// marks of the cells.
#[derive(Drop)]
pub struct Arena<C: Cells> {
    cells: C,
    candidate: C::Queue,
    opponent: C::Queue,
    snapshot: Snapshot<C>,
    turns: u32,
    fights: u64,
    rules: Rules,
}

impl<C: Cells> Model for Arena<C> {
    ghost use Rattle.mars_core.specs.Arena.{ArenaView, arena, IsArena};

    ghost Value = { ArenaView };

    ghost view = { λ a. arena a.rules (C.items a.cells) (C.Queue.held a.candidate).items (C.Queue.held a.opponent).items a.turns a.fights (C.marks a.cells) };

    ghost invariant = { λ a. IsArena a.rules (C.items a.cells) (C.Queue.held a.candidate) (C.Queue.held a.opponent) a.snapshot a.turns };
}

impl<C: Cells> Arena<C> {
    ghost use Rattle.mars_core.specs.Arena.{IsBlank, fights_after};
    ghost use Rattle.mars_core.specs.Fight.{outcome_of, points_in};

    /// Loads the candidate from address 0 and the opponent from address `at`, and gives each one
    /// task, at its start.
    ///
    /// The arena must be blank and both warriors must fit its rules. `at` is at least the distance
    /// of the rules, and at most the core size less that distance. The marks grow by at most the
    /// two code lengths.
    #[tactic(auto, unfolding(crate::specs::State::start_of))]
    pub fn load(&mut self, candidate: &Warrior, opponent: &Warrior, at: u32)
        requires blank { IsBlank self.old.rules self.old }
        requires candidate { Fits self.old.rules candidate.now }
        requires opponent { Fits self.old.rules opponent.now }
        requires at { (self.old.rules.distance ≤ at) × (at + self.old.rules.distance ≤ self.old.rules.core) }
        ensures state { self.new.state ≡ start_of self.old.rules.core candidate.now opponent.now at }
        ensures turns { self.new.turns ≡ 0 }
        ensures fights { self.new.fights ≡ self.old.fights }
        ensures rules { self.new.rules ≡ self.old.rules }
        ensures marks { self.new.marks ≤ self.old.marks + length candidate.now.code + length opponent.now.code }
    {
        let size = self.rules.core();
        load_code(&mut self.cells, size, 0, candidate.code());
        load_code(&mut self.cells, size, at, opponent.code());
        self.candidate.append(candidate.start());
        self.opponent.append(at + opponent.start());
    }

    /// Runs one turn of `side`: pops its first task, executes that instruction, and appends what it
    /// queues while there is room (1994 draft). A side without tasks changes nothing, but the turn
    /// counts.
    ///
    /// Fewer than two turns for each cycle of the rules must have been made since the load. The
    /// marks grow by at most 3.
    pub fn step(&mut self, side: Side)
        requires { self.old.turns < 2 * self.old.rules.cycles }
        ensures state { self.new.state ≡ turn_of self.old.rules.tasks self.old.state side }
        ensures turns { self.new.turns ≡ self.old.turns + 1 }
        ensures fights { self.new.fights ≡ self.old.fights }
        ensures rules { self.new.rules ≡ self.old.rules }
        ensures marks { self.new.marks ≤ self.old.marks + 3 }
    {
        let size = self.rules.core();
        match side {
            Side::Candidate => take_turn(&mut self.cells, &mut self.candidate, size),
            Side::Opponent => take_turn(&mut self.cells, &mut self.opponent, size),
        };
        self.turns += 1;
    }

    /// Plays a fight to its end: turns alternate, `first` moving first, until a side has no task or
    /// the cycles of the rules are over. A cycle is one turn of each side, so there are at most two
    /// turns for each cycle.
    ///
    /// Requires that no turn was made since the load. The candidate gets 3 points if the opponent
    /// has no task left, 0 if it has none itself, and 1 if both still have tasks (pMARS, for two
    /// warriors). So a run of a blank arena returns 3 points after 0 turns. The marks grow by at
    /// most 3 a turn, and the fights by 1.
    pub fn run(&mut self, first: Side) -> Outcome
        requires { self.old.turns ≡ 0 }
        ensures outcome { result ≡ outcome_of self.old.rules.tasks self.old.state first self.old.rules.cycles }
        ensures within { result.turns ≤ 2 * self.old.rules.cycles }
        ensures state { self.new.state ≡ play_of self.old.rules.tasks self.old.state first result.turns }
        ensures turns { self.new.turns ≡ result.turns }
        ensures fights { self.new.fights ≡ fights_after self.old.fights 1 }
        ensures rules { self.new.rules ≡ self.old.rules }
        ensures marks { self.new.marks ≤ self.old.marks + 3 * result.turns }
    {
        let size = self.rules.core();
        let cycles = self.rules.cycles();
        match first {
            Side::Candidate => {
                let (mine, theirs) = (&mut self.candidate, &mut self.opponent);
                let snapshot = &mut self.snapshot;
                let turns = decide(&mut self.cells, mine, theirs, snapshot, size, cycles);
                self.finish(turns)
            }
            Side::Opponent => {
                let (mine, theirs) = (&mut self.opponent, &mut self.candidate);
                let snapshot = &mut self.snapshot;
                let turns = decide(&mut self.cells, mine, theirs, snapshot, size, cycles);
                self.finish(turns)
            }
        }
    }

    /// Makes the arena blank again. Returns how many cells it set: the marks, at least as many as
    /// were not empty.
    pub fn reset(&mut self) -> u32
        ensures count { result ≡ self.old.marks }
        ensures least { filled_in self.old.state.core ≤ result }
        ensures blank { IsBlank self.old.rules self.new }
        ensures fights { self.new.fights ≡ self.old.fights }
        ensures marks { self.new.marks ≡ C.new_marks self.old.rules.core }
    {
        self.candidate.clear();
        self.opponent.clear();
        self.turns = 0;
        self.cells.restore()
    }

    /// Returns the cell at address `at`, which must be below the core size. Its numbers are below
    /// the core size.
    pub fn cell(&self, at: u32) -> Instruction
        requires { at < self.now.rules.core }
        ensures value { result ≡ cell_at self.now.state.core at }
        ensures below { IsBelow self.now.rules.core result }
    {
        read(&self.cells, self.rules.core(), at).instruction()
    }

    /// Returns the number of tasks of `side`, at most the tasks of the rules.
    pub fn task_count(&self, side: Side) -> u32
        ensures value { result ≡ length (tasks_of side self.now.state) }
        ensures within { result ≤ self.now.rules.tasks }
    {
        match side {
            Side::Candidate => self.candidate.len() as u32,
            Side::Opponent => self.opponent.len() as u32,
        }
    }

    /// Returns the address of the task at `index` in the queue of `side`. The task at index 0 is
    /// executed next; `index` must be below the number of tasks. The address is below the core
    /// size.
    #[tactic(auto, using(crate::proofs::Queues::item_below))]
    pub fn task(&self, side: Side, index: u32) -> u32
        requires { index < length (tasks_of side self.now.state) }
        ensures value { result ≡ slice_index (tasks_of side self.now.state) index }
        ensures below { result < self.now.rules.core }
    {
        let task = match side {
            Side::Candidate => self.candidate.get(index as usize),
            Side::Opponent => self.opponent.get(index as usize),
        };
        task.map_or(0, u32::from)
    }

    /// Returns the turns of both sides since the load.
    pub fn turns(&self) -> u32
        ensures { result ≡ self.now.turns }
    {
        self.turns
    }

    /// Returns how many fights were run since the arena was made, modulo 2 to the 64.
    pub fn fights(&self) -> u64
        ensures { result ≡ self.now.fights }
    {
        self.fights
    }

    // Records the turns, counts the fight, and returns the outcome, read off the remaining tasks.
    fn finish(&mut self, turns: u32) -> Outcome
        requires { turns ≤ 2 * self.old.rules.cycles }
        ensures points { result.points ≡ points_in self.old.state }
        ensures result { result.turns ≡ turns }
        ensures arena { self.new ≡ record self.old { turns = turns; fights = fights_after self.old.fights 1 } }
    {
        self.turns = turns;
        self.fights = self.fights.wrapping_add(1);
        let points = if self.opponent.is_empty() {
            3
        } else if self.candidate.is_empty() {
            0
        } else {
            1
        };
        Outcome { points, turns }
    }
}

impl<C: Cells + Drop> Arena<C> {
    ghost use Rattle.std.specs.Prelude.{replicate};
    ghost use Rattle.rc_instr.specs.Instruction.{empty_cell};
    ghost use Rattle.mars_core.specs.Arena.{IsBlank};

    // Makes a blank arena over empty cells. Its snapshot keeps a state in `spare`.
    fn over(alloc: Global, cells: C, spare: C, rules: &Rules) -> Result<Arena<C>, OutOfMemory>
        requires cells { C.items cells ≡ replicate rules.now.core empty_cell }
        requires spare { C.items spare ≡ replicate rules.now.core empty_cell }
        ensures blank { IfOk result (IsBlank rules.now) }
        ensures fights { IfOk result (λ a. a.fights ≡ 0) }
        ensures marks { IfOk result (λ a. a.marks ≡ C.marks cells) }
    {
        let candidate = C::Queue::with_capacity(alloc, rules.tasks() as usize)?;
        let opponent = C::Queue::with_capacity(alloc, rules.tasks() as usize)?;
        let snapshot = Snapshot::over(alloc, spare)?;
        Ok(Arena {
            cells,
            candidate,
            opponent,
            snapshot,
            turns: 0,
            fights: 0,
            rules: *rules,
        })
    }
}

impl Arena<PlainCells> {
    ghost use Rattle.mars_core.specs.Arena.{IsBlank};

    /// Makes a blank arena over plain cells. Its marks are the core size.
    ///
    /// Reserves all the memory that fights in it need: the cells, a queue for each side, and a
    /// snapshot of both to see whether a state comes back. Returns `OutOfMemory` if that fails.
    pub fn try_new(alloc: Global, rules: &Rules) -> Result<Arena<PlainCells>, OutOfMemory>
        ensures blank { IfOk result (IsBlank rules.now) }
        ensures fights { IfOk result (λ a. a.fights ≡ 0) }
        ensures marks { IfOk result (λ a. a.marks ≡ rules.now.core) }
    {
        let cells = PlainCells::try_new(alloc, rules.core())?;
        let spare = PlainCells::try_new(alloc, rules.core())?;
        Arena::over(alloc, cells, spare, rules)
    }
}

impl Arena<PackedCells> {
    ghost use Rattle.mars_core.specs.Arena.{IsBlank};

    /// Makes a blank arena over packed cells. It has no marks.
    ///
    /// Reserves all the memory that fights in it need: the cells, their journal, a queue for each
    /// side, and a snapshot to see whether a state comes back. Returns `OutOfMemory` if that fails.
    pub fn try_new(alloc: Global, rules: &Rules) -> Result<Arena<PackedCells>, OutOfMemory>
        ensures blank { IfOk result (IsBlank rules.now) }
        ensures fights { IfOk result (λ a. a.fights ≡ 0) }
        ensures marks { IfOk result (λ a. a.marks ≡ 0) }
    {
        let cells = PackedCells::try_new(alloc, rules.core())?;
        let spare = PackedCells::try_new(alloc, rules.core())?;
        Arena::over(alloc, cells, spare, rules)
    }
}
