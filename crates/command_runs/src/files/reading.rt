//! Reads whole texts from readers and files.
ghost use Rattle.std.specs.Prelude.{◌≡◌, ◌≤◌, length, IfOk};
ghost use Rattle.command_runs.specs.Input.{IsInput};

use rc_instr::Rules;
use std::alloc::Global;
use std::io::Read;
use std::rt::Files;
use std::{fs, io};
use tune_runs::{Part, TuneTexts};

// The most bytes of a text that is read: 1 GiB.
const MOST_FILE_BYTES: u64 = 1_073_741_824;

// The files of a tuning, read.
#[derive(Drop)]
pub(crate) struct TuneFiles {
    pub(crate) template: Vec<u8>,
    pub(crate) schedule: Vec<u8>,
    pub(crate) opponents: Vec<Vec<u8>>,
}

impl TuneFiles {
    // Returns the texts of the tuning under `rules`, of this part.
    pub(crate) fn texts<'a>(&'a self, rules: &'a Rules, part: Part) -> TuneTexts<'a>
        ensures template { result.template.now ≡ self.now.template.items }
        ensures opponents { result.opponents.now ≡ self.now.opponents.items }
        ensures schedule { result.schedule.now ≡ self.now.schedule.items }
        ensures rules { result.rules.now ≡ rules.now }
        ensures part { result.part ≡ part }
    {
        TuneTexts {
            template: self.template.as_slice(),
            opponents: self.opponents.as_slice(),
            schedule: self.schedule.as_slice(),
            rules,
            part,
        }
    }
}

// Reads a text to its end, or fails if it is longer than the limit.
pub(crate) fn read_text<R: Read>(alloc: Global, input: &mut R) -> io::Result<Vec<u8>>
    ensures short { IfOk result (λ text. length text.items ≤ MOST_FILE_BYTES) }
    ensures bytes { IfOk result (λ text. IsInput (R.remaining input.old) text.items) }
{
    let mut text = Vec::new(alloc);
    input.take(MOST_FILE_BYTES + 1).read_to_end(&mut text)?;
    if text.len() as u64 > MOST_FILE_BYTES {
        return Err(io::Error::from(io::ErrorKind::FileTooLarge));
    }
    Ok(text)
}

pub(crate) fn read_file<F: Files>(rt: &F, alloc: Global, name: &str) -> io::Result<Vec<u8>> {
    let mut file = fs::open(rt, name)?;
    read_text(alloc, &mut file)
}
