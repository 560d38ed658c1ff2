//! What a search has found so far, with the names of the constants.
ghost use Rattle.std.specs.Prelude.{◌≡◌, None};

use crate::telling::{tell, tell_bytes};
use itoa::Buffer;
use rc_instr::Outlet;
use std::alloc::Global;
use std::io::Write;
use tune_cert::{Best, Standing};
use tune_runs::Inputs;
use tune_template::Template;

/// The best setting of a search so far, and what names its values.
#[derive(Drop)]
pub struct Finding {
    alloc: Global,
    best: Option<Best>,
    // The total of START, once it has played: none if the part lacks it, or if it is below the
    // floor. In a check only if the certificate names START as the best.
    start_total: Option<u32>,
    start_index: u32,
    // Whether the part has START.
    has_start: bool,
    // A template of its own, since the inputs are gone when a setting is printed.
    template: Option<Template>,
    // The index in the template of the part's first setting.
    first: u32,
}

impl Finding {
    /// Makes the finding of a search that has visited no setting.
    pub fn new(alloc: Global) -> Finding
        ensures { result.best ≡ None }
    {
        Finding {
            alloc,
            best: None,
            start_total: None,
            start_index: 0,
            has_start: false,
            template: None,
            first: 0,
        }
    }

    /// Keeps what names the values, if memory allows.
    pub fn begin(&mut self, inputs: &Inputs)
        ensures { self.new.best ≡ self.old.best }
    {
        let template = inputs.template();
        self.template = Template::read(self.alloc, template.text()).ok();
        self.start_index = inputs.start_number();
        let start = inputs.index_in_template(self.start_index);
        self.has_start = start == template.start_number();
        self.first = start.saturating_sub(self.start_index);
    }

    /// Keeps the best setting. A search visits the start setting first.
    pub fn see(&mut self, standing: &Standing)
        ensures { self.new.best ≡ standing.now.best }
    {
        self.best = standing.best;
        if let Some(best) = standing.best {
            if standing.settings == 1 && self.has_start && best.vector == self.start_index {
                self.start_total = Some(best.total);
            }
        }
    }

    // Writes the line `found: ..` of the best setting, if there is one. It is not indented.
    pub(crate) fn tell_found<V: Write>(&self, err: &mut Outlet<V>) {
        if self.best.is_some() {
            tell(err, &["found: "]);
            self.tell_best(err);
            tell(err, &["\n"]);
        }
    }

    /// Writes the best setting with its total and its values, and the total of START, once that has
    /// played. Writes nothing if no setting was found.
    pub fn tell_progress<V: Write>(&self, err: &mut Outlet<V>)
        ensures { self.now.best ≡ None → err.new ≡ err.old }
    {
        if self.best.is_none() {
            return;
        }
        tell(err, &[", "]);
        self.tell_best(err);
        if let Some(total) = self.start_total {
            tell(err, &[", START ", Buffer::new().format(total)]);
        }
    }

    fn tell_best<V: Write>(&self, err: &mut Outlet<V>) {
        let Some(best) = self.best else {
            return;
        };
        tell(err, &["best ", Buffer::new().format(best.vector)]);
        tell(err, &[" total ", Buffer::new().format(best.total)]);
        self.tell_values(err, self.first.saturating_add(best.vector));
    }

    // Writes the values of a setting of the template, as in ` STEP=3`.
    fn tell_values<V: Write>(&self, err: &mut Outlet<V>, index: u32) {
        let Some(template) = &self.template else {
            return;
        };
        if index >= template.count() {
            return;
        }
        let values = template.vector(index);
        for (name, value) in template.names().iter().zip(values.as_slice()) {
            tell(err, &[" "]);
            tell_bytes(err, name.as_slice());
            tell(err, &["=", Buffer::new().format(*value)]);
        }
    }
}
