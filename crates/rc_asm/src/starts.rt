//! Where a warrior starts.
ghost use Rattle.std.specs.Prelude.{◌≡◌};
ghost use Rattle.rc_asm.specs.Lines.{start_value, no_starts};

// The values of the last ORG and of END, as far as they have been read.
#[derive(Clone, Copy)]
pub(crate) struct Starts {
    pub(crate) org: Option<i64>,
    pub(crate) end: Option<i64>,
}

impl Starts {
    pub(crate) fn none() -> Starts
        ensures { result ≡ no_starts }
    {
        Starts {
            org: None,
            end: None,
        }
    }

    // Returns the value of the last ORG; without ORG, the value after END; without either, 0.
    pub(crate) fn value(&self) -> i64
        ensures { result ≡ start_value self.now }
    {
        self.org.or(self.end).unwrap_or(0)
    }
}
