//! Why a command does not succeed, and its exit status.
ghost use Rattle.std.specs.Prelude.{◌≡◌};
ghost use Rattle.command_runs.specs.Commands.{status_of};

// Why a command does not succeed. `status_of` gives each ending its exit status.
#[derive(Clone, Copy)]
pub(crate) enum Ending {
    // An input is refused, or a certificate rejected.
    Refused,
    // A usage error, a part that the template does not have, or a CERT or CERT.inputs that is not
    // overwritten.
    Misused,
    // An I/O error, or out of memory.
    Failed,
}

// Returns the exit status of a command: 0 if it succeeded.
pub(crate) fn status_of(ended: Result<(), Ending>) -> u8
    ensures { result ≡ status_of ended }
{
    match ended {
        Ok(()) => 0,
        Err(Ending::Refused) => 1,
        Err(Ending::Misused) => 2,
        Err(Ending::Failed) => 3,
    }
}
