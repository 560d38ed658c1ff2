//! What `tune` does with CERT and CERT.inputs before a run and after it, and what `check` says of a
//! certificate that it rejects.
ghost use Rattle.std.specs.Prelude.{◌≢◌, IfErr};

use crate::ending::Ending;
use crate::files::cert_file::{CertFile, NotOpened};
use crate::files::digest::Digested;
use crate::files::guard::{Barred, Written, check_overwritable};
use crate::files::inputs_file::{Tuning, name_beside, write_inputs};
use crate::files::other_inputs::differences;
use crate::host::Host;
use crate::telling::tell;
use crate::telling::witness::Witness;
use command_words::TuneWords;
use rc_instr::Outlet;
use std::io::Write;
use std::rt::Files;
use tune_runs::{Method, TuneTexts};

// Writes the line that says why CERT is not opened, and returns the ending.
pub(crate) fn end_unopened<F: Files, T: Witness, V: Write>(
    host: &mut Host<'_, F, T, V>,
    name: &str,
    unopened: &NotOpened<'_>,
) -> Ending
    ensures { result ≢ Ending.Refused }
{
    match unopened {
        NotOpened::Barred(barred) => end_barred(host, Written::Cert, name, barred),
        NotOpened::Uncreated(error) => host.fail("create", name, error),
    }
}

// Writes the line that says why a file is not overwritten, and returns the ending.
fn end_barred<F: Files, T: Witness, V: Write>(
    host: &mut Host<'_, F, T, V>,
    written: Written,
    name: &str,
    barred: &Barred<'_>,
) -> Ending
    ensures { result ≢ Ending.Refused }
{
    let line = match (barred, written) {
        (Barred::Unread { name, error }, _) => return host.fail("read", *name, error),
        (Barred::Named, Written::Cert) => "CERT is also another file of this command, and",
        (Barred::OtherText, Written::Cert) => "CERT is a text but not a certificate, and",
        (Barred::Named, Written::Inputs) => "CERT.inputs is also a file of this command, and",
        (Barred::OtherText, Written::Inputs) => "CERT.inputs is a text of another kind, and",
    };
    tell(
        host.err,
        &["error: ", line, " is not overwritten: ", name, "\n"],
    );
    Ending::Misused
}

// Returns the name of CERT.inputs, after a check that it is not a file of the tuning or another
// text. Returns `None` if CERT is not a regular file: it gets no CERT.inputs.
pub(crate) fn inputs_beside<F: Files, T: Witness, V: Write, R: Files + Drop>(
    host: &mut Host<'_, F, T, V>,
    words: &TuneWords<'_>,
    cert: &CertFile<R>,
) -> Result<Option<String>, Ending>
    ensures { IfErr result (λ e. e ≢ Ending.Refused) }
{
    if !cert.is_regular() {
        return Ok(None);
    }
    let Ok(name) = name_beside(host.alloc, words.cert) else {
        return Err(host.end_without_memory());
    };
    match check_overwritable(host.rt, host.alloc, words, Written::Inputs, name.as_str()) {
        Ok(()) => {}
        Err(barred) => return Err(end_barred(host, Written::Inputs, name.as_str(), &barred)),
    }
    Ok(Some(name))
}

// Writes CERT.inputs, whose name is `beside`, if CERT has its new text; says what was found if CERT
// is lost. Called after the report, and also if the tuning was refused or has failed.
pub(crate) fn finish_files<F: Files, T: Witness, V: Write, R: Files + Drop>(
    host: &mut Host<'_, F, T, V>,
    words: &TuneWords<'_>,
    texts: &TuneTexts<'_>,
    method: Method,
    cert: Outlet<CertFile<R>>,
    beside: Option<String>,
) {
    if let (Some(name), Some(cert)) = (beside, finish_cert(host, words, cert)) {
        save_inputs(host, words, texts, method, &cert, name.as_str());
    }
}

// Returns the size and the digest of the certificate if a regular file has it. If it could not be
// written, says which setting the search had found.
fn finish_cert<F: Files, T: Witness, V: Write, R: Files + Drop>(
    host: &mut Host<'_, F, T, V>,
    words: &TuneWords<'_>,
    cert: Outlet<CertFile<R>>,
) -> Option<Digested> {
    let is_lost = cert.failed();
    let file = cert.into_inner();
    if is_lost {
        host.witness.finding().tell_found(host.err);
        host.witness
            .after_lost_cert(host.alloc, words.cert, file.failure());
        return None;
    }
    file.digested()
}

// Writes CERT.inputs to `name`. If that fails, only the witness says so: the ending stays.
fn save_inputs<F: Files, T: Witness, V: Write>(
    host: &mut Host<'_, F, T, V>,
    words: &TuneWords<'_>,
    texts: &TuneTexts<'_>,
    method: Method,
    cert: &Digested,
    name: &str,
) {
    let tuning = Tuning {
        words,
        texts,
        method,
    };
    if let Err(error) = write_inputs(host.rt, host.alloc, &tuning, cert, name) {
        host.witness.after_file_error(host.alloc, name, &error);
    }
}

// Lets the witness say which inputs of a rejected certificate are not those of its tuning.
pub(crate) fn explain_rejection<F: Files, T: Witness, V: Write>(
    host: &mut Host<'_, F, T, V>,
    words: &TuneWords<'_>,
    texts: &TuneTexts<'_>,
    cert: &[u8],
) {
    if !host.witness.explains() {
        return;
    }
    if let Ok(lines) = differences(host.rt, host.alloc, words, texts, cert) {
        host.witness.after_rejection(lines.as_slice());
    }
}
