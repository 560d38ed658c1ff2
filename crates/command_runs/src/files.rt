//! Files: texts that are read, and CERT and CERT.inputs, which are written.

pub(crate) mod beginning;
pub(crate) mod cert_ending;
pub(crate) mod cert_file;
pub(crate) mod digest;
pub(crate) mod guard;
pub(crate) mod inputs_file;
pub(crate) mod other_inputs;
pub(crate) mod reading;
pub(crate) mod replacing;
pub(crate) mod same_file;
