//! Templates: Redcode texts that leave up to 8 constants open.
#![tactic(auto)]

mod fault;
pub mod laws;
mod limits;
mod lines;
mod numbers;
mod range;
mod span;
mod template;
mod vector;

pub use fault::{TemplateFault, TemplateKind};
pub use lines::is_range_line;
pub use span::Span;
pub use template::Template;
pub use vector::{Vector, WhichSetting};
