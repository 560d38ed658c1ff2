//! Tokens and expressions of Redcode, the language of Core War warriors.
//!
//! A [`Lexer`] yields the tokens of a text one by one. [`eval`] evaluates an expression, and
//! [`name_class`] says which names are reserved or predefined. Nothing is copied or allocated.
#![tactic(auto)]

mod bytes;
mod class;
mod expression;
mod fault;
mod front;
mod header;
pub mod laws;
mod lexeme;
mod lexer;
mod limits;
mod names;
mod operator;
mod token;

pub use bytes::{is_blank, is_same_word};
pub use class::{NameClass, is_opcode_word, is_reserved_name, name_class};
pub use expression::eval;
pub use fault::{EvalFault, LexFault};
pub use lexer::Lexer;
pub use names::Names;
pub use token::{Joined, Kind, Sign, Token, text_of};
