// Policy words: their parts, reading a policy, and the refusals of every call.
#![tactic(auto)]

mod kinds;
mod reader;
mod reading;
mod refusal;
mod words;

pub use kinds::Kind;
pub use reading::read;
pub use refusal::{ACCEPTED, Refusal, number_of};
pub use words::{in_layout, kind_of, length_ok, operand_of, put, sides_of};

// A policy read (document 01): its word count, and the mask of the words that begin unit terms.
#[derive(Clone, Copy, Debug, PartialEq, Eq)]
pub struct Policy {
    pub words: usize,
    pub units: u32,
}
