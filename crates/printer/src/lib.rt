// Writing a policy's text (document 02, E7).
#![tactic(auto)]

mod bytes;
mod numerals;
mod sets;
mod writer;
mod writing;

pub use writing::write_text;
