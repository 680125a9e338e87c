// Reading a policy's text (document 02, E7).
#![tactic(auto)]

mod numerals;
mod reader;
mod reading;
mod sets;
mod tokens;

pub use reading::read_text;
