// Rows and masks of sets of actions, each packed into a number, and twins of sets. They stand below the workspace, whose check takes
// much longer than theirs.
// A row packs both columns: bit i says whether a set satisfies the term at word i, bit 32 + i whether it is possible for it.
#![tactic(auto)]

mod columns;
mod twins;
mod words;

pub use columns::{packed, possible_in, satisfied_in, turned};
pub use twins::twin_of;
pub use words::{base_of, chance, counted};
