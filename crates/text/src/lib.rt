// Policies as readable text (document 02, E7): what a text is, and what reading and writing one answer. The calls stand in `parser` and `printer`.
#![tactic(auto)]

// The bytes that a text begins with.
pub const OPENING: [u8; 8] = *b"policy: ";

// How many bytes a term's text has, and how many words the term.
#[derive(Clone, Copy, Debug, PartialEq, Eq)]
pub struct Span {
    pub bytes: usize,
    pub words: usize,
}
