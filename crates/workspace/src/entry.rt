// What the table of sets holds of a set.

// What the table keeps of a row.
#[derive(Clone, Copy)]
pub(crate) struct Stored {
    // The row turned, with its digits at left sides.
    pub left: u64,
    // The row's digits at the words' right sides.
    pub right: u64,
}

// A set: the unit terms that all its actions met, its users, a twin, and its row. They stand side by side, as the walks over parts
// read them together. With the row last, the jump that closes a walk's loop lies within 32 aligned bytes of code, wherever its
// function begins.
#[derive(Clone, Copy)]
pub(crate) struct Entry {
    pub met: u32,
    pub users: u16,
    pub twin: u16,
    pub row: Stored,
}

impl Entry {
    // What an unused place holds: all zero.
    pub(crate) const EMPTY: Self = Entry {
        met: 0,
        users: 0,
        twin: 0,
        row: Stored { left: 0, right: 0 },
    };
}
