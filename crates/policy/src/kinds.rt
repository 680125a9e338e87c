// Document 01's kinds of policy words, bits 24 to 31 ("People, roles and policy words"). specs/Kinds.antt has the same numbers.
ghost use Rattle.std.specs.Prelude.{◌≡◌, ◌+◌, ◌*◌, ◌^◌, Option};
ghost use Rattle.policy.specs.Words.{kind, kind_of};
ghost use Rattle.policy.specs.KindsRead.{read_kind, kind_number};

// A kind of policy word, with its number. `sides_of` goes by the numbers (document 02: sides by rule).
#[derive(Clone, Copy, Debug, PartialEq, Eq)]
pub enum Kind {
    // Everyone (All).
    Everyone = 1,

    // A role; the operand is its number.
    Role = 2,

    // A set; the operand is a mask of users, not zero.
    Set = 3,
    Not = 4,
    Plus = 5,

    // ⊔
    Either = 6,

    // ⊓
    Both = 7,

    // ⊙
    Together = 8,

    // ⊗
    Apart = 9,
}

impl Kind {
    // The kind of a word, if it is one of document 01's.
    pub fn of(word: u32) -> Option<Kind>
        ensures { read_kind result ≡ kind_of (kind word) }
    {
        match word >> 24 {
            1 => Some(Kind::Everyone),
            2 => Some(Kind::Role),
            3 => Some(Kind::Set),
            4 => Some(Kind::Not),
            5 => Some(Kind::Plus),
            6 => Some(Kind::Either),
            7 => Some(Kind::Both),
            8 => Some(Kind::Together),
            9 => Some(Kind::Apart),
            _ => None,
        }
    }

    // The word of this kind with an operand.
    pub fn word(self, operand: u16) -> u32
        ensures { result ≡ kind_number self * 2 ^ 24 + operand }
    {
        ((self as u32) << 24) | u32::from(operand)
    }
}
