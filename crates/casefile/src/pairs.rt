// The parts of a case.
ghost use Rattle.std.specs.Prelude.{◌≡◌, ◌+◌, ◌*◌, ◌≤◌, eqb, length};
ghost use Rattle.casefile.specs.Cases.{slice};
ghost use Rattle.casefile.specs.Private.{part_at, part_end};

use super::numbers::Number;

// A part, by its pair: where it begins, and how many bytes it has.
#[derive(Clone, Copy, Debug, PartialEq, Eq)]
pub(crate) struct Part {
    pub offset: u16,
    pub length: u16,
}

impl Part {
    // The part of the pair with this number.
    pub fn at(bytes: &[u8], pair: usize) -> Part
        requires { pair * 4 + 4 ≤ length bytes.now }
        ensures { result ≡ part_at bytes.now pair }
    {
        Part {
            offset: u16::read(bytes, pair * 4),
            length: u16::read(bytes, pair * 4 + 2),
        }
    }

    // Where it ends.
    pub fn end(self) -> usize
        ensures { result ≡ part_end self }
    {
        usize::from(self.offset) + usize::from(self.length)
    }

    // Whether it begins where another one ends.
    pub fn follows(self, other: Part) -> bool
        ensures { result ≡ eqb self.offset (part_end other) }
    {
        usize::from(self.offset) == other.end()
    }

    // Its bytes.
    pub fn within(self, bytes: &[u8]) -> &[u8]
        requires { part_end self ≤ length bytes.now }
        ensures { result.now ≡ slice bytes.now self.offset (part_end self) }
    {
        &bytes[usize::from(self.offset)..self.end()]
    }
}
