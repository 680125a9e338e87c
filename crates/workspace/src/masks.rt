// The masks of a policy, packed for both columns.
ghost use Rattle.std.specs.Prelude.{◌≤◌};
ghost use Rattle.workspace.specs.Private.{Masked};

use rows::packed;
use shape::Shape;

// The words that go by each row of the table, in both columns; first is the row of the empty set.
#[derive(Clone, Copy)]
pub(crate) struct Masks {
    pub first: u64,
    pub units: u64,
    pub plus: u64,
    pub either: u64,
    pub both: u64,
    pub joint: u64,
    pub anyone: u64,
}

// The masks of a policy of at most 31 words.
pub(crate) fn masks_of(shape: Shape) -> Masks
    requires { shape.words ≤ 31 }
    ensures { Masked shape result }
{
    let joint = shape.together | shape.apart;
    Masks {
        first: packed(0, (1 << shape.words) - 1),
        units: packed(shape.units, shape.units),
        plus: packed(shape.plus, shape.plus),
        either: packed(shape.either, shape.either | joint),
        both: packed(shape.both, shape.both),
        joint: packed(joint, joint),
        anyone: packed(shape.together, shape.together),
    }
}
