// The shape of a policy: the words of each kind, and where right sides begin.
#![tactic(auto)]

ghost use Rattle.std.specs.Prelude.{◌≡◌, ◌≤◌, length};
ghost use Rattle.shape.specs.Shapes.{shape_of};
ghost use Rattle.policy.specs.KindsRead.{read_kind};
ghost use Rattle.shape.specs.Private.{with_of, MasksOf, RightsOf};

use policy::{Kind, kind_of, sides_of};
use units::units_of;

// What the monitor needs of a policy: its length, the words that go by each row of the table, and where right sides begin. There are places
// for the longest policy, since nothing allocates.
#[derive(Clone, Copy)]
pub struct Shape {
    pub words: u8,
    pub units: u32,
    pub plus: u32,
    pub either: u32,
    pub both: u32,
    pub together: u32,
    pub apart: u32,
    pub right: [u8; 31],
}

// The words of each kind that has a row of its own in the table, bit i for word i.
#[derive(Clone, Copy)]
struct Masks {
    plus: u32,
    either: u32,
    both: u32,
    together: u32,
    apart: u32,
}

impl Masks {
    // With one word more: its kind, if it is one of document 01's, and its bit.
    fn with(self, kind: Option<Kind>, bit: u32) -> Masks
        ensures { result ≡ with_of self (read_kind kind) bit }
    {
        match kind {
            Some(Kind::Plus) => Masks {
                plus: self.plus | bit,
                ..self
            },
            Some(Kind::Either) => Masks {
                either: self.either | bit,
                ..self
            },
            Some(Kind::Both) => Masks {
                both: self.both | bit,
                ..self
            },
            Some(Kind::Together) => Masks {
                together: self.together | bit,
                ..self
            },
            Some(Kind::Apart) => Masks {
                apart: self.apart | bit,
                ..self
            },
            _ => self,
        }
    }
}

// The words of each kind.
fn kind_masks(words: &[u32]) -> Masks
    requires { length words.now ≤ 31 }
    ensures { MasksOf words.now result }
{
    let mut masks = Masks {
        plus: 0,
        either: 0,
        both: 0,
        together: 0,
        apart: 0,
    };
    for (i, &word) in words.iter().enumerate() {
        masks = masks.with(Kind::of(word), 1 << i);
    }
    masks
}

// Where the right side begins of the term at each word. Sides stand behind their word, so from the last word to the first it is
// known where they end: end[i] is the place behind the term at word i.
fn rights(words: &[u32]) -> [u8; 31]
    requires { length words.now ≤ 31 }
    ensures { RightsOf words.now result }
{
    let mut right = [0u8; 31];
    let mut end = [0u8; 32];
    for i in (0..words.len()).rev() {
        let sides = sides_of(kind_of(words[i]));
        let next = i as u8 + 1;
        let side = if sides == 2 { end[i + 1] } else { next };
        let side_end = end[side as usize];
        right[i] = side;
        end[i] = if sides == 0 { next } else { side_end };
    }
    right
}

// The shape of a policy; none for words that are not one well-formed term of 1 to 31 words.
pub fn shape_of(words: &[u32]) -> Option<Shape>
    ensures { result ≡ shape_of words.now }
{
    let units = units_of(words)?;
    let masks = kind_masks(words);
    let right = rights(words);
    Some(Shape {
        words: words.len() as u8,
        units,
        plus: masks.plus,
        either: masks.either & !units,
        both: masks.both & !units,
        together: masks.together & !units,
        apart: masks.apart & !units,
        right,
    })
}
