// The one term that the words are, analysed from the last word to the first.
ghost use Rattle.std.specs.Prelude.{◌≡◌, ◌≤◌, length};
ghost use Rattle.soda.specs.Bits.{bit};
ghost use Rattle.policy.specs.Words.{kind, operand, kind_of, decode};
ghost use Rattle.units.specs.Private.{over_of, both_of, some_of, step_of, analysis_in};

use policy::{Kind, operand_of, put};

// A row of terms, read from the last word to the first, in bits: whether each is a unit term, the lowest bit for the first term, with
// a bit set above the last; whether the user meets each; whether all are well formed; and masks over their words: those that begin unit
// terms, and the unit terms that the user meets.
#[derive(Clone, Copy)]
struct Stack {
    unit: u32,
    met: u32,
    formed: bool,
    units: u32,
    noted: u32,
}

// What is found of the one term that words are: whether it is well formed, the words of it that begin unit terms, and those that the user
// meets.
#[derive(Clone, Copy)]
pub(crate) struct Analysis {
    pub formed: bool,
    pub units: u32,
    pub noted: u32,
}

// No term yet.
const NO_TERMS: Stack = Stack {
    unit: 1,
    met: 0,
    formed: true,
    units: 0,
    noted: 0,
};

// Whether i is in a set: its bit i.
fn has_bit(set: u32, i: u32) -> bool
    ensures { result ≡ bit i set }
{
    i < 32 && (set >> i) & 1 == 1
}

// Whether the first two terms both have their bit.
fn both(bits: u32) -> bool
    ensures { result ≡ both_of bits }
{
    bits & 3 == 3
}

// Whether one of the first two terms has its bit.
fn some(bits: u32) -> bool
    ensures { result ≡ some_of bits }
{
    bits & 3 != 0
}

impl Stack {
    // The row with one term in place of its first terms, which are that term's sides; none if it has fewer. The one side of not or plus
    // has to be a unit term.
    fn over(self, sides: u8, unit: bool, met: bool) -> Option<Stack>
        requires { sides ≤ 2 }
        ensures { result ≡ over_of self sides unit met }
    {
        let rest = self.unit >> sides;
        if rest == 0 {
            return None;
        }
        Some(Stack {
            unit: put(rest, unit),
            met: put(self.met >> sides, met),
            formed: self.formed & ((sides != 1) | has_bit(self.unit, 0)),
            units: put(self.units, unit),
            noted: put(self.noted, unit & met),
        })
    }

    // The row after a word, by its kind: it takes its sides from the row. Not is met by no user without a role. The sides are written out
    // for each kind, since `sides_of` makes the loop slower.
    fn step(self, word: u32, user: u8, held: u16) -> Option<Stack>
        ensures { result ≡ step_of user held self (kind_of (kind word)) (operand word) }
    {
        match Kind::of(word)? {
            Kind::Everyone => self.over(0, true, held != 0),
            Kind::Role => self.over(0, true, has_bit(u32::from(held), operand_of(word))),
            Kind::Set => self.over(
                0,
                true,
                has_bit(operand_of(word), u32::from(user)) & (held != 0),
            ),
            Kind::Not => self.over(
                1,
                has_bit(self.unit, 0),
                (held != 0) & !has_bit(self.met, 0),
            ),
            Kind::Plus => self.over(1, false, false),
            Kind::Either => self.over(2, both(self.unit), some(self.met)),
            Kind::Both => self.over(2, both(self.unit), both(self.met)),
            Kind::Together | Kind::Apart => self.over(2, false, false),
        }
    }
}

// The one term that the words are, analysed for a user who holds these roles; only what is noted depends on them. The user's number and
// roles come apart, as the public calls have them, and as callers in other crates do.
pub(crate) fn analyse(words: &[u32], user: u8, held: u16) -> Option<Analysis>
    requires { length words.now ≤ 31 }
    ensures { result ≡ analysis_in user held (decode words.now) }
{
    let mut row = NO_TERMS;
    for &word in words.iter().rev() {
        row = row.step(word, user, held)?;
    }
    if row.unit >> 1 != 1 {
        return None;
    }
    Some(Analysis {
        formed: row.formed,
        units: row.units,
        noted: row.noted,
    })
}
