// The row of a set, from the rows of its parts and its own digits.
ghost use Rattle.std.specs.Prelude.{List, ℕ, ◌≤◌, ◌<◌, length};
ghost use Rattle.workspace.specs.Private.{Next, Ascending, Listing, Operators, Coded, Finished, RowOf};

use super::entry::Entry;
use super::masks::Masks;
use super::parts::joints;
use rows::{base_of, chance, packed};

// A row, and at each operator's word the bit of its right side.
#[derive(Clone, Copy)]
pub(crate) struct Row {
    pub bits: u64,
    pub right: u64,
}

// What judges a set by the rows of its parts: a policy's masks, and its operators from the first to the last. Each is its word's place
// and, times 32, how far behind it its right side begins.
#[derive(Clone, Copy)]
pub(crate) struct Judge<'a> {
    pub masks: Masks,
    pub operators: &'a [u16],
    ghost coded: { Coded operators.now },
}

// The operators among the words, for a judge; returns how many. Made once, so that a row visits no other words.
pub(crate) fn operators(either: u64, both: u64, places: &[u8], ops: &mut [u16]) -> usize
    requires { Ascending places.now × (31 ≤ length ops.old) }
    ensures { Operators either both places.now ops.new result }
{
    let mut n: usize = 0;
    for (at, &side) in places.iter().enumerate() {
        let word: u64 = 0x1_0000_0001 << at;
        if (either | both) & word != 0 {
            ops[n] = at as u16 + 32 * (side as u16 - at as u16);
            n += 1;
        }
    }
    n
}

impl Judge<'_> {
    // A row completed from the last operator to the first by the sides, which stand behind their word.
    fn finish(&self, base: u64) -> Row
        ensures { (places : List ℕ) → Ascending places → Listing self.now.masks.either self.now.masks.both places self.now.operators.now (length self.now.operators.now) (length places)
            → Finished base self.now.masks.either self.now.masks.both places result.bits result.right }
    {
        let either = self.masks.either;
        let both = self.masks.both;
        let mut bits = base;
        let mut at_right: u64 = 0;
        for &x in self.operators.iter().rev() {
            let word: u64 = 0x1_0000_0001 << (x & 31);
            let l = bits >> 1;
            let r = bits >> (x >> 5);
            bits |= word & ((either & (l | r)) | (both & (l & r)));
            at_right |= r & word;
        }
        Row {
            bits,
            right: at_right,
        }
    }

    // The row of the set s, from the rows of its parts; t is s without its last action. No action satisfies nothing and is possible for
    // every term. What is not possible for t, or for s without its first action, has no chance. It is joined with both its callers,
    // since a call a set takes time.
    #[inline(always)]
    pub(crate) fn row_of(&self, sets: &[Entry], met: u32, s: usize, t: usize) -> Row
        requires { (s < 4096) × (s < length sets.now) × (0 < s → Next s t) }
        ensures { RowOf self.now.masks self.now.operators.now sets.now met s result.bits result.right }
    {
        let m = self.masks;
        let ones = u32::count_ones(s as u32);
        if ones == 0 {
            return Row {
                bits: m.first,
                right: m.first,
            };
        }
        let joint = chance(m.joint, sets[t].row.left, sets[s & (s - 1)].row.left);
        let found = joints(joint, m.anyone, sets, s, t);
        let base = base_of(m.units, m.plus, packed(met, met), ones) | found;
        self.finish(base)
    }
}
