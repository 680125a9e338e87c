// The words that a row's own digits give, and those that two parts of a set can give.
ghost use Rattle.std.specs.Prelude.{◌≡◌, ℕ, ◌+◌, ◌<◌, ◌≤◌};
ghost use Rattle.soda.specs.Bits.{bit};
ghost use Rattle.rows.specs.Rows.{based, counted_of, Chance};

use super::columns::packed;

// The words by the rows unit and plus; met packs the unit terms that all actions met, and ones is the number of the actions.
pub fn base_of(units: u64, plus: u64, met: u64, ones: u32) -> u64
    ensures { (q : ℕ) → bit q result ≡ based units plus met ones q }
{
    let several = (met >> 1) & plus;
    if ones == 1 {
        (met & units) | several
    } else {
        several
    }
}

// What counts of x for two parts: where they share a user, only the words at which that does not matter.
pub fn counted(x: u64, shared: u16, anyone: u64) -> u64
    ensures { result ≡ counted_of x shared anyone }
{
    if shared == 0 { x } else { x & anyone }
}

// The 32 bits of a row from bit k on.
fn unpacked(row: u64, k: u32) -> u32
    requires { k ≤ 32 }
    ensures { (i : ℕ) → i < 32 → bit i result ≡ bit (k + i) row }
{
    ((row >> k) & 0xffff_ffff) as u32
}

// The words of joint that two sets, by their digits at left sides, are both possible for. No others can be found for a set that both
// are parts of: a part of a possible set is possible, and what satisfies is possible.
pub fn chance(joint: u64, one: u64, two: u64) -> u64
    ensures { Chance joint one two result }
{
    let possible = unpacked(one & two, 31);
    packed(possible, possible) & joint
}
