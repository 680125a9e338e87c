// Words and counts tested: the parts of a word, its layout, and what it may name.
ghost use Rattle.std.specs.Prelude.{◌≡◌, ◌≤◌, ◌<◌, ◌^◌, ◌&&◌, ℕ, IfSome, is_none, length};
ghost use Rattle.soda.specs.Lists.{all, first_failing};
ghost use Rattle.policy.specs.Words.{kind, operand, sides, word_ok};
ghost use Rattle.policy.specs.Masks.{put_of};
ghost use Rattle.policy.specs.Reading.{count_ok, length_ok, layout_ok};
ghost use Rattle.policy.specs.Private.{rooms_of};

use super::kinds::Kind;
use std::num;

// The kind of a word.
pub fn kind_of(w: u32) -> usize
    ensures { result ≡ kind w }
{
    (w >> 24) as usize
}

// The operand of a word.
pub fn operand_of(w: u32) -> u32
    ensures { result ≡ operand w }
{
    w & 0xffff
}

// How many sides a word of kind k has (document 02: sides by rule): below 4 none, below 6 one, else two. That is said of every k; a word
// of kind 0 or past 9 is refused before its sides are asked for.
pub fn sides_of(k: usize) -> u8
    ensures { result ≡ sides k }
{
    if k < Kind::Not as usize {
        return 0;
    }
    if k < Kind::Either as usize {
        return 1;
    }
    2
}

// Bits with one more below them.
pub fn put(bits: u32, b: bool) -> u32
    ensures { result ≡ put_of bits b }
{
    (bits << 1) | b as u32
}

// Whether users and roles are each 1 to 16.
pub(crate) fn counts_ok(users: u8, roles: u8) -> bool
    ensures { result ≡ (count_ok users && count_ok roles) }
{
    (1..=16).contains(&users) & (1..=16).contains(&roles)
}

// Whether a policy may have n words.
pub fn length_ok(n: usize) -> bool
    ensures { result ≡ length_ok n }
{
    (1..=31).contains(&n)
}

// The least word of each kind that is in the layout: its operand is 0, or for a set 1. With these and `rooms` one comparison tests layout and
// operand; with a `match` on the kind, reading 31 words takes a fifth more instructions. Only the rooms are made at each call.
static LEAST: [u32; 10] = [
    0,
    1 << 24,
    2 << 24,
    (3 << 24) + 1,
    4 << 24,
    5 << 24,
    6 << 24,
    7 << 24,
    8 << 24,
    9 << 24,
];

// How many words of each kind are in the layout and name only what is declared; they are those from the least on.
fn rooms(users: u8, roles: u8) -> [u32; 10]
    requires { users ≤ 16 }
    ensures { result ≡ rooms_of users roles }
{
    // by kind: none, everyone, role, set, and those without an operand
    [0, 1, roles as u32, (1u32 << users) - 1, 1, 1, 1, 1, 1, 1]
}

// Whether a word is in the layout and names only what is declared, by the rooms of the users and roles declared.
fn is_in_rooms(room: &[u32; 10], word: u32) -> bool
    ensures { (users roles : ℕ) → users ≤ 16 → roles < 2 ^ 8 → room.now ≡ rooms_of users roles → result ≡ word_ok users roles word }
{
    let kind = kind_of(word);
    kind <= Kind::Apart as usize && num::wrapping_sub_u32(word, LEAST[kind]) < room[kind]
}

// The place of the first word that is not in the layout or names something that is not declared.
pub(crate) fn bad_word(users: u8, roles: u8, words: &[u32]) -> Option<usize>
    requires { users ≤ 16 }
    ensures none { is_none result ≡ all (word_ok users roles) words.now }
    ensures place { IfSome result (λ place. place ≡ first_failing (word_ok users roles) words.now) }
    ensures inside { IfSome result (λ place. place < length words.now) }
{
    let room = rooms(users, roles);
    words.iter().position(|&word| !is_in_rooms(&room, word))
}

// Whether none of 5, 1 and 2 applies.
pub fn in_layout(users: u8, roles: u8, words: &[u32]) -> bool
    ensures { result ≡ layout_ok users roles words.now }
{
    counts_ok(users, roles) && length_ok(words.len()) && bad_word(users, roles, words).is_none()
}
