// The recursive reader: the first term of the words, from its sides.
ghost use Rattle.std.specs.Prelude.{◌≡◌, ◌+◌, ◌≤◌, IfSome, length};
ghost use Rattle.std.proofs.Math.Bool.{So};
ghost use Rattle.policy.specs.Words.{first};
ghost use Rattle.policy.specs.Private.{all_known, first_in, over_side, beside_sides};

use super::kinds::Kind;
use super::words::{kind_of, put, sides_of};

// What is read of the first term of some words: how many words it has; whether it is a unit term, and well formed; and those of its words
// that begin unit terms.
#[derive(Clone, Copy, Debug, PartialEq, Eq)]
pub(crate) struct First {
    pub words: usize,
    pub unit: bool,
    pub formed: bool,
    pub units: u32,
}

// A term of one word.
const ONE_WORD: First = First {
    words: 1,
    unit: true,
    formed: true,
    units: 1,
};

// Not (kind 4) or plus (kind 5) over a side. Here and below the kind is a number, since document 02's rule goes by the order of the kinds.
fn over_side(k: usize, a: First) -> First
    requires { a.words ≤ 30 }
    ensures { result ≡ over_side k a }
{
    let unit = (k == Kind::Not as usize) & a.unit;
    First {
        words: 1 + a.words,
        unit,
        formed: a.unit & a.formed,
        units: put(a.units, unit),
    }
}

// An operator (kinds 6 to 9) between two sides.
fn beside_sides(k: usize, a: First, b: First) -> First
    requires { a.words + b.words ≤ 30 }
    ensures { result ≡ beside_sides k a b }
{
    let unit = (k < Kind::Together as usize) & (a.unit & b.unit);
    First {
        words: 1 + a.words + b.words,
        unit,
        formed: a.formed & b.formed,
        units: put((b.units << a.words as u32) | a.units, unit),
    }
}

// Reads the first term of the words, a side of another: a term of one word is read without a call.
#[cycle(scan_side)]
#[inline]
fn side(words: &[u32]) -> Option<First>
    requires { (length words.now ≤ 31) × So (all_known words.now) }
    ensures first { result ≡ first_in (first words.now) }
    ensures within { IfSome result (λ term. term.words ≤ length words.now) }
{
    let word = *words.first()?;
    if sides_of(kind_of(word)) == 0 {
        return Some(ONE_WORD);
    }
    scan(words)
}

// Reads the first term of the words. None of them is of an unknown kind, which would have sides by the rule but begins no term.
#[cycle(scan_side)]
pub(crate) fn scan(words: &[u32]) -> Option<First>
    requires { (1 ≤ length words.now) × (length words.now ≤ 31) × So (all_known words.now) }
    ensures first { result ≡ first_in (first words.now) }
    ensures within { IfSome result (λ term. term.words ≤ length words.now) }
{
    let k = kind_of(words[0]);
    let n = sides_of(k);
    if n == 0 {
        return Some(ONE_WORD);
    }
    let a = side(&words[1..])?;
    if n == 1 {
        return Some(over_side(k, a));
    }
    let second = 1 + a.words;
    let b = side(&words[second..])?;
    Some(beside_sides(k, a, b))
}
