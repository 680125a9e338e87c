// Reading a policy, and the place of its fault.
ghost use Rattle.std.specs.Prelude.{◌≡◌, ◌≤◌, length};
ghost use Rattle.soda.specs.Lists.{first_failing};
ghost use Rattle.policy.specs.Reading.{as_read, read_policy};
ghost use Rattle.policy.specs.Private.{over_units};

use super::reader::scan;
use super::words::{bad_word, counts_ok, kind_of, length_ok, sides_of};
use super::{Policy, Refusal};

// The place of the first not or plus that stands over no unit term, by the mask of the words that begin unit terms; the word count if there
// is none, which is no case of its own since the reader asks only where there is one. The mask moves along with the words, which no chain
// of iterators carries.
fn not_over_unit(words: &[u32], units: u32) -> usize
    ensures place { result ≡ first_failing (λ b. b) (over_units units words.now) }
    ensures inside { result ≤ length words.now }
{
    let mut rest = units;
    for (i, &word) in words.iter().enumerate() {
        rest = rest >> 1;
        if (sides_of(kind_of(word)) == 1) & (rest & 1 != 1) {
            return i;
        }
    }
    words.len()
}

// Reads a policy. Any counts and any words are answered.
pub fn read(users: u8, roles: u8, words: &[u32]) -> Result<Policy, Refusal>
    ensures { as_read result ≡ read_policy users roles words.now }
{
    if !counts_ok(users, roles) {
        return Err(Refusal::Counts);
    }
    if !length_ok(words.len()) {
        return Err(Refusal::WordCount);
    }
    if let Some(bad) = bad_word(users, roles, words) {
        return Err(Refusal::Word { place: bad as u8 });
    }
    // where no term is read the words run out
    let term = scan(words).ok_or(Refusal::Term {
        place: words.len() as u8,
    })?;
    if term.words != words.len() {
        return Err(Refusal::Term {
            place: term.words as u8,
        });
    }
    if !term.formed {
        return Err(Refusal::Unit {
            place: not_over_unit(words, term.units) as u8,
        });
    }
    Ok(Policy {
        words: words.len(),
        units: term.units,
    })
}
