// Unit terms of a policy's words: which words begin them, and which of them a user meets.
#![tactic(auto)]

ghost use Rattle.std.specs.Prelude.{◌≡◌};
ghost use Rattle.units.specs.Units.{nonzero, unit_words, met_of, met_each, survey_of, as_survey};

mod terms;

use policy::{in_layout, length_ok};
use terms::analyse;

// What a call on a monitor asks of an accepted policy: the words that begin unit terms, and those of them that a user meets.
#[derive(Clone, Copy, Debug, PartialEq, Eq)]
pub struct Survey {
    pub units: u32,
    pub met: u32,
}

// The words that begin unit terms, bit i for word i; none for words that are not one well-formed term of 1 to 31 words.
pub fn units_of(words: &[u32]) -> Option<u32>
    ensures { result ≡ nonzero (unit_words words.now) }
{
    if !length_ok(words.len()) {
        return None;
    }
    let term = analyse(words, 0, 0)?;
    if term.formed { Some(term.units) } else { None }
}

// For each word that begins a unit term, whether a user who holds these roles meets it: bit i for word i. Of words that are not one term
// of 1 to 31 words nobody meets any.
pub fn met(words: &[u32], user: u8, held: u16) -> u32
    ensures { result ≡ met_of words.now user held }
{
    if !length_ok(words.len()) {
        return 0;
    }
    analyse(words, user, held).map_or(0, |found| found.noted)
}

// What each user meets so, by the roles of each, user 0 first, with zeros behind; all zero for more than 16 users. There are always 16
// places, since nothing allocates.
pub fn met_each(words: &[u32], rows: &[u16]) -> [u32; 16]
    ensures { result ≡ met_each words.now rows.now }
{
    let mut each = [0u32; 16];
    if 16 < rows.len() {
        return each;
    }
    for (user, &held) in rows.iter().enumerate() {
        each[user] = met(words, user as u8, held);
    }
    each
}

// Whether a policy is accepted and, if so, its unit words and those that a user who holds these roles meets.
pub fn survey_of(users: u8, roles: u8, words: &[u32], user: u8, held: u16) -> Option<Survey>
    ensures { as_survey result ≡ survey_of users roles words.now user held }
{
    if !in_layout(users, roles, words) {
        return None;
    }
    let term = analyse(words, user, held)?;
    if !term.formed {
        return None;
    }
    Some(Survey {
        units: term.units,
        met: term.noted,
    })
}
