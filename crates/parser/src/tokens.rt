// What terms begin with, and what stands between their sides.
ghost use Rattle.std.specs.Prelude.{◌≤◌, length, IfSome};
ghost use Rattle.text.specs.Grammar.{leaf_in, head_in, operator_in};
ghost use Rattle.parser.specs.Private.{KeywordRead, role_here, LeafRead, HeadRead, OperatorRead};

use super::numerals::read_numeral;
use super::sets::read_set;
use policy::Kind;

// What a text begins with: how many bytes it has, and what it stands for.
#[derive(Clone, Copy, Debug, PartialEq, Eq)]
pub(crate) struct Token<T> {
    pub bytes: usize,
    pub value: T,
}

// What stands before a side: `not ` or `plus `, with its policy word, or the `(` of two sides, whose operator comes behind the first.
#[derive(Clone, Copy, Debug, PartialEq, Eq)]
pub(crate) enum Head {
    Over(u32),
    Pair,
}

// These bytes, if the text begins with them. Always inlined: where they are known, comparing them is a test or two.
#[inline(always)]
fn read_keyword<T: Copy>(text: &[u8], bytes: &[u8], value: T) -> Option<Token<T>>
    requires { 1 ≤ length bytes.now }
    ensures { KeywordRead bytes.now value text.now result }
{
    if !text.starts_with(bytes) {
        return None;
    }
    Some(Token {
        bytes: bytes.len(),
        value,
    })
}

// A role: `r` and its number.
fn read_role(text: &[u8]) -> Option<Token<u32>>
    ensures { LeafRead (role_here text.now) text.now result }
{
    let number = read_numeral(text.strip_prefix(b"r")?)?;
    Some(Token {
        bytes: 1 + number.bytes,
        value: Kind::Role.word(u16::from(number.value)),
    })
}

// A term of one word.
pub(crate) fn read_leaf(text: &[u8]) -> Option<Token<u32>>
    ensures { LeafRead (leaf_in text.now) text.now result }
{
    read_keyword(text, b"all", Kind::Everyone.word(0))
        .or_else(|| read_role(text))
        .or_else(|| read_set(text))
}

// What stands before a side: `(` is told first, and a keyword by its first letter, so that one alone is compared.
pub(crate) fn read_head(text: &[u8]) -> Option<Token<Head>>
    ensures { HeadRead (head_in text.now) text.now result }
{
    read_keyword(text, b"(", Head::Pair).or_else(|| match text {
        [b'n', _, _, _, ..] => read_keyword(text, b"not ", Head::Over(Kind::Not.word(0))),
        _ => read_keyword(text, b"plus ", Head::Over(Kind::Plus.word(0))),
    })
}

// An operator between two sides, told by its first letter, so that one keyword alone is compared.
pub(crate) fn read_operator(text: &[u8]) -> Option<Token<u32>>
    ensures value { OperatorRead (operator_in text.now) text.now result }
    ensures bounds { IfSome result (λ k. k.bytes ≤ length text.now) }
{
    match text {
        [b' ', b'o', ..] => read_keyword(text, b" or ", Kind::Either.word(0)),
        [b' ', b'b', ..] => read_keyword(text, b" both ", Kind::Both.word(0)),
        [b' ', b'w', ..] => read_keyword(text, b" with ", Kind::Together.word(0)),
        [b' ', b'a', ..] => read_keyword(text, b" apart ", Kind::Apart.word(0)),
        _ => None,
    }
}
