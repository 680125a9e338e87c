// The recursive writer: the text of the term that words begin with.
ghost use Rattle.std.specs.Prelude.{◌≤◌, length};
ghost use Rattle.policy.specs.KindsRead.{read_kind};
ghost use Rattle.text.specs.Puts.{Put};
ghost use Rattle.printer.specs.Private.{head_text, operator_text, leaf_text, NamesLeaf, Spelt, TermPut};

use super::bytes;
use super::numerals::put_numeral;
use super::sets::put_set;
use policy::Kind;
use text::Span;

// Writes what stands before the first side of a term of this kind. Each arm copies its own literal, whose length is then known: no copy is
// a call.
fn put_head(kind: Option<Kind>, out: &mut [u8]) -> usize
    requires { length (head_text (read_kind kind)) ≤ length out.old }
    ensures { Put (head_text (read_kind kind)) out.old result out.new }
{
    match kind {
        Some(Kind::Not) => bytes::copy(b"not ", out),
        Some(Kind::Plus) => bytes::copy(b"plus ", out),
        _ => bytes::copy(b"(", out),
    }
}

// Writes what stands between the sides of a term of this kind, each arm its own literal for the same reason.
fn put_operator(kind: Option<Kind>, out: &mut [u8]) -> usize
    requires { length (operator_text (read_kind kind)) ≤ length out.old }
    ensures { Put (operator_text (read_kind kind)) out.old result out.new }
{
    match kind {
        Some(Kind::Either) => bytes::copy(b" or ", out),
        Some(Kind::Both) => bytes::copy(b" both ", out),
        Some(Kind::Together) => bytes::copy(b" with ", out),
        _ => bytes::copy(b" apart ", out),
    }
}

// Writes the term of one word, of this kind and with this operand.
fn put_leaf(kind: Option<Kind>, operand: u32, out: &mut [u8]) -> usize
    requires { NamesLeaf (read_kind kind) operand × (length (leaf_text (read_kind kind) operand) ≤ length out.old) }
    ensures { Put (leaf_text (read_kind kind) operand) out.old result out.new }
{
    match kind {
        Some(Kind::Everyone) => bytes::copy(b"all", out),
        Some(Kind::Role) => {
            out[0] = b'r';
            1 + put_numeral(operand as u8, &mut out[1..])
        }
        _ => put_set(operand, out),
    }
}

// Writes the term that the words begin with at the start of out, and answers how many bytes and words it has.
pub(crate) fn put_term(words: &[u32], out: &mut [u8]) -> Span
    requires { Spelt words.now (length out.old) }
    ensures value { TermPut words.now out.old result out.new }
    ensures bounds { (result.bytes ≤ length out.old) × (result.words ≤ length words.now) }
{
    let word = words[0];
    let kind = Kind::of(word);
    let sides = policy::sides_of(policy::kind_of(word));
    if sides == 0 {
        return Span {
            bytes: put_leaf(kind, policy::operand_of(word), out),
            words: 1,
        };
    }
    let start = put_head(kind, out);
    let a = put_term(&words[1..], &mut out[start..]);
    let end = start + a.bytes;
    let next = 1 + a.words;
    if sides == 1 {
        return Span {
            bytes: end,
            words: next,
        };
    }
    let second = end + put_operator(kind, &mut out[end..]);
    let b = put_term(&words[next..], &mut out[second..]);
    let close = second + b.bytes;
    out[close] = b')';
    Span {
        bytes: close + 1,
        words: next + b.words,
    }
}
