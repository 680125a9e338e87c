// The recursive reader: the term that a text begins with.
ghost use Rattle.std.specs.Prelude.{◌≤◌, length, IfSome};
ghost use Rattle.parser.specs.Private.{as_term, Parsed};

use super::tokens::{Head, read_head, read_leaf, read_operator};
use text::Span;

// No term: one has a byte or more.
const NO_TERM: Span = Span { bytes: 0, words: 0 };

// Reads the term that the text begins with, and writes its words at the start of out. Where out has no room for them there is none, so that no
// text leads deeper than out has words.
#[cycle(read_term)]
#[inline(always)]
pub(crate) fn read_term(text: &[u8], out: &mut [u32]) -> Option<Span>
    ensures value { Parsed text.now out.old result out.new }
    ensures bounds { IfSome result (λ s. (s.bytes ≤ length text.now) × (s.words ≤ length out.old)) }
{
    let term = read_span(text, out);
    if term.bytes == 0 {
        return None;
    }
    Some(term)
}

// The same by the span alone, since that goes back in registers, where an option of one goes through memory at each level.
#[cycle(read_term)]
fn read_span(text: &[u8], out: &mut [u32]) -> Span
    ensures value { Parsed text.now out.old (as_term result) out.new }
    ensures bounds { IfSome (as_term result) (λ s. (s.bytes ≤ length text.now) × (s.words ≤ length out.old)) }
{
    match read_sides(text, out) {
        Some(term) => term,
        None => NO_TERM,
    }
}

// The same, with the sides read as terms themselves.
#[cycle(read_term)]
#[inline(always)]
fn read_sides(text: &[u8], out: &mut [u32]) -> Option<Span>
    ensures value { Parsed text.now out.old result out.new }
    ensures bounds { IfSome result (λ s. (s.bytes ≤ length text.now) × (s.words ≤ length out.old)) }
{
    if out.is_empty() {
        return None;
    }
    if let Some(leaf) = read_leaf(text) {
        out[0] = leaf.value;
        return Some(Span {
            bytes: leaf.bytes,
            words: 1,
        });
    }
    let head = read_head(text)?;
    // each arm reads its first side itself, so that how many bytes `(` has is known there
    match head.value {
        Head::Over(word) => {
            let a = read_term(&text[head.bytes..], &mut out[1..])?;
            out[0] = word;
            Some(Span {
                bytes: head.bytes + a.bytes,
                words: 1 + a.words,
            })
        }
        Head::Pair => {
            let a = read_term(&text[head.bytes..], &mut out[1..])?;
            let end = head.bytes + a.bytes;
            let next = 1 + a.words;
            let operator = read_operator(&text[end..])?;
            let second = end + operator.bytes;
            let b = read_term(&text[second..], &mut out[next..])?;
            let close = second + b.bytes;
            if !text[close..].starts_with(b")") {
                return None;
            }
            out[0] = operator.value;
            Some(Span {
                bytes: close + 1,
                words: next + b.words,
            })
        }
    }
}
