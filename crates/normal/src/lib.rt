// The normal form of a policy (document 01, "Normal form").
#![tactic(auto)]

ghost use Rattle.std.specs.Prelude.{◌≡◌, ◌+◌, ◌≤◌, ◌<◌, length};
ghost use Rattle.std.specs.List.{copy_within};
ghost use Rattle.policy.specs.Answers.{answer_code};
ghost use Rattle.normal.specs.NormalForms.{normal_answer, normal_out};
ghost use Rattle.normal.specs.Private.{span, lead, operand_of, Spelt, Written, Merging, Merged};

use policy::{Refusal, kind_of, sides_of};

// How many words the first term has.
fn words_in(words: &[u32]) -> usize
    ensures count { result ≡ span 1 words.now }
    ensures within { result ≤ length words.now }
{
    let mut terms: usize = 1;
    for (i, &word) in words.iter().enumerate() {
        if terms == 0 {
            return i;
        }
        terms = terms - 1 + sides_of(kind_of(word)) as usize;
    }
    words.len()
}

// The first operand of a chain of the operator op.
fn first_operand(op: u32, chain: &[u32]) -> &[u32]
    requires { 0 < length chain.now }
    ensures operand { result.now ≡ operand_of op chain.now }
    ensures within { lead op chain.now + length result.now ≤ length chain.now }
{
    let operand = chain.strip_prefix(&[op]).unwrap_or(chain);
    &operand[..words_in(operand)]
}

// Writes the words of src over those of out. Word by word, here and in `pull`: `copy_from_slice` and `copy_within` would have every program
// that links the library bring `memmove`.
fn copy(src: &[u32], out: &mut [u32])
    requires { length src.now ≡ length out.old }
    ensures { out.new ≡ src.now }
{
    for i in 0..src.len() {
        out[i] = src[i];
    }
}

// Writes the n words of out from place `from` on over those from place 1 on, which stand before them.
fn pull(out: &mut [u32], from: usize, n: usize)
    requires { (1 ≤ from) × (from + n ≤ length out.old) }
    ensures { out.new ≡ copy_within out.old from (from + n) 1 }
{
    for i in 0..n {
        out[1 + i] = out[from + i];
    }
}

// Merges two chains of the operator op: a, and one that stands in out behind a gap of one word more than a.
fn merge(op: u32, a: &[u32], out: &mut [u32])
    requires { Merging op a.now out.old }
    ensures { Merged op a.now out.old out.new }
{
    let gap = 1 + a.len();
    let from = gap + (out[gap] == op) as usize;
    let operand = first_operand(op, a);
    out[0] = op;
    if operand <= &out[from..] {
        let end = 1 + operand.len();
        copy(operand, &mut out[1..end]);
        if a[0] == op {
            merge(op, &a[end..], &mut out[end..]);
        }
    } else {
        let count = words_in(&out[from..]);
        let end = 1 + count;
        pull(out, from, count);
        if gap < from {
            merge(op, a, &mut out[end..]);
        } else {
            copy(a, &mut out[end..end + a.len()]);
        }
    }
}

// Writes the normal form of the first term at the start of out, and answers its word count.
fn normal_term(words: &[u32], out: &mut [u32]) -> usize
    requires { Spelt words.now (length out.old) }
    ensures within { result ≤ length words.now }
    ensures written { Written words.now out.old result out.new }
{
    let word = words[0];
    out[0] = word;
    match sides_of(kind_of(word)) {
        0 => 1,
        1 => 1 + normal_term(&words[1..], &mut out[1..]),
        _ => {
            // Merging reads the first side's normal form while it writes to out. With no heap, that one has an array as long as a policy can be.
            let mut first = [0; 31];
            let n = normal_term(&words[1..], &mut first);
            let m = normal_term(&words[1 + n..], &mut out[1 + n..]);
            merge(word, &first[..n], out);
            1 + n + m
        }
    }
}

// Writes the normal form of a policy at the start of out. Any counts, any words and any output are answered.
pub fn normal_form(users: u8, roles: u8, words: &[u32], out: &mut [u32]) -> Result<(), Refusal>
    ensures value { answer_code result ≡ normal_answer users roles words.now (length out.old) }
    ensures out_after { out.new ≡ normal_out users roles words.now out.old }
{
    let policy = policy::read(users, roles, words)?;
    if out.len() < policy.words {
        return Err(Refusal::Output);
    }
    normal_term(words, out);
    Ok(())
}
