// The call that reads a text.
ghost use Rattle.std.specs.Prelude.{◌≡◌, ◌+◌, ◌*◌, ◌≤◌, length};
ghost use Rattle.policy.specs.Refusals.{code};
ghost use Rattle.text.specs.Grammar.{parse};
ghost use Rattle.text.specs.Reading.{as_converted, word_refusals, converted, laid, read_answer, read_out};
ghost use Rattle.parser.specs.Private.{WordsRead};

use super::reader::read_term;
use policy::Refusal;
use text::OPENING;

// A text may have so many bytes.
const LIMIT: usize = 1024;

// Writes the words of the term that the text is at the start of words, and answers how many. A term of n words has at least 4 n - 2 bytes.
fn words_in(text: &[u8], words: &mut [u32]) -> Option<usize>
    requires { length text.now + 2 ≤ 4 * length words.old }
    ensures { WordsRead (parse text.now) result words.new }
{
    let term = read_term(text, words)?;
    if term.bytes != text.len() {
        return None;
    }
    Some(term.words)
}

// Reads the words as a policy, and writes them at the start of out.
fn accept(users: u8, roles: u8, words: &[u32], out: &mut [u32]) -> Result<usize, Refusal>
    ensures value { as_converted result ≡ converted users roles words.now (length words.now) (code (word_refusals users roles words.now (length out.old))) }
    ensures out_after { out.new ≡ laid (code (word_refusals users roles words.now (length out.old))) words.now out.old }
{
    policy::read(users, roles, words)?;
    if out.len() < words.len() {
        return Err(Refusal::Output);
    }
    out[..words.len()].copy_from_slice(words);
    Ok(words.len())
}

// Reads a policy's text, and writes its words at the start of out. Any counts, any bytes and any output are answered.
pub fn read_text(users: u8, roles: u8, text: &[u8], out: &mut [u32]) -> Result<usize, Refusal>
    ensures value { as_converted result ≡ read_answer users roles text.now (length out.old) }
    ensures out_after { out.new ≡ read_out users roles text.now out.old }
{
    let Some(term) = text.strip_prefix(&OPENING) else {
        return Err(Refusal::Opening);
    };
    if LIMIT < text.len() {
        return Err(Refusal::Text);
    }
    // a refusal leaves out as it is, so the words stand here first
    let mut words = [0u32; 256];
    let Some(n) = words_in(term, &mut words) else {
        return Err(Refusal::Text);
    };
    accept(users, roles, &words[..n], out)
}
