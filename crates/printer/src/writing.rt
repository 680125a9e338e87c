// The call that writes a text.
ghost use Rattle.std.specs.Prelude.{◌≡◌, length};
ghost use Rattle.text.specs.Reading.{as_converted};
ghost use Rattle.text.specs.Writing.{write_answer, write_out};
ghost use Rattle.printer.specs.Private.{PolicySpelt, PolicyPut};

use super::bytes;
use super::writer::put_term;
use policy::Refusal;
use text::OPENING;

// Writes the policy's text at the start of out, and answers how many bytes it has.
fn put_text(words: &[u32], out: &mut [u8]) -> usize
    requires { PolicySpelt words.now (length out.old) }
    ensures { PolicyPut words.now out.old result out.new }
{
    let n = bytes::copy(&OPENING, out);
    let t = put_term(words, &mut out[n..]);
    n + t.bytes
}

// Writes a policy's text at the start of out. Any counts, any words and any output are answered.
pub fn write_text(users: u8, roles: u8, words: &[u32], out: &mut [u8]) -> Result<usize, Refusal>
    ensures value { as_converted result ≡ write_answer users roles words.now (length out.old) }
    ensures out_after { out.new ≡ write_out users roles words.now out.old }
{
    policy::read(users, roles, words)?;
    // the longest text of a policy has so many bytes: 16 sets of 16 users, apart
    let mut text = [0u8; 767];
    let n = put_text(words, &mut text);
    if out.len() < n {
        return Err(Refusal::Output);
    }
    bytes::copy(&text[..n], out);
    Ok(n)
}
