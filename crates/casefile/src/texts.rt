// Text, put at a place of an output: each function answers the place behind its text. The output and the place are two parameters: a struct of
// both would hold the output behind a reference, and a slice from the place on would be cut, and its count added, at each call. No `Display`
// prints the text, since the theorems give it byte for byte.
ghost use Rattle.std.specs.Prelude.{◌≡◌, [], ◌∷◌, ◌++◌, ◌/◌};
ghost use Rattle.policy.specs.Answers.{code_of};
ghost use Rattle.casefile.specs.Texts.{digit, decimal, refused_text, taken_text, line_text};
ghost use Rattle.casefile.specs.Private.{HasRoom, Put};

use policy::Refusal;

// The last decimal digit of a number.
fn digit_of(n: usize) -> u8
    ensures { result ≡ digit n }
{
    b'0' + (n % 10) as u8
}

// One byte.
fn put(out: &mut [u8], at: usize, byte: u8) -> usize
    requires { HasRoom out.old at (byte ∷ []) }
    ensures { Put out.old at (byte ∷ []) result out.new }
{
    out[at] = byte;
    at + 1
}

// Some bytes.
fn put_bytes(out: &mut [u8], at: usize, text: &[u8]) -> usize
    requires { HasRoom out.old at text.now }
    ensures { Put out.old at text.now result out.new }
{
    let end = at + text.len();
    out[at..end].copy_from_slice(text);
    end
}

// The last two decimal digits of a number.
fn put_two(out: &mut [u8], at: usize, n: usize) -> usize
    requires { HasRoom out.old at (digit (n / 10) ∷ digit n ∷ []) }
    ensures { Put out.old at (digit (n / 10) ∷ digit n ∷ []) result out.new }
{
    let next = put(out, at, digit_of(n / 10));
    put(out, next, digit_of(n))
}

// A number below 1,000 in decimal.
fn put_decimal(out: &mut [u8], at: usize, n: usize) -> usize
    requires { HasRoom out.old at (decimal n) }
    ensures { Put out.old at (decimal n) result out.new }
{
    if n < 10 {
        return put(out, at, digit_of(n));
    }
    if n < 100 {
        return put_two(out, at, n);
    }
    let next = put(out, at, digit_of(n / 100));
    put_two(out, next, n)
}

// A number and a space.
fn put_field(out: &mut [u8], at: usize, n: usize) -> usize
    requires { HasRoom out.old at (decimal n ++ (32 ∷ [])) }
    ensures { Put out.old at (decimal n ++ (32 ∷ [])) result out.new }
{
    let end = put_decimal(out, at, n);
    put(out, end, b' ')
}

// Some bytes and a number.
fn put_numbered(out: &mut [u8], at: usize, word: &[u8], n: u8) -> usize
    requires { HasRoom out.old at (word.now ++ decimal n) }
    ensures { Put out.old at (word.now ++ decimal n) result out.new }
{
    let number = put_bytes(out, at, word);
    put_decimal(out, number, n as usize)
}

// Some bytes, a number and a line feed.
fn put_counted(out: &mut [u8], at: usize, word: &[u8], n: u8) -> usize
    requires { HasRoom out.old at ((word.now ++ decimal n) ++ (10 ∷ [])) }
    ensures { Put out.old at ((word.now ++ decimal n) ++ (10 ∷ [])) result out.new }
{
    let end = put_numbered(out, at, word, n);
    put(out, end, b'\n')
}

// `refused k`, and `refused k at p` of a policy's fault.
pub(crate) fn put_refused(out: &mut [u8], at: usize, refusal: Refusal) -> usize
    requires { HasRoom out.old at (refused_text (code_of refusal)) }
    ensures { Put out.old at (refused_text (code_of refusal)) result out.new }
{
    let end = put_numbered(out, at, b"refused ", refusal.number());
    match refusal.place() {
        Some(place) => put_counted(out, end, b" at ", place),
        None => put(out, end, b'\n'),
    }
}

// `taken n`.
pub(crate) fn put_taken(out: &mut [u8], at: usize, n: u8) -> usize
    requires { HasRoom out.old at (taken_text n) }
    ensures { Put out.old at (taken_text n) result out.new }
{
    put_counted(out, at, b"taken ", n)
}

// An event's line: its place, its number and the letter of the status after it.
pub(crate) fn put_line(out: &mut [u8], at: usize, place: usize, code: u8, status: u8) -> usize
    requires { HasRoom out.old at (line_text place code status) }
    ensures { Put out.old at (line_text place code status) result out.new }
{
    let number = put_field(out, at, place);
    let letter = put_field(out, number, code as usize);
    let end = put(out, letter, status);
    put(out, end, b'\n')
}
