// Numbers of a text: 0 to 15, without a leading zero.
ghost use Rattle.std.specs.Prelude.{◌≤◌, ◌<◌, length};
ghost use Rattle.text.specs.Texts.{numeral};
ghost use Rattle.text.specs.Puts.{Put};

// Writes a number at the start of out, and answers how many bytes it has.
pub(crate) fn put_numeral(n: u8, out: &mut [u8]) -> usize
    requires { (n < 16) × (length (numeral n) ≤ length out.old) }
    ensures { Put (numeral n) out.old result out.new }
{
    if n < 10 {
        out[0] = b'0' + n;
        return 1;
    }
    out[0] = b'1';
    out[1] = b'0' + (n - 10);
    2
}
