// Bytes copied.
ghost use Rattle.std.specs.Prelude.{◌≤◌, length};
ghost use Rattle.text.specs.Puts.{Put};

// Copies src to the start of out, and answers how many bytes it has. One function, since every place where bytes are put counts them too.
pub(crate) fn copy(src: &[u8], out: &mut [u8]) -> usize
    requires { length src.now ≤ length out.old }
    ensures { Put src.now out.old result out.new }
{
    out[..src.len()].copy_from_slice(src);
    src.len()
}
