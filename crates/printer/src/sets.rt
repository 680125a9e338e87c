// Sets of users: `{`, ascending numbers parted by commas, `}`.
ghost use Rattle.std.specs.Prelude.{◌≤◌, length};
ghost use Rattle.text.specs.Texts.{set_text};
ghost use Rattle.text.specs.Puts.{Put};

use super::numerals::put_numeral;

// Writes a set at the start of out, and answers how many bytes it has.
pub(crate) fn put_set(mask: u32, out: &mut [u8]) -> usize
    requires { length (set_text mask) ≤ length out.old }
    ensures { Put (set_text mask) out.old result out.new }
{
    let mut n = 0;
    let mut sign = b'{';
    for user in 0..16 {
        if (mask >> user) & 1 == 1 {
            out[n] = sign;
            n += 1;
            n += put_numeral(user, &mut out[n..]);
            sign = b',';
        }
    }
    out[n] = b'}';
    n + 1
}
