// Twins: two sets whose actions are the same but for their places. Actions by one user that met the same unit terms are alike, and a
// set with one of them for another has the same row.
ghost use Rattle.std.specs.Prelude.{◌≡◌};
ghost use Rattle.rows.specs.Twins.{twin_of};

use std::num;

// A twin of the set top + t that is entered before it, or that set. Its last action is alike those at the places of alike: a twin is
// t with the first of them that t lacks, and so is that action with a smaller twin of t. Sums wrap, so that it is total.
pub fn twin_of(alike: usize, top: usize, t: usize, twin: u16) -> usize
    ensures { result ≡ twin_of alike top t twin }
{
    let spare = alike - (alike & t);
    if spare != 0 {
        return num::wrapping_add_usize(t, spare - (spare & (spare - 1)));
    }
    let twin = twin as usize;
    if twin < t {
        return num::wrapping_add_usize(top, twin);
    }
    num::wrapping_add_usize(top, t)
}
