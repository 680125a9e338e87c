// The ways to part a set in two, walked for the words of together and apart.
ghost use Rattle.std.specs.Prelude.{ℕ, Bool, false, cond, eqb, ◌≡◌, ◌-◌, ◌<◌, length};
ghost use Rattle.workspace.specs.Private.{Joined, JoinedBy, Gathers, Adds, Next, digits, found_in, entry_at, sided, sided_in, jointly};

use super::entry::Entry;

// What parts of a set have at left sides while their rests have it at right sides, and the other way round. They are kept apart, since
// compilers put both sides into one operation.
#[derive(Clone, Copy)]
struct Found {
    ahead: u64,
    back: u64,
}

impl Found {
    // With the words of one part.
    fn with(self, part: Entry, rest: Entry) -> Self
        ensures { Adds sided part rest (found_in self) (found_in result) }
    {
        Found {
            ahead: self.ahead | (part.row.left & rest.row.right),
            back: self.back | (rest.row.left & part.row.right),
        }
    }
}

// Where the words of a part count: at those of joint, but where a user acts in both it and its rest, only at those of anyone. It takes
// one of two masks, which needs fewer instructions than to leave one out.
fn counting(joint: u64, anyone: u64, shared: u16) -> u64
    ensures { result ≡ cond (eqb shared 0) joint anyone }
{
    if shared == 0 { joint } else { anyone }
}

// What is found, with the words of one part where they count.
fn with_apart(found: u64, part: Entry, rest: Entry, joint: u64, anyone: u64) -> u64
    ensures { Adds (sided_in joint anyone) part rest (digits found) (digits result) }
{
    let words = (part.row.left & rest.row.right) | (rest.row.left & part.row.right);
    found | (words & counting(joint, anyone, part.users & rest.users))
}

// What is gathered of all parts of s that are neither empty nor s, each with its rest, either way; t is s without its last action. The
// walk is over the parts of t without its first action, and a turn takes a part with and without that action: a step of the walk
// waits for the one before. It goes down through the masks within a mask, which no range does, so it is a `while`. The sets with t's
// first action stand in a slice of their own, so that a place is found once for both.
fn joined<A: Copy, F: Fn(A, Entry, Entry) -> A>(
    sets: &[Entry],
    s: usize,
    t: usize,
    none: A,
    gather: F,
) -> A
    requires some { 0 < t }
    requires within { s < length sets.now }
    requires few { s < 4096 }
    requires next { Next s t }
    requires callable { F.IsAlwaysCallable gather }
    ensures { (has : A → ℕ → Bool) (f : Entry → Entry → ℕ → Bool) → Gathers (F.post gather) has f → ((q : ℕ) → has none q ≡ false)
        → JoinedBy (λ x. f (entry_at sets.now x) (entry_at sets.now (s - x))) s (has result) }
{
    let high = t & (t - 1);
    let low = t - high;
    let with_first = &sets[low..];
    let rest = s - low;
    let mut found = gather(none, sets[low], sets[rest]);
    let mut a = high;
    while 0 < a {
        let b = rest - a;
        found = gather(found, sets[a], with_first[b]);
        found = gather(found, with_first[a], sets[b]);
        a = (a - 1) & high;
    }
    found
}

// The parts of s at the words of joint, of together and apart; a single action has none. Where no word of apart is left, users need
// not be compared.
pub(crate) fn joints(joint: u64, anyone: u64, sets: &[Entry], s: usize, t: usize) -> u64
    requires { (s < 4096) × (s < length sets.now) × Next s t }
    ensures { Joined (jointly joint anyone sets.now s) s result }
{
    if joint == 0 {
        return 0;
    }
    if t == 0 {
        return 0;
    }
    if joint & anyone == joint {
        let nothing = Found { ahead: 0, back: 0 };
        let found = joined(
            sets,
            s,
            t,
            nothing,
            |found, part, rest| found.with(part, rest),
        );
        return (found.ahead | found.back) & joint;
    }
    joined(
        sets,
        s,
        t,
        0,
        |found, part, rest| with_apart(found, part, rest, joint, anyone),
    ) & joint
}
