// The separation-of-duty algebra: definitions in specs/, theorems in proofs/, and the types that definitions and product share.
#![tactic(auto)]

ghost use Rattle.std.specs.Prelude.{◌≡◌};
ghost use Rattle.soda.specs.Lists.{all};

// A taken action (document 01): its user, and bit i of met for whether the user met the unit term at word i.
#[repr(C)]
#[derive(Clone, Copy, Debug, PartialEq, Eq)]
pub struct Action {
    pub user: u32,
    pub met: u32,
}

impl Action {
    // What an unused place holds: all zero.
    pub const IDLE: Self = Action { user: 0, met: 0 };

    // An action by this user, who met these unit terms.
    pub fn new(user: u8, met: u32) -> Self
        ensures { result ≡ record { user = user; met = met } }
    {
        Self {
            user: u32::from(user),
            met,
        }
    }
}

// A transition of a workflow (document 02: an arrow): in its state, its action leads to the next state.
#[repr(C)]
#[derive(Clone, Copy, Debug, PartialEq, Eq)]
pub struct Transition {
    pub state: u8,
    pub action: u8,
    pub next: u8,
}

impl Transition {
    // What an unused place holds: all zero.
    pub const IDLE: Self = Transition {
        state: 0,
        action: 0,
        next: 0,
    };
}

// Whether each place holds this value. It goes to the end without a branch, which is faster where all do, as nearly always: so it is compiled
// to take several places at once.
pub fn all_are<T: Copy + PartialEq>(places: &[T], value: T) -> bool
    ensures { result ≡ all (λ place. T.eq place value) places.now }
{
    places.iter().fold(true, |so, &place| so & (place == value))
}
