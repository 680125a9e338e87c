// An event's word, read.
ghost use Rattle.std.specs.Prelude.{◌≡◌};
ghost use Rattle.monitor.specs.Events.{as_event, event_of, read_event, is_short};

// The kinds of event words, bits 24 to 31. `policy`'s specs/Kinds.antt has the same under the same names.
pub const ACTION: u32 = 1;

pub const GRANT: u32 = 2;

pub const REVOKE: u32 = 3;

pub const CLOSE: u32 = 4;

// An event: a user executes an action with a number, is granted a role or has one revoked, or the instance is closed.
#[derive(Clone, Copy, Debug, PartialEq, Eq)]
pub enum Event {
    Action { user: u8, action: u8 },
    Grant { user: u8, role: u8 },
    Revoke { user: u8, role: u8 },
    Close,
}

// An event by its kind, its user and its lowest byte.
fn event_of(users: u32, roles: u32, kind: u32, user: u8, low: u8) -> Option<Event>
    ensures { as_event result ≡ event_of users roles kind user low }
{
    let is_user = u32::from(user) < users;
    let is_declared = is_user & (u32::from(low) < roles);
    match kind {
        ACTION if is_user => Some(Event::Action { user, action: low }),
        GRANT if is_declared => Some(Event::Grant { user, role: low }),
        REVOKE if is_declared => Some(Event::Revoke { user, role: low }),
        CLOSE if (user == 0) & (low == 0) => Some(Event::Close),
        _ => None,
    }
}

// Whether a workspace of this length is too short for the word; one of a close's kind asks for none.
pub(crate) fn is_short(word: u32, length: usize) -> bool
    ensures { result ≡ is_short word length }
{
    (word >> 24 != CLOSE) & (length < 8192)
}

// Reads an event's word: nothing if it is out of layout or names a user or role that is not declared.
pub(crate) fn read_event(users: u32, roles: u32, word: u32) -> Option<Event>
    ensures { as_event result ≡ read_event users roles word }
{
    if (word >> 16) & 255 != 0 {
        return None;
    }
    event_of(
        users,
        roles,
        word >> 24,
        ((word >> 8) & 255) as u8,
        (word & 255) as u8,
    )
}
