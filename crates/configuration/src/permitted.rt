// The users who may act as far as permissions go.
ghost use Rattle.std.specs.Prelude.{◌≡◌, ◌<◌};
ghost use Rattle.configuration.specs.Permitted.{with_candidate, is_permitted, permitted_users};

use super::lists::with_bit;
use super::{Candidates, Configuration};

impl Candidates {
    // Nobody.
    pub const NONE: Self = Candidates {
        users: 0,
        behind: 0,
    };

    // With a user behind the others.
    fn with(self, user: u8) -> Self
        requires { user < 16 }
        ensures { result ≡ with_candidate self user }
    {
        Candidates {
            users: with_bit(self.users, user),
            behind: user + 1,
        }
    }
}

impl Configuration {
    // Whether a user is declared, and holds a role that gives the action or everyone may act.
    fn permits(self, action: u8, everyone: bool, user: u8) -> bool
        ensures { result ≡ is_permitted self action everyone user }
    {
        u32::from(user) < self.users
            && (everyone || workflow::authorized(self.permissions, self.held(user), action))
    }

    // The users who are so.
    pub fn permitted(self, action: u8, everyone: bool) -> Candidates
        ensures { result ≡ permitted_users self action everyone }
    {
        let mut found = Candidates::NONE;
        for user in 0..16 {
            if self.permits(action, everyone, user) {
                found = found.with(user);
            }
        }
        found
    }
}
