// The configuration: as an opening gives it, a role granted or revoked, and its part of number 15.
ghost use Rattle.std.specs.Prelude.{◌≡◌, cond, ltb};
ghost use Rattle.units.specs.Units.{survey_of, as_survey};
ghost use Rattle.configuration.specs.Configurations.{held, given_configuration, as_configured, with_permissions, with_row, with_grant, without_grant, configuration_ok, gives_nothing};

use super::Configuration;
use super::lists::{count_ok, counts_ok, rows_ok, with_bit, without_bit};
use policy::Refusal;
use soda::all_are;
use units::Survey;

impl Configuration {
    // All zero.
    pub const BLANK: Self = Configuration {
        permissions: [0; 16],
        user_roles: [0; 16],
        users: 0,
        roles: 0,
    };

    // The counts and the rows of an opening: the configuration, without permissions, or refusal 5 or 6.
    pub fn open(users: u8, roles: u8, rows: &[u16]) -> Result<Configuration, Refusal>
        ensures { as_configured result ≡ given_configuration users roles rows.now }
    {
        let users = u32::from(users);
        let roles = u32::from(roles);
        if !counts_ok(users, roles) {
            return Err(Refusal::Counts);
        }
        if !rows_ok(users, roles, rows) {
            return Err(Refusal::Rows);
        }
        let mut user_roles = [0u16; 16];
        user_roles[..rows.len()].copy_from_slice(rows);
        Ok(Configuration {
            permissions: [0; 16],
            user_roles,
            users,
            roles,
        })
    }

    // With these permissions.
    pub fn with_permissions(self, permissions: [u64; 16]) -> Self
        ensures { result ≡ with_permissions self permissions }
    {
        let mut next = self;
        next.permissions = permissions;
        next
    }

    // The roles that a user holds; none for a user without a row.
    pub fn held(self, user: u8) -> u16
        ensures { result ≡ held self user }
    {
        self.user_roles.get(usize::from(user)).copied().unwrap_or(0)
    }

    // With another row for a user; a user without a row alters nothing.
    fn with_row(self, user: u8, row: u16) -> Self
        ensures { result ≡ with_row self user row }
    {
        let mut next = self;
        if user < 16 {
            next.user_roles[user as usize] = row;
        }
        next
    }

    // The user holds the role; a role that no row has a bit for alters nothing.
    pub fn with_grant(self, user: u8, role: u8) -> Self
        ensures { result ≡ cond (ltb role 16) (with_grant self user role) self }
    {
        if 16 <= role {
            return self;
        }
        self.with_row(user, with_bit(self.held(user), role))
    }

    // The user does not hold the role; else the same.
    pub fn without_grant(self, user: u8, role: u8) -> Self
        ensures { result ≡ cond (ltb role 16) (without_grant self user role) self }
    {
        if 16 <= role {
            return self;
        }
        self.with_row(user, without_bit(self.held(user), role))
    }

    // Whether the counts and the rows would be accepted, and unused rows are zero. The counts are tested one after the other: a
    // compiler that tests both at once does not see that the users are few, and goes over the rows one by one.
    pub fn is_well_formed(self) -> bool
        ensures { result ≡ configuration_ok self }
    {
        if !count_ok(self.users) {
            return false;
        }
        if !count_ok(self.roles) {
            return false;
        }
        let (rows, unused_rows) = self.user_roles.split_at(self.users as usize);
        let (_, unused_permissions) = self.permissions.split_at(self.roles as usize);
        rows_ok(self.users, self.roles, rows)
            && all_are(unused_rows, 0)
            && all_are(unused_permissions, 0)
    }

    // Whether no role gives an action.
    pub fn gives_nothing(self) -> bool
        ensures { result ≡ gives_nothing self }
    {
        all_are(&self.permissions, 0)
    }

    // What a user meets of a policy that is accepted with these counts.
    pub fn survey(self, words: &[u32], user: u8) -> Option<Survey>
        ensures { as_survey result ≡ survey_of self.users self.roles words.now user (held self user) }
    {
        if !counts_ok(self.users, self.roles) {
            return None;
        }
        units::survey_of(
            self.users as u8,
            self.roles as u8,
            words,
            user,
            self.held(user),
        )
    }
}
