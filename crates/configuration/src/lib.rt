// The configuration: who holds which roles, and which roles give which actions.
#![tactic(auto)]

mod configurations;
mod lists;
mod permitted;

// A configuration (document 004, Definition 1): the actions that each role gives, bit a for action a, the roles that each user holds, bit r
// for role r, and the counts. Rows past the roles and past the users are zero. Rows and counts stand side by side here because a monitor's
// words lie in fixed memory in this layout, which the C interface shares.
#[repr(C)]
#[derive(Clone, Copy, Debug, PartialEq, Eq)]
pub struct Configuration {
    pub permissions: [u64; 16],
    pub user_roles: [u16; 16],
    pub users: u32,
    pub roles: u32,
}

// A set of users, bit u for user u, and the place behind the last of them, 0 if there is none.
#[derive(Clone, Copy, Debug, PartialEq, Eq)]
pub struct Candidates {
    pub users: u16,
    pub behind: u8,
}
