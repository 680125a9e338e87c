// Sets of numbers below 16, bit i for i: the roles of a user, and users; and tests of rows and of other places.
ghost use Rattle.std.specs.Prelude.{◌≡◌, ◌&&◌, ◌≤◌, ◌<◌};
ghost use Rattle.soda.specs.Bits.{set_bit, clear_bit};
ghost use Rattle.soda.specs.Lists.{all};
ghost use Rattle.policy.specs.Reading.{count_ok};
ghost use Rattle.configuration.specs.Configurations.{rows_ok};

// The set with this number.
pub(crate) fn with_bit(set: u16, i: u8) -> u16
    requires { i < 16 }
    ensures { result ≡ set_bit i set }
{
    set | (1 << i)
}

// The set without it.
pub(crate) fn without_bit(set: u16, i: u8) -> u16
    requires { i < 16 }
    ensures { result ≡ clear_bit i set }
{
    set & !(1 << i)
}

// Whether users or roles may be so many. Policies have the same test of bytes; the counts of a configuration are words, by the layout that the
// C interface shares, and any number may come in them.
pub(crate) fn count_ok(n: u32) -> bool
    ensures { result ≡ count_ok n }
{
    (1..=16).contains(&n)
}

// Whether users and roles may be so many.
pub(crate) fn counts_ok(users: u32, roles: u32) -> bool
    ensures { result ≡ (count_ok users && count_ok roles) }
{
    count_ok(users) & count_ok(roles)
}

// Whether there is one row a user, and each names declared roles only.
pub(crate) fn rows_ok(users: u32, roles: u32, rows: &[u16]) -> bool
    requires { roles ≤ 16 }
    ensures { result ≡ rows_ok users roles rows.now }
{
    let limit: u32 = 1 << roles;
    rows.len() == users as usize && rows.iter().all(|&row| (row as u32) < limit)
}
