// Permissions: for each role the set of the actions that it gives, bit a for action a.
ghost use Rattle.std.specs.Prelude.{◌≡◌, ◌+◌, ◌≤◌, length, cond, Some, None};
ghost use Rattle.soda.specs.Roles.{authorized};
ghost use Rattle.workflow.specs.Permissions.{low_first, permissions_ok, permission_rows};

use super::sets::has;

// Whether a user who holds these roles is authorized to execute an action: one of them gives it. No role gives one above 63.
pub fn authorized(permissions: [u64; 16], held: u16, action: u8) -> bool
    ensures { result ≡ authorized permissions held action }
{
    if 63 < action {
        return false;
    }
    (0..16).any(|role| has(u64::from(held), role) & has(permissions[usize::from(role)], action))
}

// The row at place k, eight bytes, low byte first.
fn row_at(bytes: &[u8], k: usize) -> u64
    requires { k + 8 ≤ length bytes.now }
    ensures { result ≡ low_first 8 bytes.now k }
{
    u64::from_le_bytes([
        bytes[k],
        bytes[k + 1],
        bytes[k + 2],
        bytes[k + 3],
        bytes[k + 4],
        bytes[k + 5],
        bytes[k + 6],
        bytes[k + 7],
    ])
}

// The rows of so many roles, of eight bytes a role, and zeros behind them; none where the length is another or there are more than 16.
pub(crate) fn permission_rows(roles: u8, bytes: &[u8]) -> Option<[u64; 16]>
    ensures { result ≡ cond (permissions_ok roles bytes.now) (Some (permission_rows roles bytes.now)) None }
{
    let count = usize::from(roles);
    if (16 < count) || (bytes.len() != count * 8) {
        return None;
    }
    let mut rows = [0; 16];
    for role in 0..count {
        rows[role] = row_at(bytes, role * 8);
    }
    Some(rows)
}
