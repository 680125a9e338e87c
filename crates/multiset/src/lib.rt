// The multiset test (document 01: the bag test): one action for each occurrence of a user, evaluated as taken actions are.
#![tactic(auto)]

ghost use Rattle.std.specs.Prelude.{◌≡◌, map, ◌≤◌, length, take, sum};
ghost use Rattle.soda.specs.Roles.{roles};
ghost use Rattle.instance.specs.Instances.{noted};
ghost use Rattle.monitor.specs.Monitors.{bare};
ghost use Rattle.multiset.specs.MultisetTest.{verdict_code, verdict_letter, total, listed, test_of, test_workspace};
ghost use Rattle.multiset.specs.Private.{Counted};

use monitor::{Monitor, evaluate};
use policy::Refusal;
use soda::{Action, all_are};

// How many actions the users have.
fn total(counts: &[u8]) -> u16
    requires { length counts.now ≤ 16 }
    ensures { result ≡ sum counts.now }
{
    counts.iter().map(|&n| u16::from(n)).sum()
}

// The multiset's actions, the users ascending: of each the unit terms are noted that it meets by the roles in its row.
fn actions_of(words: &[u32], rows: &[u16], counts: [u8; 16]) -> [Action; 12]
    requires { Counted rows.now counts }
    ensures { take (total counts) result ≡ map (λ u. noted words.now u (roles rows.now u)) (listed 0 counts) }
{
    let mut actions = [Action::IDLE; 12];
    let mut taken = 0;
    for (user, &row) in rows.iter().enumerate() {
        let n = counts[user];
        if n != 0 {
            let met = units::met(words, user as u8, row);
            let end = taken + n as usize;
            actions[taken..end].fill(Action::new(user as u8, met));
            taken = end;
        }
    }
    actions
}

// Whether the multiset of users, each as often as its count says, satisfies the policy. The workspace speaks of its actions.
pub fn satisfies(
    users: u8,
    roles: u8,
    words: &[u32],
    rows: &[u16],
    counts: [u8; 16],
    workspace: &mut [u32],
) -> Result<bool, Refusal>
    ensures { (record { code = verdict_code result; letter = verdict_letter result } ≡ test_of (bare users roles words.now rows.now) counts (length workspace.old)) × (workspace.new ≡ test_workspace (bare users roles words.now rows.now) counts workspace.old) }
{
    if workspace.len() < 8192 {
        return Err(Refusal::Workspace);
    }
    Monitor::open(users, roles, words, rows, &[], &[])?;
    let (_, undeclared) = counts.split_at(users as usize);
    if !all_are(undeclared, 0) {
        return Err(Refusal::Malformed);
    }
    let number = total(&counts);
    if 12 < number {
        return Err(Refusal::Full);
    }
    let actions = actions_of(words, rows, counts);
    let evaluation = evaluate(words, &actions[..number as usize], workspace)?;
    Ok(evaluation.satisfied)
}
