// Users tried one after the other in place of the last action. The sets of the other actions stand in the table once for all of them.
ghost use Rattle.std.specs.Prelude.{◌≡◌, ◌+◌, ◌-◌, ◌≤◌, ◌<◌, ◌^◌, length};
ghost use Rattle.soda.specs.Bits.{bit};
ghost use Rattle.rows.specs.Rows.{possible_in};
ghost use Rattle.workspace.specs.Private.{left_at, AddedAll, Like, Judges, Tries, Marked, TriesEach};

use super::entry::Entry;
use super::row::Judge;
use super::tables::add;
use super::taken::Taken;
use rows::possible_in;
use soda::Action;

// Whether the first n actions are possible, by the table.
fn is_possible(sets: &[Entry], n: usize) -> bool
    requires { (n ≤ 12) × (2 ^ n ≤ length sets.now) }
    ensures { result ≡ bit 0 (possible_in (left_at sets.now (2 ^ n - 1))) }
{
    let all: usize = (1 << n) - 1;
    possible_in(sets[all].row.left) & 1 == 1
}

// Whether user u is in a set of users.
fn has_user(users: u16, u: usize) -> bool
    requires { u < 16 }
    ensures { result ≡ bit u users }
{
    (users >> u) & 1 == 1
}

// A user above u who meets the same, where neither has acted; else u.
fn like_of(met: &[u32], acted: u16, u: usize) -> usize
    requires { (u < length met.now) × (length met.now ≤ 16) }
    ensures { Like met.now acted u result }
{
    if has_user(acted, u) {
        return u;
    }
    for v in u + 1..met.len() {
        if met[v] == met[u] && !has_user(acted, v) {
            return v;
        }
    }
    u
}

// Whether the actions before are possible with this one.
fn try_action(judge: &Judge<'_>, before: &[Action], action: Action, sets: &mut [Entry]) -> bool
    requires { (length before.now < 12) × (action.user < 16) × (2 ^ (length before.now + 1) ≤ length sets.old) }
    ensures { Tries judge.now.masks judge.now.operators.now before.now action sets.old sets.new result }
{
    add(judge, before, action, sets);
    is_possible(sets, before.len() + 1)
}

// Whether the actions before are possible with one more by user u, where it is known of the users above u: of those who have not acted
// and meet the same, one trial tells for all.
fn judge_user(
    judge: &Judge<'_>,
    before: &[Action],
    met: &[u32],
    acted: u16,
    tried: u16,
    u: usize,
    sets: &mut [Entry],
) -> bool
    requires { (length before.now < 12) × (u < length met.now) × (length met.now ≤ 16) × (2 ^ (length before.now + 1) ≤ length sets.old) }
    ensures { Judges judge.now.masks judge.now.operators.now before.now met.now acted tried u sets.old sets.new result }
{
    let like = like_of(met, acted, u);
    if like != u {
        return has_user(tried, like);
    }
    try_action(judge, before, Action::new(u as u8, met[u]), sets)
}

// A set of users, with user u if so.
fn marked(users: u16, u: usize, possible: bool) -> u16
    requires { u < 16 }
    ensures { Marked users u possible result }
{
    if possible { users | (1 << u) } else { users }
}

// Which users can act in place of the last action, which is by the last of them and stands in the table: bit u for user u.
pub(crate) fn try_each(judge: &Judge<'_>, taken: &Taken<'_>, sets: &mut [Entry]) -> u16
    requires { (2 ^ length taken.now.actions.now ≤ length sets.old)
        × AddedAll judge.now.masks judge.now.operators.now taken.now.actions.now (2 ^ length taken.now.actions.now) sets.old }
    ensures { TriesEach judge.now.masks judge.now.operators.now taken.now.actions.now taken.now.met.now result }
{
    let actions = taken.actions;
    let met = taken.met;
    if actions.is_empty() || met.is_empty() {
        return 0;
    }
    let j = actions.len() - 1;
    let before = &actions[..j];
    let all: usize = (1 << j) - 1;
    let acted = sets[all].users;
    let last = met.len() - 1;
    let mut tried = marked(0, last, is_possible(sets, j + 1));
    for u in (0..last).rev() {
        let possible = judge_user(judge, before, met, acted, tried, u, sets);
        tried = marked(tried, u, possible);
    }
    tried
}
