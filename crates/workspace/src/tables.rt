// The table of sets, entered action by action.
ghost use Rattle.std.specs.Prelude.{◌+◌, ◌≤◌, ◌<◌, ◌^◌, length};
ghost use Rattle.workspace.specs.Private.{Next, StoredOf, EmptyEntry, Entered, Added, AddedAll, Written, RowsStand, TriesEach};

use super::entry::{Entry, Stored};
use super::row::Judge;
use super::taken::Taken;
use super::trials::try_each;
use super::twins::alike_of;
use rows::{possible_in, satisfied_in, turned, twin_of};
use soda::Action;

// What is kept of the row of the set s: what stands for a twin that is entered before it, or else what its parts give.
fn stored_of(judge: &Judge<'_>, sets: &[Entry], met: u32, s: usize, t: usize, twin: usize) -> Stored
    requires { (s < 4096) × (s < length sets.now) × Next s t }
    ensures { StoredOf judge.now.masks judge.now.operators.now sets.now met s twin result }
{
    if twin < s {
        return sets[twin].row;
    }
    let row = judge.row_of(sets, met, s, t);
    Stored {
        left: turned(row.bits),
        right: row.right,
    }
}

// Enters the set s into the table, with its users, the unit terms that all its actions met, and a twin.
fn enter(
    judge: &Judge<'_>,
    s: usize,
    t: usize,
    twin: usize,
    users: u16,
    met: u32,
    sets: &mut [Entry],
)
    requires { (s < 4096) × (twin ≤ s) × Next s t × (s < length sets.old) }
    ensures { Entered judge.now.masks judge.now.operators.now s users met twin sets.old sets.new }
{
    let row = stored_of(judge, sets, met, s, t, twin);
    sets[s] = Entry {
        row,
        met,
        users,
        twin: twin as u16,
    };
}

// Enters the sets whose last action is this one: each is a set of the actions before it with it.
pub(crate) fn add(judge: &Judge<'_>, before: &[Action], action: Action, sets: &mut [Entry])
    requires { (length before.now < 12) × (action.user < 16) × (2 ^ (length before.now + 1) ≤ length sets.old) }
    ensures { Added judge.now.masks judge.now.operators.now before.now action sets.old sets.new }
{
    let alike = alike_of(before, action);
    let user: u16 = 1 << action.user;
    let top: usize = 1 << before.len();
    for t in 0..top {
        let part = sets[t];
        let twin = twin_of(alike, top, t, part.twin);
        enter(
            judge,
            top + t,
            t,
            twin,
            part.users | user,
            part.met & action.met,
            sets,
        );
    }
}

// The empty set. It has no user, and no action that did not meet some unit term.
fn empty_set(judge: &Judge<'_>, sets: &[Entry]) -> Entry
    requires { 0 < length sets.now }
    ensures { EmptyEntry judge.now.masks judge.now.operators.now result }
{
    let row = judge.row_of(sets, 0xffff_ffff, 0, 0);
    Entry {
        row: Stored {
            left: turned(row.bits),
            right: row.right,
        },
        met: 0xffff_ffff,
        users: 0,
        twin: 0,
    }
}

// Enters all sets of the taken actions, action by action.
fn add_all(judge: &Judge<'_>, taken: &Taken<'_>, sets: &mut [Entry])
    requires { 2 ^ length taken.now.actions.now ≤ length sets.old }
    ensures { AddedAll judge.now.masks judge.now.operators.now taken.now.actions.now (2 ^ length taken.now.actions.now) sets.new }
{
    sets[0] = empty_set(judge, sets);
    let actions = taken.actions;
    for (j, &action) in actions.iter().enumerate() {
        add(judge, &actions[..j], action, sets);
    }
}

// Writes the rows of the sets below n to the workspace.
fn write_rows(sets: &[Entry], n: usize, workspace: &mut [u32])
    requires { (n ≤ 4096) × (n ≤ length sets.now) × (8192 ≤ length workspace.old) }
    ensures { Written n sets.now workspace.old workspace.new }
{
    for x in 0..n {
        let left = sets[x].row.left;
        workspace[x] = satisfied_in(left);
        workspace[4096 + x] = possible_in(left);
    }
}

// Enters all sets of the taken actions, writes their rows, and tries users in place of the last action.
pub(crate) fn fill_tables(
    judge: &Judge<'_>,
    taken: &Taken<'_>,
    sets: &mut [Entry],
    workspace: &mut [u32],
) -> u16
    requires { (2 ^ length taken.now.actions.now ≤ length sets.old) × (8192 ≤ length workspace.old) }
    ensures { RowsStand judge.now.masks judge.now.operators.now taken.now.actions.now (2 ^ length taken.now.actions.now) workspace.old workspace.new
        × TriesEach judge.now.masks judge.now.operators.now taken.now.actions.now taken.now.met.now result }
{
    add_all(judge, taken, sets);
    write_rows(sets, 1 << taken.actions.len(), workspace);
    try_each(judge, taken, sets)
}
