// The table of sets in three sizes, and the workspace cleared and filled by a policy's shape; users are tried in the same table.
ghost use Rattle.std.specs.Prelude.{◌≡◌, ◌-◌, ◌≤◌, ◌^◌, length, take};
ghost use Rattle.workspace.specs.Workspace.{filled};
ghost use Rattle.workspace.specs.Trials.{can_act};
ghost use Rattle.workspace.specs.Private.{Cleared, RowsStand, LastActs, TriesEach, Shaped};

use super::entry::Entry;
use super::masks::masks_of;
use super::row::{Judge, operators};
use super::tables::fill_tables;
use super::taken::Taken;
use shape::Shape;

// Zero in the first 8,192 words.
fn clear(workspace: &mut [u32])
    requires { 8192 ≤ length workspace.old }
    ensures { Cleared 8192 workspace.old workspace.new }
{
    workspace[..8192].fill(0);
}

// With a table of N places, one for every set of the actions. It stays a function of its own, so that the stack has room for a large
// table only while that table is in use.
#[inline(never)]
fn fill_in<const N: usize>(judge: &Judge<'_>, taken: &Taken<'_>, workspace: &mut [u32]) -> u16
    requires { (2 ^ length taken.now.actions.now ≤ N) × (N ≤ 4096) × (8192 ≤ length workspace.old) }
    ensures { RowsStand judge.now.masks judge.now.operators.now taken.now.actions.now (2 ^ length taken.now.actions.now) workspace.old workspace.new
        × TriesEach judge.now.masks judge.now.operators.now taken.now.actions.now taken.now.met.now result }
{
    let mut sets = [Entry::EMPTY; N];
    fill_tables(judge, taken, &mut sets, workspace)
}

// Enters all sets of the actions and tries users, with a table not much larger than they need: zeroing one for twelve actions takes
// longer than judging few.
fn fill_sets(judge: &Judge<'_>, taken: &Taken<'_>, workspace: &mut [u32]) -> u16
    requires { 8192 ≤ length workspace.old }
    ensures { RowsStand judge.now.masks judge.now.operators.now taken.now.actions.now (2 ^ length taken.now.actions.now) workspace.old workspace.new
        × TriesEach judge.now.masks judge.now.operators.now taken.now.actions.now taken.now.met.now result }
{
    if taken.actions.len() <= 4 {
        return fill_in::<16>(judge, taken, workspace);
    }
    if taken.actions.len() <= 8 {
        return fill_in::<256>(judge, taken, workspace);
    }
    fill_in::<4096>(judge, taken, workspace)
}

// Fills the workspace for these taken actions, by the policy's shape, and tries users in place of the last.
pub(crate) fn fill_by(shape: Shape, taken: &Taken<'_>, workspace: &mut [u32]) -> u16
    requires { Shaped shape × (8192 ≤ length workspace.old) }
    ensures { (w : Shaped shape) → (workspace.new ≡ filled w.term taken.now.actions.now workspace.old)
        × (LastActs taken.now.actions.now taken.now.met.now
        → result ≡ can_act w.term (take (length taken.now.actions.now - 1) taken.now.actions.now) taken.now.met.now) }
{
    clear(workspace);
    let masks = masks_of(shape);
    let sides = shape.right;
    let words = shape.words as usize;
    let mut ops = [0u16; 31];
    let count = operators(masks.either, masks.both, &sides[..words], &mut ops);
    let judge = Judge {
        masks,
        operators: &ops[..count],
    };
    fill_sets(&judge, taken, workspace)
}
