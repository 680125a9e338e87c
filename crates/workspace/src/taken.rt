// The actions that the table is filled for, and who is tried.
ghost use Rattle.std.specs.Prelude.{◌≡◌, true, ◌≤◌, ltb, length};
ghost use Rattle.soda.specs.Lists.{all};

use soda::Action;

// Taken actions, and the unit terms that each user meets who is tried in place of the last of them: none, where nobody is tried.
#[derive(Clone, Copy)]
pub(crate) struct Taken<'a> {
    pub actions: &'a [Action],
    pub met: &'a [u32],
    ghost few: { length actions.now ≤ 12 },
    ghost known: { all (λ a. ltb a.user 16) actions.now ≡ true },
    ghost users: { length met.now ≤ 16 },
}
