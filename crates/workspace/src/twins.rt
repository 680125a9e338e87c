// The actions alike another one, which give sets their twins. Actions are alike if they are equal: by one user, who met the same unit
// terms.
ghost use Rattle.std.specs.Prelude.{◌∷◌, ◌++◌, [], ◌<◌, length};
ghost use Rattle.workspace.specs.Private.{AlikePlaces};

use soda::Action;

// The places of the actions before this one that are alike it.
pub(crate) fn alike_of(before: &[Action], action: Action) -> usize
    requires { length before.now < 12 }
    ensures { AlikePlaces (before.now ++ (action ∷ [])) (length before.now) result }
{
    let mut alike: usize = 0;
    for (k, &other) in before.iter().enumerate() {
        if other == action {
            alike |= 1 << k;
        }
    }
    alike
}
