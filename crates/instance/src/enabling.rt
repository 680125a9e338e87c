// The users for whose action permissions and workflow have no refusal.
ghost use Rattle.std.specs.Prelude.{◌≡◌};
ghost use Rattle.instance.specs.Candidates.{candidates_of};

use super::Instance;
use configuration::{Candidates, Configuration};

impl Instance {
    // The declared users whose action gets neither 16 nor 17.
    pub fn candidates(self, configuration: Configuration, action: u8) -> Candidates
        ensures { result ≡ candidates_of configuration self action }
    {
        match self.successor(action) {
            Some(_) => configuration.permitted(action, !self.workflow.is_given()),
            None => Candidates::NONE,
        }
    }
}
