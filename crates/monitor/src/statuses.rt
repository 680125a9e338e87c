// The status: the letter that the instance keeps.
ghost use Rattle.std.specs.Prelude.{◌≡◌};
ghost use Rattle.policy.specs.Answers.{answer_number};
ghost use Rattle.monitor.specs.Statuses.{letter_in, status_of};

use super::Monitor;
use instance::Status;
use policy::Refusal;

impl Monitor {
    // The status: what the letter says, which the last accepted action or close has set.
    pub fn status(self) -> Result<Status, Refusal>
        ensures { record { code = answer_number result; letter = letter_in result } ≡ status_of self }
    {
        self.check(0)?;
        Status::try_from(self.instance.status).or(Err(Refusal::Monitor))
    }
}
