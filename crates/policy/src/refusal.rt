// Why a call is refused: document 01's numbers ("Numbers, by who causes them") and those that document 02 adds.
ghost use Rattle.std.specs.Prelude.{◌≡◌};
ghost use Rattle.policy.specs.Faults.{code_number};
ghost use Rattle.policy.specs.Answers.{code_of, place, answer_number};

// Acceptance.
pub const ACCEPTED: u8 = 0;

// A refusal. A policy's fault has its place among the words, counted from 0 (document 02: point at the bad word); no other has one.
#[derive(Clone, Copy, Debug, PartialEq, Eq)]
pub enum Refusal {
    // The policy's author.

    // No word, or more than 31. Its place is the first.
    WordCount,

    // Some word is not in the layout, names a role or user not declared, or is an empty set.
    Word { place: u8 },

    // The words are not exactly one term.
    Term { place: u8 },

    // Not or plus over a term that is no unit term.
    Unit { place: u8 },

    // A text does not begin with `policy: `.
    Opening,

    // What stands behind that is no term, or the text has more than 1,024 bytes.
    Text,

    // The personnel desk.

    // Users or roles not 1 to 16.
    Counts,

    // Role rows not one a user, or a role not declared.
    Rows,

    // Permissions or workflow of a wrong length or with a count out of range, a state not declared, an action above 63, or two transitions
    // with the same state and action; or one of the two without the other.
    Workflow,

    // The clerk who sends events or multisets.

    // Event word out of layout, or user or role not declared; in a multiset, a count above 0 for a user not declared.
    Malformed,

    // Twelve actions taken already; in a multiset, more than twelve in all.
    Full,

    // The actions with this one are not possible.
    NotPossible,

    // The instance is closed.
    Closed,

    // Close, but not satisfied, or the workflow is in no final state.
    NotSatisfied,

    // No role that the user holds gives the action.
    NotAuthorized,

    // The workflow has no transition for the action from its present state.
    NoTransition,

    // The program that calls.

    // Workspace below 8,192 words.
    Workspace,

    // Output shorter than the policy, or than what is to be written.
    Output,

    // Case file malformed.
    Case,

    // Monitor malformed: its policy, counts or role rows would be refused; above twelve actions; a user not declared; a bit at a word
    // that begins no unit term; an unused place, policy word or role row not zero; permissions, workflow or present state malformed, or
    // unused ones not zero.
    Monitor,
}

impl Refusal {
    // The number of a refusal.
    pub fn number(self) -> u8
        ensures { result ≡ code_number (code_of self) }
    {
        match self {
            Refusal::WordCount => 1,
            Refusal::Word { place: _ } => 2,
            Refusal::Term { place: _ } => 3,
            Refusal::Unit { place: _ } => 4,
            Refusal::Counts => 5,
            Refusal::Rows => 6,
            Refusal::Malformed => 7,
            Refusal::Full => 8,
            Refusal::NotPossible => 9,
            Refusal::Closed => 10,
            Refusal::NotSatisfied => 11,
            Refusal::Workspace => 12,
            Refusal::Output => 13,
            Refusal::Case => 14,
            Refusal::Monitor => 15,
            Refusal::NotAuthorized => 16,
            Refusal::NoTransition => 17,
            Refusal::Workflow => 19,
            Refusal::Opening => 20,
            Refusal::Text => 21,
        }
    }

    // The place of a policy's fault.
    pub fn place(self) -> Option<u8>
        ensures { result ≡ place (code_of self) }
    {
        match self {
            Refusal::WordCount => Some(0),
            Refusal::Word { place } => Some(place),
            Refusal::Term { place } => Some(place),
            Refusal::Unit { place } => Some(place),
            _ => None,
        }
    }
}

// The number of what a call answers: 0, or that of its refusal.
pub fn number_of<T: Copy>(answer: Result<T, Refusal>) -> u8
    ensures { result ≡ answer_number answer }
{
    match answer {
        Ok(_) => ACCEPTED,
        Err(refusal) => refusal.number(),
    }
}
