// What the call answers. `specs/Answers.antt` gives document 01's number and values for each case.
ghost use Rattle.std.specs.Prelude.{◌≡◌};
ghost use Rattle.enumeration.specs.declared.answers.MatchError.TheVariants as error;

use plan::{MOST_PATTERN_VARS, Refusal};

// The matches of a pattern that are written.
#[derive(Clone, Copy, Debug, PartialEq, Eq)]
pub struct Matches {
    // Their number.
    pub count: u64,
    // MORE: the first match that did not fit, with zeros behind it. DONE: none is left.
    pub next: Option<[u32; MOST_PATTERN_VARS]>,
}

// Why no match is written.
#[derive(Clone, Copy, Debug, PartialEq, Eq)]
pub enum MatchError {
    // The volume or the plan is refused.
    Refused(Refusal),
    // The plan has no pattern of this number, the pattern has not as many variables as positions
    // are given, or the document or a position is over 65,535.
    OutOfRange,
    // The buffer is shorter than a match.
    Short,
}

impl From<Refusal> for MatchError {
    ghost from_gives = { λ why e. e ≡ error.Refused why };

    fn from(why: Refusal) -> MatchError {
        MatchError::Refused(why)
    }
}
