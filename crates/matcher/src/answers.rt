// Why a call is refused. `specs/Answers.antt` gives document 01's number and values for each case.
ghost use Rattle.std.specs.Prelude.{◌≡◌};
ghost use Rattle.matcher.specs.declared.answers.TestError.TheVariants.{Refused};

use plan::Refusal;

// Why positions are not tested.
#[derive(Clone, Copy, Debug, PartialEq, Eq)]
pub enum TestError {
    // The volume or the plan is refused.
    Refused(Refusal),
    // The plan has no pattern of this number, the pattern has another number of variables, or the
    // document or a position is over 65,535.
    OutOfRange,
}

impl From<Refusal> for TestError {
    ghost from_gives = { λ r e. e ≡ Refused r };

    fn from(why: Refusal) -> TestError {
        TestError::Refused(why)
    }
}
