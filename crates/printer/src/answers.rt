// Why a plan is not written as a line. `specs/Answers.antt` gives the number and the values of each
// case.
ghost use Rattle.std.specs.Prelude.{◌≡◌};
ghost use Rattle.printer.specs.declared.answers.WriteError.TheVariants as writeError;

use plan::Refusal;

#[derive(Clone, Copy, Debug, PartialEq, Eq)]
pub enum WriteError {
    // The volume or the plan is refused.
    Refused(Refusal),
    // The buffer is shorter than the line.
    Short,
}

impl From<Refusal> for WriteError {
    ghost from_gives = { λ why e. e ≡ writeError.Refused why };

    fn from(why: Refusal) -> WriteError {
        WriteError::Refused(why)
    }
}
