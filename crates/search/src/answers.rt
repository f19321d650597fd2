// What the calls answer. `specs/Answers.antt` gives document 01's number and values for each case.
ghost use Rattle.std.specs.Prelude.{◌≡◌};
ghost use Rattle.search.specs.declared.answers.ListError.TheVariants.{Refused};

use plan::Refusal;

// What a listing call wrote: the rows, the tally, and the least true document that is not written
// (MORE); none where each one is written (DONE).
#[derive(Clone, Copy, Debug, PartialEq, Eq)]
pub struct Listing {
    pub rows: u32,
    pub tally: u32,
    pub next: Option<u32>,
}

// Why a listing call wrote nothing.
#[derive(Clone, Copy, Debug, PartialEq, Eq)]
pub enum ListError {
    // The volume or the plan is refused.
    Refused(Refusal),
    // The start document is over 65,535.
    Start,
    // The buffer is shorter than a row.
    Short,
}

impl From<Refusal> for ListError {
    ghost from_gives = { λ why error. error ≡ Refused why };

    fn from(why: Refusal) -> ListError {
        ListError::Refused(why)
    }
}
