// What the calls answer. `specs/Answers.antt` gives document 01's number and values for each case.
ghost use Rattle.std.specs.Prelude.{◌≡◌};
ghost use Rattle.plan.specs.declared.answers.Refusal.TheVariants.{Volume};

use volume::Refusal as VolumeRefusal;

// Why a row is refused.
#[derive(Clone, Copy, Debug, PartialEq, Eq)]
pub enum Fault {
    // Its kind is unknown, a word that it does not use is not 0, c is out of its range, or its
    // numbers do not fit each other.
    Form,
    // It names list 0, or a list that the volume does not have.
    List,
    // It is a ninth variable of a pattern, or it would open a ninth pattern.
    TooMany,
    // It may not stand here, or it names a variable that is not there.
    Order,
}

// Why a volume and a plan are refused.
#[derive(Clone, Copy, Debug, PartialEq, Eq)]
pub enum Refusal {
    // The volume is refused.
    Volume(VolumeRefusal),
    // The length of the plan is 0, no multiple of four words, or over 256 words.
    Length,
    // This row is refused.
    Row(Fault, u32),
    // At the end a pattern is open, or the number of answers is not one.
    Unfinished,
}

impl From<VolumeRefusal> for Refusal {
    ghost from_gives = { λ why refusal. refusal ≡ Volume why };

    fn from(why: VolumeRefusal) -> Refusal {
        Refusal::Volume(why)
    }
}

// What an accepted plan gives: the number of its patterns and of its variables.
#[derive(Clone, Copy, Debug, PartialEq, Eq)]
pub struct Sizes {
    pub patterns: u32,
    pub vars: u32,
}
