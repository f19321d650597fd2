// What the calls answer. `specs/Answers.antt` gives document 01's number and values for each case.
ghost use Rattle.std.specs.Prelude.{◌≡◌};
ghost use Rattle.volume.specs.declared.answers.ReadError.TheVariants.{Refused};

// What an accepted volume gives: the number of its lists and of their postings.
#[derive(Clone, Copy, Debug, PartialEq, Eq)]
pub struct Sizes {
    pub lists: u32,
    pub postings: u32,
}

// Why a volume is refused.
#[derive(Clone, Copy, Debug, PartialEq, Eq)]
pub enum Refusal {
    // The length is 0, no multiple of 512, or over 8,192 blocks.
    Length,
    // The number of this block is wrong.
    Number(u32),
    // The checksum of this block is wrong.
    Checksum(u32),
    // The version (01: edition) is not 1.
    Version,
    // The number of lists is outside 1 to 1,024.
    ListCount,
    // The number of blocks is not the least that holds the lists.
    Extent,
    // This list does not rise.
    Order(u32),
    // This stream word, behind the lists, is not 0.
    Padding(u32),
}

// Why a list is not read.
#[derive(Clone, Copy, Debug, PartialEq, Eq)]
pub enum ReadError {
    // The volume is refused.
    Refused(Refusal),
    // The volume has no list of this number.
    NoList,
    // The buffer is shorter than the list.
    Short,
}

impl From<Refusal> for ReadError {
    ghost from_gives = { λ why error. error ≡ Refused why };

    fn from(why: Refusal) -> ReadError {
        ReadError::Refused(why)
    }
}

// Why a volume is not written.
#[derive(Clone, Copy, Debug, PartialEq, Eq)]
pub enum WriteError {
    // The number of counts is outside 1 to 1,024.
    ListCount,
    // The counts do not sum to the number of postings.
    CountSum,
    // This list does not rise.
    Order(u32),
    // The volume would have over 1,032,192 stream words.
    TooLarge,
    // The output is shorter than the volume.
    Short,
}
