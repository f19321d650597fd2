// Why two volumes are not joined. `specs/Answers.antt` gives document 02's number and values for
// each case.
use volume::Refusal;

#[derive(Clone, Copy, Debug, PartialEq, Eq)]
pub enum JoinError {
    // The first volume is refused.
    First(Refusal),
    // The second volume is refused.
    Second(Refusal),
    // The numbers of lists differ.
    ListCounts,
    // A raised document passes 65,535, or is not above all documents of the first volume.
    Documents,
    // The joined volume would have over 1,032,192 stream words.
    TooLarge,
    // The output is shorter than the joined volume.
    Short,
}
