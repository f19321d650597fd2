// Document 01's number and place of each refusal of a volume.
ghost use Rattle.std.specs.Prelude.{◌≡◌};
ghost use Rattle.volume.specs.Answers.{code_of, at_of};

use super::answers::Refusal;

// The number of a refusal, and the place that it names, or 0.
#[derive(Clone, Copy, Debug, PartialEq, Eq)]
pub struct Code {
    pub number: u32,
    pub at: u32,
}

// The code of a refusal of a volume.
pub fn code_of(why: Refusal) -> Code
    ensures number_value { result.number ≡ code_of why }
    ensures at_value { result.at ≡ at_of why }
{
    match why {
        Refusal::Length => Code { number: 1, at: 0 },
        Refusal::Number(block) => Code {
            number: 2,
            at: block,
        },
        Refusal::Checksum(block) => Code {
            number: 3,
            at: block,
        },
        Refusal::Version => Code { number: 4, at: 0 },
        Refusal::ListCount => Code { number: 5, at: 0 },
        Refusal::Extent => Code { number: 6, at: 0 },
        Refusal::Order(list) => Code {
            number: 7,
            at: list,
        },
        Refusal::Padding(word) => Code {
            number: 8,
            at: word,
        },
    }
}
