// The number of each refusal, and its place.
ghost use Rattle.std.specs.Prelude.{◌≡◌, ℕ, Err};
ghost use Rattle.volume.specs.Answers as volumes;
ghost use Rattle.plan.specs.Answers as plans;
ghost use Rattle.lihambozy.specs.Flat.{IsRefusal};
ghost use Rattle.join.specs.Answers.{said_joined};
ghost use Rattle.matcher.specs.Answers.{said_tested};
ghost use Rattle.search.specs.Answers.{said_listed};
ghost use Rattle.enumeration.specs.Answers.{said_matched};
ghost use Rattle.line.specs.Answers as lines;
ghost use Rattle.printer.specs.Answers as printed;

use enumeration::MatchError;
use join::JoinError;
use search::{ListError, TestError};
use volume::{Code, ReadError, WriteError};

// A refusal as C is told it: its number, and the place that it names, or 0.
#[derive(Clone, Copy, Debug, PartialEq, Eq)]
pub struct Refused {
    pub number: u32,
    pub at: u32,
}

impl Refused {
    // A refusal that names no place.
    fn nowhere(number: u32) -> Refused
        ensures { result ≡ record { number = number; at = 0 } }
    {
        Refused { number, at: 0 }
    }
}

impl From<volume::Refusal> for Refused {
    ghost from_gives = { λ why code. IsRefusal code (volumes.said_refusal {A = ℕ} why) };

    fn from(why: volume::Refusal) -> Refused {
        let Code { number, at } = volume::code_of(why);
        Refused { number, at }
    }
}

impl From<ReadError> for Refused {
    ghost from_gives = { λ why code. IsRefusal code (volumes.said_read (Err why)) };

    fn from(why: ReadError) -> Refused {
        match why {
            ReadError::Refused(why) => why.into(),
            ReadError::NoList => Refused::nowhere(17),
            ReadError::Short => Refused::nowhere(16),
        }
    }
}

impl From<WriteError> for Refused {
    ghost from_gives = { λ why code. IsRefusal code (volumes.said_written (Err why)) };

    fn from(why: WriteError) -> Refused {
        match why {
            WriteError::ListCount => Refused::nowhere(5),
            WriteError::CountSum => Refused::nowhere(18),
            WriteError::Order(list) => Refused {
                number: 7,
                at: list,
            },
            WriteError::TooLarge => Refused::nowhere(19),
            WriteError::Short => Refused::nowhere(20),
        }
    }
}

impl From<JoinError> for Refused {
    ghost from_gives = { λ why code. IsRefusal code (said_joined (Err why)).said };

    fn from(why: JoinError) -> Refused {
        match why {
            JoinError::First(why) => why.into(),
            JoinError::Second(why) => why.into(),
            JoinError::ListCounts => Refused::nowhere(24),
            JoinError::Documents => Refused::nowhere(25),
            JoinError::TooLarge => Refused::nowhere(19),
            JoinError::Short => Refused::nowhere(20),
        }
    }
}

impl From<plan::Refusal> for Refused {
    ghost from_gives = { λ why code. IsRefusal code (plans.said_refusal {A = ℕ} why) };

    fn from(why: plan::Refusal) -> Refused {
        let Code { number, at } = plan::code_of(why);
        Refused { number, at }
    }
}

impl From<TestError> for Refused {
    ghost from_gives = { λ why code. IsRefusal code (said_tested (Err why)) };

    fn from(why: TestError) -> Refused {
        match why {
            TestError::Refused(why) => why.into(),
            TestError::OutOfRange => Refused::nowhere(17),
        }
    }
}

impl From<ListError> for Refused {
    ghost from_gives = { λ why code. IsRefusal code (said_listed (Err why)) };

    fn from(why: ListError) -> Refused {
        match why {
            ListError::Refused(why) => why.into(),
            ListError::Start => Refused::nowhere(15),
            ListError::Short => Refused::nowhere(16),
        }
    }
}

impl From<MatchError> for Refused {
    ghost from_gives = { λ why code. IsRefusal code (said_matched (Err why)) };

    fn from(why: MatchError) -> Refused {
        match why {
            MatchError::Refused(why) => why.into(),
            MatchError::OutOfRange => Refused::nowhere(17),
            MatchError::Short => Refused::nowhere(16),
        }
    }
}

impl From<line::ReadError> for Refused {
    ghost from_gives = { λ why code. IsRefusal code (lines.said_read (Err why)) };

    fn from(why: line::ReadError) -> Refused {
        match why {
            line::ReadError::Broken(at) => Refused { number: 21, at },
            line::ReadError::Deep(at) => Refused { number: 22, at },
            line::ReadError::TooMany => Refused::nowhere(23),
            line::ReadError::Short => Refused::nowhere(16),
        }
    }
}

impl From<printer::WriteError> for Refused {
    ghost from_gives = { λ why code. IsRefusal code (printed.said_written (Err why)) };

    fn from(why: printer::WriteError) -> Refused {
        match why {
            printer::WriteError::Refused(why) => why.into(),
            printer::WriteError::Short => Refused::nowhere(16),
        }
    }
}
