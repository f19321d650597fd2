// The answer of each call, told as C's struct.
ghost use Rattle.std.specs.Prelude.{◌≡◌};
ghost use Rattle.volume.specs.Answers as volumes;
ghost use Rattle.join.specs.Answers.{said_joined};
ghost use Rattle.plan.specs.Answers as plans;
ghost use Rattle.matcher.specs.Answers.{said_tested};
ghost use Rattle.search.specs.Answers.{said_listed};
ghost use Rattle.enumeration.specs.Answers.{said_matched};
ghost use Rattle.line.specs.Answers as lines;
ghost use Rattle.printer.specs.Answers as printed;
ghost use Rattle.lihambozy.specs.Flat.{flat_sizes, flat_list, flat_volume, flat_join, flat_plan};
ghost use Rattle.lihambozy.specs.Flat.{flat_test, flat_listing, flat_matches, flat_words, flat_bytes};

use super::answers::{
    CheckPlanAnswer, CheckVolumeAnswer, JoinVolumesAnswer, LineToPlanAnswer, ListAnswer,
    ListMatchesAnswer, PlanToLineAnswer, ReadListAnswer, TestPositionsAnswer, WriteVolumeAnswer,
};
use super::refused::Refused;
use enumeration::{MatchError, Matches};
use join::JoinError;
use plan::MOST_PATTERN_VARS;
use search::{ListError, Listing, TestError};
use volume::{Posting, ReadError, WriteError};

impl From<Result<volume::Sizes, volume::Refusal>> for CheckVolumeAnswer {
    ghost from_gives = { λ checked answer. answer ≡ flat_sizes (volumes.said_checked checked) };

    fn from(checked: Result<volume::Sizes, volume::Refusal>) -> CheckVolumeAnswer {
        match checked {
            Ok(volume::Sizes { lists, postings }) => CheckVolumeAnswer {
                refusal: 0,
                at: 0,
                lists,
                postings,
            },
            Err(why) => {
                let Refused { number, at } = why.into();
                CheckVolumeAnswer {
                    refusal: number,
                    at,
                    lists: 0,
                    postings: 0,
                }
            }
        }
    }
}

impl From<Result<u32, ReadError>> for ReadListAnswer {
    ghost from_gives = { λ read answer. answer ≡ flat_list (volumes.said_read read) };

    fn from(read: Result<u32, ReadError>) -> ReadListAnswer {
        match read {
            Ok(count) => ReadListAnswer {
                refusal: 0,
                at: 0,
                count,
            },
            Err(why) => {
                let Refused { number, at } = why.into();
                ReadListAnswer {
                    refusal: number,
                    at,
                    count: 0,
                }
            }
        }
    }
}

impl From<Result<u32, WriteError>> for WriteVolumeAnswer {
    ghost from_gives = { λ written answer. answer ≡ flat_volume (volumes.said_written written) };

    fn from(written: Result<u32, WriteError>) -> WriteVolumeAnswer {
        match written {
            Ok(blocks) => WriteVolumeAnswer {
                refusal: 0,
                at: 0,
                blocks,
            },
            Err(why) => {
                let Refused { number, at } = why.into();
                WriteVolumeAnswer {
                    refusal: number,
                    at,
                    blocks: 0,
                }
            }
        }
    }
}

impl From<Result<u32, JoinError>> for JoinVolumesAnswer {
    ghost from_gives = { λ joined answer. answer ≡ flat_join (said_joined joined) };

    fn from(joined: Result<u32, JoinError>) -> JoinVolumesAnswer {
        match joined {
            Ok(blocks) => JoinVolumesAnswer {
                refusal: 0,
                at: 0,
                volume: 0,
                blocks,
            },
            Err(why) => {
                let volume = match why {
                    JoinError::First(_) => 1,
                    JoinError::Second(_) => 2,
                    _ => 0,
                };
                let Refused { number, at } = why.into();
                JoinVolumesAnswer {
                    refusal: number,
                    at,
                    volume,
                    blocks: 0,
                }
            }
        }
    }
}

impl From<Result<plan::Sizes, plan::Refusal>> for CheckPlanAnswer {
    ghost from_gives = { λ checked answer. answer ≡ flat_plan (plans.said_checked checked) };

    fn from(checked: Result<plan::Sizes, plan::Refusal>) -> CheckPlanAnswer {
        match checked {
            Ok(plan::Sizes { patterns, vars }) => CheckPlanAnswer {
                refusal: 0,
                at: 0,
                patterns,
                vars,
            },
            Err(why) => {
                let Refused { number, at } = why.into();
                CheckPlanAnswer {
                    refusal: number,
                    at,
                    patterns: 0,
                    vars: 0,
                }
            }
        }
    }
}

impl From<Result<bool, TestError>> for TestPositionsAnswer {
    ghost from_gives = { λ tested answer. answer ≡ flat_test (said_tested tested) };

    fn from(tested: Result<bool, TestError>) -> TestPositionsAnswer {
        match tested {
            Ok(yes) => TestPositionsAnswer {
                refusal: 0,
                at: 0,
                passes: u32::from(yes),
            },
            Err(why) => {
                let Refused { number, at } = why.into();
                TestPositionsAnswer {
                    refusal: number,
                    at,
                    passes: 0,
                }
            }
        }
    }
}

impl From<Result<Listing, ListError>> for ListAnswer {
    ghost from_gives = { λ listed answer. answer ≡ flat_listing (said_listed listed) };

    fn from(listed: Result<Listing, ListError>) -> ListAnswer {
        match listed {
            Ok(Listing { rows, tally, next }) => ListAnswer {
                refusal: 0,
                at: 0,
                rows,
                tally,
                next: next.unwrap_or(Posting::DOCS),
            },
            Err(why) => {
                let Refused { number, at } = why.into();
                ListAnswer {
                    refusal: number,
                    at,
                    rows: 0,
                    tally: 0,
                    next: 0,
                }
            }
        }
    }
}

impl From<Result<Matches, MatchError>> for ListMatchesAnswer {
    ghost from_gives = { λ matched answer. answer ≡ flat_matches (said_matched matched) };

    fn from(matched: Result<Matches, MatchError>) -> ListMatchesAnswer {
        match matched {
            Ok(
                Matches {
                    count: written,
                    next,
                },
            ) => ListMatchesAnswer {
                refusal: 0,
                at: 0,
                count: written,
                more: u32::from(next.is_some()),
                next: next.unwrap_or([0; MOST_PATTERN_VARS]),
            },
            Err(why) => {
                let Refused { number, at } = why.into();
                ListMatchesAnswer {
                    refusal: number,
                    at,
                    count: 0,
                    more: 0,
                    next: [0; MOST_PATTERN_VARS],
                }
            }
        }
    }
}

impl From<Result<u32, line::ReadError>> for LineToPlanAnswer {
    ghost from_gives = { λ read answer. answer ≡ flat_words (lines.said_read read) };

    fn from(read: Result<u32, line::ReadError>) -> LineToPlanAnswer {
        match read {
            Ok(words) => LineToPlanAnswer {
                refusal: 0,
                at: 0,
                words,
            },
            Err(why) => {
                let Refused { number, at } = why.into();
                LineToPlanAnswer {
                    refusal: number,
                    at,
                    words: 0,
                }
            }
        }
    }
}

impl From<Result<u32, printer::WriteError>> for PlanToLineAnswer {
    ghost from_gives = { λ written answer. answer ≡ flat_bytes (printed.said_written written) };

    fn from(written: Result<u32, printer::WriteError>) -> PlanToLineAnswer {
        match written {
            Ok(bytes) => PlanToLineAnswer {
                refusal: 0,
                at: 0,
                bytes,
            },
            Err(why) => {
                let Refused { number, at } = why.into();
                PlanToLineAnswer {
                    refusal: number,
                    at,
                    bytes: 0,
                }
            }
        }
    }
}
