// The flat form of each answer: no enum crosses to a host.
ghost use Rattle.std.specs.Prelude.{◌≡◌, Ok};
ghost use Rattle.host.specs.Chosen.{host_chosen};
ghost use Rattle.md_reason_meaning.specs.Numbered.{detector_number};
ghost use Rattle.ratio.specs.Shown.{none_shown};
ghost use Rattle.host.specs.Compact.{host_packed};
ghost use Rattle.host.specs.Host.{host_counted, host_shown, host_counts, host_score, host_verdict, host_ring};
ghost use Rattle.host.specs.Matches.{host_merged};
ghost use Rattle.host.specs.Running.{host_fed};
ghost use Rattle.host.specs.Why.{host_reason, host_class};

use crate::{
    HostChosen, HostClass, HostCounts, HostFed, HostPacked, HostRead, HostReason, HostRing,
    HostScore, HostShown, HostVerdict,
};
use base::refusals::ACCEPTED;
use base::{Cause, Refusal, one};
use cd_list::HostRanking;
use class_compact_meaning::Packed;
use classes::Class;
use md_chooser_meaning::{Part, Side, Unjudged};
use md_lent_meaning::LentFed;
use md_meaning::Score;
use md_reason_meaning::{Detector, Why};
use ratio::rounding::no_ratios;
use ratio::{EightShown, Shown};
use ring_meaning::Kept;

impl From<Result<u32, Refusal>> for HostRead {
    ghost from_gives = { λ counted h. h ≡ host_counted counted };

    fn from(counted: Result<u32, Refusal>) -> HostRead {
        match counted {
            Err(r) => HostRead {
                number: r.cause.number(),
                place: r.place,
                count: 0,
            },
            Ok(count) => HostRead {
                number: ACCEPTED,
                place: 0,
                count,
            },
        }
    }
}

// What is shown of one detector; the mark is 1 or 0.
impl From<Shown> for HostShown {
    ghost from_gives = { λ s h. h ≡ host_shown s };

    fn from(s: Shown) -> HostShown {
        HostShown {
            num: s.num,
            den: s.den,
            cut: one(s.cut),
        }
    }
}

impl From<EightShown> for HostCounts {
    ghost from_gives = { λ e h. h ≡ host_counts e };

    fn from(e: EightShown) -> HostCounts {
        HostCounts {
            symbols: e.symbols.into(),
            accents: e.accents.into(),
            unprintable: e.unprintable.into(),
            ranges: e.ranges.into(),
            doubled: e.doubled.into(),
            words: e.words.into(),
            stops: e.stops.into(),
            archaic: e.archaic.into(),
        }
    }
}

// What a refusal shows: zeros.
fn no_counts() -> HostCounts
    ensures { result ≡ host_counts none_shown }
{
    let none = HostShown {
        num: 0,
        den: 0,
        cut: 0,
    };
    HostCounts {
        symbols: none,
        accents: none,
        unprintable: none,
        ranges: none,
        doubled: none,
        words: none,
        stops: none,
        archaic: none,
    }
}

impl From<Result<Score, Refusal>> for HostScore {
    ghost from_gives = { λ scored h. h ≡ host_score scored };

    fn from(scored: Result<Score, Refusal>) -> HostScore {
        match scored {
            Err(r) => HostScore {
                number: r.cause.number(),
                place: r.place,
                ratios: no_ratios(),
                sum: 0.0,
                fed: 0,
                stopped: 0,
                counts: no_counts(),
            },
            Ok(s) => HostScore {
                number: ACCEPTED,
                place: 0,
                ratios: s.ratios,
                sum: s.sum,
                fed: s.fed,
                stopped: one(s.stopped),
                counts: s.counts.into(),
            },
        }
    }
}

// A text is told by its number, 1 or 2, and 0 is none.
impl From<Result<Side, Unjudged>> for HostVerdict {
    ghost from_gives = { λ judged h. h ≡ host_verdict judged };

    fn from(judged: Result<Side, Unjudged>) -> HostVerdict {
        match judged {
            Err(unjudged) => match unjudged.side {
                Side::First => {
                    let first = unjudged.why;
                    HostVerdict {
                        taken: 0,
                        refused: Side::First as u32,
                        number: first.cause.number(),
                        place: first.place,
                    }
                }
                Side::Second => {
                    let second = unjudged.why;
                    HostVerdict {
                        taken: 0,
                        refused: Side::Second as u32,
                        number: second.cause.number(),
                        place: second.place,
                    }
                }
            },
            Ok(side) => HostVerdict {
                taken: side as u32,
                refused: 0,
                number: ACCEPTED,
                place: 0,
            },
        }
    }
}

impl From<Part> for HostChosen {
    ghost from_gives = { λ part h. h ≡ host_chosen part.judged part.length };

    fn from(part: Part) -> HostChosen {
        let verdict = HostVerdict::from(part.judged);
        HostChosen {
            taken: verdict.taken,
            length: part.length,
            number: verdict.number,
            place: verdict.place,
        }
    }
}

impl From<Result<Kept, Refusal>> for HostRing {
    ghost from_gives = { λ ringed h. h ≡ host_ring ringed };

    fn from(ringed: Result<Kept, Refusal>) -> HostRing {
        match ringed {
            Err(r) => HostRing {
                number: r.cause.number(),
                place: r.place,
                head: 0,
                count: 0,
            },
            Ok(kept) => HostRing {
                number: ACCEPTED,
                place: 0,
                head: kept.head,
                count: kept.count,
            },
        }
    }
}

// A function, since HostRanking is another crate's: only cd_list may write its From.
pub fn flat_merged(counted: Result<u32, Refusal>) -> HostRanking
    ensures { result ≡ host_merged counted }
{
    match counted {
        Err(r) => HostRanking {
            number: r.cause.number(),
            place: r.place,
            count: 0,
        },
        Ok(count) => HostRanking {
            number: ACCEPTED,
            place: 0,
            count,
        },
    }
}

// A detector's number, 0 for none.
fn flat_detector(detector: Option<Detector>) -> u32
    ensures { result ≡ detector_number detector }
{
    match detector {
        Some(d) => d as u32,
        None => 0,
    }
}

impl From<Result<Why, Refusal>> for HostReason {
    ghost from_gives = { λ reasoned h. h ≡ host_reason reasoned };

    fn from(reasoned: Result<Why, Refusal>) -> HostReason {
        match reasoned {
            Err(r) => HostReason {
                number: r.cause.number(),
                place: r.place,
                detector: 0,
                count: 0,
            },
            Ok(why) => {
                let detector = flat_detector(why.detector);
                HostReason {
                    number: ACCEPTED,
                    place: 0,
                    detector,
                    count: why.count,
                }
            }
        }
    }
}

// What was found in a class table that was checked.
impl From<Option<Class>> for HostClass {
    ghost from_gives = { λ found h. h ≡ host_class (Ok tt) found };

    fn from(found: Option<Class>) -> HostClass {
        match found {
            None => HostClass {
                number: Cause::Unclassed.number(),
                place: 0,
                flags: 0,
                range: 0,
            },
            Some(class) => HostClass {
                number: ACCEPTED,
                place: 0,
                flags: class.flags,
                range: class.range,
            },
        }
    }
}

impl From<LentFed> for HostFed {
    ghost from_gives = { λ fed h. h ≡ host_fed fed };

    fn from(fed: LentFed) -> HostFed {
        HostFed {
            state: fed.state,
            answer: fed.answer.into(),
        }
    }
}

impl From<Result<Packed, Refusal>> for HostPacked {
    ghost from_gives = { λ packing h. h ≡ host_packed packing };

    fn from(packing: Result<Packed, Refusal>) -> HostPacked {
        match packing {
            Err(r) => HostPacked {
                number: r.cause.number(),
                place: r.place,
                records: 0,
                letters: 0,
            },
            Ok(packed) => HostPacked {
                number: ACCEPTED,
                place: 0,
                records: packed.records,
                letters: packed.letters,
            },
        }
    }
}
