// Where each detector's numerator last grew, kept beside the eight detectors (02 [8], for the running score too). It is found by comparing the
// counts before and after a step, so that no detector's step knows of it; a scan that does not ask for it steps the eight alone.
#![tactic(auto)]

ghost use Rattle.std.specs.Prelude.{◌≡◌};
ghost use Rattle.md_eight.specs.Detectors as detectors;
ghost use Rattle.md_eight.specs.Inner.Detectors.{Room};
ghost use Rattle.md_growth.specs.Growth as growth;
ghost use Rattle.md_growth.specs.Inner.Growth.{Watchable};

use base::pick;
use classes::Class;
use md_eight::Detectors;
use ratio::{Counts, EightCounts};

// For each detector, in md.rs's order, the place of its numerator's last growth: the index and 1, and 0 where it has not grown.
#[derive(Clone, Copy)]
pub struct Growths {
    pub symbols: u32,
    pub accents: u32,
    pub unprintable: u32,
    pub ranges: u32,
    pub doubled: u32,
    pub words: u32,
    pub stops: u32,
    pub archaic: u32,
}

// The eight detectors, and where each last grew.
#[derive(Clone, Copy)]
pub struct Watched {
    pub eight: Detectors,
    pub grown: Growths,
}

// None has grown.
pub fn no_growths() -> Growths
    ensures { result ≡ growth.no_growths }
{
    Growths {
        symbols: 0,
        accents: 0,
        unprintable: 0,
        ranges: 0,
        doubled: 0,
        words: 0,
        stops: 0,
        archaic: 0,
    }
}

// The place of a detector's last growth after a step: this place where its numerator has become greater, else the last one.
fn grown_to(last: u32, before: Counts, after: Counts, place: u32) -> u32
    ensures { result ≡ growth.grown_to last before after place }
{
    pick(before.numerator < after.numerator, place, last)
}

// All eight places after a step, by the counts before and after it.
fn grown_after(last: Growths, before: EightCounts, after: EightCounts, place: u32) -> Growths
    ensures { result ≡ growth.grown_after last before after place }
{
    Growths {
        symbols: grown_to(last.symbols, before.symbols, after.symbols, place),
        accents: grown_to(last.accents, before.accents, after.accents, place),
        unprintable: grown_to(
            last.unprintable,
            before.unprintable,
            after.unprintable,
            place,
        ),
        ranges: grown_to(last.ranges, before.ranges, after.ranges, place),
        doubled: grown_to(last.doubled, before.doubled, after.doubled, place),
        words: grown_to(last.words, before.words, after.words, place),
        stops: grown_to(last.stops, before.stops, after.stops, place),
        archaic: grown_to(last.archaic, before.archaic, after.archaic, place),
    }
}

// One character, fed to the eight, as Detectors::feed does. The scan's own step must have one place from which it is called, else it goes out of line
// and the state with it into memory, which more than doubles what a character costs.
pub fn fed_watched(s: Detectors, c: Class, suspicious: bool) -> Detectors
    requires { Room s }
    ensures { result ≡ detectors.feed s c suspicious }
{
    Detectors {
        symbols: s.symbols.feed(c),
        accents: s.accents.feed(c),
        unprintable: s.unprintable.feed(c),
        ranges: s.ranges.feed(c, suspicious),
        doubled: s.doubled.feed(c),
        words: s.words.feed(c),
        stops: s.stops.feed(c),
        archaic: s.archaic.feed(c),
    }
}

impl Watched {
    pub fn start() -> Watched
        ensures { result ≡ growth.start }
    {
        Watched {
            eight: Detectors::start(),
            grown: no_growths(),
        }
    }

    // One character, whose place is its index and 1.
    pub fn watch(self, c: Class, suspicious: bool, place: u32) -> Watched
        requires { Watchable self c suspicious }
        ensures { result ≡ growth.watch self c suspicious place }
    {
        let before = self.eight.counts();
        let eight = fed_watched(self.eight, c, suspicious);
        Watched {
            eight: eight,
            grown: grown_after(self.grown, before, eight.counts(), place),
        }
    }
}
