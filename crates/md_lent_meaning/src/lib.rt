// What the 48 numbers of a running line mean that a host lends (02 [6]), and what the calls leave in them: the types, their definitions and their laws. No
// function stands here; md_lent has those that run.
#![tactic(auto)]

use base::Refusal;

// The numbers of each detector, in md.rs's order, and the places of the last growths: a mark is a u32.
#[repr(C)]
#[derive(Clone, Copy, Default)]
pub struct HostSymbols {
    pub characters: u32,
    pub punctuation: u32,
    pub symbols: u32,
    pub last: u32,
}

#[repr(C)]
#[derive(Clone, Copy, Default)]
pub struct HostAccents {
    pub characters: u32,
    pub accentuated: u32,
}

#[repr(C)]
#[derive(Clone, Copy, Default)]
pub struct HostUnprintable {
    pub characters: u32,
    pub unprintable: u32,
}

#[repr(C)]
#[derive(Clone, Copy, Default)]
pub struct HostRanges {
    pub characters: u32,
    pub suspicious: u32,
    pub seen: u32,
    pub last: u32,
}

#[repr(C)]
#[derive(Clone, Copy, Default)]
pub struct HostDoubled {
    pub characters: u32,
    pub successive: u32,
    pub flags: u32,
    pub base: u32,
}

#[repr(C)]
#[derive(Clone, Copy, Default)]
pub struct HostWords {
    pub characters: u32,
    pub words: u32,
    pub foreign: u32,
    pub spoilt: u32,
    pub bad: u32,
    pub watch: u32,
    pub accents: u32,
    pub uppercase: u32,
    pub length: u32,
    pub last: u32,
}

#[repr(C)]
#[derive(Clone, Copy, Default)]
pub struct HostStops {
    pub wrong: u32,
    pub cjk: u32,
}

#[repr(C)]
#[derive(Clone, Copy, Default)]
pub struct HostArchaic {
    pub characters: u32,
    pub since: u32,
    pub run: u32,
    pub total: u32,
    pub last: u32,
    pub ascii: u32,
    pub buf: u32,
}

#[repr(C)]
#[derive(Clone, Copy, Default)]
pub struct HostGrowths {
    pub symbols: u32,
    pub accents: u32,
    pub unprintable: u32,
    pub ranges: u32,
    pub doubled: u32,
    pub words: u32,
    pub stops: u32,
    pub archaic: u32,
}

// A line of which some characters have arrived: its declared length, how many were received and how many of them fed, the threshold's bits and the mark of
// having stopped; then the detectors, and where each last grew.
#[repr(C)]
#[derive(Clone, Copy, Default)]
pub struct HostRunning {
    pub length: u32,
    pub received: u32,
    pub fed: u32,
    pub threshold: u32,
    pub stopped: u32,
    pub symbols: HostSymbols,
    pub accents: HostAccents,
    pub unprintable: HostUnprintable,
    pub ranges: HostRanges,
    pub doubled: HostDoubled,
    pub words: HostWords,
    pub stops: HostStops,
    pub archaic: HostArchaic,
    pub grown: HostGrowths,
}

// The answer of opening: a refusal's number and place and a state of zeros, or zeros and the state.
#[repr(C)]
#[derive(Clone, Copy)]
pub struct HostOpened {
    pub number: u32,
    pub place: u32,
    pub state: HostRunning,
}

// What a feeding call leaves in the lent numbers, which are the very ones given where it refused; and the number received, or why it refused.
#[derive(Clone, Copy)]
pub struct LentFed {
    pub state: HostRunning,
    pub answer: Result<u32, Refusal>,
}
