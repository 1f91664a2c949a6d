// The causes of a refusal, those of document 01 and from 10 on document 02's, each with its number and with what the place says.
ghost use Rattle.std.specs.Prelude.{◌≡◌};
ghost use Rattle.base.specs.Refusals.{number_of};

// No refusal: what the host's answers carry where a call was accepted.
pub const ACCEPTED: u32 = 0;

#[derive(Clone, Copy, Debug, PartialEq, Eq)]
pub enum Cause {
    // over LONGEST_BYTES bytes or LONGEST_TEXT code points; coherence over LONGEST_RANKED code points; place 0
    TooLong = 1,

    // ill-formed UTF-8; place the first byte of the bad sequence
    IllFormed = 2,

    // lent output or work area too short; place 0
    NoRoom = 3,

    // threshold not finite; place 0
    NotFinite = 4,

    // class table not good; place the first bad record, or 0 for its length or number
    BadClasses = 5,

    // code point in no record; place its index in the text
    Unclassed = 6,

    // pair table not PAIR_BYTES bytes; place 0
    BadPairs = 7,

    // language table not good; place as 5
    BadLanguages = 8,

    // over MOST_INCLUDED included numbers, place 0, or one not in the table, place its index
    BadIncluded = 9,

    // The numbers from 10 on are document 02's.

    // code page not good; place its first bad entry, or 0 if it has not 128
    BadPage = 10,

    // code point that the page lacks; place its index in the text
    NotOnPage = 11,

    // number that is no scalar value; place its index in the text
    NotScalar = 12,

    // character past the declared length of a line; place 0
    LineFull = 13,

    // line closed with fewer characters than declared; place 0
    LineShort = 14,

    // ring of a wrong size, a head not below it or a count above it; place 0
    BadRing = 15,

    // ring that holds as many unflushed records as it has slots; place 0
    RingFull = 16,

    // line 65,536 of a report; place 0
    ManyLines = 17,

    // lengths of rankings that do not fit their list; place 0
    BadLengths = 18,

    // running state that is lent and is none that can be gone on with; place 0
    BadState = 19,
}

impl Cause {
    // The number under which 01 and 02 list the cause.
    pub fn number(self) -> u32
        ensures { result ≡ number_of self }
    {
        self as u32
    }
}
