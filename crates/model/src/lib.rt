// The terms of the store: what a call is given and what it answers. What they mean is in specs/.
#![tactic(auto)]

mod answers;
mod lent;
mod refusal;

ghost use Rattle.std.specs.Prelude.{◌≡◌};
ghost use Rattle.model.specs.Bounds.{most_slots};
ghost use Rattle.model.specs.Deliveries.{no_totals, LightTotals, plus_totals};
ghost use Rattle.model.specs.Accesses.{no_counts};
ghost use Rattle.model.specs.Prices.{factory};
ghost use Rattle.model.specs.Tallies.{empty_tally};

pub use answers::{GrowerReport, Listing, PartitionPlace, Plan, Refused, Report};
pub use lent::{DaySpan, LentSet, LentSlices, Records};
pub use refusal::{Refusal, number_of};

// 01's numbers; specs/Bounds has them as definitions.
// The most blocks of a set and partitions of a column (01: 64).
pub const BLOCK_LIMIT: usize = 64;

// The most slots (01: C), records in a block (01: B), kilograms and hundredths of a per cent.
pub const MOST_SLOTS: usize = 262144;

pub const MOST_BLOCK_LENGTH: u32 = 4096;

pub const MOST_WEIGHT: u32 = 100000;

pub const MOST_YIELD: u32 = 10000;
// The greatest day number (02: 31 December 2099).
pub const MOST_DAY: u32 = 36524;
// The greatest count, price, limit and number of a tally.
pub const MOST_COUNT: u32 = 1000000;

pub const MOST_PRICE: u32 = 1000;

pub const MOST_LIMIT: u32 = 1000000;

pub const MOST_TALLY: u64 = 1000000000000;
// The most blocks of a set whose layouts are listed (02: 12).
pub const MOST_LISTED_BLOCKS: usize = 12;
// The greatest grower number (01: 32 bits).
pub const MOST_NUMBER: u32 = 4294967295;
// How many records a loop over slices takes at a time.
pub const STRIDE: usize = 64;

// A directory (01: 130 numbers): where B and K stand, where the lengths and the fences begin, and how many numbers it has.
pub const BLOCK: usize = 0;

pub const COUNT: usize = 1;

pub const LENGTHS: usize = 2;

pub const FENCES: usize = LENGTHS + BLOCK_LIMIT;

pub const DIRECTORY_SIZE: usize = FENCES + BLOCK_LIMIT;
// The histograms (01: 640 numbers): how many there are, and how many numbers they have.
const HISTOGRAM_COUNT: usize = 10;

pub const HISTOGRAMS_SIZE: usize = HISTOGRAM_COUNT * BLOCK_LIMIT;

// One delivery (01: a grower number, a weight in kg, an oil yield in hundredths of a per cent; 02: a day number).
#[repr(C)]
#[derive(Clone, Copy, PartialEq, Eq)]
pub struct Delivery {
    pub grower: u32,
    pub weight: u32,
    pub oil_yield: u32,
    pub day: u32,
}

// The prices of a random read, a sequential read and a random write (01: the card).
#[repr(C)]
#[derive(Clone, Copy)]
pub struct PriceCard {
    pub rr: u32,
    pub sr: u32,
    pub rw: u32,
}

impl PriceCard {
    // The factory card.
    pub const FACTORY: PriceCard = PriceCard {
        rr: 3,
        sr: 1,
        rw: 2,
    };

    pub fn factory() -> Self
        ensures { result ≡ factory }
    {
        PriceCard::FACTORY
    }
}

// What a layout is held to (01: the read limit R and the insert limit U).
#[repr(C)]
#[derive(Clone, Copy)]
pub struct Limits {
    pub read: u32,
    pub insert: u32,
}

// Random reads, sequential reads and random writes of one call.
#[repr(C)]
#[derive(Clone, Copy)]
pub struct Counts {
    pub rr: u64,
    pub sr: u64,
    pub rw: u64,
}

impl Counts {
    // Nothing read or written.
    pub fn none() -> Self
        ensures { result ≡ no_counts }
    {
        Counts {
            rr: 0,
            sr: 0,
            rw: 0,
        }
    }
}

// What find and range answer: matching records, their weight, their oil (weight times yield).
#[repr(C)]
#[derive(Clone, Copy)]
pub struct Totals {
    pub records: u64,
    pub weight: u64,
    pub oil: u64,
}

impl Totals {
    // No record.
    pub fn none() -> Self
        ensures { result ≡ no_totals }
    {
        Totals {
            records: 0,
            weight: 0,
            oil: 0,
        }
    }

    // The totals of two lists of records together.
    pub fn plus(self, more: Totals) -> Self
        requires { LightTotals most_slots self × LightTotals most_slots more }
        ensures { result ≡ plus_totals self more }
    {
        Totals {
            records: self.records + more.records,
            weight: self.weight + more.weight,
            oil: self.oil + more.oil,
        }
    }
}

// The counts of many calls, added up.
#[repr(C)]
#[derive(Clone, Copy)]
pub struct Tally {
    pub rr: u64,
    pub sr: u64,
    pub rw: u64,
}

impl Tally {
    // Nothing counted yet.
    pub const EMPTY: Tally = Tally {
        rr: 0,
        sr: 0,
        rw: 0,
    };

    pub fn new() -> Self
        ensures { result ≡ empty_tally }
    {
        Tally::EMPTY
    }
}

// What a call on the column answers. Counts before totals: so the totals that a write answers with 0 are stored at once.
#[repr(C)]
#[derive(Clone, Copy)]
pub struct Answer {
    pub refusal: u32,
    pub counts: Counts,
    pub totals: Totals,
}

// What the next and the previous grower answer: a grower and how many records he has, 0 and 0 where there is none.
#[repr(C)]
#[derive(Clone, Copy)]
pub struct GrowerAnswer {
    pub refusal: u32,
    pub grower: u32,
    pub records: u64,
    pub counts: Counts,
}

// What applying a layout or reading a snapshot answers: the directory, all 0 when refused.
#[repr(C)]
#[derive(Clone, Copy)]
pub struct Applied {
    pub refusal: u32,
    pub directory: [u32; DIRECTORY_SIZE],
}

// Where a grower's partition lies in the growers (01: what the run call hands back).
#[repr(C)]
#[derive(Clone, Copy)]
pub struct PartitionSlice {
    pub refusal: u32,
    pub start: u32,
    pub count: u32,
}

// The cost of a layout (01: the bill).
#[repr(C)]
#[derive(Clone, Copy)]
pub struct Costed {
    pub refusal: u32,
    pub cost: i64,
}

// What the planner answers beside the ends that it writes.
#[repr(C)]
#[derive(Clone, Copy)]
pub struct Planned {
    pub refusal: u32,
    pub count: u32,
    pub cost: i64,
}

// What listing every permitted layout answers beside the text: how many there are, and the bytes of their lines.
#[repr(C)]
#[derive(Clone, Copy)]
pub struct Listed {
    pub refusal: u32,
    pub layouts: u32,
    pub bytes: u64,
}

// What importing a weighbridge file answers beside the slices: how many rows it stored.
#[repr(C)]
#[derive(Clone, Copy)]
pub struct Imported {
    pub refusal: u32,
    pub rows: u64,
}

// What writing a snapshot (01: a book) or a weighbridge file answers beside the text.
#[repr(C)]
#[derive(Clone, Copy)]
pub struct Written {
    pub refusal: u32,
    pub bytes: u64,
}

// A tally after an addition, or as it was when refused.
#[repr(C)]
#[derive(Clone, Copy)]
pub struct Added {
    pub refusal: u32,
    pub tally: Tally,
}
