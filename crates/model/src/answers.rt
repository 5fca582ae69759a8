// What calls report, and what C is answered: one number for the refusal, and 0 for what a refused call doesn't report.

ghost use Rattle.std.specs.Prelude.{◌≡◌};
ghost use Rattle.model.specs.Answers.{refused_ahead, answer_of, grower_answer_of, applied_of, slice_answer_of, costed_of, planned_of};
ghost use Rattle.model.specs.Answers.{listed_of, imported_of, written_of};

use crate::refusal::Refusal;
use crate::{
    Answer, Applied, Costed, Counts, DIRECTORY_SIZE, GrowerAnswer, Imported, Listed,
    PartitionSlice, Planned, Totals, Written,
};

// What an accepted call on the column reports. Counts before totals: so the totals that a write reports as 0 are stored at once.
#[derive(Clone, Copy)]
pub struct Report {
    pub counts: Counts,
    pub totals: Totals,
}

// A refused call on the column, and what it read before: nothing but where the delivery is absent.
#[derive(Clone, Copy)]
pub struct Refused {
    pub refusal: Refusal,
    pub counts: Counts,
}

impl From<Refusal> for Refused {
    ghost from_gives = { λ r x. x ≡ refused_ahead r };

    fn from(refusal: Refusal) -> Refused {
        Refused {
            refusal,
            counts: Counts::none(),
        }
    }
}

impl From<Result<Report, Refused>> for Answer {
    ghost from_gives = { λ r x. x ≡ answer_of r };

    // Laid out in its caller, so that the report is made in place.
    #[inline(always)]
    fn from(outcome: Result<Report, Refused>) -> Answer {
        match outcome {
            Ok(report) => Answer {
                refusal: 0,
                counts: report.counts,
                totals: report.totals,
            },
            Err(refused) => Answer {
                refusal: refused.refusal.number(),
                counts: refused.counts,
                totals: Totals::none(),
            },
        }
    }
}

// The first grower with deliveries on the way, and how many records he has: 0 and 0 where there is none.
#[derive(Clone, Copy)]
pub struct GrowerReport {
    pub grower: u32,
    pub records: u64,
    pub counts: Counts,
}

impl From<Result<GrowerReport, Refusal>> for GrowerAnswer {
    ghost from_gives = { λ r x. x ≡ grower_answer_of r };

    #[inline(always)]
    fn from(outcome: Result<GrowerReport, Refusal>) -> GrowerAnswer {
        match outcome {
            Ok(report) => GrowerAnswer {
                refusal: 0,
                grower: report.grower,
                records: report.records,
                counts: report.counts,
            },
            Err(refusal) => GrowerAnswer {
                refusal: refusal.number(),
                grower: 0,
                records: 0,
                counts: Counts::none(),
            },
        }
    }
}

impl From<Result<[u32; DIRECTORY_SIZE], Refusal>> for Applied {
    ghost from_gives = { λ r x. x ≡ applied_of r };

    fn from(outcome: Result<[u32; DIRECTORY_SIZE], Refusal>) -> Applied {
        match outcome {
            Ok(directory) => Applied {
                refusal: 0,
                directory,
            },
            Err(refusal) => Applied {
                refusal: refusal.number(),
                directory: [0u32; DIRECTORY_SIZE],
            },
        }
    }
}

// Where a grower's partition begins in the growers, and how many records it has.
#[derive(Clone, Copy)]
pub struct PartitionPlace {
    pub start: u32,
    pub count: u32,
}

impl From<Result<PartitionPlace, Refusal>> for PartitionSlice {
    ghost from_gives = { λ r x. x ≡ slice_answer_of r };

    fn from(outcome: Result<PartitionPlace, Refusal>) -> PartitionSlice {
        match outcome {
            Ok(place) => PartitionSlice {
                refusal: 0,
                start: place.start,
                count: place.count,
            },
            Err(refusal) => PartitionSlice {
                refusal: refusal.number(),
                start: 0,
                count: 0,
            },
        }
    }
}

impl From<Result<i64, Refusal>> for Costed {
    ghost from_gives = { λ r x. x ≡ costed_of r };

    fn from(outcome: Result<i64, Refusal>) -> Costed {
        match outcome {
            Ok(cost) => Costed { refusal: 0, cost },
            Err(refusal) => Costed {
                refusal: refusal.number(),
                cost: 0,
            },
        }
    }
}

// The layout that the planner found: how many ends it wrote, and its cost.
#[derive(Clone, Copy)]
pub struct Plan {
    pub count: u32,
    pub cost: i64,
}

impl From<Result<Plan, Refusal>> for Planned {
    ghost from_gives = { λ r x. x ≡ planned_of r };

    fn from(outcome: Result<Plan, Refusal>) -> Planned {
        match outcome {
            Ok(plan) => Planned {
                refusal: 0,
                count: plan.count,
                cost: plan.cost,
            },
            Err(refusal) => Planned {
                refusal: refusal.number(),
                count: 0,
                cost: 0,
            },
        }
    }
}

// How many layouts were listed, and the bytes of their lines.
#[derive(Clone, Copy)]
pub struct Listing {
    pub layouts: u32,
    pub bytes: u64,
}

impl From<Result<Listing, Refusal>> for Listed {
    ghost from_gives = { λ r x. x ≡ listed_of r };

    fn from(outcome: Result<Listing, Refusal>) -> Listed {
        match outcome {
            Ok(listing) => Listed {
                refusal: 0,
                layouts: listing.layouts,
                bytes: listing.bytes,
            },
            Err(refusal) => Listed {
                refusal: refusal.number(),
                layouts: 0,
                bytes: 0,
            },
        }
    }
}

// How many rows were stored.
impl From<Result<u64, Refusal>> for Imported {
    ghost from_gives = { λ r x. x ≡ imported_of r };

    fn from(outcome: Result<u64, Refusal>) -> Imported {
        match outcome {
            Ok(rows) => Imported { refusal: 0, rows },
            Err(refusal) => Imported {
                refusal: refusal.number(),
                rows: 0,
            },
        }
    }
}

// How many bytes were written.
impl From<Result<u64, Refusal>> for Written {
    ghost from_gives = { λ r x. x ≡ written_of r };

    fn from(outcome: Result<u64, Refusal>) -> Written {
        match outcome {
            Ok(bytes) => Written { refusal: 0, bytes },
            Err(refusal) => Written {
                refusal: refusal.number(),
                bytes: 0,
            },
        }
    }
}
