// Why a call is refused (01: the first question that is answered by no).

ghost use Rattle.std.specs.Prelude.{◌≡◌};
ghost use Rattle.model.specs.Refusals.{refusal_number, number_of};

// What has failed, by the number that C and the programs are told.
#[derive(Clone, Copy, Debug)]
pub enum Refusal {
    Prices = 1,
    BlockLength = 2,
    Slices = 3,
    UsedSlots = 4,
    Order = 5,
    Shape = 6,
    Range = 7,
    Values = 8,
    Histograms = 9,
    Overflow = 10,
    NoLayout = 11,
    Full = 12,
    Absent = 13,
    Text = 14,
    Room = 15,
    NameAbsent = 16,
    NameTwice = 17,
    Row = 18,
    Days = 19,
    ListedBlocks = 23,
}

impl Refusal {
    pub fn number(self) -> u32
        ensures { result ≡ refusal_number self }
    {
        self as u32
    }
}

// The number of what a call came to: 0 where it was accepted.
pub fn number_of(outcome: Result<(), Refusal>) -> u32
    ensures { result ≡ number_of outcome }
{
    match outcome {
        Ok(()) => 0,
        Err(refusal) => refusal.number(),
    }
}
