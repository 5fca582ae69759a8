// What is lent to a call, and what travels with it.

ghost use Rattle.std.specs.Prelude.{◌≡◌, ◌≤◌, length};
ghost use Rattle.model.specs.Bounds.{most_slots};
ghost use Rattle.model.specs.Deliveries.{slices_of, Even};

// Four lent slices that hold deliveries slot by slot (01; the days by 02, Slip 7), of whatever lengths.
#[derive(Clone, Copy)]
pub struct LentSlices<'a> {
    pub growers: &'a [u32],
    pub weights: &'a [u32],
    pub yields: &'a [u32],
    pub days: &'a [u32],
}

// An unpartitioned set (01: the unlaid set): its block length, how many slots are used, and its slices.
#[derive(Clone, Copy)]
pub struct LentSet<'a> {
    pub block: u32,
    pub used: u32,
    pub slices: LentSlices<'a>,
}

// Records slot by slot in four slices of one length, no more than a column has slots (01: C).
#[derive(Clone, Copy)]
pub struct Records<'a> {
    pub growers: &'a [u32],
    pub weights: &'a [u32],
    pub yields: &'a [u32],
    pub days: &'a [u32],
    pub ghost few: { length growers.now ≤ most_slots },
    pub ghost even: { Even (slices_of growers.now weights.now yields.now days.now) },
}

impl<'a> Records<'a> {
    ghost use Rattle.model.specs.Lent.{records_given, slices_part};

    // How many there are.
    pub fn len(self) -> usize
        ensures { result ≡ length self.entry.growers.now }
    {
        self.growers.len()
    }

    // Those from one slot to another, which is not among them.
    pub fn part(self, from: usize, to: usize) -> Records<'a>
        requires { (from ≤ to) × (to ≤ length self.growers.now) }
        ensures { records_given result ≡ slices_part from to (records_given self.entry) }
    {
        Records {
            growers: &self.growers[from..to],
            weights: &self.weights[from..to],
            yields: &self.yields[from..to],
            days: &self.days[from..to],
        }
    }
}

// The days first to last, both among them (02, Slip 7).
#[derive(Clone, Copy)]
pub struct DaySpan {
    pub first: u32,
    pub last: u32,
}
