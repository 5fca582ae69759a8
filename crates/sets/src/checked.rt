// A set whose sizes and order were checked, its blocks and the layouts of these.

ghost use Rattle.std.specs.Prelude.{◌≡◌, ◌+◌, ◌*◌, ◌≤◌, ◌<◌, length, take};
ghost use Rattle.model.specs.Bounds.{block_limit};
ghost use Rattle.model.specs.Lists.{every};
ghost use Rattle.model.specs.Blocks.{blocks, block_of, block_stop, last_grower, values_ok, days_ok};
ghost use Rattle.model.specs.Layouts.{separates_none, layout_ok};
ghost use Rattle.model.specs.Deliveries.{each_slice};
ghost use Rattle.model.specs.Lent.{records_given};
ghost use Rattle.sets.specs.Sized.{Sized};

use model::Records;

// A set that has passed checks 2 to 5: its block length, how many slots are used, and the records of all slots. What it keeps of these checks is
// the sizes that they let through.
#[derive(Clone, Copy)]
pub struct CheckedSet<'a> {
    pub block: u32,
    pub used: u32,
    pub records: Records<'a>,
    pub ghost sized: { Sized block_limit block used (length records.growers.now) },
}

impl<'a> CheckedSet<'a> {
    ghost use Rattle.sets.specs.Checked.{checked_set};

    // The records of the used slots.
    pub fn held(self) -> Records<'a>
        ensures { records_given result ≡ each_slice (take self.entry.used) (records_given self.entry.records) }
    {
        self.records.part(0, self.used as usize)
    }

    // Check 8.
    pub(crate) fn values_ok(self) -> bool
        ensures { result ≡ values_ok (checked_set self.entry) }
    {
        let held = self.held();
        checks::values_ok(held.weights, held.yields)
    }

    // Check 19.
    pub(crate) fn days_ok(self) -> bool
        ensures { result ≡ days_ok (checked_set self.entry) }
    {
        let held = self.held();
        checks::days_ok(held.days)
    }

    // How many blocks there are.
    pub fn block_count(self) -> u32
        ensures { result ≡ blocks (checked_set self.entry) }
    {
        (self.used + (self.block - 1)) / self.block
    }

    // The first slot of block i.
    fn block_start(self, i: u64) -> u64
        requires { i ≤ 4294967296 }
        ensures { result ≡ i * self.entry.block }
    {
        i * u64::from(self.block)
    }

    // The slot just past block i.
    pub fn block_stop(self, i: u32) -> u32
        ensures { result ≡ block_stop (checked_set self.entry) i }
    {
        let x = self.block_start(u64::from(i) + 1);
        x.min(u64::from(self.used)) as u32
    }

    // The last grower of block i.
    pub fn last_grower(self, i: u32) -> u32
        ensures { result ≡ last_grower (checked_set self.entry) i }
    {
        let x = self.block_stop(i) as usize - 1;
        self.records.growers[x]
    }

    // Whether end block e separates no equal growers.
    pub fn separates_none(self, e: u32) -> bool
        ensures { result ≡ separates_none (checked_set self.entry) e }
    {
        let x = self.block_start(u64::from(e) + 1);
        if u64::from(self.used) <= x {
            return true;
        }
        let q = x as usize;
        let p = q - 1;
        self.records.growers[p] != self.records.growers[q]
    }

    // Whether no end separates equal growers.
    fn all_separate_none(self, ends: &[u32]) -> bool
        ensures { result ≡ every (separates_none (checked_set self.entry)) ends.now }
    {
        for &e in ends {
            if !self.separates_none(e) {
                return false;
            }
        }
        true
    }

    // Check 6 of a layout.
    pub(crate) fn layout_ok(self, ends: &[u32]) -> bool
        ensures { result ≡ layout_ok (checked_set self.entry) ends.now }
    {
        let Some(&last) = ends.last() else {
            return false;
        };
        if !slices::strictly_rising(ends) {
            return false;
        }
        if u64::from(last) + 1 != u64::from(self.block_count()) {
            return false;
        }
        self.all_separate_none(ends)
    }

    // The block of a grower: the first whose last grower is no less, otherwise the last.
    pub fn block_of(self, x: u32) -> usize
        ensures { result ≡ block_of (checked_set self.entry) x }
    {
        let last = self.block_count() - 1;
        for i in 0..last {
            let k = self.last_grower(i);
            if x <= k {
                return i as usize;
            }
        }
        last as usize
    }
}
