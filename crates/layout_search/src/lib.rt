// The search for the least layout over running sums of the blocks, by a table of the best in so many partitions. What it answers is in specs/.
#![tactic(auto)]

ghost use Rattle.std.specs.Prelude.{◌≡◌, false, ◌+◌, ◌-◌, ◌*◌, ◌^◌, ◌≤◌, ◌<◌, min, length, get_or};
ghost use Rattle.std.proofs.Math.IntN.{sub_ℕ};
ghost use Rattle.model.specs.Answers.{planned_of};
ghost use Rattle.layout_search.specs.Task.{search_limit, Covers};
ghost use Rattle.layout_search.specs.RunningSums.{sum_number, sum_at, sum_over, Holds, partition_ok};
ghost use Rattle.layout_search.specs.RunningSums.{LocalPrice, Priced, EndPriced, Numbered};
ghost use Rattle.layout_search.specs.Table.{Best, Offer, Chose, val_of, Row, Rows, Kept, LocalPrices, LocalRow, Tail};
ghost use Rattle.layout_search.specs.Table.{Tails, Small, offered_at, LeastOf, stored, Read};
ghost use Rattle.layout_search.specs.Table.{Lowest, Written};
ghost use Rattle.layout_search.specs.Answer.{Answered};

use model::{Plan, Refusal};

// The running sums at each place, in their order.
#[derive(Clone, Copy)]
enum Sum {
    // What does not depend on the layout.
    Fixed,
    // For each block before a block in its partition, and the same times the block's number.
    PerBlockBefore,
    WeightedBefore,
    // For each block after it in its partition, and the same times the block's number.
    PerBlockAfter,
    WeightedAfter,
    // For each partition from its own to the last: what is added, and what is taken off.
    PerPartitionAdded,
    PerPartitionSaved,
}

impl Sum {
    // Its place among the seven.
    fn number(self) -> usize
        ensures { result ≡ sum_number self }
    {
        self as usize
    }
}

pub const SUMS_PER_PLACE: usize = 7;

// The search is proved for so many blocks.
const SEARCH_LIMIT: usize = 256;

// The number for no layout where numbers are stored and compared; else it is None. It is above every other, so that a minimum needs no case for it, and a
// table of Options would be twice as long (fixed memory).
const NONE: u64 = 0x4000_0000_0000_0000;

// The number for a cost of 0.

pub const BASE: u64 = 0x1000_0000_0000_0000;

const SIGNED_BASE: i64 = BASE as i64;

// A product of a sum and a count.
fn times(x: u64, y: u64) -> u64
    requires { (x ≤ 2 ^ 49) × (y ≤ search_limit) }
    ensures value { result ≡ x * y }
    ensures small { result ≤ 2 ^ 57 }
{
    x * y
}

// The running sums of some blocks (02, Slip 5), seven at each place.
#[derive(Clone, Copy)]
pub struct Sums<'a> {
    pub places: &'a [u64],
    pub blocks: usize,
    pub ghost hold: { Holds places.now blocks },
}

impl<'a> Sums<'a> {
    // A sum at place j.
    fn at(self, sum: Sum, j: usize) -> u64
        requires { j ≤ self.blocks }
        ensures value { result ≡ sum_at self.entry.places.now (sum_number sum) j }
        ensures small { result ≤ 2 ^ 49 }
    {
        self.places[j * SUMS_PER_PLACE + sum.number()]
    }

    // What the blocks a ..= e add to a sum.
    fn over(self, sum: Sum, a: usize, e: usize) -> u64
        requires { (a ≤ e) × (e < self.blocks) }
        ensures value { result ≡ sum_over self.entry.places.now (sum_number sum) a e }
        ensures small { result ≤ 2 ^ 49 }
    {
        self.at(sum, e + 1) - self.at(sum, a)
    }

    // BASE and the part of the price of the blocks a ..= e as a partition that does not depend on the partitions behind.
    fn local_price(self, a: usize, e: usize) -> u64
        requires { (a ≤ e) × (e < self.blocks) }
        ensures { LocalPrice self.entry.places.now a e result }
    {
        let fixed = self.over(Sum::Fixed, a, e);
        let before = times(self.over(Sum::PerBlockBefore, a, e), a as u64);
        let weighted_before = self.over(Sum::WeightedBefore, a, e);
        let after = times(self.over(Sum::PerBlockAfter, a, e), e as u64);
        let weighted_after = self.over(Sum::WeightedAfter, a, e);
        BASE + fixed + weighted_before + after - before - weighted_after
    }

    // BASE and the price of the blocks a ..= e as a partition, with k partitions from it to the last.
    fn price(self, a: usize, e: usize, k: u64) -> u64
        requires { (a ≤ e) × (e < self.blocks) × (k ≤ search_limit) }
        ensures { Priced self.entry.places.now a e k result }
    {
        let added = times(self.over(Sum::PerPartitionAdded, a, e), k);
        let saved = times(self.over(Sum::PerPartitionSaved, a, e), k);
        self.local_price(a, e) + added - saved
    }

    // BASE and what the blocks a ..= e as a partition add to a cost, whatever comes behind them: a block has as many partitions from its own to the last
    // as there are ends from it on, so each end counts once the sums of partitions up to it.
    pub fn end_price(self, a: usize, e: usize) -> u64
        requires { (a ≤ e) × (e < self.blocks) }
        ensures { EndPriced self.entry.places.now a e result }
    {
        let added = self.at(Sum::PerPartitionAdded, e + 1);
        let saved = self.at(Sum::PerPartitionSaved, e + 1);
        self.local_price(a, e) + added - saved
    }

    // The number of a layout that is given: BASE and its cost.
    pub fn layout_number(self, ends: &[u32]) -> u64
        requires { Covers self.blocks 0 ends.now }
        ensures { Numbered self.entry.places.now ends.now result }
    {
        let mut number = BASE;
        let mut a = 0;
        for (p, &end) in ends.iter().enumerate() {
            let e = end as usize;
            number = number + self.price(a, e, (ends.len() - p) as u64) - BASE;
            a = e + 1;
        }
        number
    }
}

// What is to be searched: the sums of the blocks, where an end may stand, and how many blocks a partition may have.
#[derive(Clone, Copy)]
pub struct Task<'a> {
    pub sums: Sums<'a>,
    pub fits: &'a [bool],
    pub longest: usize,
    pub ghost marked: { sums.blocks ≤ length fits.now },
}

// The ends that a first block may have, one after the other: the number for what comes after each, and the local price of the partition up to it.
#[derive(Clone, Copy)]
struct Offers<'a> {
    tails: &'a [u64],
    prices: &'a [u64],
    ghost small: { Small tails.now prices.now },
}

impl<'a> Offers<'a> {
    // What the end at i offers.
    fn at(self, i: usize) -> u64
        requires { i < length self.tails.now }
        ensures { result ≡ offered_at self.entry.tails.now self.entry.prices.now i }
    {
        self.tails[i] + self.prices[i]
    }

    // The least of all offers, where `before` is that of those before `from`.
    fn least_from(self, from: usize, before: u64) -> u64
        requires { (from ≤ length self.tails.now) × LeastOf (offered_at self.tails.now self.prices.now) from before }
        ensures { LeastOf (offered_at self.entry.tails.now self.entry.prices.now) (length self.entry.tails.now) result }
    {
        let mut low = before;
        for i in from..self.tails.len() {
            low = low.min(self.at(i));
        }
        low
    }

    // The least of NONE and all offers: four at a time, so that a step waits for one minimum and not for four (measured: one by one, a plan takes 7 to 14%
    // longer).
    fn least(self) -> u64
        ensures { LeastOf (offered_at self.entry.tails.now self.entry.prices.now) (length self.entry.tails.now) result }
    {
        let fours = self.tails.len() / 4;
        let mut low = NONE;
        for four in 0..fours {
            let i = 4 * four;
            let w = self.at(i);
            let x = self.at(i + 1);
            let y = self.at(i + 2);
            let z = self.at(i + 3);
            low = low.min(w.min(x).min(y.min(z)));
        }
        self.least_from(4 * fours, low)
    }
}

// The least number of some layouts, and the first end of the first that has it.
#[derive(Clone, Copy)]
struct Choice {
    number: u64,
    first: usize,
}

impl<'a> Task<'a> {
    ghost use Rattle.layout_search.specs.Given.{task_given};

    // Whether the blocks a ..= e may be a partition.
    fn partition_ok(self, a: usize, e: usize) -> bool
        requires { (a ≤ e) × (e < self.sums.blocks) }
        ensures { result ≡ partition_ok self.entry.longest (λ i. get_or self.entry.fits.now i false) a e }
    {
        e + 1 - a <= self.longest && self.fits[e]
    }

    // How many ends a partition from block a may have, with k partitions behind it.
    fn end_count(self, k: usize, a: usize) -> usize
        requires { k < self.sums.blocks }
        ensures { result ≡ min (self.entry.sums.blocks - k - a) self.entry.longest }
    {
        (self.sums.blocks - k).saturating_sub(a).min(self.longest)
    }

    // Where the blocks from a on in k + 1 partitions stand in the table.
    fn index(self, k: usize, a: usize) -> usize
        requires { (k ≤ search_limit) × (a ≤ self.sums.blocks) }
        ensures { result ≡ k * self.entry.sums.blocks + a }
    {
        k * self.sums.blocks + a
    }

    // The table's number for the blocks from a on in k partitions.
    fn entry(self, table: &[u64], k: usize, a: usize) -> Option<u64>
        requires { (k ≤ search_limit) × (a ≤ self.sums.blocks) × (k * self.sums.blocks ≤ length table.now) }
        ensures { Read (val_of self.entry.sums.blocks table.now k a) result }
    {
        if a == self.sums.blocks {
            return if k == 0 { Some(BASE) } else { None };
        }
        if k == 0 {
            return None;
        }
        let number = table[self.index(k - 1, a)];
        if number < NONE { Some(number) } else { None }
    }

    // The number of the best layout whose first partition is a ..= e, with k partitions after it.
    fn candidate(self, table: &[u64], k: usize, a: usize, e: usize) -> Option<u64>
        requires inside { (a ≤ e) × (e < self.sums.blocks) × (k < self.sums.blocks) × (k * self.sums.blocks ≤ length table.now) }
        requires row { Row (task_given self) k table.now }
        ensures { Offer (task_given self.entry) a k e (val_of self.entry.sums.blocks table.now k (e + 1)) (stored result) }
    {
        if !self.partition_ok(a, e) {
            return None;
        }
        let rest = self.entry(table, k, e + 1)?;
        Some(rest + self.sums.price(a, e, k as u64 + 1) - BASE)
    }

    // The best of the blocks from a on in k + 1 partitions, by row k of the table.
    fn best_of(self, table: &[u64], k: usize, a: usize) -> Choice
        requires inside { (a ≤ self.sums.blocks) × (k < self.sums.blocks) × (k * self.sums.blocks ≤ length table.now) }
        requires row { Row (task_given self) k table.now }
        ensures { Chose (task_given self.entry) (val_of self.entry.sums.blocks table.now) a k result.number result.first }
    {
        let mut number = NONE;
        let mut first = a;
        for e in a..a + self.end_count(k, a) {
            let x = self.candidate(table, k, a, e).unwrap_or(NONE);
            if x < number {
                number = x;
                first = e;
            }
        }
        Choice { number, first }
    }

    // Past the rows of the table, where the local prices of the partitions that begin at block a stand.
    fn local_index(self, a: usize) -> usize
        requires { a ≤ self.sums.blocks }
        ensures { result ≡ self.entry.sums.blocks * self.entry.sums.blocks + a * self.entry.sums.blocks }
    {
        self.index(self.sums.blocks, 0) + self.index(a, 0)
    }

    // The local prices of the partitions that begin at block a.
    fn fill_local_row(self, table: &mut [u64], a: usize)
        requires { (a < self.sums.blocks) × (2 * (self.sums.blocks * self.sums.blocks) ≤ length table.old) }
        ensures { LocalRow self.entry.sums.places.now self.entry.sums.blocks a self.entry.sums.blocks table.old table.new }
    {
        let at = self.local_index(a);
        for e in a..self.sums.blocks {
            table[at + e] = self.sums.local_price(a, e);
        }
    }

    // Those of all partitions.
    fn fill_local_prices(self, table: &mut [u64])
        requires { 2 * (self.sums.blocks * self.sums.blocks) ≤ length table.old }
        ensures { LocalPrices self.entry.sums.places.now self.entry.sums.blocks self.entry.sums.blocks table.new }
    {
        for a in 0..self.sums.blocks {
            self.fill_local_row(table, a);
        }
    }

    // The number for what comes after block e in k partitions, with k + 1 times the sums of partitions at e + 1.
    fn tail(self, table: &[u64], k: usize, e: usize) -> Option<u64>
        requires inside { (e < self.sums.blocks) × (k < self.sums.blocks) × (k * self.sums.blocks ≤ length table.now) }
        requires row { Row (task_given self) k table.now }
        ensures { Tail self.entry.sums.places.now (task_given self.entry) (λ i. get_or self.entry.fits.now i false) k e (stored result) }
    {
        if !self.fits[e] {
            return None;
        }
        let rest = self.entry(table, k, e + 1)?;
        let own = k as u64 + 1;
        let added = times(self.sums.at(Sum::PerPartitionAdded, e + 1), own);
        let saved = times(self.sums.at(Sum::PerPartitionSaved, e + 1), own);
        Some(rest + added - saved)
    }

    // Those of all ends.
    fn fill_tails(self, table: &[u64], k: usize, tails: &mut [u64])
        requires inside { (k < self.sums.blocks) × (k * self.sums.blocks ≤ length table.now) × (self.sums.blocks ≤ length tails.old) }
        requires row { Row (task_given self) k table.now }
        ensures { Tails self.entry.sums.places.now (task_given self.entry) (λ i. get_or self.entry.fits.now i false) k self.entry.sums.blocks tails.new }
    {
        for e in 0..self.sums.blocks {
            tails[e] = self.tail(table, k, e).unwrap_or(NONE);
        }
    }

    // The number of the best layout of the blocks from a on in k + 1 partitions, by the tails.
    fn best_number(self, table: &[u64], tails: &[u64], k: usize, a: usize) -> Option<u64>
        requires inside { (a < self.sums.blocks) × (k < self.sums.blocks) × (2 * (self.sums.blocks * self.sums.blocks) ≤ length table.now) }
        requires prices { LocalPrices self.sums.places.now self.sums.blocks self.sums.blocks table.now }
        requires tails { Tails self.sums.places.now (task_given self) (λ i. get_or self.fits.now i false) k self.sums.blocks tails.now }
        ensures { Best (task_given self.entry) a (k + 1) (stored result) }
    {
        let at = self.local_index(a);
        let limit = a + self.end_count(k, a);
        let offers = Offers {
            tails: &tails[a..limit],
            prices: &table[at + a..at + limit],
        };
        let low = offers.least();
        if low >= NONE {
            return None;
        }
        let count = k as u64 + 1;
        let added = times(self.sums.at(Sum::PerPartitionAdded, a), count);
        let saved = times(self.sums.at(Sum::PerPartitionSaved, a), count);
        Some(low + saved - added - BASE)
    }

    // Row k + 1 of the table, by row k.
    fn fill_row(self, table: &mut [u64], tails: &mut [u64], k: usize)
        requires inside { (k < self.sums.blocks) × (2 * (self.sums.blocks * self.sums.blocks) ≤ length table.old) × (self.sums.blocks ≤ length tails.old) }
        requires prices { LocalPrices self.sums.places.now self.sums.blocks self.sums.blocks table.old }
        requires row { Row (task_given self) k table.old }
        ensures row { Row (task_given self.entry) (k + 1) table.new }
        ensures kept { Kept self.entry.sums.blocks k table.old table.new }
    {
        self.fill_tails(table, k, tails);
        for a in 0..self.sums.blocks {
            let number = self.best_number(table, tails, k, a);
            table[self.index(k, a)] = number.unwrap_or(NONE);
        }
    }

    // The table of the best in up to `top` partitions.
    fn fill(self, table: &mut [u64], top: usize)
        requires { (top ≤ self.sums.blocks) × (2 * (self.sums.blocks * self.sums.blocks) ≤ length table.old) }
        ensures { Rows (task_given self.entry) top table.new }
    {
        let mut tails = [0u64; SEARCH_LIMIT];
        self.fill_local_prices(table);
        for k in 0..top {
            self.fill_row(table, &mut tails[..], k);
        }
    }

    // How many partitions the least layout has, the fewest first; 0 where there is none.
    fn fewest(self, table: &[u64], top: usize) -> usize
        requires { (0 < self.sums.blocks) × (top ≤ self.sums.blocks) × (self.sums.blocks * self.sums.blocks ≤ length table.now) }
        ensures { Lowest (λ k. val_of self.entry.sums.blocks table.now k 0) (top + 1) result (val_of self.entry.sums.blocks table.now result 0) }
    {
        let mut few = 0;
        let mut low = NONE;
        for k in 0..top + 1 {
            let x = self.entry(table, k, 0).unwrap_or(NONE);
            if x < low {
                low = x;
                few = k;
            }
        }
        few
    }

    // Writes the ends of the first least layout in k partitions.
    fn write_ends(self, table: &[u64], k: usize, out: &mut [u32])
        requires inside { (k ≤ self.sums.blocks) × (self.sums.blocks * self.sums.blocks ≤ length table.now) × (k ≤ length out.old) }
        requires rows { Rows (task_given self) k table.now }
        requires some { val_of self.sums.blocks table.now k 0 < 2 ^ 62 }
        ensures { Written (task_given self.entry) table.now k out.old out.new }
    {
        let mut a = 0;
        for i in 0..k {
            let best = self.best_of(table, k - i - 1, a);
            out[i] = best.first as u32;
            a = best.first + 1;
        }
    }

    // The least layout of the task's blocks in at most `most` partitions.
    pub fn cheapest(self, most: usize, table: &mut [u64], out: &mut [u32]) -> Result<Plan, Refusal>
        requires { (0 < self.sums.blocks) × (2 * (self.sums.blocks * self.sums.blocks) ≤ length table.old) }
        ensures { Answered (task_given self.entry) most out.old out.new (planned_of result) }
    {
        let top = most.min(self.sums.blocks);
        self.fill(table, top);
        let k = self.fewest(table, top);
        let number = self.entry(table, k, 0).ok_or(Refusal::NoLayout)?;
        if out.len() < k {
            return Err(Refusal::Room);
        }
        self.write_ends(table, k, out);
        Ok(Plan {
            count: k as u32,
            cost: unbiased(number),
        })
    }
}

// A number as a cost.
pub fn unbiased(m: u64) -> i64
    requires { m < 2 ^ 62 }
    ensures { result ≡ sub_ℕ m (2 ^ 60) }
{
    m as i64 - SIGNED_BASE
}
