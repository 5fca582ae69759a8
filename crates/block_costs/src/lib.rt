// The cost of a block's counts by five terms, from prices and histograms, and the running sums of the terms.
#![tactic(auto)]

ghost use Rattle.std.specs.Prelude.{◌≡◌, ℕ, ◌+◌, ◌*◌, ◌≤◌, ◌<◌, length, get_or};
ghost use Rattle.model.specs.Bounds.{block_limit, most_count, most_price};
ghost use Rattle.histograms.specs.Numbers.{histogram_number};
ghost use Rattle.layout_search.specs.RunningSums.{sums_per_place};
ghost use Rattle.block_costs.specs.Terms.{fixed_of, per_block_before_of, per_block_after_of, per_partition_added_of, per_partition_saved_of, term_of};
ghost use Rattle.block_costs.specs.Terms.{PricesPass, Counted, Summed, Loaded};
ghost use Rattle.block_costs.specs.Price.{PriceIs01, SumsFit};

use histograms::Histogram::{self, De, In, Pq, Re, Rs, Sc, Udb, Udf, Utb, Utf};
use layout_search::SUMS_PER_PLACE;
use model::PriceCard;

// A price times a sum of counts.
fn product(p: u32, c: u64) -> u64
    requires { (p ≤ 2 * most_price) × (c ≤ 5 * most_count) }
    ensures value { result ≡ p * c }
    ensures small { result ≤ 2 * most_price * (5 * most_count) }
{
    u64::from(p) * c
}

// Counts at prices: a card that passes check 1, and histograms that pass check 9.
#[derive(Clone, Copy)]
pub struct PricedCounts<'a> {
    pub card: PriceCard,
    pub histograms: &'a [u32],
    pub ghost priced: { PricesPass card },
    pub ghost counted: { Counted block_limit histograms.now },
}

impl<'a> PricedCounts<'a> {
    // The count of a histogram at block i, and that of two histograms.
    fn count(self, j: Histogram, i: usize) -> u64
        requires { i < block_limit }
        ensures value { result ≡ get_or self.entry.histograms.now (histogram_number j * block_limit + i) 0 }
        ensures small { result ≤ most_count }
    {
        u64::from(self.histograms[j.slot(i)])
    }

    fn counts(self, j: Histogram, k: Histogram, i: usize) -> u64
        requires { i < block_limit }
        ensures value { result ≡ get_or self.entry.histograms.now (histogram_number j * block_limit + i) 0
            + get_or self.entry.histograms.now (histogram_number k * block_limit + i) 0 }
        ensures small { result ≤ 2 * most_count }
    {
        self.count(j, i) + self.count(k, i)
    }

    // A block's five terms.
    fn fixed(self, i: usize) -> u64
        requires { i < block_limit }
        ensures { result ≡ fixed_of block_limit self.entry.card self.entry.histograms.now i }
    {
        let card = self.card;
        let both = card.rr + card.rw;
        let reads = product(card.rr, self.counts(Pq, Rs, i));
        let scans = product(card.sr, self.counts(Re, Sc, i));
        let writes = product(both, self.counts(In, De, i));
        let moves = product(both, self.counts(Udf, Udb, i));
        reads + scans + writes + 2 * moves
    }

    fn per_block_before(self, i: usize) -> u64
        requires { i < block_limit }
        ensures { result ≡ per_block_before_of block_limit self.entry.card self.entry.histograms.now i }
    {
        let c = self.counts(Pq, Rs, i) + self.count(De, i) + self.counts(Udf, Udb, i);
        product(self.card.sr, c)
    }

    fn per_block_after(self, i: usize) -> u64
        requires { i < block_limit }
        ensures { result ≡ per_block_after_of block_limit self.entry.card self.entry.histograms.now i }
    {
        let c = self.counts(Pq, Re, i) + self.count(De, i) + self.counts(Udf, Udb, i);
        product(self.card.sr, c)
    }

    fn per_partition_added(self, i: usize) -> u64
        requires { i < block_limit }
        ensures { result ≡ per_partition_added_of block_limit self.entry.card self.entry.histograms.now i }
    {
        let c = self.counts(In, De, i) + self.counts(Udf, Utb, i);
        product(self.card.rr + self.card.rw, c)
    }

    fn per_partition_saved(self, i: usize) -> u64
        requires { i < block_limit }
        ensures { result ≡ per_partition_saved_of block_limit self.entry.card self.entry.histograms.now i }
    {
        let c = self.counts(Utf, Udb, i);
        product(self.card.rr + self.card.rw, c)
    }

    // What block i adds to the seven sums, in their order (`layout_search`).
    fn terms(self, i: usize) -> [u64; SUMS_PER_PLACE]
        requires { i < block_limit }
        ensures { (q : ℕ) → q < sums_per_place → get_or result q 0 ≡ term_of block_limit self.entry.card self.entry.histograms.now q i }
    {
        let before = self.per_block_before(i);
        let after = self.per_block_after(i);
        [
            self.fixed(i),
            before,
            before * i as u64,
            after,
            after * i as u64,
            self.per_partition_added(i),
            self.per_partition_saved(i),
        ]
    }

    // The sums at place i + 1: those at place i, and what block i adds.
    fn add_block(self, sums: &mut [u64], i: usize)
        requires i_lt_block_limit { (i < block_limit) × ((i + 2) * sums_per_place ≤ length sums.old) }
        requires summed { Summed block_limit self.card self.histograms.now ((i + 1) * sums_per_place) sums.old }
        ensures { Loaded block_limit self.entry.card self.entry.histograms.now ((i + 2) * sums_per_place) sums.old sums.new }
    {
        let terms = self.terms(i);
        let at = i * SUMS_PER_PLACE;
        for q in 0..SUMS_PER_PLACE {
            sums[at + SUMS_PER_PLACE + q] = sums[at + q] + terms[q];
        }
    }

    // The running sums of n blocks.
    pub fn add_up(self, n: usize, sums: &mut [u64])
        requires { (n ≤ block_limit) × ((n + 1) * sums_per_place ≤ length sums.old) }
        ensures { Loaded block_limit self.entry.card self.entry.histograms.now ((n + 1) * sums_per_place) sums.old sums.new }
    {
        sums[..SUMS_PER_PLACE].fill(0);
        for i in 0..n {
            self.add_block(sums, i);
        }
    }
}

// Does nothing: its contract is that the price by the sums is 01's, and that the sums fit, so that both stand in the list of what is proved.
pub fn price_by_sums()
    ensures { PriceIs01 × SumsFit }
{}
