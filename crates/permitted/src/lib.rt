// What the planner and the listing of every layout share (01: permitted layouts): their checks of what they are given, how many blocks a partition may
// have and how many partitions there may be under the limits, and where an end may stand.
#![tactic(auto)]

ghost use Rattle.std.specs.Prelude.{◌≡◌, ◌&&◌, ◌≤◌, [], length, IfOk};
ghost use Rattle.model.specs.Checks.{first_failed};
ghost use Rattle.model.specs.Prices.{price_ok, prices_ok, limits_ok};
ghost use Rattle.model.specs.Layouts.{most_partitions, longest_partition};
ghost use Rattle.model.specs.Bounds.{block_limit};
ghost use Rattle.model.specs.Lent.{set_of, set_given};
ghost use Rattle.model.specs.Refusals.{number_of};
ghost use Rattle.sets.specs.Sized.{Sized};
ghost use Rattle.sets.specs.Checked.{checked_set};
ghost use Rattle.block_costs.specs.Terms.{PricesPass};
ghost use Rattle.permitted.specs.Given.{given_checks, Marked};

use model::{LentSet, Limits, MOST_LIMIT, MOST_PRICE, PriceCard, Records, Refusal};
use sets::CheckedSet;

// Check 1 of one price, of the three, and of the limits.
fn price_ok(p: u32) -> bool
    ensures { result ≡ price_ok p }
{
    1 <= p && p <= MOST_PRICE
}

#[tactic(auto, unfolding(model::specs::Prices::prices_ok))]
pub fn prices_ok(card: PriceCard) -> bool
    ensures { result ≡ prices_ok card }
{
    price_ok(card.rr) && price_ok(card.sr) && price_ok(card.rw)
}

#[tactic(auto, unfolding(model::specs::Prices::limits_ok))]
fn limits_ok(limits: Limits) -> bool
    ensures { result ≡ limits_ok limits }
{
    limits.read <= MOST_LIMIT && limits.insert <= MOST_LIMIT
}

fn given_ok(card: PriceCard, limits: Limits) -> bool
    ensures { result ≡ prices_ok card && limits_ok limits }
{
    prices_ok(card) && limits_ok(limits)
}

// Checks 1, 2, 3, 4, 5, 8, 19 and 9 of the planner and of the listing.
pub fn check_plan<'a>(
    card: PriceCard,
    limits: Limits,
    set: LentSet<'a>,
    histograms: &[u32],
) -> Result<CheckedSet<'a>, Refusal>
    ensures answer { number_of result ≡ first_failed (given_checks block_limit card limits (set_given set.entry) histograms.now) }
    ensures accepted { IfOk result (λ s. checked_set s ≡ set_given set.entry) }
{
    if !given_ok(card, limits) {
        return Err(Refusal::Prices);
    }
    sets::check_counted(histograms, set, true, true, true)
}

// How many blocks a partition may have under the read limit: its first is a random read, each other a sequential one.
#[tactic(auto, unfolding(model::specs::Layouts::longest_partition))]
pub fn longest_partition(card: PriceCard, limits: Limits) -> usize
    requires { PricesPass card }
    ensures { result ≡ longest_partition card limits }
{
    match limits.read.checked_sub(card.rr) {
        Some(rest) => (rest / card.sr) as usize + 1,
        None => 0,
    }
}

// How many partitions there may be under the insert limit.
#[tactic(auto, unfolding(model::specs::Layouts::most_partitions))]
pub fn most_partitions(card: PriceCard, limits: Limits) -> usize
    requires { PricesPass card }
    ensures { result ≡ most_partitions card limits }
{
    (limits.insert / (card.rr + card.rw)).saturating_sub(1) as usize
}

// Where an end may stand, for each of n blocks. The growers alone decide, so that they stand for the weights, yields and days too.
pub fn mark(block: u32, used: u32, growers: &[u32], n: usize, fits: &mut [bool])
    requires sized { Sized block_limit block used (length growers.now) }
    requires n_le_block_limit { (n ≤ block_limit) × (n ≤ length fits.old) }
    ensures { Marked (set_of block used growers.now [] [] []) n fits.old fits.new }
{
    let set = CheckedSet {
        block,
        used,
        records: Records {
            growers,
            weights: growers,
            yields: growers,
            days: growers,
        },
    };
    for i in 0..n {
        let v = set.separates_none(i as u32);
        fits[i] = v;
    }
}
