// The cost of a given layout and the search for the cheapest permitted one (01: the bill; permitted layouts).
#![tactic(auto)]

ghost use Rattle.std.specs.Prelude.{◌≡◌, ◌≤◌, ◌<◌, IfOk};
ghost use Rattle.model.specs.Checks.{first_failed};
ghost use Rattle.model.specs.Questions.{cost_checks};
ghost use Rattle.model.specs.Planner.{cost_call, plan_call};
ghost use Rattle.model.specs.Bounds.{block_limit};
ghost use Rattle.model.specs.Lent.{set_given};
ghost use Rattle.model.specs.Refusals.{number_of};
ghost use Rattle.model.specs.Answers.{costed_of, planned_of};
ghost use Rattle.sets.specs.Checked.{checked_set};
ghost use Rattle.layout_search.specs.Given.{task_given};
ghost use Rattle.layout_search.specs.Answer.{Answered};

use block_costs::PricedCounts;
use layout_search::{SUMS_PER_PLACE, Sums, Task};
use model::{BLOCK_LIMIT, LentSet, Limits, Plan, PriceCard, Refusal};
use sets::CheckedSet;

// The running sums of all blocks.
const SUMS: usize = (BLOCK_LIMIT + 1) * SUMS_PER_PLACE;

// A table of the best for each first block and each count of partitions, and of the local prices; a small one serves so many blocks.
const TABLE: usize = 2 * BLOCK_LIMIT * BLOCK_LIMIT;

const FEW_BLOCKS: usize = 32;

const SMALL_TABLE: usize = 2 * FEW_BLOCKS * FEW_BLOCKS;

// Checks 1, 2, 3, 4, 5, 6, 8, 19 and 9 of a cost.
fn check_cost<'a>(
    card: PriceCard,
    set: LentSet<'a>,
    ends: &[u32],
    histograms: &[u32],
) -> Result<CheckedSet<'a>, Refusal>
    ensures answer { number_of result ≡ first_failed (cost_checks block_limit card (set_given set.entry) ends.now histograms.now) }
    ensures accepted { IfOk result (λ s. checked_set s ≡ set_given set.entry) }
{
    if !permitted::prices_ok(card) {
        return Err(Refusal::Prices);
    }
    let checked = sets::check_layout(set, ends)?;
    if !histograms::counts_ok(histograms) {
        return Err(Refusal::Histograms);
    }
    Ok(checked)
}

// The search with a table of its own: with few blocks a small one, since a table is cleared first.
fn searched(task: Task, most: usize, ends: &mut [u32]) -> Result<Plan, Refusal>
    requires { (0 < task.sums.blocks) × (task.sums.blocks ≤ block_limit) }
    ensures { Answered (task_given task.entry) most ends.old ends.new (planned_of result) }
{
    if task.sums.blocks <= FEW_BLOCKS {
        let mut small = [0u64; SMALL_TABLE];
        return task.cheapest(most, &mut small[..], ends);
    }
    let mut table = [0u64; TABLE];
    task.cheapest(most, &mut table[..], ends)
}

// The cheapest permitted layout: its ends go to the front of `ends`, and what lies past them stays.
pub fn plan(
    card: PriceCard,
    limits: Limits,
    set: LentSet,
    histograms: &[u32],
    ends: &mut [u32],
) -> Result<Plan, Refusal>
    ensures { record { answer = planned_of result; ends = ends.new }
        ≡ plan_call block_limit card limits (set_given set.entry) histograms.now ends.old }
{
    let checked = permitted::check_plan(card, limits, set, histograms)?;
    let n = checked.block_count() as usize;
    let longest = permitted::longest_partition(card, limits);
    let most = permitted::most_partitions(card, limits);
    let mut sums = [0u64; SUMS];
    let mut fits = [false; BLOCK_LIMIT];
    let counts = PricedCounts { card, histograms };
    counts.add_up(n, &mut sums[..]);
    let growers = checked.records.growers;
    permitted::mark(checked.block, checked.used, growers, n, &mut fits[..]);
    let task = Task {
        sums: Sums {
            places: &sums[..],
            blocks: n,
        },
        fits: &fits[..],
        longest,
    };
    searched(task, most, ends)
}

// The cost of a given layout.
pub fn cost(card: PriceCard, set: LentSet, ends: &[u32], histograms: &[u32]) -> Result<i64, Refusal>
    ensures { costed_of result ≡ cost_call block_limit card (set_given set.entry) ends.now histograms.now }
{
    let checked = check_cost(card, set, ends, histograms)?;
    let blocks = checked.block_count() as usize;
    let mut sums = [0u64; SUMS];
    let counts = PricedCounts { card, histograms };
    counts.add_up(blocks, &mut sums[..]);
    let given = Sums {
        places: &sums[..],
        blocks,
    };
    let m = given.layout_number(ends);
    Ok(layout_search::unbiased(m))
}
