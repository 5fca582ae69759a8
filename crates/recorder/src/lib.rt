// The recorder (01, 002 section 4.2): what each call raises in the histograms. A refused call leaves them as they are.
#![tactic(auto)]

ghost use Rattle.std.specs.Prelude.{◌≡◌, true, IfOk};
ghost use Rattle.model.specs.Bounds.{block_limit};
ghost use Rattle.model.specs.Blocks.{held};
ghost use Rattle.model.specs.Deliveries.{in_range, day_ok, among};
ghost use Rattle.model.specs.Calls.{find, range, range_days, insert, delete, move};
ghost use Rattle.model.specs.Checks.{first_failed};
ghost use Rattle.model.specs.Lent.{set_given, span_given};
ghost use Rattle.model.specs.Recorder.{record_call};
ghost use Rattle.model.specs.Refusals.{number_of};
ghost use Rattle.sets.specs.Sized.{counted_checks};
ghost use Rattle.sets.specs.Checked.{checked_set};

use histograms::Histogram;
use model::{DaySpan, Delivery, LentSet, MOST_DAY, Refusal};
use sets::CheckedSet;

// Whether the set has the delivery.
fn has_delivery(set: CheckedSet, d: Delivery) -> bool
    ensures { result ≡ among d (held (checked_set set.entry)) }
{
    let held = set.held();
    slices::first_match(held, d) < held.len()
}

// The checks ahead of 10 of a call that offers a delivery.
fn check_delivery<'a>(
    histograms: &[u32],
    set: LentSet<'a>,
    d: Delivery,
) -> Result<CheckedSet<'a>, Refusal>
    ensures answer { number_of result
        ≡ first_failed (counted_checks block_limit (set_given set.entry) histograms.now true (in_range d) (day_ok d)) }
    ensures accepted { IfOk result (λ s. checked_set s ≡ set_given set.entry) }
{
    let values = checks::in_range(d);
    let day = checks::day_ok(d);
    sets::check_counted(histograms, set, true, values, day)
}

// Records a find: pq at the grower's block.
pub fn record_find(histograms: &mut [u32], set: LentSet, grower: u32) -> Result<(), Refusal>
    ensures { record { refusal = number_of result; histograms = histograms.new }
        ≡ record_call block_limit (set_given set.entry) histograms.old (find grower) }
{
    let checked = sets::check_counted(histograms, set, true, true, true)?;
    let b = checked.block_of(grower);
    histograms::raise_one(histograms, Histogram::Pq, b)
}

// Records a range over days as any range: rs at the block of lo, re at that of hi, sc at each between; pq where they are one block.
pub fn record_range_days(
    histograms: &mut [u32],
    set: LentSet,
    lo: u32,
    hi: u32,
    days: DaySpan,
) -> Result<(), Refusal>
    ensures { record { refusal = number_of result; histograms = histograms.new }
        ≡ record_call block_limit (set_given set.entry) histograms.old (range_days lo hi (span_given days)) }
{
    let named = checks::span_ok(days);
    let checked = sets::check_counted(histograms, set, lo <= hi, true, named)?;
    let a = checked.block_of(lo);
    let b = checked.block_of(hi);
    if a == b {
        return histograms::raise_one(histograms, Histogram::Pq, a);
    }
    histograms::raise_span(histograms, a, b)
}

// Records a range: one over all days.
pub fn record_range(histograms: &mut [u32], set: LentSet, lo: u32, hi: u32) -> Result<(), Refusal>
    ensures { record { refusal = number_of result; histograms = histograms.new }
        ≡ record_call block_limit (set_given set.entry) histograms.old (range lo hi) }
{
    let all = DaySpan {
        first: 0,
        last: MOST_DAY,
    };
    record_range_days(histograms, set, lo, hi, all)
}

// Records an insert: in at the grower's block.
pub fn record_insert(histograms: &mut [u32], set: LentSet, d: Delivery) -> Result<(), Refusal>
    ensures { record { refusal = number_of result; histograms = histograms.new }
        ≡ record_call block_limit (set_given set.entry) histograms.old (insert d) }
{
    let checked = check_delivery(histograms, set, d)?;
    let b = checked.block_of(d.grower);
    histograms::raise_one(histograms, Histogram::In, b)
}

// Records a delete: de at the grower's block, or pq there if the set has no such delivery.
pub fn record_delete(histograms: &mut [u32], set: LentSet, d: Delivery) -> Result<(), Refusal>
    ensures { record { refusal = number_of result; histograms = histograms.new }
        ≡ record_call block_limit (set_given set.entry) histograms.old (delete d) }
{
    let checked = check_delivery(histograms, set, d)?;
    let b = checked.block_of(d.grower);
    if has_delivery(checked, d) {
        return histograms::raise_one(histograms, Histogram::De, b);
    }
    histograms::raise_one(histograms, Histogram::Pq, b)
}

// Records a move: udf and utf at the blocks of the old grower and the new if the new is not smaller, else udb and utb;
// pq at the old grower's block if the set has no such delivery.
pub fn record_move(
    histograms: &mut [u32],
    set: LentSet,
    d: Delivery,
    new_grower: u32,
) -> Result<(), Refusal>
    ensures { record { refusal = number_of result; histograms = histograms.new }
        ≡ record_call block_limit (set_given set.entry) histograms.old (move d new_grower) }
{
    let checked = check_delivery(histograms, set, d)?;
    let a = checked.block_of(d.grower);
    if !has_delivery(checked, d) {
        return histograms::raise_one(histograms, Histogram::Pq, a);
    }
    let b = checked.block_of(new_grower);
    if d.grower <= new_grower {
        return histograms::raise_two(histograms, Histogram::Udf, a, Histogram::Utf, b);
    }
    histograms::raise_two(histograms, Histogram::Udb, a, Histogram::Utb, b)
}
