// The checks (01: questions) of one number, one delivery or one slice that several calls put.
// Each answers what its definition says, so that a caller has one test for each.
#![tactic(auto)]

ghost use Rattle.std.specs.Prelude.{◌≡◌, true, false, IfOk, IfErr};
ghost use Rattle.model.specs.Deliveries.{in_range, day_ok};
ghost use Rattle.model.specs.Lent.{slices_given, records_given, span_given};
ghost use Rattle.model.specs.Calls.{span_ok};
ghost use Rattle.model.specs.Blocks.{block_length_ok, slots_ok, slices_ok};
ghost use Rattle.checks.specs.Values.{all_values_ok, all_days_ok, all_undated};

use model::{
    DaySpan, Delivery, LentSlices, MOST_BLOCK_LENGTH, MOST_DAY, MOST_SLOTS, MOST_WEIGHT,
    MOST_YIELD, Records, Refusal,
};

// Check 2 of a block length.
pub fn block_length_ok(b: u32) -> bool
    ensures { result ≡ block_length_ok b }
{
    1 <= b && b <= MOST_BLOCK_LENGTH
}

// Check 3 of one slice's length.
pub fn slots_ok(c: usize) -> bool
    ensures { result ≡ slots_ok c }
{
    1 <= c && c <= MOST_SLOTS
}

// Check 3 of the slices.
pub fn slices_ok(slices: LentSlices) -> bool
    ensures { result ≡ slices_ok (slices_given slices.entry) }
{
    let c = slices.growers.len();
    slices.weights.len() == c && slices.yields.len() == c && slices.days.len() == c && slots_ok(c)
}

// The records of slices that pass check 3.
pub fn records<'a>(slices: LentSlices<'a>) -> Result<Records<'a>, Refusal>
    ensures accepted { IfOk result (λ r. (slices_ok (slices_given slices.entry) ≡ true) × (records_given r ≡ slices_given slices.entry)) }
    ensures refused { IfErr result (λ e. (e ≡ Refusal.Slices) × (slices_ok (slices_given slices.entry) ≡ false)) }
{
    if !slices_ok(slices) {
        return Err(Refusal::Slices);
    }
    Ok(Records {
        growers: slices.growers,
        weights: slices.weights,
        yields: slices.yields,
        days: slices.days,
    })
}

// Check 8 of one delivery.
pub fn in_range(d: Delivery) -> bool
    ensures { result ≡ in_range d }
{
    d.weight <= MOST_WEIGHT && d.oil_yield <= MOST_YIELD
}

// Check 8 of the records of two slices.
pub fn values_ok(w: &[u32], y: &[u32]) -> bool
    ensures { result ≡ all_values_ok w.now y.now }
{
    slices::within(w, MOST_WEIGHT) && slices::within(y, MOST_YIELD)
}

// Check 19 of one delivery.
pub fn day_ok(d: Delivery) -> bool
    ensures { result ≡ day_ok d }
{
    d.day <= MOST_DAY
}

// Check 19 of the days named.
pub fn span_ok(days: DaySpan) -> bool
    ensures { result ≡ span_ok (span_given days) }
{
    days.first <= MOST_DAY && days.last <= MOST_DAY
}

// Check 19 of the records of a slice of days.
pub fn days_ok(n: &[u32]) -> bool
    ensures { result ≡ all_days_ok n.now }
{
    slices::within(n, MOST_DAY)
}

// Check 19 of writing (02: until Slip 9): is every day 0?
pub fn undated(n: &[u32]) -> bool
    ensures { result ≡ all_undated n.now }
{
    slices::within(n, 0)
}
