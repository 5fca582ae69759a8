// How many growers there are in the slots of a span of days (02: Slip 4, "a line per grower"; Slip 7), counted without a lent slice to work
// in, so that a sheet that does not fit is refused before anything is written. A batch of slots is sorted and cut down to one slot for each
// grower, and filled up again, until all slots have been in it. Where there are more growers than MOST, they are counted MOST at a time, the
// smallest first.
#![tactic(auto)]

ghost use Rattle.std.specs.Prelude.{◌≡◌, ℕ, ◌+◌, ◌≤◌, ◌<◌, MatchOption, length, slice_index, T};
ghost use Rattle.model.specs.Bounds.{most_slots};
ghost use Rattle.model.specs.Lists.{never_falls};
ghost use Rattle.model.specs.Lent.{records_given, span_given};
ghost use Rattle.model.specs.Sheet.{each_once, slots_during};
ghost use Rattle.slot_order.specs.Passes.{slots_in, growers_at};
ghost use Rattle.slot_order.specs.Spans.{slots_on};
ghost use Rattle.grower_count.specs.Batches.{during, is_new, FilledUp, Cut, Smallest, Window};

use model::{DaySpan, Records};

// The slots of a batch, the growers that are counted at a time, and the slots that are remembered.
const BATCH: usize = 16384;

const MOST: usize = 8192;

const SEEN: usize = 16384;

// The place at which a slot of a grower is remembered: bits from the middle of a product, so that growers share places seldom.
fn place_of(grower: u32) -> usize
    ensures { result < 16384 }
{
    (u64::from(grower) * 2654435769 / 262144) as usize % SEEN
}

// Which slots are counted: those of these days whose grower is at least lo.
#[derive(Clone, Copy)]
struct Wanted {
    lo: u32,
    days: DaySpan,
}

// Whether slot i is wanted and its grower not that of slot j before it, whose day is one of those wanted.
fn is_new(r: Records, q: Wanted, i: usize, j: usize) -> bool
    requires { i < length r.growers.now }
    ensures { result ≡ is_new r.entry.growers.now (during q r.entry.days.now) q.lo i j }
{
    let g = r.growers[i];
    slot_order::is_during(r.days[i], q.days)
        && q.lo <= g
        && !(j < i && r.growers[j] == g && slot_order::is_during(r.days[j], q.days))
}

// How many slots a batch has, and the slot at which filling stopped.
#[derive(Clone, Copy)]
struct Filled {
    count: usize,
    next: usize,
}

// Slots from one on are added to a batch, those that are wanted and whose grower was not seen in the slot that is remembered for him,
// until the batch is full.
fn fill(
    r: Records,
    q: Wanted,
    from: usize,
    batch: &mut [u32],
    held: usize,
    seen: &mut [u32],
) -> Filled
    requires { (length seen.old ≡ 16384) × (held < length batch.old) × (from < length r.growers.now) }
    ensures { FilledUp r.entry.growers.now (during q r.entry.days.now) q.lo from batch.old held
        batch.new result.count result.next × (from < result.next) × (length seen.new ≡ 16384) }
{
    let mut n = held;
    for i in from..r.len() {
        if n == batch.len() {
            return Filled { count: n, next: i };
        }
        let p = place_of(r.growers[i]);
        let j = seen[p] as usize;
        if is_new(r, q, i, j) {
            seen[p] = i as u32;
            batch[n] = i as u32;
            n += 1;
        }
    }
    Filled {
        count: n,
        next: r.len(),
    }
}

// One slot for each grower of a sorted batch, at its front: how many there are.
fn cut(growers: &[u32], batch: &mut [u32]) -> usize
    requires { T (slots_in growers.now batch.old) × T (never_falls (growers_at growers.now batch.old)) }
    ensures { Cut growers.now batch.old batch.new result }
{
    if batch.is_empty() {
        return 0;
    }
    let mut last = growers[batch[0] as usize];
    let mut n = 1;
    for i in 1..batch.len() {
        let s = batch[i];
        let g = growers[s as usize];
        batch[n] = s;
        if g != last {
            n += 1;
        }
        last = g;
    }
    n
}

// A batch sorted and cut down to one slot for each of the MOST smallest growers: how many there are.
fn keep_smallest(growers: &[u32], batch: &mut [u32], work: &mut [u32]) -> usize
    requires { (length work.old ≡ length batch.old) × (length batch.old ≤ most_slots) × T (slots_in growers.now batch.old) }
    ensures { Smallest growers.now batch.old batch.new result
        × (length work.new ≡ length work.old) }
{
    slot_order::sort(growers, batch, work);
    cut(growers, batch).min(MOST)
}

// A slot of each of the MOST smallest growers that are wanted, in rising order: how many there are.
fn window(r: Records, q: Wanted, batch: &mut [u32], work: &mut [u32], seen: &mut [u32]) -> usize
    requires { (length batch.old ≡ 16384) × (length work.old ≡ 16384) × (length seen.old ≡ 16384) }
    ensures { Window r.entry.growers.now (during q r.entry.days.now) q.lo (length r.entry.growers.now) batch.new result
        × (length batch.new ≡ 16384) × (length work.new ≡ 16384) × (length seen.new ≡ 16384) }
{
    let mut n = 0;
    let mut i = 0;
    // A `while`, since filling says where it stopped.
    while i < r.len() {
        let f = fill(r, q, i, batch, n, seen);
        n = keep_smallest(r.growers, &mut batch[..f.count], &mut work[..f.count]);
        i = f.next;
    }
    n
}

// The number after that of a slot's grower: none where he has the greatest.
fn number_after(growers: &[u32], slot: u32) -> Option<u32>
    requires { slot < length growers.now }
    ensures { MatchOption result ((k : ℕ) → slice_index growers.now k ≤ slice_index growers.now slot) (λ n. n ≡ slice_index growers.now slot + 1) }
{
    growers[slot as usize].checked_add(1)
}

// How many growers there are in the records of these days.
fn count_records(r: Records, days: DaySpan) -> usize
    ensures { result
        ≡ length (each_once (growers_at r.entry.growers.now (slots_on (span_given days) (records_given r.entry)))) }
{
    let mut batch = [0u32; BATCH];
    let mut work = [0u32; BATCH];
    let mut seen = [0u32; SEEN];
    let mut total = 0;
    let mut lo: u32 = 0;
    loop {
        let q = Wanted { lo, days };
        let n = window(r, q, &mut batch[..], &mut work[..], &mut seen[..]);
        total += n;
        if n < MOST {
            return total;
        }
        match number_after(r.growers, batch[MOST - 1]) {
            Some(next) => lo = next,
            None => return total,
        }
    }
}

// How many growers there are in the slots whose day is in the span. Nothing reads the weights and yields, so that the growers stand for them.
pub fn count(growers: &[u32], days: &[u32], span: DaySpan) -> usize
    requires { (length growers.now ≤ most_slots) × (length days.now ≡ length growers.now) }
    ensures { result
        ≡ length (each_once (growers_at growers.now (slots_during (span_given span) days.now (length growers.now)))) }
{
    let records = Records {
        growers,
        weights: growers,
        yields: growers,
        days,
    };
    count_records(records, span)
}
