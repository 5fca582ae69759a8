// Scans of a column's partitions (01): each is handed only its partition's records.
#![tactic(auto)]

ghost use Rattle.std.specs.Prelude.{◌≡◌, ◌+◌, ◌-◌, ◌≤◌, ◌<◌, length, true, cond, ◌&&◌, T};
ghost use Rattle.model.specs.declared.refusal.Refusal.TheVariants.{Values, Days};
ghost use Rattle.model.specs.Bounds.{most_slots, most_day};
ghost use Rattle.model.specs.Calendar.{Span};
ghost use Rattle.model.specs.Lent.{records_given, span_given};
ghost use Rattle.model.specs.Lists.{sum_of, every};
ghost use Rattle.model.specs.Deliveries.{rows, LightTotals, in_range, day_ok, totals_during, first_match};
ghost use Rattle.model.specs.Partitions.{start_of};
ghost use Rattle.model.specs.Accesses.{blocks_of, reads_of};
ghost use Rattle.slices.specs.Slices.{Measured};
ghost use Rattle.scan.specs.Scans.{all_fit, if_fit, every_day, sought, records_in, scan_of};

use model::{Counts, DaySpan, Delivery, MOST_DAY, Records, Refusal, STRIDE, Totals};

// Records that a search judges and passes over at a time: with four slices it is bound by what a stride takes beside its loops.
const LONG_STRIDE: usize = 2 * STRIDE;

// How many blocks a partition of this many records counts as; an empty one counts none.
pub fn blocks_of(records: usize, block: u32) -> u64
    requires { (1 ≤ block) × (records ≤ most_slots) }
    ensures { result ≡ blocks_of block records }
{
    let b = u64::from(block);
    (records as u64 + (b - 1)) / b
}

// Of the blocks scanned the first is a random read, each other a sequential one; where there is none, nothing was read.
pub fn reads_of(blocks: u64) -> Counts
    ensures { result ≡ reads_of blocks }
{
    if blocks == 0 {
        return Counts::none();
    }
    Counts {
        rr: 1,
        sr: blocks - 1,
        rw: 0,
    }
}

// Whether all records pass checks 8 and 19. The growers are lent to name the records.
fn all_fit(r: Records) -> bool
    ensures { result ≡ all_fit (rows (records_given r.entry)) }
{
    checks::values_ok(r.weights, r.yields) && checks::days_ok(r.days)
}

// The days that a sum asks for. Each kind has a loop of its own, short enough to be laid out in its caller.
trait Days: Copy {
    ghost span_asked: { Self → Span };

    // The records whose grower is lo to hi, on the days.
    fn total(self, r: Records, lo: u32, hi: u32) -> Totals
        requires { Measured (records_given r) × T (every day_ok (rows (records_given r))) }
        ensures { result ≡ totals_during lo hi (span_asked self) (rows (records_given r.entry)) };
}

// All days that there are: no record's day is tested twice.
#[derive(Clone, Copy)]
struct EveryDay;

impl Days for EveryDay {
    ghost span_asked = { λ days. every_day };

    #[inline(always)]
    fn total(self, r: Records, lo: u32, hi: u32) -> Totals {
        slices::total_stride(r, lo, hi)
    }
}

impl Days for DaySpan {
    ghost span_asked = { λ days. span_given days };

    #[inline(always)]
    fn total(self, r: Records, lo: u32, hi: u32) -> Totals {
        slices::total_stride_days(r, lo, hi, self)
    }
}

// Records judged, counted and added while they are at hand; nothing where one fails check 8 or 19. Inlined, so that a stride's length is known.
#[inline(always)]
fn sum_stride<D: Days>(r: Records, lo: u32, hi: u32, days: D) -> Option<Totals>
    ensures { result ≡ if_fit (rows (records_given r.entry)) (totals_during lo hi (D.span_asked days) (rows (records_given r.entry))) }
{
    if all_fit(r) {
        return Some(days.total(r, lo, hi));
    }
    None
}

// All records, a stride at a time.
fn sum_all<D: Days>(r: Records, lo: u32, hi: u32, days: D) -> Option<Totals>
    ensures { result ≡ if_fit (rows (records_given r.entry)) (totals_during lo hi (D.span_asked days) (rows (records_given r.entry))) }
{
    let mut sum = Totals::none();
    let strides = r.len() / STRIDE;
    for n in 0..strides {
        let i = n * STRIDE;
        sum = sum.plus(sum_stride(r.part(i, i + STRIDE), lo, hi, days)?);
    }
    let i = strides * STRIDE;
    let end = r.len();
    Some(sum.plus(sum_stride(r.part(i, end), lo, hi, days)?))
}

// The records of one partition. Which of the two loops it takes is chosen once.
fn sum_part(r: Records, lo: u32, hi: u32, days: DaySpan) -> Option<Totals>
    ensures { result ≡ if_fit (rows (records_given r.entry)) (totals_during lo hi (span_given days) (rows (records_given r.entry))) }
{
    if days.first == 0 && days.last == MOST_DAY {
        return sum_all(r, lo, hi, EveryDay);
    }
    sum_all(r, lo, hi, days)
}

// What a scan says of records that all pass checks 8 and 19: the totals of lo to hi on the days asked for, and the blocks.
#[derive(Clone, Copy)]
pub struct Scan {
    pub totals: Totals,
    pub blocks: u64,
}

// The partitions from one to another, one after the other; the first begins at start. An empty one is passed over. Nothing where a record fails
// check 8 or 19.
pub fn scan_parts(
    r: Records,
    lens: &[u32],
    from: usize,
    to: usize,
    start: usize,
    block: u32,
    lo: u32,
    hi: u32,
    days: DaySpan,
) -> Option<Scan>
    requires { (from ≤ to) × (to < length lens.now) × (sum_of lens.now ≤ length r.growers.now) × (1 ≤ block) × (start ≡ start_of lens.now from) }
    ensures { result ≡ scan_of block lens.entry.now from (to + 1 - from) lo hi (span_given days) (rows (records_given r.entry)) }
{
    let mut at = start;
    let mut totals = Totals::none();
    let mut blocks = 0;
    for i in from..to + 1 {
        let k = lens[i] as usize;
        if 0 < k {
            let e = at + k;
            totals = totals.plus(sum_part(r.part(at, e), lo, hi, days)?);
            blocks += blocks_of(k, block);
            at = e;
        }
    }
    Some(Scan { totals, blocks })
}

// Which check the partitions of a bad scan fail: 8 if a value is out of range anywhere in them, and else 19. They are one part of each slice.
pub fn failed_check(r: Records, lens: &[u32], from: usize, to: usize, start: usize) -> Refusal
    requires { (from ≤ to) × (to < length lens.now) × (length lens.now ≤ most_slots) × (sum_of lens.now ≤ length r.growers.now)
        × (start ≡ start_of lens.now from) }
    ensures { result ≡ cond (every in_range (records_in lens.entry.now from (to + 1 - from) (rows (records_given r.entry)))) Days Values }
{
    let end = to + 1;
    let stop = start + slices::total(&lens[from..end]) as usize;
    let scanned = r.part(start, stop);
    if checks::values_ok(scanned.weights, scanned.yields) {
        return Refusal::Days;
    }
    Refusal::Values
}

// A search goes on to more records, which i records are before; found is the first match among those, or i. They are judged while they are at
// hand, those after the match too. Inlined, so that a stride's length is known.
#[inline(always)]
fn seek_stride(found: usize, r: Records, i: usize, d: Delivery) -> Option<usize>
    requires { i ≤ most_slots }
    ensures { result ≡ if_fit (rows (records_given r.entry)) (sought d found i (rows (records_given r.entry))) }
{
    if !all_fit(r) {
        return None;
    }
    if found < i {
        return Some(found);
    }
    Some(i + slices::first_in_stride(r, d))
}

// The first record that is the delivery, or how many there are, LONG_STRIDE at a time; nothing where one fails check 8 or 19.
pub fn seek_all(r: Records, d: Delivery) -> Option<usize>
    ensures { result ≡ if_fit (rows (records_given r.entry)) (first_match d (rows (records_given r.entry))) }
{
    let mut found = 0;
    let strides = r.len() / LONG_STRIDE;
    for n in 0..strides {
        let i = n * LONG_STRIDE;
        found = seek_stride(found, r.part(i, i + LONG_STRIDE), i, d)?;
    }
    let i = strides * LONG_STRIDE;
    seek_stride(found, r.part(i, r.len()), i, d)
}
