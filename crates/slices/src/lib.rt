// Loops over slices of numbers that several crates share. Each flag loop has one test and no early return, so that it is vectorised.
#![tactic(auto)]

ghost use Rattle.std.specs.Prelude.{◌≡◌, ℕ, Bool, cond, true, false, ◌&&◌, ◌+◌, ◌≤◌, ◌<◌, length, MatchResult, T};
ghost use Rattle.model.specs.Bounds.{block_limit, most_slots};
ghost use Rattle.model.specs.declared.Delivery.{Delivery};
ghost use Rattle.model.specs.Lists.{sum_of, keep, rising, never_falls};
ghost use Rattle.model.specs.Lent.{records_given, span_given};
ghost use Rattle.model.specs.Place.{place};
ghost use Rattle.model.specs.Partitions.{start_of};
ghost use Rattle.model.specs.Calendar.{is_in};
ghost use Rattle.model.specs.Deliveries.{rows, on_days, totals_of, totals_between, totals_during, first_match};
ghost use Rattle.slices.specs.Slices.{all_within, all_zero, chain, record_at, count_between, kept_weights, Measured};

use model::{DaySpan, Delivery, Records, STRIDE, Totals};

// Whether none of s is above most.
pub fn within(s: &[u32], most: u32) -> bool
    ensures { result ≡ all_within most s.now }
{
    let mut good = true;
    for &x in s {
        good &= x <= most;
    }
    good
}

// Whether all of two slices of one length are 0: one pass over both, where `within` would take two.
pub fn zeros(s: &[u32], u: &[u32]) -> bool
    requires { length u.now ≡ length s.now }
    ensures { result ≡ all_zero s.now && all_zero u.now }
{
    let mut good = true;
    for i in 0..s.len() {
        good &= s[i] | u[i] == 0;
    }
    good
}

// Whether each number and the one after it pass a test.
fn neighbours<F: Fn(u32, u32) -> bool>(s: &[u32], pass: F) -> bool
    requires { F.IsAlwaysCallable pass }
    ensures { (p : ℕ → ℕ → Bool) → ((x y : ℕ) (t : Bool) → F.post pass x y t → t ≡ p x y) → result ≡ chain p s.now }
{
    let mut good = true;
    for i in 1..s.len() {
        good &= pass(s[i - 1], s[i]);
    }
    good
}

// Whether each number is greater than the one before it.
pub fn strictly_rising(s: &[u32]) -> bool
    ensures { result ≡ rising s.now }
{
    neighbours(s, |x, y| x < y)
}

// Whether no number is less than the one before it.
pub fn never_falling(s: &[u32]) -> bool
    ensures { result ≡ never_falls s.now }
{
    neighbours(s, |x, y| x <= y)
}

// The sum of s, of which there are few enough that it fits.
pub fn total(s: &[u32]) -> u64
    requires { length s.now ≤ most_slots }
    ensures { result ≡ sum_of s.now }
{
    let mut sum: u64 = 0;
    for &x in s {
        sum += u64::from(x);
    }
    sum
}

// The place of g among rising keys: how many of all but the last are less.
pub fn place_of(keys: &[u32], g: u32) -> usize
    requires { (1 ≤ length keys.now) × (length keys.now ≤ block_limit) × T (rising keys.now) }
    ensures { result ≡ place keys.now g }
{
    let mut t: u32 = 0;
    for i in 0..keys.len() - 1 {
        if keys[i] < g {
            t += 1;
        }
    }
    t as usize
}

// What one pass over the lengths and fences of partitions finds: how many slots are used, a grower's partition and where that starts.
#[derive(Clone, Copy)]
pub struct Place {
    pub used: usize,
    pub target: usize,
    pub start: usize,
}

// Where the fences don't rise, how many slots are used is all that it says. Each sum has its own test, so that the pass is vectorised.
pub fn surveyed(lens: &[u32], fences: &[u32], g: u32) -> Result<Place, usize>
    requires { (1 ≤ length lens.now) × (length lens.now ≤ block_limit) × (length fences.now ≡ length lens.now) }
    ensures { MatchResult result (λ s. (rising fences.now ≡ true) × (s.used ≡ sum_of lens.now)
        × (s.target ≡ place fences.now g) × (s.start ≡ start_of lens.now (place fences.now g)))
        (λ used. (rising fences.now ≡ false) × (used ≡ sum_of lens.now)) }
{
    let mut rising = true;
    let mut used: usize = 0;
    let mut target: u32 = 0;
    let mut start: usize = 0;
    let last = lens.len() - 1;
    for i in 0..last {
        let n = lens[i] as usize;
        let x = fences[i];
        rising &= x < fences[i + 1];
        used += n;
        if x < g {
            target += 1;
            start += n;
        }
    }
    let all = used + lens[last] as usize;
    if !rising {
        return Err(all);
    }
    Ok(Place {
        used: all,
        target: target as usize,
        start,
    })
}

// How many numbers pass a test; counted in 32 bits, as they are, so that the pass is vectorised four at a time.
fn counted<F: Fn(u32) -> bool>(s: &[u32], pass: F) -> usize
    requires few { length s.now ≤ most_slots }
    requires callable { F.IsAlwaysCallable pass }
    ensures { (p : ℕ → Bool) → ((x : ℕ) (t : Bool) → F.post pass x t → t ≡ p x) → result ≡ length (keep p s.now) }
{
    let mut n: u32 = 0;
    for &x in s {
        if pass(x) {
            n += 1;
        }
    }
    n as usize
}

// How many growers are q: one comparison a grower, where a range takes two.
pub fn count_equal(growers: &[u32], q: u32) -> usize
    requires { length growers.now ≤ most_slots }
    ensures { result ≡ count_between q q growers.now }
{
    counted(growers, |x| x == q)
}

// How many of s are lo to hi.
pub fn count_between(s: &[u32], lo: u32, hi: u32) -> usize
    requires { length s.now ≤ most_slots }
    ensures { result ≡ count_between lo hi s.now }
{
    counted(s, |x| (lo <= x) & (x <= hi))
}

// How many growers are lo to hi, of a find and of a range.
fn count(growers: &[u32], lo: u32, hi: u32) -> usize
    requires { length growers.now ≤ most_slots }
    ensures { result ≡ count_between lo hi growers.now }
{
    if lo == hi {
        return count_equal(growers, lo);
    }
    count_between(growers, lo, hi)
}

// Record i.
fn record_at(r: Records, i: usize) -> Delivery
    requires { i < length r.growers.now }
    ensures { result ≡ record_at (records_given r.entry) i }
{
    Delivery {
        grower: r.growers[i],
        weight: r.weights[i],
        oil_yield: r.yields[i],
        day: r.days[i],
    }
}

// A number of a record that is taken, and else 0.
fn if_taken(taken: bool, x: u64) -> u64
    ensures { result ≡ cond taken x 0 }
{
    if taken { x } else { 0 }
}

// The records that pass a test: how many, their weight and their oil. Each sum has its own test, past which nothing is read, so that the pass is
// vectorised.
#[inline(always)]
fn total_of<F: Fn(Delivery) -> bool>(r: Records, pass: F) -> Totals
    requires measured { Measured (records_given r) }
    requires callable { F.IsAlwaysCallable pass }
    ensures { (p : Delivery → Bool) → ((d : Delivery) (t : Bool) → F.post pass d t → t ≡ p d)
        → result ≡ totals_of (keep p (rows (records_given r.entry))) }
{
    let mut records: u64 = 0;
    let mut weight: u64 = 0;
    let mut oil: u64 = 0;
    for i in 0..r.len() {
        let d = record_at(r, i);
        let a = u64::from(d.weight);
        let c = a * u64::from(d.oil_yield);
        let taken = pass(d);
        records += if_taken(taken, 1);
        weight += if_taken(taken, a);
        oil += if_taken(taken, c);
    }
    Totals {
        records,
        weight,
        oil,
    }
}

// All records. The days are lent to name the records; totals do not read them.
fn total_all(r: Records) -> Totals
    requires { Measured (records_given r) }
    ensures { result ≡ totals_of (rows (records_given r.entry)) }
{
    total_of(r, |_| true)
}

// The records whose grower is lo to hi. Counting is cheaper than adding: where none is, or all are, no record is tested again.
#[inline(always)]
pub fn total_stride(r: Records, lo: u32, hi: u32) -> Totals
    requires { Measured (records_given r) }
    ensures { result ≡ totals_between lo hi (rows (records_given r.entry)) }
{
    let k = count(r.growers, lo, hi);
    if k < 1 {
        return Totals::none();
    }
    if k == r.len() {
        return total_all(r);
    }
    total_of(r, |d| (lo <= d.grower) & (d.grower <= hi))
}

// Whether a day is in the span; both tests are made, as in each loop that is vectorised.
fn is_in(days: DaySpan, day: u32) -> bool
    ensures { result ≡ is_in (span_given days) day }
{
    (days.first <= day) & (day <= days.last)
}

// The weight of each record whose day is in the span, and 0 for each other; how many those days have.
fn keep_weights(r: Records, days: DaySpan, kept: &mut [u32]) -> usize
    requires { length kept.old ≡ length r.growers.now }
    ensures { (kept.new ≡ kept_weights (span_given days) r.entry.weights.now r.entry.days.now)
        × (result ≡ count_between days.first days.last r.entry.days.now) }
{
    let mut k: u32 = 0;
    for i in 0..r.len() {
        let weight = r.weights[i];
        let here = is_in(days, r.days[i]);
        kept[i] = if here { weight } else { 0 };
        k += u32::from(here);
    }
    k as usize
}

// The records of a stride whose day is in the span, whoever their grower is: their weights are kept first, four at a time, and then added
// without a test.
fn total_days(r: Records, days: DaySpan) -> Totals
    requires { Measured (records_given r) × (length r.growers.now ≡ 64) }
    ensures { result ≡ totals_of (keep (on_days (span_given days)) (rows (records_given r.entry))) }
{
    let mut kept = [0u32; STRIDE];
    let k = keep_weights(r, days, &mut kept[..]);
    let t = total_all(Records {
        growers: r.growers,
        weights: &kept[..],
        yields: r.yields,
        days: r.days,
    });
    Totals {
        records: k as u64,
        weight: t.weight,
        oil: t.oil,
    }
}

// The records whose grower is lo to hi and whose day is in the span. Where no grower is, nothing is added; where a whole stride's are, only
// the days are tested.
#[inline(always)]
pub fn total_stride_days(r: Records, lo: u32, hi: u32, days: DaySpan) -> Totals
    requires { Measured (records_given r) }
    ensures { result ≡ totals_during lo hi (span_given days) (rows (records_given r.entry)) }
{
    let wanted = count(r.growers, lo, hi);
    if wanted < 1 {
        return Totals::none();
    }
    if r.len() == STRIDE && wanted == STRIDE {
        return total_days(r, days);
    }
    total_of(
        r,
        |d| (lo <= d.grower) & (d.grower <= hi) & is_in(days, d.day),
    )
}

// The first record that is the delivery, or how many there are, as the definition has it: a search goes on from either. Each is tested.
fn first_tested(r: Records, d: Delivery) -> usize
    ensures { result ≡ first_match d (rows (records_given r.entry)) }
{
    for i in 0..r.len() {
        // the grower first: nearly every other record has another
        if d.grower == r.growers[i] && d == record_at(r, i) {
            return i;
        }
    }
    r.len()
}

// The first record that is the delivery, or how many there are. Only where the delivery's grower is among them are the records tested.
#[inline(always)]
pub fn first_in_stride(r: Records, d: Delivery) -> usize
    ensures { result ≡ first_match d (rows (records_given r.entry)) }
{
    if count_equal(r.growers, d.grower) < 1 {
        return r.len();
    }
    first_tested(r, d)
}

// The first record that is the delivery, or how many there are; a stride at a time.
pub fn first_match(r: Records, d: Delivery) -> usize
    ensures { result ≡ first_match d (rows (records_given r.entry)) }
{
    let strides = r.len() / STRIDE;
    for n in 0..strides {
        let i = n * STRIDE;
        let k = first_in_stride(r.part(i, i + STRIDE), d);
        if k < STRIDE {
            return i + k;
        }
    }
    let i = strides * STRIDE;
    i + first_tested(r.part(i, r.len()), d)
}
