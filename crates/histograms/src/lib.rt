// The ten histograms in one slice (01: 640 numbers): check 9, where a count stands, and raising counts with check 10.
#![tactic(auto)]

ghost use Rattle.std.specs.Prelude.{◌≡◌, ◌+◌, ◌-◌, ◌*◌, ◌≤◌, ◌<◌, [], ◌∷◌, length, get_or, set, T};
ghost use Rattle.model.specs.Bounds.{block_limit, most_count};
ghost use Rattle.model.specs.Lists.{up_from};
ghost use Rattle.model.specs.Histograms.{histograms_size, counts_ok};
ghost use Rattle.model.specs.Refusals.{number_of};
ghost use Rattle.histograms.specs.Numbers.{histogram_number};
ghost use Rattle.histograms.specs.Raising.{recorded, raise_slots, room_at, raised_at, span_slots};

use model::{BLOCK_LIMIT, HISTOGRAMS_SIZE, MOST_COUNT, Refusal};

// The greatest count that can be raised.
const MOST_TO_RAISE: u32 = MOST_COUNT - 1;

// Which of the ten, in the order of 01.
#[derive(Clone, Copy, Debug)]
pub enum Histogram {
    Pq,
    Rs,
    Re,
    Sc,
    De,
    In,
    Udf,
    Utf,
    Udb,
    Utb,
}

impl Histogram {
    // Where its count at block i stands.
    pub fn slot(self, i: usize) -> usize
        requires { i ≤ block_limit }
        ensures { result ≡ histogram_number self * block_limit + i }
    {
        self as usize * BLOCK_LIMIT + i
    }
}

// Check 9 of the histograms.
pub fn counts_ok(h: &[u32]) -> bool
    ensures { result ≡ counts_ok block_limit h.now }
{
    h.len() == HISTOGRAMS_SIZE && slices::within(h, MOST_COUNT)
}

// One count raised, which has room.
fn raise(h: &mut [u32], k: usize)
    requires { (k < length h.old) × (get_or h.old k 0 < most_count) }
    ensures { h.new ≡ set h.old k (get_or h.old k 0 + 1) }
{
    h[k] += 1;
}

// The counts of slots f to t - 1 raised, which have room.
fn raise_each(h: &mut [u32], f: usize, t: usize)
    requires { (f ≤ t) × (t ≤ length h.old) × T (room_at h.old (up_from f (t - f))) }
    ensures { h.new ≡ raise_slots h.old (up_from f (t - f)) }
{
    for i in f..t {
        h[i] += 1;
    }
}

// The count of a histogram at block a raised, or 10.
pub fn raise_one(h: &mut [u32], j: Histogram, a: usize) -> Result<(), Refusal>
    requires { (a < block_limit) × (length h.old ≡ histograms_size block_limit) }
    ensures { recorded (number_of result) h.new ≡ raised_at h.old ((histogram_number j * block_limit + a) ∷ []) }
{
    let i = j.slot(a);
    if h[i] < MOST_COUNT {
        raise(h, i);
        return Ok(());
    }
    Err(Refusal::Overflow)
}

// The counts of histogram j at block a and of the later histogram k at block b raised, or 10.
// Not raise_one twice: both counts must have room before one is raised.
pub fn raise_two(
    h: &mut [u32],
    j: Histogram,
    a: usize,
    k: Histogram,
    b: usize,
) -> Result<(), Refusal>
    requires { (histogram_number j < histogram_number k) × (a < block_limit) × (b < block_limit) × (length h.old ≡ histograms_size block_limit) }
    ensures { recorded (number_of result) h.new
        ≡ raised_at h.old ((histogram_number j * block_limit + a) ∷ (histogram_number k * block_limit + b) ∷ []) }
{
    let m = j.slot(a);
    let n = k.slot(b);
    if MOST_COUNT <= h[m] {
        return Err(Refusal::Overflow);
    }
    if MOST_COUNT <= h[n] {
        return Err(Refusal::Overflow);
    }
    raise(h, m);
    raise(h, n);
    Ok(())
}

// The counts of a range over blocks a to b raised, or 10.
pub fn raise_span(h: &mut [u32], a: usize, b: usize) -> Result<(), Refusal>
    requires { (a < b) × (b < block_limit) × (length h.old ≡ histograms_size block_limit) }
    ensures { recorded (number_of result) h.new ≡ raised_at h.old (span_slots block_limit a b) }
{
    let j = Histogram::Rs.slot(a);
    let k = Histogram::Re.slot(b);
    let f = Histogram::Sc.slot(a + 1);
    let t = Histogram::Sc.slot(b);
    if MOST_COUNT <= h[j] {
        return Err(Refusal::Overflow);
    }
    if MOST_COUNT <= h[k] {
        return Err(Refusal::Overflow);
    }
    if !slices::within(&h[f..t], MOST_TO_RAISE) {
        return Err(Refusal::Overflow);
    }
    raise(h, j);
    raise(h, k);
    raise_each(h, f, t);
    Ok(())
}
