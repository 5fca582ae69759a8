// The program layplan as a function (01: book and program): from its whole input to its whole output, as bytes.
// The whole text is judged first; then the calls are recorded straight from it, so that no list of calls is kept.
#![tactic(auto)]

ghost use Rattle.std.specs.Prelude.{◌≡◌, ℕ, ◌+◌, ◌*◌, ◌≤◌, length, replicate, T};
ghost use Rattle.model.specs.Bounds.{block_limit, most_calls};
ghost use Rattle.model.specs.Recorder.{record_call};
ghost use Rattle.model.specs.Program.{call_of, sizes_ok, record_until_refused, partition_texts, week_text, plan_text, layplan};
ghost use Rattle.model.specs.Lent.{set_given, slices_given};
ghost use Rattle.model.specs.Refusals.{number_of};
ghost use Rattle.fields.specs.Writing.{placed};
ghost use Rattle.lines.specs.Lines.{text_checked, line_ok};
ghost use Rattle.layplan_text.specs.Week.{call_by, call_given, call_said, call_told, call_found, call_at, calls_at, calls_ok};
ghost use Rattle.layplan_text.specs.Week.{head_ok, week_ok, card_in, limits_in, week_in, plan_in};
ghost use Rattle.layplan_text.specs.Texts.{output_of, ends_text, EndsFit};

use fields::{SIGNED_WIDTH, WIDTH};
use lines::{Output, THREE, TWO};
use model::{
    BLOCK_LIMIT, Delivery, HISTOGRAMS_SIZE, LentSet, LentSlices, Limits, PriceCard, Refusal,
};

// The kinds of calls as a text has them (01: find, range, insert, delete, move).
const FIND: u32 = 1;

const RANGE: u32 = 2;

const INSERT: u32 = 3;

const DELETE: u32 = 4;

const MOVE: u32 = 5;
// The most deliveries and calls of a week (01: 1,024 and 1,000).
const MOST_DELIVERIES: usize = 1024;

const MOST_CALLS: u32 = 1000;
// Where the limits stand, then the block length, M and Q, then the deliveries.
const LIMITS_AT: usize = THREE;

const SIZES_AT: usize = LIMITS_AT + TWO;

const USED_AT: usize = SIZES_AT + WIDTH;

const COUNT_AT: usize = USED_AT + WIDTH;

const DELIVERIES_AT: usize = SIZES_AT + THREE;

const WEIGHTS_AT: usize = DELIVERIES_AT + WIDTH;

const YIELDS_AT: usize = WEIGHTS_AT + WIDTH;
// The bytes of a call's line.
const FIVE: usize = 5 * WIDTH + 1;
// Slots for the most deliveries and one more.
const SLOTS: usize = MOST_DELIVERIES + 1;
// Where K and the bill end (01: 11 and 20 columns), where the partitions stand, and the longest output.
const BILL_END: usize = WIDTH + SIGNED_WIDTH;

const PARTITIONS_AT: usize = BILL_END + 1;

const OUTPUT: usize = PARTITIONS_AT + TWO * BLOCK_LIMIT;

// A call of a week (01: find, range, insert, delete, move).
#[derive(Clone, Copy)]
enum Call {
    Find(u32),
    Range(u32, u32),
    Insert(Delivery),
    Delete(Delivery),
    Move(Delivery, u32),
}

// The call that five numbers say by their kind, the last where it is none of the others, whatever the unused numbers are.
fn call_by(numbers: [u32; 5]) -> Call
    ensures { call_given result ≡ call_by numbers }
{
    let [kind, a, b, c, d] = numbers;
    let delivery = Delivery {
        grower: a,
        weight: b,
        oil_yield: c,
        day: 0,
    };
    match kind {
        FIND => Call::Find(a),
        RANGE => Call::Range(a, b),
        INSERT => Call::Insert(delivery),
        DELETE => Call::Delete(delivery),
        _ => Call::Move(delivery, d),
    }
}

// The call that the five numbers of a line say: the kind, then each unused number 0.
fn call_of(numbers: [u32; 5]) -> Option<Call>
    ensures { call_said result ≡ call_of numbers }
{
    let [kind, _, b, c, d] = numbers;
    // Two arms of d: `INSERT | DELETE` was tried, and gives the proof no name for its kinds.
    let unused = match kind {
        FIND => b | c | d,
        RANGE => c | d,
        INSERT => d,
        DELETE => d,
        MOVE => 0,
        _ => return None,
    };
    (unused == 0).then_some(call_by(numbers))
}

// The call of the line at a byte.
fn call_at(text: &[u8], at: usize) -> Result<Call, Refusal>
    ensures { call_told result ≡ call_found at text.now }
{
    call_of(lines::line_at::<5>(text, at)?).ok_or(Refusal::Text)
}

// Whether q such lines stand there.
fn check_calls(text: &[u8], at: usize, q: usize) -> Result<(), Refusal>
    requires { (at ≤ 100000) × (q ≤ most_calls) }
    ensures { result ≡ text_checked (calls_ok q at text.now) }
{
    let mut e = at;
    for i in 0..q {
        call_at(text, e)?;
        e += FIVE;
    }
    Ok(())
}

// Whether M is 1 to 1,024 and Q at most 1,000.
fn sizes_ok(m: u32, q: u32) -> bool
    ensures { result ≡ sizes_ok m q }
{
    1 <= m && m as usize <= MOST_DELIVERIES && q <= MOST_CALLS
}

// Whether a text has its first three lines, M and Q in range.
fn check_head(text: &[u8]) -> Result<(), Refusal>
    ensures { result ≡ text_checked (head_ok text.now) }
{
    lines::line_at::<3>(text, 0)?;
    lines::line_at::<2>(text, LIMITS_AT)?;
    let [_, m, q] = lines::line_at::<3>(text, SIZES_AT)?;
    if !sizes_ok(m, q) {
        return Err(Refusal::Text);
    }
    Ok(())
}

// Whether a text is an input: every line, M, Q, each kind and unused number, and no line left over.
fn check_week(text: &[u8]) -> Result<(), Refusal>
    ensures { result ≡ text_checked (week_ok text.now) }
{
    check_head(text)?;
    let m = fields::spelled_at(text, USED_AT) as usize;
    let q = fields::spelled_at(text, COUNT_AT) as usize;
    lines::check_lines::<3>(text, DELIVERIES_AT, m)?;
    let a = DELIVERIES_AT + THREE * m;
    check_calls(text, a, q)?;
    if a + FIVE * q < text.len() {
        return Err(Refusal::Text);
    }
    Ok(())
}

// The call of the line at a byte, which has been judged.
fn judged_call_at(text: &[u8], at: usize) -> Call
    requires { (at ≤ 1000000) × T (line_ok 5 at text.now) }
    ensures { call_given result ≡ call_at at text.now }
{
    let kind = fields::spelled_at(text, at);
    let a = fields::spelled_at(text, at + WIDTH);
    let p = at + WIDTH + WIDTH;
    let b = fields::spelled_at(text, p);
    let c = fields::spelled_at(text, p + WIDTH);
    let d = fields::spelled_at(text, p + WIDTH + WIDTH);
    call_by([kind, a, b, c, d])
}

// Records a call.
fn record_one(h: &mut [u32], set: LentSet, call: Call) -> Result<(), Refusal>
    ensures { record { refusal = number_of result; histograms = h.new }
        ≡ record_call block_limit (set_given set.entry) h.old (call_given call) }
{
    match call {
        Call::Find(grower) => recorder::record_find(h, set, grower),
        Call::Range(lo, hi) => recorder::record_range(h, set, lo, hi),
        Call::Insert(delivery) => recorder::record_insert(h, set, delivery),
        Call::Delete(delivery) => recorder::record_delete(h, set, delivery),
        Call::Move(delivery, grower) => recorder::record_move(h, set, delivery, grower),
    }
}

// Records q calls, from a byte on, up to the first that is refused.
fn record_lines(
    text: &[u8],
    at: usize,
    q: usize,
    histograms: &mut [u32],
    set: LentSet,
) -> Result<(), Refusal>
    requires { (at ≤ 100000) × (q ≤ most_calls) × T (calls_ok q at text.now) }
    ensures { record { refusal = number_of result; histograms = histograms.new }
        ≡ record_until_refused (set_given set.entry) histograms.old (calls_at q at text.now) }
{
    let mut e = at;
    for i in 0..q {
        let call = judged_call_at(text, e);
        record_one(histograms, set, call)?;
        e += FIVE;
    }
    Ok(())
}

// Each partition's first and last block, from a byte on.
fn put_ends(text: &mut [u8], at: usize, ends: &[u32])
    requires { (at + 23 * length ends.now ≤ length text.old) × EndsFit block_limit ends.now }
    ensures { text.new ≡ placed at (partition_texts 0 ends.now) text.old }
{
    let mut e = at;
    let mut first = 0;
    for &last in ends {
        lines::put_line(text, e, &[first, last]);
        first = last + 1;
        e += TWO;
    }
}

// The output of a plan: K, the bill, and the partitions.
fn planned(cost: i64, ends: &[u32]) -> Output<OUTPUT>
    requires { (length ends.now ≤ block_limit) × EndsFit block_limit ends.now }
    ensures { result ≡ output_of (ends_text cost ends.now) }
{
    let mut bytes = [0u8; OUTPUT];
    let k = ends.len();
    fields::put_number(&mut bytes, 0, k as u32);
    fields::put_signed(&mut bytes, WIDTH, cost);
    bytes[BILL_END] = b'\n';
    put_ends(&mut bytes, PARTITIONS_AT, ends);
    let count = PARTITIONS_AT + TWO * k;
    Output { bytes, count }
}

// The price card of a text whose first lines have been judged.
fn card_of(text: &[u8]) -> PriceCard
    requires { T (head_ok text.now) }
    ensures { result ≡ card_in text.now }
{
    PriceCard {
        rr: fields::spelled_at(text, 0),
        sr: fields::spelled_at(text, WIDTH),
        rw: fields::spelled_at(text, 2 * WIDTH),
    }
}

// Its limits.
fn limits_of(text: &[u8]) -> Limits
    requires { T (head_ok text.now) }
    ensures { result ≡ limits_in text.now }
{
    Limits {
        read: fields::spelled_at(text, LIMITS_AT),
        insert: fields::spelled_at(text, LIMITS_AT + WIDTH),
    }
}

// Plans from the recorded calls.
fn plan(text: &[u8], histograms: &[u32], set: LentSet) -> Output<OUTPUT>
    requires { T (head_ok text.now) }
    ensures { result ≡ output_of (plan_text (plan_in block_limit text.now
        (set_given set.entry) histograms.now (replicate block_limit 0))) }
{
    let card = card_of(text);
    let limits = limits_of(text);
    let mut ends = [0u32; BLOCK_LIMIT];
    match planner::plan(card, limits, set, histograms, &mut ends[..]) {
        Ok(p) => {
            let k = p.count as usize;
            planned(p.cost, &ends[..k])
        }
        Err(refusal) => Output::one_number(refusal.number()),
    }
}

// Records the calls and plans, the deliveries in slices.
fn answer(text: &[u8], slices: LentSlices) -> Output<OUTPUT>
    requires { T (week_ok text.now) }
    ensures { result ≡ output_of (week_text (week_in text.now (slices_given slices.entry))) }
{
    let block = fields::spelled_at(text, SIZES_AT);
    let used = fields::spelled_at(text, USED_AT);
    let q = fields::spelled_at(text, COUNT_AT) as usize;
    let a = DELIVERIES_AT + THREE * used as usize;
    let mut histograms = [0u32; HISTOGRAMS_SIZE];
    let set = LentSet {
        block,
        used,
        slices,
    };
    if let Err(refusal) = record_lines(text, a, q, &mut histograms[..], set) {
        return Output::one_number(refusal.number());
    }
    plan(text, &histograms[..], set)
}

// The program's output for an input.
pub fn layplan_text(text: &[u8]) -> Output<OUTPUT>
    ensures { result ≡ output_of (layplan text.now) }
{
    if let Err(refusal) = check_week(text) {
        return Output::one_number(refusal.number());
    }
    let m = fields::spelled_at(text, USED_AT) as usize;
    let mut growers = [0u32; SLOTS];
    let mut weights = [0u32; SLOTS];
    let mut yields = [0u32; SLOTS];
    let days = [0u32; SLOTS];
    lines::store(text, DELIVERIES_AT, &mut growers[..m]);
    lines::store(text, WEIGHTS_AT, &mut weights[..m]);
    lines::store(text, YIELDS_AT, &mut yields[..m]);
    let c = m + 1;
    let slices = LentSlices {
        growers: &growers[..c],
        weights: &weights[..c],
        yields: &yields[..c],
        days: &days[..c],
    };
    answer(text, slices)
}
