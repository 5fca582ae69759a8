// The next grower with deliveries (02: Slip 3): partitions one after the other, upward or downward. Each search is handed only its
// partition's records. A type names the way: what differs between the two is in its impl, and each search is written once.
#![tactic(auto)]

ghost use Rattle.std.specs.Prelude.{◌≡◌, true, ◌+◌, ◌≤◌, ◌<◌, length};
ghost use Rattle.model.specs.Bounds.{block_limit, most_slots, most_number};
ghost use Rattle.model.specs.Lent.{records_given, slices_part};
ghost use Rattle.model.specs.Lists.{sum_of, keep};
ghost use Rattle.model.specs.Deliveries.{rows};
ghost use Rattle.model.specs.Partitions.{parts, start_of};
ghost use Rattle.model.specs.Accesses.{reads_of};
ghost use Rattle.model.specs.Growers.{Direction, up, down, at_or_past, nearer, nearest_of, path};
ghost use Rattle.model.specs.GrowerCalls.{grower_answer};
ghost use Rattle.model.specs.Answers.{grower_answer_of};
ghost use Rattle.growers.specs.Ways.{either, onward, Within, lower};
ghost use Rattle.growers.specs.Searches.{last_number, nearest_or, none_from_to, last_wanted};
ghost use Rattle.growers.specs.Searches.{Fits, count_in, nearest_as, joined_count, near_more, near_all, dated_answer, searched};

use model::{GrowerReport, MOST_NUMBER, Records, Refusal, STRIDE};

// Which way a search goes (02: "a second call does the same downward").
pub trait Way {
    ghost direction: { Direction };

    // The one upward, the other downward.
    fn either<T: Copy>(upward: T, downward: T) -> T
        ensures { result ≡ either direction upward downward };

    // Whether x is at or past g.
    fn is_past(g: u32, x: u32) -> bool
        ensures { result ≡ at_or_past direction g x };

    // So many steps on.
    fn onward(from: usize, steps: usize) -> usize
        requires { Within direction most_slots from steps }
        ensures { result ≡ onward direction from steps };
}

pub struct Upward;

impl Way for Upward {
    ghost direction = { up };

    fn either<T: Copy>(upward: T, _downward: T) -> T {
        upward
    }

    fn is_past(g: u32, x: u32) -> bool {
        g <= x
    }

    fn onward(from: usize, steps: usize) -> usize {
        from + steps
    }
}

pub struct Downward;

impl Way for Downward {
    ghost direction = { down };

    fn either<T: Copy>(_upward: T, downward: T) -> T {
        downward
    }

    fn is_past(g: u32, x: u32) -> bool {
        x <= g
    }

    fn onward(from: usize, steps: usize) -> usize {
        from - steps
    }
}

// The last grower number on the way: no grower is past it.
fn last_number<W: Way>() -> u32
    ensures { result ≡ last_number W.direction }
{
    W::either(MOST_NUMBER, 0)
}

// Of two growers the first.
fn nearer<W: Way>(a: u32, b: u32) -> u32
    ensures { result ≡ nearer W.direction a b }
{
    if W::is_past(a, b) { a } else { b }
}

// Of s the first at or past g, or the last number on the way where there is none.
fn nearest_in<W: Way>(s: &[u32], g: u32) -> u32
    ensures { result ≡ nearest_or W.direction (last_number W.direction) (keep (at_or_past W.direction g) s.now) }
{
    let last = last_number::<W>();
    let mut nearest = last;
    for &x in s {
        let offered = if W::is_past(g, x) { x } else { last };
        nearest = nearer::<W>(nearest, offered);
    }
    nearest
}

// Whether none of s is from g to last on the way. One comparison a number, where the two ends would take two: of a number below the
// range the distance wraps, and is more than that of any number above it.
fn none_from_to<W: Way>(s: &[u32], g: u32, last: u32) -> bool
    requires { at_or_past W.direction g last ≡ true }
    ensures { result ≡ none_from_to W.direction g last s.now }
{
    let least = W::either(g, last);
    let span = W::either(last, g) - least;
    let mut none = true;
    for &x in s {
        none &= span < x.wrapping_sub(least);
    }
    none
}

// The first grower at or past another, and how many records he has; 0 and 0 where there is none.
#[derive(Clone, Copy)]
struct Nearest {
    grower: u32,
    records: u64,
}

// The last number on the way that may still be the first: the grower found so far, or where there is none the last of all.
fn last_wanted<W: Way>(so_far: Nearest) -> u32
    ensures { result ≡ last_wanted W.direction (count_in so_far) }
{
    if 0 < so_far.records {
        so_far.grower
    } else {
        last_number::<W>()
    }
}

// A search goes on to more growers: they are passed over where none can be the first of all.
fn joined<W: Way>(so_far: Nearest, growers: &[u32], grower: u32) -> Nearest
    requires { (length growers.now ≤ most_slots) × Fits W.direction grower so_far }
    ensures { result ≡ nearest_as (joined_count W.direction (count_in so_far) (nearest_of W.direction grower growers.now)) }
{
    if none_from_to::<W>(growers, grower, last_wanted::<W>(so_far)) {
        return so_far;
    }
    let nearest = nearest_in::<W>(growers, grower);
    let more = slices::count_equal(growers, nearest) as u64;
    let before = if so_far.grower == nearest {
        so_far.records
    } else {
        0
    };
    Nearest {
        grower: nearest,
        records: before + more,
    }
}

// A search goes on to more records, which are judged while they are at hand: None where a value is out of range.
fn near_more<W: Way>(so_far: Nearest, r: Records, grower: u32) -> Option<Nearest>
    requires { Fits W.direction grower so_far }
    ensures { result ≡ near_more W.direction grower so_far (rows (records_given r.entry)) }
{
    if checks::values_ok(r.weights, r.yields) {
        Some(joined::<W>(so_far, r.growers, grower))
    } else {
        None
    }
}

// So many records onward from an edge between two records.
fn part_onward<'a, W: Way>(r: Records<'a>, edge: usize, count: usize) -> Records<'a>
    requires { Within W.direction (length r.growers.now) edge count }
    ensures { records_given result ≡ slices_part (lower W.direction edge count) (lower W.direction edge count + count) (records_given r.entry) }
{
    let next = W::onward(edge, count);
    r.part(W::either(edge, next), W::either(next, edge))
}

// The records of a partition, a stride at a time: where growers rise on the way the first that is met is the first of all.
fn near_all<W: Way>(r: Records, grower: u32) -> Option<Nearest>
    ensures { result ≡ near_all W.direction grower (rows (records_given r.entry)) }
{
    let n = r.len();
    let first_edge = W::either(0, n);
    let mut so_far = Nearest {
        grower: 0,
        records: 0,
    };
    for i in 0..n / STRIDE {
        let stride = part_onward::<W>(r, W::onward(first_edge, i * STRIDE), STRIDE);
        so_far = near_more::<W>(so_far, stride, grower)?;
    }
    let rest = n % STRIDE;
    near_more::<W>(
        so_far,
        part_onward::<W>(r, W::onward(first_edge, n - rest), rest),
        grower,
    )
}

// A report after so many blocks, or check 19.
fn found(dated: bool, nearest: Nearest, blocks: u64) -> Result<GrowerReport, Refusal>
    ensures { grower_answer_of result ≡ dated_answer dated (grower_answer 0 nearest.grower nearest.records (reads_of blocks)) }
{
    if !dated {
        return Err(Refusal::Days);
    }
    Ok(GrowerReport {
        grower: nearest.grower,
        records: nearest.records,
        counts: scan::reads_of(blocks),
    })
}

// The partitions from one, which begins at start, to the last or the first; it stops at the first that holds a grower at or past the given one.
// An empty one is passed over. Days are judged after all values of the partitions scanned.
pub fn search<W: Way>(
    r: Records,
    lens: &[u32],
    from: usize,
    start: usize,
    block: u32,
    grower: u32,
) -> Result<GrowerReport, Refusal>
    requires { (from < length lens.now) × (length lens.now ≤ block_limit) × (sum_of lens.now ≤ length r.growers.now) × (1 ≤ block)
        × (start ≡ start_of lens.now from) }
    ensures { grower_answer_of result ≡ searched block W.direction grower (parts lens.now (rows (records_given r.entry)))
        (path W.direction (length lens.now) from) true 0 }
{
    let mut edge = W::either(start, start + lens[from] as usize);
    let mut blocks: u64 = 0;
    let mut dated = true;
    for j in 0..W::either(lens.len() - from, from + 1) {
        let count = lens[W::onward(from, j)] as usize;
        if count == 0 {
            continue;
        }
        let partition = part_onward::<W>(r, edge, count);
        edge = W::onward(edge, count);
        let nearest = near_all::<W>(partition, grower).ok_or(Refusal::Values)?;
        dated &= checks::days_ok(partition.days);
        let scanned = scan::blocks_of(count, block);
        blocks += scanned;
        if 0 < nearest.records {
            return found(dated, nearest, blocks);
        }
    }
    let none = Nearest {
        grower: 0,
        records: 0,
    };
    found(dated, none, blocks)
}
