// The laid column (01): find, range, also over days (02: Slip 7), insert, delete, move, the next and the previous grower (02: Slip 3) and the
// partition call, over the lent slices and the lent directory.
// No call trusts what it is lent: each puts its checks first, and a refused call writes to no slice.
#![tactic(auto)]

ghost use Rattle.std.specs.Prelude.{◌≡◌, ◌+◌, ◌-◌, ◌≤◌, ◌<◌, length, get_or, T, IfOk, MatchResult};
ghost use Rattle.model.specs.Bounds.{block_limit, most_slots};
ghost use Rattle.model.specs.Lists.{sum_of};
ghost use Rattle.model.specs.Deliveries.{rows, no_totals, storing};
ghost use Rattle.model.specs.Checks.{first_failed};
ghost use Rattle.model.specs.Calls.{find, range, range_days, insert, delete, move};
ghost use Rattle.model.specs.Place.{place};
ghost use Rattle.model.specs.Partitions.{start_of};
ghost use Rattle.model.specs.Moves.{moved};
ghost use Rattle.model.specs.Directory.{partition_count, directory_of, directory_ok};
ghost use Rattle.model.specs.Accesses.{no_counts, and_also};
ghost use Rattle.model.specs.Questions.{lent_checks};
ghost use Rattle.model.specs.ColumnCalls.{column_refusal, column_call, partition_call};
ghost use Rattle.model.specs.Growers.{up, down};
ghost use Rattle.model.specs.GrowerCalls.{grower_call};
ghost use Rattle.model.specs.Refusals.{number_of};
ghost use Rattle.model.specs.Answers.{answer_of, grower_answer_of, slice_answer_of};
ghost use Rattle.model.specs.Lent.{records_given, span_given, column_of, column_given, column_out, column_in_mut, slices_in_mut, slices_out};
ghost use Rattle.column.specs.Answers.{RefusedBy, IsSought, NotSought, IsLocated, IsOpen, part_of};
ghost use Rattle.column.specs.Answers.{Ready, put_of, taken_of, shifted_of};

use growers::{Downward, Upward, Way};
use model::{
    Counts, DaySpan, Delivery, GrowerReport, LentSlices, MOST_DAY, PartitionPlace, PartitionSlice,
    Records, Refusal, Refused, Report, Totals,
};
use slices::Place;

// hi's partition, the last that a read scans. A find's is the one that its checks found.
fn last_scanned(directory: &[u32], from: usize, lo: u32, hi: u32) -> usize
    requires { T (directory_ok block_limit most_slots directory.now) × (from ≡ place (directory_of block_limit directory.now).fences lo) }
    ensures { result ≡ place (directory_of block_limit directory.now).fences hi }
{
    if lo == hi {
        return from;
    }
    directory::partition_of(directory, hi)
}

// The records of the growers lo to hi on the days first to last, all four included; if last is earlier than first, none. The three reads are laid
// out in their callers, so that a report is made in place.
#[inline(always)]
pub fn range_days(
    directory: &[u32],
    slices: LentSlices<'_>,
    lo: u32,
    hi: u32,
    days: DaySpan,
) -> Result<Report, Refused>
    ensures { answer_of result ≡ (column_call block_limit (column_given directory.now slices.entry) (range_days lo hi (span_given days))).answer }
{
    let shape = directory::lent(directory, slices, lo)?;
    if hi < lo {
        return Err(Refusal::Range.into());
    }
    let r = shape.records;
    let from = shape.target;
    let to = last_scanned(directory, from, lo, hi);
    let lens = directory::lengths(directory);
    let block = directory::block(directory);
    let Some(s) = scan::scan_parts(r, lens, from, to, shape.start, block, lo, hi, days) else {
        return Err(scan::failed_check(r, lens, from, to, shape.start).into());
    };
    if !checks::span_ok(days) {
        return Err(Refusal::Days.into());
    }
    Ok(Report {
        counts: scan::reads_of(s.blocks),
        totals: s.totals,
    })
}

// The records of the growers lo to hi, both included, on any day.
#[inline(always)]
pub fn range(directory: &[u32], slices: LentSlices<'_>, lo: u32, hi: u32) -> Result<Report, Refused>
    ensures { answer_of result ≡ (column_call block_limit (column_given directory.now slices.entry) (range lo hi)).answer }
{
    let days = DaySpan {
        first: 0,
        last: MOST_DAY,
    };
    range_days(directory, slices, lo, hi, days)
}

// The records of one grower.
#[inline(always)]
pub fn find(directory: &[u32], slices: LentSlices<'_>, grower: u32) -> Result<Report, Refused>
    ensures { answer_of result ≡ (column_call block_limit (column_given directory.now slices.entry) (find grower)).answer }
{
    range(directory, slices, grower, grower)
}

// Where a delivery lies in a partition, and what the scan of it cost.
#[derive(Clone, Copy)]
struct Sought {
    slot: usize,
    counts: Counts,
}

// Checks 8, 19 and 13 in a partition, of which it is handed its records.
fn search_part(r: Records<'_>, block: u32, d: Delivery) -> Result<Sought, Refused>
    requires { 1 ≤ block }
    ensures { MatchResult result (IsSought block d (rows (records_given r.entry))) (NotSought block d (rows (records_given r.entry))) }
{
    let dated = checks::day_ok(d);
    // of an empty partition no block is read
    if r.len() == 0 {
        if !dated {
            return Err(Refusal::Days.into());
        }
        return Err(Refusal::Absent.into());
    }
    let Some(slot) = scan::seek_all(r, d) else {
        if checks::values_ok(r.weights, r.yields) {
            return Err(Refusal::Days.into());
        }
        return Err(Refusal::Values.into());
    };
    if !dated {
        return Err(Refusal::Days.into());
    }
    let found = Sought {
        slot,
        counts: scan::reads_of(scan::blocks_of(r.len(), block)),
    };
    if found.slot < r.len() {
        return Ok(found);
    }
    Err(Refused {
        refusal: Refusal::Absent,
        counts: found.counts,
    })
}

// Where a delivery lies that delete or move names: its partition, where that starts, its slot there; and what the scan cost.
#[derive(Clone, Copy)]
struct Located {
    target: usize,
    start: usize,
    slot: usize,
    counts: Counts,
}

// Checks 2, 3, 6, 8, 19 and 13 of delete and move.
fn locate(directory: &[u32], slices: LentSlices<'_>, d: Delivery) -> Result<Located, Refused>
    ensures { MatchResult result (IsLocated block_limit (column_given directory.now slices.entry) d)
        (RefusedBy block_limit (column_given directory.now slices.entry) (delete d)) }
{
    let shape = directory::lent(directory, slices, d.grower)?;
    if !checks::in_range(d) {
        return Err(Refusal::Values.into());
    }
    let target = shape.target;
    let start = shape.start;
    let end = start + directory::length_of(directory, target);
    let part = shape.records.part(start, end);
    let Sought { slot, counts } = search_part(part, directory::block(directory), d)?;
    Ok(Located {
        target,
        start,
        slot,
        counts,
    })
}

// Checks 2, 3, 6, 8, 19 and 12 of an insert: where it goes, or why it is refused.
fn open(directory: &[u32], slices: LentSlices<'_>, d: Delivery) -> Result<Place, Refusal>
    ensures refused { number_of result ≡ column_refusal block_limit (column_given directory.now slices.entry) (insert d) }
    ensures accepted { IfOk result (IsOpen block_limit (column_given directory.now slices.entry) d) }
{
    let shape = directory::lent(directory, slices, d.grower)?;
    if !checks::in_range(d) {
        return Err(Refusal::Values);
    }
    if !checks::day_ok(d) {
        return Err(Refusal::Days);
    }
    if shape.records.len() <= shape.used {
        return Err(Refusal::Full);
    }
    Ok(Place {
        used: shape.used,
        target: shape.target,
        start: shape.start,
    })
}

// The slots and the length of an insert into a partition, which begins at start.
fn put(
    directory: &mut [u32],
    g: &mut [u32],
    w: &mut [u32],
    y: &mut [u32],
    n: &mut [u32],
    partition: usize,
    start: usize,
    used: usize,
    d: Delivery,
)
    requires { Ready block_limit (column_of directory.old g.old w.old y.old n.old) partition start
        × (used ≡ sum_of (directory_of block_limit directory.old).lengths) × (used < length g.old) }
    ensures { column_out directory g w y n ≡ put_of block_limit (column_in_mut directory g w y n) partition d }
{
    ripple::insert_slots(
        g,
        w,
        y,
        n,
        directory::lengths(directory),
        partition,
        start,
        used,
        d,
    );
    directory::grow(directory, partition);
}

// The slots and the length of a delete of a slot of a partition, which begins at start.
fn take_out(
    directory: &mut [u32],
    g: &mut [u32],
    w: &mut [u32],
    y: &mut [u32],
    n: &mut [u32],
    partition: usize,
    start: usize,
    slot: usize,
)
    requires { Ready block_limit (column_of directory.old g.old w.old y.old n.old) partition start
        × (slot < get_or (directory_of block_limit directory.old).lengths partition 0) }
    ensures { column_out directory g w y n ≡ taken_of block_limit (column_in_mut directory g w y n) partition slot }
{
    let freed = Delivery {
        grower: 0,
        weight: 0,
        oil_yield: 0,
        day: 0,
    };
    ripple::delete_slots(
        g,
        w,
        y,
        n,
        directory::lengths(directory),
        partition,
        start,
        slot,
        freed,
    );
    directory::shrink(directory, partition);
}

// The slots of a move: a slot's record goes from one partition, which begins at start, to another, as d.
fn shift_slots(
    directory: &[u32],
    g: &mut [u32],
    w: &mut [u32],
    y: &mut [u32],
    n: &mut [u32],
    from: usize,
    start: usize,
    slot: usize,
    to: usize,
    d: Delivery,
)
    requires { Ready block_limit (column_of directory.now g.old w.old y.old n.old) from start
        × (slot < get_or (directory_of block_limit directory.now).lengths from 0)
        × (to < partition_count block_limit directory.now) }
    ensures { slices_out g w y n ≡ storing (moved (directory_of block_limit directory.now).lengths from slot to) d (slices_in_mut g w y n) }
{
    if from <= to {
        ripple::forward_slots(
            g,
            w,
            y,
            n,
            directory::lengths(directory),
            from,
            start,
            slot,
            to,
            d,
        );
        return;
    }
    let first = directory::start_of(directory, to);
    ripple::backward_slots(
        g,
        w,
        y,
        n,
        directory::lengths(directory),
        from,
        start,
        slot,
        to,
        first,
        d,
    );
}

// The slots and the lengths of a move.
fn shift(
    directory: &mut [u32],
    g: &mut [u32],
    w: &mut [u32],
    y: &mut [u32],
    n: &mut [u32],
    from: usize,
    start: usize,
    slot: usize,
    to: usize,
    d: Delivery,
)
    requires { Ready block_limit (column_of directory.old g.old w.old y.old n.old) from start
        × (slot < get_or (directory_of block_limit directory.old).lengths from 0)
        × (to < partition_count block_limit directory.old) }
    ensures { column_out directory g w y n ≡ shifted_of block_limit (column_in_mut directory g w y n) from slot to d }
{
    shift_slots(directory, g, w, y, n, from, start, slot, to, d);
    directory::shrink(directory, from);
    directory::grow(directory, to);
}

// What an accepted write reports: no totals.
fn written(counts: Counts) -> Report
    ensures { result ≡ record { counts = counts; totals = no_totals } }
{
    Report {
        counts,
        totals: Totals::none(),
    }
}

// A scan's counts, and random reads and random writes more.
fn with_more(scanned: Counts, reads: u64, writes: u64) -> Counts
    requires { (scanned.rr ≤ 1) × (scanned.«rw» ≤ 0) × (reads ≤ 100) × (writes ≤ 100) }
    ensures { result ≡ and_also scanned reads writes }
{
    Counts {
        rr: scanned.rr + reads,
        sr: scanned.sr,
        rw: scanned.rw + writes,
    }
}

// Inserts a delivery. Here and in the two calls below the slices come one by one, as the ripple cuts each (01).
pub fn insert(
    directory: &mut [u32],
    growers: &mut [u32],
    weights: &mut [u32],
    yields: &mut [u32],
    days: &mut [u32],
    d: Delivery,
) -> Result<Report, Refused>
    ensures { record { answer = answer_of result; column = column_out directory growers weights yields days }
        ≡ column_call block_limit (column_in_mut directory growers weights yields days) (insert d) }
{
    let slices = LentSlices {
        growers,
        weights,
        yields,
        days,
    };
    let place = open(directory, slices, d)?;
    let target = place.target;
    let each = 1 + directory::onward(directory, target);
    put(
        directory,
        growers,
        weights,
        yields,
        days,
        target,
        place.start,
        place.used,
        d,
    );
    Ok(written(Counts {
        rr: each,
        sr: 0,
        rw: each,
    }))
}

// Deletes the first equal delivery of its grower's partition.
pub fn delete(
    directory: &mut [u32],
    growers: &mut [u32],
    weights: &mut [u32],
    yields: &mut [u32],
    days: &mut [u32],
    d: Delivery,
) -> Result<Report, Refused>
    ensures { record { answer = answer_of result; column = column_out directory growers weights yields days }
        ≡ column_call block_limit (column_in_mut directory growers weights yields days) (delete d) }
{
    let slices = LentSlices {
        growers,
        weights,
        yields,
        days,
    };
    let found = locate(directory, slices, d)?;
    let n = directory::onward(directory, found.target);
    let counts = with_more(found.counts, n, 1 + n);
    take_out(
        directory,
        growers,
        weights,
        yields,
        days,
        found.target,
        found.start,
        found.slot,
    );
    Ok(written(counts))
}

// Moves the first equal delivery of its grower's partition to a new grower.
pub fn move_delivery(
    directory: &mut [u32],
    growers: &mut [u32],
    weights: &mut [u32],
    yields: &mut [u32],
    days: &mut [u32],
    d: Delivery,
    new_grower: u32,
) -> Result<Report, Refused>
    ensures { record { answer = answer_of result; column = column_out directory growers weights yields days }
        ≡ column_call block_limit (column_in_mut directory growers weights yields days) (move d new_grower) }
{
    let slices = LentSlices {
        growers,
        weights,
        yields,
        days,
    };
    let found = locate(directory, slices, d)?;
    let to = directory::partition_of(directory, new_grower);
    let n = found.target.abs_diff(to) as u64;
    let counts = with_more(found.counts, 1 + n, 2 + n);
    let moved = Delivery {
        grower: new_grower,
        ..d
    };
    shift(
        directory,
        growers,
        weights,
        yields,
        days,
        found.target,
        found.start,
        found.slot,
        to,
        moved,
    );
    Ok(written(counts))
}

// The first grower with deliveries at or past a given one on the way.
fn neighbour<W: Way>(
    directory: &[u32],
    slices: LentSlices,
    grower: u32,
) -> Result<GrowerReport, Refusal>
    ensures { grower_answer_of result ≡ grower_call block_limit (column_given directory.now slices.entry) W.direction grower }
{
    let shape = directory::lent(directory, slices, grower)?;
    growers::search::<W>(
        shape.records,
        directory::lengths(directory),
        shape.target,
        shape.start,
        directory::block(directory),
        grower,
    )
}

// The smallest grower at or above the given one who has records, and how many.
pub fn next_grower(
    directory: &[u32],
    slices: LentSlices,
    grower: u32,
) -> Result<GrowerReport, Refusal>
    ensures { grower_answer_of result ≡ grower_call block_limit (column_given directory.now slices.entry) up grower }
{
    neighbour::<Upward>(directory, slices, grower)
}

// The largest grower at or below the given one who has records, and how many.
pub fn previous_grower(
    directory: &[u32],
    slices: LentSlices,
    grower: u32,
) -> Result<GrowerReport, Refusal>
    ensures { grower_answer_of result ≡ grower_call block_limit (column_given directory.now slices.entry) down grower }
{
    neighbour::<Downward>(directory, slices, grower)
}

// Where a grower's partition lies in the growers (01: the run call, by value).
pub fn partition(directory: &[u32], growers: &[u32], grower: u32) -> Result<PartitionPlace, Refusal>
    ensures { slice_answer_of result ≡ partition_call block_limit directory.now growers.now grower }
{
    let place = directory::lent_growers(directory, growers, grower)?;
    let count = directory::length_of(directory, place.target);
    Ok(PartitionPlace {
        start: place.start as u32,
        count: count as u32,
    })
}

// A grower's partition as a part of the lent growers, empty at their start when refused. The refusal is left in a lent number and not in a Result:
// the form is 01's own (the run call).
pub fn partition_slice<'a>(
    directory: &[u32],
    growers: &'a [u32],
    grower: u32,
    refusal: &mut u32,
) -> &'a [u32]
    ensures { record { place = result.ref_ptr; part = result.now; refusal = refusal.new }
        ≡ part_of (partition_call block_limit directory.now growers.now grower) growers.entry.ref_ptr growers.now }
{
    let p = PartitionSlice::from(partition(directory, growers, grower));
    *refusal = p.refusal;
    let a = p.start as usize;
    let e = a + p.count as usize;
    &growers[a..e]
}
