// The snapshot (01: the book): a column written as a text, and a text read as a column.
// Reading judges the whole text before it stores a number, so that a refused text writes to no slice.
#![tactic(auto)]

ghost use Rattle.std.specs.Prelude.{◌≡◌, ◌+◌, ◌*◌, ◌≤◌, ◌<◌, map, length, T, ◌&&◌, IfOk};
ghost use Rattle.model.specs.Bounds.{block_limit};
ghost use Rattle.model.specs.Lists.{sum_of, rising};
ghost use Rattle.model.specs.Deliveries.{rows};
ghost use Rattle.model.specs.Column.{sound_growers};
ghost use Rattle.model.specs.Lent.{slices_in_mut, records_given, column_given};
ghost use Rattle.model.specs.Fields.{lines};
ghost use Rattle.model.specs.Snapshot.{header_ok, partition_rows, delivery_row};
ghost use Rattle.model.specs.Refusals.{number_of};
ghost use Rattle.model.specs.Answers.{applied_of, written_of};
ghost use Rattle.model.specs.Checks.{first_failed};
ghost use Rattle.model.specs.Questions.{write_checks};
ghost use Rattle.model.specs.SnapshotCalls.{read_call, write_call};
ghost use Rattle.slices.specs.Slices.{all_within};
ghost use Rattle.directory.specs.Numbers.{Numbered};
ghost use Rattle.fields.specs.Writing.{placed};
ghost use Rattle.lines.specs.Lines.{text_checked};
ghost use Rattle.snapshot.specs.Texts.{head_found, listed_in, low_of, high_of, delivery_ok, deliveries_ok, parts_ok, all_from};
ghost use Rattle.snapshot.specs.Answers.{numbers_ok, judged_of, read_out, used_slices, sound_checks};

use fields::WIDTH;
use lines::{THREE, TWO};
use model::{
    BLOCK_LIMIT, DIRECTORY_SIZE, Delivery, LentSlices, MOST_NUMBER, MOST_SLOTS, Records, Refusal,
};

// Line 1: block length, deliveries and partitions.
#[derive(Clone, Copy)]
struct Head {
    block: u32,
    used: u32,
    count: u32,
}

// Whether the numbers of line 1 are in range.
fn header_ok(block: u32, used: u32, count: u32) -> bool
    ensures { result ≡ header_ok block_limit (record { block = block; used = used; count = count }) }
{
    if !checks::block_length_ok(block) || MOST_SLOTS < used as usize {
        return false;
    }
    1 <= count && count as usize <= BLOCK_LIMIT
}

fn head_of(text: &[u8]) -> Result<Head, Refusal>
    ensures { result ≡ head_found block_limit text.now }
{
    let [block, used, count] = lines::line_at::<3>(text, 0)?;
    if !header_ok(block, used, count) {
        return Err(Refusal::Text);
    }
    Ok(Head { block, used, count })
}

// The numbers of a directory whose lengths and fences are the partition lines.
fn list_parts(text: &[u8], block: u32, k: usize) -> Result<[u32; DIRECTORY_SIZE], Refusal>
    requires { k ≤ block_limit }
    ensures { result ≡ listed_in block_limit block k text.now }
{
    let mut directory = directory::blank(block, k);
    let mut at = THREE;
    for i in 0..k {
        let [records, fence] = lines::line_at::<2>(text, at)?;
        directory::put(&mut directory[..], i, records, fence);
        at += TWO;
    }
    Ok(directory)
}

// Whether a delivery line stands at a byte, its grower lo to hi and its weight and yield in range.
fn check_delivery(text: &[u8], at: usize, lo: u32, hi: u32) -> Result<(), Refusal>
    ensures { result ≡ text_checked (delivery_ok lo hi at text.now) }
{
    let [grower, weight, oil_yield] = lines::line_at::<3>(text, at)?;
    if grower < lo || hi < grower {
        return Err(Refusal::Text);
    }
    if !checks::in_range(Delivery {
        grower,
        weight,
        oil_yield,
        day: 0,
    }) {
        return Err(Refusal::Text);
    }
    Ok(())
}

// Whether n such lines stand there.
fn check_deliveries(text: &[u8], at: usize, n: usize, lo: u32, hi: u32) -> Result<(), Refusal>
    requires { at + 34 * n ≤ length text.now }
    ensures { result ≡ text_checked (deliveries_ok lo hi n at text.now) }
{
    let mut e = at;
    for i in 0..n {
        check_delivery(text, e, lo, hi)?;
        e += THREE;
    }
    Ok(())
}

// The least grower of partition p: past the fence before it.
fn low_of(fences: &[u32], p: usize) -> u32
    requires { (p < length fences.now) × T (rising fences.now) }
    ensures { result ≡ low_of fences.now p }
{
    if p == 0 { 0 } else { fences[p - 1] + 1 }
}

// The greatest grower of partition p: its fence, and any for the last.
fn high_of(fences: &[u32], p: usize) -> u32
    requires { p < length fences.now }
    ensures { result ≡ high_of fences.now p }
{
    if p + 1 < fences.len() {
        fences[p]
    } else {
        MOST_NUMBER
    }
}

// Whether the delivery lines of all partitions stand from a byte on, each grower in its partition.
fn check_parts(text: &[u8], at: usize, lens: &[u32], fences: &[u32]) -> Result<(), Refusal>
    requires { (length fences.now ≡ length lens.now) × T (rising fences.now) × (at + 34 * sum_of lens.now ≤ length text.now) }
    ensures { result ≡ text_checked (parts_ok fences.now 0 lens.now at text.now) }
{
    let mut e = at;
    for p in 0..lens.len() {
        let n = lens[p] as usize;
        check_deliveries(text, e, n, low_of(fences, p), high_of(fences, p))?;
        e += THREE * n;
    }
    Ok(())
}

// Whether the fences rise, the lengths add up to m and the delivery lines are right.
fn check_numbers(text: &[u8], start: usize, numbers: &[u32], m: usize) -> Result<(), Refusal>
    requires { Numbered block_limit numbers.now × (start + 34 * m ≤ length text.now) }
    ensures { result ≡ text_checked (numbers_ok block_limit text.now start numbers.now m) }
{
    let lens = directory::lengths(numbers);
    let fences = directory::fences(numbers);
    if !slices::strictly_rising(fences) {
        return Err(Refusal::Text);
    }
    if slices::total(lens) != m as u64 {
        return Err(Refusal::Text);
    }
    check_parts(text, start, lens, fences)
}

// What checking a text finds: how many deliveries there are, where their lines start, and the directory.
#[derive(Clone, Copy)]
struct Judged {
    used: usize,
    start: usize,
    directory: [u32; DIRECTORY_SIZE],
}

// Checks 12 and 14 of a text for so many slots, in one pass over the text.
fn check_text(text: &[u8], slots: usize) -> Result<Judged, Refusal>
    ensures { result ≡ judged_of block_limit text.now slots }
{
    let head = head_of(text)?;
    let used = head.used as usize;
    if slots < used {
        return Err(Refusal::Full);
    }
    let k = head.count as usize;
    let start = THREE + TWO * k;
    if text.len() != start + THREE * used {
        return Err(Refusal::Text);
    }
    let directory = list_parts(text, head.block, k)?;
    check_numbers(text, start, &directory, used)?;
    Ok(Judged {
        used,
        start,
        directory,
    })
}

// Reads a text into the slices, its deliveries with day 0: its directory, or a refusal and the slices as they were.
pub fn read(
    text: &[u8],
    growers: &mut [u32],
    weights: &mut [u32],
    yields: &mut [u32],
    days: &mut [u32],
) -> Result<[u32; DIRECTORY_SIZE], Refusal>
    ensures { read_out (applied_of result) growers weights yields days ≡ read_call block_limit text.now (slices_in_mut growers weights yields days) }
{
    checks::records(LentSlices {
        growers,
        weights,
        yields,
        days,
    })?;
    let j = check_text(text, growers.len())?;
    let m = j.used;
    lines::store(text, j.start, &mut growers[..m]);
    lines::store(text, j.start + WIDTH, &mut weights[..m]);
    lines::store(text, j.start + 2 * WIDTH, &mut yields[..m]);
    days[..m].fill(0);
    Ok(j.directory)
}

// The partition lines from a byte on.
fn put_parts(text: &mut [u8], at: usize, lens: &[u32], fences: &[u32])
    requires { (length fences.now ≡ length lens.now) × (at + 23 * length lens.now ≤ length text.old) }
    ensures { text.new ≡ placed at (lines (partition_rows lens.now fences.now)) text.old }
{
    let mut e = at;
    for i in 0..lens.len() {
        lines::put_line(text, e, &[lens[i], fences[i]]);
        e += TWO;
    }
}

// The delivery lines of records from a byte on. No line has a day.
fn put_rows(text: &mut [u8], at: usize, r: Records)
    requires { at + 34 * length r.growers.now ≤ length text.old }
    ensures { text.new ≡ placed at (lines (map delivery_row (rows (records_given r.entry)))) text.old }
{
    let mut e = at;
    for i in 0..r.len() {
        lines::put_line(text, e, &[r.growers[i], r.weights[i], r.yields[i]]);
        e += THREE;
    }
}

// Whether none of s is below least.
fn at_least(s: &[u32], least: u32) -> bool
    ensures { result ≡ all_from least s.now }
{
    let mut good = true;
    for &x in s {
        good &= least <= x;
    }
    good
}

// Whether all of s are lo to hi.
fn between(s: &[u32], lo: u32, hi: u32) -> bool
    ensures { result ≡ all_from lo s.now && all_within hi s.now }
{
    at_least(s, lo) && slices::within(s, hi)
}

// Whether every grower is in its partition.
fn sound_ok(g: &[u32], lens: &[u32], fences: &[u32]) -> bool
    requires { (length fences.now ≡ length lens.now) × T (rising fences.now) × (sum_of lens.now ≤ length g.now) }
    ensures { result ≡ sound_growers lens.now fences.now g.now }
{
    let mut a = 0;
    for p in 0..lens.len() {
        let e = a + lens[p] as usize;
        if !between(&g[a..e], low_of(fences, p), high_of(fences, p)) {
            return false;
        }
        a = e;
    }
    true
}

// Checks 2, 3, 6, 6 and 8 of a column that is to be written: the records of its used slots.
pub fn check_column<'a>(directory: &[u32], slices: LentSlices<'a>) -> Result<Records<'a>, Refusal>
    ensures refused { number_of result ≡ first_failed (sound_checks block_limit (column_given directory.now slices.entry)) }
    ensures accepted { IfOk result (λ r. records_given r ≡ used_slices block_limit (column_given directory.now slices.entry)) }
{
    let shape = directory::lent(directory, slices, 0)?;
    if !sound_ok(
        slices.growers,
        directory::lengths(directory),
        directory::fences(directory),
    ) {
        return Err(Refusal::Shape);
    }
    let records = shape.records.part(0, shape.used);
    if !checks::values_ok(records.weights, records.yields) {
        return Err(Refusal::Values);
    }
    Ok(records)
}

// These, 19 (a day that the text cannot hold) and 15 of writing into room bytes.
fn check_write<'a>(
    directory: &[u32],
    slices: LentSlices<'a>,
    room: usize,
) -> Result<Records<'a>, Refusal>
    ensures refused { number_of result ≡ first_failed (write_checks block_limit (column_given directory.now slices.entry) room) }
    ensures accepted { IfOk result (λ r. records_given r ≡ used_slices block_limit (column_given directory.now slices.entry)) }
{
    let records = check_column(directory, slices)?;
    if !checks::undated(records.days) {
        return Err(Refusal::Days);
    }
    if room < THREE + TWO * directory::count(directory) + THREE * records.len() {
        return Err(Refusal::Room);
    }
    Ok(records)
}

// Writes a column as a text: how many bytes, or a refusal and the text as it was.
pub fn write(directory: &[u32], slices: LentSlices<'_>, text: &mut [u8]) -> Result<u64, Refusal>
    ensures { record { answer = written_of result; text = text.new }
        ≡ write_call block_limit (column_given directory.entry.now slices.entry) text.old }
{
    let records = check_write(directory, slices, text.len())?;
    let used = records.len();
    let count = directory::count(directory);
    let start = THREE + TWO * count;
    lines::put_line(
        text,
        0,
        &[directory::block(directory), used as u32, count as u32],
    );
    put_parts(
        text,
        THREE,
        directory::lengths(directory),
        directory::fences(directory),
    );
    put_rows(text, start, records);
    Ok((start + THREE * used) as u64)
}
