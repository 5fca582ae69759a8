// The directory of a column (01: 130 numbers: B, K, the lengths, the fences): this crate alone knows where they stand.
#![tactic(auto)]

ghost use Rattle.std.specs.Prelude.{◌≡◌, ◌≤◌, ◌<◌, length, get_or, T, IfOk, [], ◌∷◌};
ghost use Rattle.model.specs.Bounds.{block_limit, most_slots};
ghost use Rattle.model.specs.Refusals.{number_of};
ghost use Rattle.model.specs.Checks.{ask, first_failed};
ghost use Rattle.model.specs.Questions.{lent_checks, partition_checks};
ghost use Rattle.model.specs.Place.{place};
ghost use Rattle.model.specs.Partitions.{start_of, one_more, one_fewer};
ghost use Rattle.model.specs.Directory.{directory_size, partition_count, directory_of, directory_block_ok, directory_ok, with_lengths};
ghost use Rattle.model.specs.Accesses.{onward};
ghost use Rattle.model.specs.Lent.{slices_given, records_given, column_given};
ghost use Rattle.directory.specs.Shapes.{Carried};
ghost use Rattle.directory.specs.Numbers.{Numbered, HasPartition, blank, with_partition};

use model::{
    BLOCK, BLOCK_LIMIT, COUNT, DIRECTORY_SIZE, FENCES, LENGTHS, LentSlices, Records, Refusal,
};
use slices::Place;

// What a directory and slices that pass checks 2, 3 and 6 say: their records, the slots that the partitions use, and of a grower his
// partition and where that starts.
#[derive(Clone, Copy)]
pub struct Shape<'a> {
    pub records: Records<'a>,
    pub used: usize,
    pub target: usize,
    pub start: usize,
}

// Check 6 of a directory for c slots, in one pass over its numbers; what the pass finds is carried on.
fn judged(directory: &[u32], c: usize, grower: u32) -> Result<Place, Refusal>
    ensures refused { number_of result ≡ first_failed (ask 6 (directory_ok block_limit c directory.now) ∷ []) }
    ensures accepted { IfOk result (λ p. Carried block_limit directory.now grower p.used p.target p.start) }
{
    if directory.len() != DIRECTORY_SIZE {
        return Err(Refusal::Shape);
    }
    let k = directory[COUNT] as usize;
    if k < 1 || BLOCK_LIMIT < k {
        return Err(Refusal::Shape);
    }
    let a = LENGTHS + k;
    let f = FENCES + k;
    if !slices::zeros(&directory[a..FENCES], &directory[f..DIRECTORY_SIZE]) {
        return Err(Refusal::Shape);
    }
    let Ok(place) = slices::surveyed(&directory[LENGTHS..a], &directory[FENCES..f], grower) else {
        return Err(Refusal::Shape);
    };
    if c < place.used {
        return Err(Refusal::Shape);
    }
    Ok(place)
}

// Check 2 of a directory's B; a slice of another length holds none.
fn directory_block_ok(directory: &[u32]) -> bool
    ensures { result ≡ directory_block_ok block_limit directory.now }
{
    directory.len() != DIRECTORY_SIZE || checks::block_length_ok(directory[BLOCK])
}

// Checks 2, 3 and 6 of a directory and the slices. It is laid out in its callers, so that what they don't use of a shape isn't made.
#[inline(always)]
pub fn lent<'a>(
    directory: &[u32],
    slices: LentSlices<'a>,
    grower: u32,
) -> Result<Shape<'a>, Refusal>
    ensures refused { number_of result ≡ first_failed (lent_checks block_limit (column_given directory.now slices.entry)) }
    ensures accepted { IfOk result (λ s. (records_given s.records ≡ slices_given slices.entry)
        × Carried block_limit directory.now grower s.used s.target s.start) }
{
    if !directory_block_ok(directory) {
        return Err(Refusal::BlockLength);
    }
    let records = checks::records(slices)?;
    let Place {
        used,
        target,
        start,
    } = judged(directory, records.len(), grower)?;
    Ok(Shape {
        records,
        used,
        target,
        start,
    })
}

// Checks 2, 3 and 6 of a directory and the growers alone.
pub fn lent_growers(directory: &[u32], growers: &[u32], grower: u32) -> Result<Place, Refusal>
    ensures refused { number_of result ≡ first_failed (partition_checks block_limit directory.now growers.now) }
    ensures accepted { IfOk result (λ p. Carried block_limit directory.now grower p.used p.target p.start) }
{
    if !directory_block_ok(directory) {
        return Err(Refusal::BlockLength);
    }
    if !checks::slots_ok(growers.len()) {
        return Err(Refusal::Slices);
    }
    judged(directory, growers.len(), grower)
}

// The block length.
pub fn block(directory: &[u32]) -> u32
    requires { length directory.now ≡ directory_size block_limit }
    ensures { result ≡ (directory_of block_limit directory.now).block }
{
    directory[BLOCK]
}

// How many partitions there are.
pub fn count(directory: &[u32]) -> usize
    requires { length directory.now ≡ directory_size block_limit }
    ensures { result ≡ partition_count block_limit directory.now }
{
    directory[COUNT] as usize
}

// The partitions' lengths, and their fences: one expression each, which a function of both would only move.
pub fn lengths<'a>(directory: &'a [u32]) -> &'a [u32]
    requires { Numbered block_limit directory.now }
    ensures { result.now ≡ (directory_of block_limit directory.now).lengths }
{
    &directory[LENGTHS..LENGTHS + count(directory)]
}

pub fn fences<'a>(directory: &'a [u32]) -> &'a [u32]
    requires { Numbered block_limit directory.now }
    ensures { result.now ≡ (directory_of block_limit directory.now).fences }
{
    &directory[FENCES..FENCES + count(directory)]
}

// A grower's partition.
pub fn partition_of(directory: &[u32], grower: u32) -> usize
    requires { T (directory_ok block_limit most_slots directory.now) }
    ensures { result ≡ place (directory_of block_limit directory.now).fences grower }
{
    slices::place_of(fences(directory), grower)
}

// The slot at which a partition starts.
pub fn start_of(directory: &[u32], partition: usize) -> usize
    requires { HasPartition block_limit directory.now partition }
    ensures { result ≡ start_of (directory_of block_limit directory.now).lengths partition }
{
    slices::total(&directory[LENGTHS..LENGTHS + partition]) as usize
}

// How many records a partition has.
pub fn length_of(directory: &[u32], partition: usize) -> usize
    requires { HasPartition block_limit directory.now partition }
    ensures { result ≡ get_or (directory_of block_limit directory.now).lengths partition 0 }
{
    directory[LENGTHS + partition] as usize
}

// How many partitions there are from one to the last.
pub fn onward(directory: &[u32], partition: usize) -> u64
    requires { HasPartition block_limit directory.now partition }
    ensures { result ≡ onward (directory_of block_limit directory.now) partition }
{
    (count(directory) - partition) as u64
}

// One more record in a partition. This and the next are two functions, since each is one line: a step that is handed in would be no plainer.
pub fn grow(directory: &mut [u32], partition: usize)
    requires { HasPartition block_limit directory.old partition }
    ensures { directory.new
        ≡ with_lengths (one_more partition (directory_of block_limit directory.old).lengths) directory.old }
{
    directory[LENGTHS + partition] += 1;
}

// One record fewer in a partition.
pub fn shrink(directory: &mut [u32], partition: usize)
    requires { HasPartition block_limit directory.old partition × (1 ≤ get_or (directory_of block_limit directory.old).lengths partition 0) }
    ensures { directory.new
        ≡ with_lengths (one_fewer partition (directory_of block_limit directory.old).lengths) directory.old }
{
    directory[LENGTHS + partition] -= 1;
}

// A directory of so many partitions, none of which is put yet.
pub fn blank(block: u32, count: usize) -> [u32; DIRECTORY_SIZE]
    requires { count ≤ block_limit }
    ensures { result ≡ blank block_limit block count }
{
    let mut d = [0u32; DIRECTORY_SIZE];
    d[BLOCK] = block;
    d[COUNT] = count as u32;
    d
}

// A partition's length and fence put into a directory.
pub fn put(directory: &mut [u32], partition: usize, records: u32, fence: u32)
    requires { (length directory.old ≡ directory_size block_limit) × (partition < block_limit) }
    ensures { directory.new ≡ with_partition block_limit partition records fence directory.old }
{
    directory[LENGTHS + partition] = records;
    directory[FENCES + partition] = fence;
}
