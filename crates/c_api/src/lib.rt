// The C interface (include/meltusk.h): wrappers on numbers and slices over the proved calls, each with its own equation.
#![tactic(auto)]

ghost use Rattle.std.specs.Prelude.{◌≡◌};
ghost use Rattle.model.specs.Bounds.{block_limit};
ghost use Rattle.model.specs.Prices.{prices, limits};
ghost use Rattle.model.specs.Deliveries.{delivery};
ghost use Rattle.model.specs.Calendar.{span};
ghost use Rattle.model.specs.Calls.{find, range, range_days, insert, delete, move};
ghost use Rattle.model.specs.Recorder.{record_call};
ghost use Rattle.model.specs.Planner.{cost_call, plan_call};
ghost use Rattle.model.specs.ListingCalls.{list_call};
ghost use Rattle.model.specs.ColumnCalls.{apply_call, column_call, partition_call};
ghost use Rattle.model.specs.Growers.{up, down};
ghost use Rattle.model.specs.GrowerCalls.{grower_call};
ghost use Rattle.model.specs.CsvCalls.{import_call, export_call};
ghost use Rattle.model.specs.SnapshotCalls.{write_call, read_call};
ghost use Rattle.model.specs.SheetCalls.{sheet_call, term_sheet_call};
ghost use Rattle.model.specs.Lent.{column_in, column_out, set_in, set_given, slices_in, slices_out, column_in_mut, slices_in_mut};
ghost use Rattle.model.specs.Accesses.{counts};
ghost use Rattle.model.specs.Tallies.{tally, add_call};
ghost use Rattle.snapshot.specs.Answers.{read_out};
ghost use Rattle.dates.specs.DateCalls.{day_call, date_call, term_call};

use dates::{DateAnswer, DayAnswer, TermAnswer};
use model::{
    Answer, Applied, Costed, Counts, DaySpan, Delivery, GrowerAnswer, Imported, LentSet,
    LentSlices, Limits, Listed, PartitionSlice, Planned, PriceCard, Tally, Written, number_of,
};

// An unpartitioned set of lent slices.
fn set_of<'a>(
    block: u32,
    used: u32,
    growers: &'a [u32],
    weights: &'a [u32],
    yields: &'a [u32],
    days: &'a [u32],
) -> LentSet<'a>
    ensures { set_given result ≡ set_in block used growers weights yields days }
{
    LentSet {
        block,
        used,
        slices: LentSlices {
            growers,
            weights,
            yields,
            days,
        },
    }
}

// Applies a layout to an unpartitioned set.
#[unsafe(no_mangle)]
pub extern "C" fn meltusk_apply_layout(
    block: u32,
    used: u32,
    growers: &[u32],
    weights: &[u32],
    yields: &[u32],
    days: &[u32],
    ends: &[u32],
) -> Applied
    ensures { result ≡ apply_call block_limit (set_in block used growers weights yields days) ends.now }
{
    let set = set_of(block, used, growers, weights, yields, days);
    apply::apply_layout(set, ends).into()
}

// The records of one grower.
#[unsafe(no_mangle)]
pub extern "C" fn meltusk_find(
    directory: &[u32],
    growers: &[u32],
    weights: &[u32],
    yields: &[u32],
    days: &[u32],
    grower: u32,
) -> Answer
    ensures { result ≡ (column_call block_limit (column_in directory growers weights yields days) (find grower)).answer }
{
    let slices = LentSlices {
        growers,
        weights,
        yields,
        days,
    };
    Answer::from(column::find(directory, slices, grower))
}

// The records of the growers lo to hi.
#[unsafe(no_mangle)]
pub extern "C" fn meltusk_range(
    directory: &[u32],
    growers: &[u32],
    weights: &[u32],
    yields: &[u32],
    days: &[u32],
    lo: u32,
    hi: u32,
) -> Answer
    ensures { result ≡ (column_call block_limit (column_in directory growers weights yields days) (range lo hi)).answer }
{
    let slices = LentSlices {
        growers,
        weights,
        yields,
        days,
    };
    Answer::from(column::range(directory, slices, lo, hi))
}

// The records of the growers lo to hi on the days first to last.
#[unsafe(no_mangle)]
pub extern "C" fn meltusk_range_days(
    directory: &[u32],
    growers: &[u32],
    weights: &[u32],
    yields: &[u32],
    days: &[u32],
    lo: u32,
    hi: u32,
    first: u32,
    last: u32,
) -> Answer
    ensures { result ≡ (column_call block_limit (column_in directory growers weights yields days) (range_days lo hi (span first last))).answer }
{
    let slices = LentSlices {
        growers,
        weights,
        yields,
        days,
    };
    Answer::from(column::range_days(directory, slices, lo, hi, DaySpan { first, last }))
}

// Inserts a delivery.
#[unsafe(no_mangle)]
pub extern "C" fn meltusk_insert(
    directory: &mut [u32],
    growers: &mut [u32],
    weights: &mut [u32],
    yields: &mut [u32],
    days: &mut [u32],
    grower: u32,
    weight: u32,
    oil_yield: u32,
    day: u32,
) -> Answer
    ensures { record { answer = result; column = column_out directory growers weights yields days }
        ≡ column_call block_limit (column_in_mut directory growers weights yields days) (insert (delivery grower weight oil_yield day)) }
{
    let d = Delivery {
        grower,
        weight,
        oil_yield,
        day,
    };
    Answer::from(column::insert(directory, growers, weights, yields, days, d))
}

// Deletes a delivery.
#[unsafe(no_mangle)]
pub extern "C" fn meltusk_delete(
    directory: &mut [u32],
    growers: &mut [u32],
    weights: &mut [u32],
    yields: &mut [u32],
    days: &mut [u32],
    grower: u32,
    weight: u32,
    oil_yield: u32,
    day: u32,
) -> Answer
    ensures { record { answer = result; column = column_out directory growers weights yields days }
        ≡ column_call block_limit (column_in_mut directory growers weights yields days) (delete (delivery grower weight oil_yield day)) }
{
    let d = Delivery {
        grower,
        weight,
        oil_yield,
        day,
    };
    Answer::from(column::delete(directory, growers, weights, yields, days, d))
}

// Moves a delivery to a new grower.
#[unsafe(no_mangle)]
pub extern "C" fn meltusk_move(
    directory: &mut [u32],
    growers: &mut [u32],
    weights: &mut [u32],
    yields: &mut [u32],
    days: &mut [u32],
    grower: u32,
    weight: u32,
    oil_yield: u32,
    day: u32,
    new_grower: u32,
) -> Answer
    ensures { record { answer = result; column = column_out directory growers weights yields days }
        ≡ column_call block_limit (column_in_mut directory growers weights yields days) (move (delivery grower weight oil_yield day) new_grower) }
{
    let d = Delivery {
        grower,
        weight,
        oil_yield,
        day,
    };
    Answer::from(column::move_delivery(directory, growers, weights, yields, days, d, new_grower))
}

// The smallest grower at or above the given one who has records.
#[unsafe(no_mangle)]
pub extern "C" fn meltusk_next_grower(
    directory: &[u32],
    growers: &[u32],
    weights: &[u32],
    yields: &[u32],
    days: &[u32],
    grower: u32,
) -> GrowerAnswer
    ensures { result ≡ grower_call block_limit (column_in directory growers weights yields days) up grower }
{
    let slices = LentSlices {
        growers,
        weights,
        yields,
        days,
    };
    GrowerAnswer::from(column::next_grower(directory, slices, grower))
}

// The largest grower at or below the given one who has records.
#[unsafe(no_mangle)]
pub extern "C" fn meltusk_previous_grower(
    directory: &[u32],
    growers: &[u32],
    weights: &[u32],
    yields: &[u32],
    days: &[u32],
    grower: u32,
) -> GrowerAnswer
    ensures { result ≡ grower_call block_limit (column_in directory growers weights yields days) down grower }
{
    let slices = LentSlices {
        growers,
        weights,
        yields,
        days,
    };
    GrowerAnswer::from(column::previous_grower(directory, slices, grower))
}

// Where a grower's partition lies in the growers.
#[unsafe(no_mangle)]
pub extern "C" fn meltusk_partition(
    directory: &[u32],
    growers: &[u32],
    grower: u32,
) -> PartitionSlice
    ensures { result ≡ partition_call block_limit directory.now growers.now grower }
{
    PartitionSlice::from(column::partition(directory, growers, grower))
}

// Records a find.
#[unsafe(no_mangle)]
pub extern "C" fn meltusk_record_find(
    histograms: &mut [u32],
    block: u32,
    used: u32,
    growers: &[u32],
    weights: &[u32],
    yields: &[u32],
    days: &[u32],
    grower: u32,
) -> u32
    ensures { record { refusal = result; histograms = histograms.new }
        ≡ record_call block_limit (set_in block used growers weights yields days) histograms.old (find grower) }
{
    let set = set_of(block, used, growers, weights, yields, days);
    number_of(recorder::record_find(histograms, set, grower))
}

// Records a range.
#[unsafe(no_mangle)]
pub extern "C" fn meltusk_record_range(
    histograms: &mut [u32],
    block: u32,
    used: u32,
    growers: &[u32],
    weights: &[u32],
    yields: &[u32],
    days: &[u32],
    lo: u32,
    hi: u32,
) -> u32
    ensures { record { refusal = result; histograms = histograms.new }
        ≡ record_call block_limit (set_in block used growers weights yields days) histograms.old (range lo hi) }
{
    let set = set_of(block, used, growers, weights, yields, days);
    number_of(recorder::record_range(histograms, set, lo, hi))
}

// Records a range over days.
#[unsafe(no_mangle)]
pub extern "C" fn meltusk_record_range_days(
    histograms: &mut [u32],
    block: u32,
    used: u32,
    growers: &[u32],
    weights: &[u32],
    yields: &[u32],
    days: &[u32],
    lo: u32,
    hi: u32,
    first: u32,
    last: u32,
) -> u32
    ensures { record { refusal = result; histograms = histograms.new }
        ≡ record_call block_limit (set_in block used growers weights yields days) histograms.old (range_days lo hi (span first last)) }
{
    let set = set_of(block, used, growers, weights, yields, days);
    let named = DaySpan { first, last };
    number_of(recorder::record_range_days(histograms, set, lo, hi, named))
}

// Records an insert.
#[unsafe(no_mangle)]
pub extern "C" fn meltusk_record_insert(
    histograms: &mut [u32],
    block: u32,
    used: u32,
    growers: &[u32],
    weights: &[u32],
    yields: &[u32],
    days: &[u32],
    grower: u32,
    weight: u32,
    oil_yield: u32,
    day: u32,
) -> u32
    ensures { record { refusal = result; histograms = histograms.new }
        ≡ record_call block_limit (set_in block used growers weights yields days) histograms.old
        (insert (delivery grower weight oil_yield day)) }
{
    let set = set_of(block, used, growers, weights, yields, days);
    let d = Delivery {
        grower,
        weight,
        oil_yield,
        day,
    };
    number_of(recorder::record_insert(histograms, set, d))
}

// Records a delete.
#[unsafe(no_mangle)]
pub extern "C" fn meltusk_record_delete(
    histograms: &mut [u32],
    block: u32,
    used: u32,
    growers: &[u32],
    weights: &[u32],
    yields: &[u32],
    days: &[u32],
    grower: u32,
    weight: u32,
    oil_yield: u32,
    day: u32,
) -> u32
    ensures { record { refusal = result; histograms = histograms.new }
        ≡ record_call block_limit (set_in block used growers weights yields days) histograms.old
        (delete (delivery grower weight oil_yield day)) }
{
    let set = set_of(block, used, growers, weights, yields, days);
    let d = Delivery {
        grower,
        weight,
        oil_yield,
        day,
    };
    number_of(recorder::record_delete(histograms, set, d))
}

// Records a move.
#[unsafe(no_mangle)]
pub extern "C" fn meltusk_record_move(
    histograms: &mut [u32],
    block: u32,
    used: u32,
    growers: &[u32],
    weights: &[u32],
    yields: &[u32],
    days: &[u32],
    grower: u32,
    weight: u32,
    oil_yield: u32,
    day: u32,
    new_grower: u32,
) -> u32
    ensures { record { refusal = result; histograms = histograms.new }
        ≡ record_call block_limit (set_in block used growers weights yields days) histograms.old
        (move (delivery grower weight oil_yield day) new_grower) }
{
    let set = set_of(block, used, growers, weights, yields, days);
    let d = Delivery {
        grower,
        weight,
        oil_yield,
        day,
    };
    number_of(recorder::record_move(histograms, set, d, new_grower))
}

// The cost of a layout.
#[unsafe(no_mangle)]
pub extern "C" fn meltusk_cost(
    rr: u32,
    sr: u32,
    rw: u32,
    block: u32,
    used: u32,
    growers: &[u32],
    weights: &[u32],
    yields: &[u32],
    days: &[u32],
    ends: &[u32],
    histograms: &[u32],
) -> Costed
    ensures { result
        ≡ cost_call block_limit (prices rr sr «rw») (set_in block used growers weights yields days) ends.now histograms.now }
{
    let set = set_of(block, used, growers, weights, yields, days);
    let card = PriceCard { rr, sr, rw };
    planner::cost(card, set, ends, histograms).into()
}

// The cheapest permitted layout.
#[unsafe(no_mangle)]
pub extern "C" fn meltusk_plan(
    rr: u32,
    sr: u32,
    rw: u32,
    read: u32,
    insert: u32,
    block: u32,
    used: u32,
    growers: &[u32],
    weights: &[u32],
    yields: &[u32],
    days: &[u32],
    histograms: &[u32],
    ends: &mut [u32],
) -> Planned
    ensures { record { answer = result; ends = ends.new }
        ≡ plan_call block_limit (prices rr sr «rw») (limits read insert) (set_in block used growers weights yields days)
        histograms.now ends.old }
{
    let set = set_of(block, used, growers, weights, yields, days);
    let card = PriceCard { rr, sr, rw };
    let limits = Limits { read, insert };
    planner::plan(card, limits, set, histograms, ends).into()
}

// Every permitted layout of a small set, as text.
#[unsafe(no_mangle)]
pub extern "C" fn meltusk_list_layouts(
    rr: u32,
    sr: u32,
    rw: u32,
    read: u32,
    insert: u32,
    block: u32,
    used: u32,
    growers: &[u32],
    weights: &[u32],
    yields: &[u32],
    days: &[u32],
    histograms: &[u32],
    text: &mut [u8],
) -> Listed
    ensures { record { answer = result; text = text.new }
        ≡ list_call block_limit (prices rr sr «rw») (limits read insert) (set_in block used growers weights yields days)
        histograms.now text.old }
{
    let set = set_of(block, used, growers, weights, yields, days);
    let card = PriceCard { rr, sr, rw };
    let limits = Limits { read, insert };
    listing::list_layouts(card, limits, set, histograms, text).into()
}

// Adds a report's counts to the three lent numbers of a tally; 10 leaves them alone.
#[unsafe(no_mangle)]
pub extern "C" fn meltusk_tally_add(
    rr: &mut u64,
    sr: &mut u64,
    rw: &mut u64,
    more_rr: u64,
    more_sr: u64,
    more_rw: u64,
) -> u32
    ensures { record { refusal = result; tally = tally rr.new sr.new «rw».new }
        ≡ add_call (tally rr.old sr.old «rw».old) (counts more_rr more_sr more_rw) }
{
    let mut sum = Tally {
        rr: *rr,
        sr: *sr,
        rw: *rw,
    };
    let more = Counts {
        rr: more_rr,
        sr: more_sr,
        rw: more_rw,
    };
    let outcome = tally::add(&mut sum, more);
    *rr = sum.rr;
    *sr = sum.sr;
    *rw = sum.rw;
    model::number_of(outcome)
}

// Writes a column as a snapshot's text.
#[unsafe(no_mangle)]
pub extern "C" fn meltusk_write_snapshot(
    directory: &[u32],
    growers: &[u32],
    weights: &[u32],
    yields: &[u32],
    days: &[u32],
    text: &mut [u8],
) -> Written
    ensures { record { answer = result; text = text.new }
        ≡ write_call block_limit (column_in directory growers weights yields days) text.old }
{
    let slices = LentSlices {
        growers,
        weights,
        yields,
        days,
    };
    snapshot::write(directory, slices, text).into()
}

// Reads a snapshot's text into the slots.
#[unsafe(no_mangle)]
pub extern "C" fn meltusk_read_snapshot(
    text: &[u8],
    growers: &mut [u32],
    weights: &mut [u32],
    yields: &mut [u32],
    days: &mut [u32],
) -> Applied
    ensures { read_out result growers weights yields days ≡ read_call block_limit text.now (slices_in_mut growers weights yields days) }
{
    snapshot::read(text, growers, weights, yields, days).into()
}

// Writes a column's settlement sheet.
#[unsafe(no_mangle)]
pub extern "C" fn meltusk_write_sheet(
    directory: &[u32],
    growers: &[u32],
    weights: &[u32],
    yields: &[u32],
    days: &[u32],
    text: &mut [u8],
    order: &mut [u32],
    work: &mut [u32],
) -> Written
    ensures { record { answer = result; text = text.new; order = order.new; work = work.new }
        ≡ sheet_call block_limit (column_in directory growers weights yields days) text.old order.old work.old }
{
    let slices = LentSlices {
        growers,
        weights,
        yields,
        days,
    };
    sheet::write_sheet(directory, slices, text, order, work).into()
}

// Writes the settlement sheet of the term that holds a day.
#[unsafe(no_mangle)]
pub extern "C" fn meltusk_write_term_sheet(
    directory: &[u32],
    growers: &[u32],
    weights: &[u32],
    yields: &[u32],
    days: &[u32],
    day: u32,
    text: &mut [u8],
    order: &mut [u32],
    work: &mut [u32],
) -> Written
    ensures { record { answer = result; text = text.new; order = order.new; work = work.new }
        ≡ term_sheet_call block_limit (column_in directory growers weights yields days) day text.old order.old work.old }
{
    let slices = LentSlices {
        growers,
        weights,
        yields,
        days,
    };
    sheet::write_term_sheet(directory, slices, day, text, order, work).into()
}

// Imports the rows of a weighbridge file into the slots.
#[unsafe(no_mangle)]
pub extern "C" fn meltusk_import_csv(
    text: &[u8],
    growers: &mut [u32],
    weights: &mut [u32],
    yields: &mut [u32],
    days: &mut [u32],
) -> Imported
    ensures { record { answer = result; slices = slices_out growers weights yields days }
        ≡ import_call text.now (slices_in_mut growers weights yields days) }
{
    csv_calls::import(text, growers, weights, yields, days).into()
}

// Exports the first slots as a weighbridge file.
#[unsafe(no_mangle)]
pub extern "C" fn meltusk_export_csv(
    used: u32,
    growers: &[u32],
    weights: &[u32],
    yields: &[u32],
    days: &[u32],
    text: &mut [u8],
) -> Written
    ensures { record { answer = result; text = text.new }
        ≡ export_call used (slices_in growers weights yields days) text.old }
{
    let slices = LentSlices {
        growers,
        weights,
        yields,
        days,
    };
    csv_calls::export(used, slices, text).into()
}

// The day number of a date.
#[unsafe(no_mangle)]
pub extern "C" fn meltusk_day_of(year: u32, month: u32, day: u32) -> DayAnswer
    ensures { result ≡ day_call year month day }
{
    dates::day_of(year, month, day).into()
}

// The date of a day number.
#[unsafe(no_mangle)]
pub extern "C" fn meltusk_date_of(day: u32) -> DateAnswer
    ensures { result ≡ date_call day }
{
    dates::date_of(day).into()
}

// The term that holds a day.
#[unsafe(no_mangle)]
pub extern "C" fn meltusk_term_of(day: u32) -> TermAnswer
    ensures { result ≡ term_call day }
{
    dates::term_of(day).into()
}
