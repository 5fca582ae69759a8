// The settlement sheet (02: Slip 4) of a column, or of the term that holds a day (02: Slip 7): its growers, a line each, as a text. Whether it
// fits is known before anything is written, also to the slices that are sorted in, so that a refused call writes to no slice.
#![tactic(auto)]

ghost use Rattle.std.specs.Prelude.{◌≡◌, ◌+◌, ◌*◌, length, leb, IfOk};
ghost use Rattle.model.specs.Bounds.{block_limit};
ghost use Rattle.model.specs.Refusals.{number_of};
ghost use Rattle.model.specs.Answers.{written_of};
ghost use Rattle.model.specs.Lent.{records_given, span_given, column_given};
ghost use Rattle.model.specs.Sheet.{each_once};
ghost use Rattle.model.specs.SheetCalls.{sheet_call, term_sheet_call};
ghost use Rattle.slot_order.specs.Passes.{growers_at};
ghost use Rattle.slot_order.specs.Spans.{slots_on};
ghost use Rattle.sheet.specs.Answers.{span_refusal, IsSized, span_call};

use model::{DaySpan, LentSlices, MOST_DAY, Records, Refusal};
use sheet_lines::{LAST, LINE};

// What checking a column finds: the records of its used slots, the days asked for, and how many of the records have one of them.
#[derive(Clone, Copy)]
struct Sized<'a> {
    records: Records<'a>,
    days: DaySpan,
    count: usize,
}

// Whether the lines of the k slots of these days fit: a line for each slot does, or the growers are counted.
fn lines_fit(r: Records, days: DaySpan, k: usize, room: usize) -> bool
    requires { k ≡ length (slots_on (span_given days) (records_given r)) }
    ensures { result
        ≡ leb (81 * length (each_once (growers_at r.entry.growers.now (slots_on (span_given days) (records_given r.entry)))) + 61) room }
{
    LINE * k + LAST <= room || LINE * grower_count::count(r.growers, r.days, days) + LAST <= room
}

// Checks 2, 3, 6, 6, 8, 19 and 15 of a sheet of these days.
fn check_sheet<'a>(
    directory: &[u32],
    slices: LentSlices<'a>,
    days: Option<DaySpan>,
    room: usize,
    order_room: usize,
    work_room: usize,
) -> Result<Sized<'a>, Refusal>
    ensures refused { number_of result ≡ span_refusal block_limit (column_given directory.now slices.entry) days room order_room work_room }
    ensures accepted { IfOk result (IsSized block_limit (column_given directory.now slices.entry) days) }
{
    let records = snapshot::check_column(directory, slices)?;
    let Some(days) = days else {
        return Err(Refusal::Days);
    };
    if !checks::days_ok(records.days) {
        return Err(Refusal::Days);
    }
    let count = slot_order::count_during(records.days, days);
    if order_room < count || work_room < count || !lines_fit(records, days, count, room) {
        return Err(Refusal::Room);
    }
    Ok(Sized {
        records,
        days,
        count,
    })
}

// Writes the sheet of these days: how many bytes. A refused call leaves the lent slices as they were.
fn write(
    directory: &[u32],
    slices: LentSlices,
    days: Option<DaySpan>,
    text: &mut [u8],
    order: &mut [u32],
    work: &mut [u32],
) -> Result<u64, Refusal>
    ensures { record { answer = written_of result; text = text.new; order = order.new; work = work.new }
        ≡ span_call block_limit (column_given directory.now slices.entry) days text.old order.old work.old }
{
    let sized = check_sheet(directory, slices, days, text.len(), order.len(), work.len())?;
    let count = sized.count;
    slot_order::arrange_during(
        sized.records,
        sized.days,
        &mut order[..count],
        &mut work[..count],
    );
    let bytes = sheet_lines::put_sheet(text, &order[..count], sized.records);
    Ok(bytes as u64)
}

// Writes a column's settlement sheet: how many bytes. The order is left with the used slots in rising order of grower, the room to work in
// with zeros. A refused call leaves the lent slices as they were.
pub fn write_sheet(
    directory: &[u32],
    slices: LentSlices,
    text: &mut [u8],
    order: &mut [u32],
    work: &mut [u32],
) -> Result<u64, Refusal>
    ensures { record { answer = written_of result; text = text.new; order = order.new; work = work.new }
        ≡ sheet_call block_limit (column_given directory.now slices.entry) text.old order.old work.old }
{
    let days = DaySpan {
        first: 0,
        last: MOST_DAY,
    };
    write(directory, slices, Some(days), text, order, work)
}

// The same for the term that holds a day, from that term's records alone: the order is left with their slots.
pub fn write_term_sheet(
    directory: &[u32],
    slices: LentSlices,
    day: u32,
    text: &mut [u8],
    order: &mut [u32],
    work: &mut [u32],
) -> Result<u64, Refusal>
    ensures { record { answer = written_of result; text = text.new; order = order.new; work = work.new }
        ≡ term_sheet_call block_limit (column_given directory.now slices.entry) day text.old order.old work.old }
{
    write(
        directory,
        slices,
        dates::term_of(day).ok(),
        text,
        order,
        work,
    )
}
