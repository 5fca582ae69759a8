// The weighbridge file (02: Slip 1): imported into the slices, its columns found by name, and exported from them.
// Importing judges the whole text before it stores a row, exporting knows the text's length before it writes a byte, so that a refused
// call writes to no slice.
#![tactic(auto)]

ghost use Rattle.std.specs.Prelude.{◌≡◌, false, ◌≤◌, ◌<◌, length, IfOk};
ghost use Rattle.model.specs.Refusals.{number_of};
ghost use Rattle.model.specs.Answers.{imported_of, written_of};
ghost use Rattle.model.specs.Checks.{first_failed};
ghost use Rattle.model.specs.Lent.{slices_given, slices_part, records_given, slices_out, slices_in_mut};
ghost use Rattle.model.specs.Questions.{export_checks};
ghost use Rattle.model.specs.CsvCalls.{import_call, export_call};
ghost use Rattle.csv_fields.specs.Reading.{holds_quote};
ghost use Rattle.csv_calls.specs.Checking.{IsName, with_column, NamedIs, header_refusal, HeaderAt, text_refusal, GoodText};

use csv_fields::{Behind, Field};
use csv_rows::Columns;
use model::{LentSlices, Records, Refusal};

// A name in the header: in how many columns it stands, the first of them, how many columns there are, and where the text goes on.
#[derive(Clone, Copy)]
struct Named {
    times: usize,
    column: usize,
    count: usize,
    next: usize,
}

const NO_COLUMN: Named = Named {
    times: 0,
    column: 0,
    count: 0,
    next: 0,
};

// The header's columns, and where the rows begin.
#[derive(Clone, Copy)]
struct Header {
    columns: Columns,
    next: usize,
}

// What checking a text finds: its header, and how many rows there are.
#[derive(Clone, Copy)]
struct Checked {
    header: Header,
    rows: usize,
}

// Whether a field is a name. One with a doubled quote is none, as no name holds a quote.
#[tactic(auto, using(crate::proofs::NameLaws::same_is, crate::proofs::NameLaws::plain_name, crate::proofs::NameLaws::doubled_no_name))]
fn is_name(text: &[u8], field: Field, name: &[u8]) -> bool
    requires { (field.from ≤ field.to) × (field.to ≤ length text.now) × (holds_quote name.now ≡ false) }
    ensures { IsName text.now field.from field.to field.clean name.now result }
{
    field.clean && &text[field.from..field.to] == name
}

// The name with one column more, of which there are then `count`.
fn with_column(s: Named, found: bool, count: usize, next: usize) -> Named
    requires { s.times < count }
    ensures { result ≡ with_column s found count next }
{
    if !found {
        return Named { count, next, ..s };
    }
    Named {
        times: s.times + 1,
        column: if s.times == 0 { s.count } else { s.column },
        count,
        next,
    }
}

// A name in the header; a header with a broken quote is none.
fn find_name(text: &[u8], name: &[u8]) -> Option<Named>
    requires { holds_quote name.now ≡ false }
    ensures { NamedIs text.now name.now result }
{
    let mut s = NO_COLUMN;
    loop {
        let field = csv_fields::field_at(text, s.next)?;
        let found = is_name(text, field, name);
        let count = s.count + 1;
        match csv_fields::behind_at(text, field.rest)? {
            Behind::Comma(next) => s = with_column(s, found, count, next),
            Behind::End(next) => return Some(with_column(s, found, count, next)),
        }
    }
}

// Checks 16 and 17 of the header.
fn columns_of(text: &[u8]) -> Result<Header, Refusal>
    ensures refused { number_of result ≡ header_refusal text.now }
    ensures accepted { IfOk result (λ h. HeaderAt text.now h) }
{
    let grower = find_name(text, b"grower").ok_or(Refusal::NameAbsent)?;
    let weight = find_name(text, b"weight").ok_or(Refusal::NameAbsent)?;
    let oil_yield = find_name(text, b"yield").ok_or(Refusal::NameAbsent)?;
    if grower.times < 1 || weight.times < 1 || oil_yield.times < 1 {
        return Err(Refusal::NameAbsent);
    }
    if 1 < grower.times || 1 < weight.times || 1 < oil_yield.times {
        return Err(Refusal::NameTwice);
    }
    let columns = Columns {
        grower: grower.column,
        weight: weight.column,
        oil_yield: oil_yield.column,
        count: grower.count,
    };
    Ok(Header {
        columns,
        next: grower.next,
    })
}

// Checks 16, 17, 18 and 12 of a text for so many slots.
fn check_text(text: &[u8], slots: usize) -> Result<Checked, Refusal>
    ensures refused { number_of result ≡ text_refusal text.now slots }
    ensures accepted { IfOk result (λ t. GoodText text.now slots t) }
{
    let header = columns_of(text)?;
    let rows = csv_rows::judge(text, header.next, header.columns).ok_or(Refusal::Row)?;
    if slots < rows {
        return Err(Refusal::Full);
    }
    Ok(Checked { header, rows })
}

// Reads the rows of a text into the slices, in their order, with day 0: how many, or a refusal and the slices as they were.
pub fn import(
    text: &[u8],
    growers: &mut [u32],
    weights: &mut [u32],
    yields: &mut [u32],
    days: &mut [u32],
) -> Result<u64, Refusal>
    ensures { record { answer = imported_of result; slices = slices_out growers weights yields days }
        ≡ import_call text.now (slices_in_mut growers weights yields days) }
{
    if !checks::slices_ok(LentSlices {
        growers,
        weights,
        yields,
        days,
    }) {
        return Err(Refusal::Slices);
    }
    let checked = check_text(text, growers.len())?;
    let header = checked.header;
    csv_rows::store(text, header.next, header.columns, growers, weights, yields);
    days[..checked.rows].fill(0);
    Ok(checked.rows as u64)
}

// Checks 3, 4, 8, 19 and 15 of exporting the first slots into room bytes: the records of those slots.
fn check_export<'a>(used: u32, slices: LentSlices<'a>, room: usize) -> Result<Records<'a>, Refusal>
    ensures refused { number_of result ≡ first_failed (export_checks used (slices_given slices.entry) room) }
    ensures accepted { IfOk result (λ r. records_given r ≡ slices_part 0 used (slices_given slices.entry)) }
{
    let all = checks::records(slices)?;
    let m = used as usize;
    if all.len() < m {
        return Err(Refusal::UsedSlots);
    }
    let records = all.part(0, m);
    if !checks::values_ok(records.weights, records.yields) {
        return Err(Refusal::Values);
    }
    if !checks::days_ok(records.days) {
        return Err(Refusal::Days);
    }
    if room < csv_lines::text_length(records) {
        return Err(Refusal::Room);
    }
    Ok(records)
}

// Writes the first slots as a weighbridge file, without their days: how many bytes, or a refusal and the text as it was.
pub fn export(used: u32, slices: LentSlices, text: &mut [u8]) -> Result<u64, Refusal>
    ensures { record { answer = written_of result; text = text.new }
        ≡ export_call used (slices_given slices.entry) text.old }
{
    let records = check_export(used, slices, text.len())?;
    let start = csv_lines::put_header(text);
    let end = csv_lines::put_rows(text, start, records);
    Ok(end as u64)
}
