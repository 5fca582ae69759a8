// Rows of a weighbridge file (02: Slip 1) at a byte of its text: judged, and stored.
#![tactic(auto)]

ghost use Rattle.std.specs.Prelude.{◌≡◌, ◌≤◌, length};
ghost use Rattle.csv_rows.specs.Rows.{PickedIs, PicksIs, StepIs, is_wanted, RecordIs, RowOf, RowIs, in_order, ShortRecordIs};
ghost use Rattle.csv_rows.specs.Rows.{JudgedIs, Storable, Stored, RoomFor, ReadRows};

use csv_fields::Behind;
use model::{Delivery, MOST_WEIGHT, MOST_YIELD};

// Where the header has the three names, and how many columns it has.
#[derive(Clone, Copy)]
pub struct Columns {
    pub grower: usize,
    pub weight: usize,
    pub oil_yield: usize,
    pub count: usize,
}

// The numbers of the three columns, as far as a record is read.
#[derive(Clone, Copy)]
pub struct Picks {
    pub grower: Option<u32>,
    pub weight: Option<u32>,
    pub oil_yield: Option<u32>,
}

// The numbers after one field more, and what stands behind the field.
#[derive(Clone, Copy)]
struct Step {
    picks: Picks,
    behind: Behind,
}

// A record: how many fields it has, the numbers of the three columns, and where the text goes on.
#[derive(Clone, Copy)]
pub struct Record {
    pub count: usize,
    pub picks: Picks,
    pub next: usize,
}

// A row: its delivery, and where the text goes on.
#[derive(Clone, Copy)]
pub struct Row {
    pub delivery: Delivery,
    pub next: usize,
}

// How many digits an export writes at most: of a grower (01: 4,294,967,295), a weight (100,000 kg) and a yield (10,000).
const GROWER_DIGITS: usize = 10;

const WEIGHT_DIGITS: usize = 6;

const YIELD_DIGITS: usize = 5;

// No field is read.
const NO_PICKS: Picks = Picks {
    grower: None,
    weight: None,
    oil_yield: None,
};

// The number of column `column` after field k: that field's if it is the one, else the one of before.
fn picked(k: usize, column: usize, new: Option<u32>, old: Option<u32>) -> Option<u32>
    ensures { PickedIs k column new old result }
{
    if k == column { new } else { old }
}

// Whether column k is one of the three.
fn wanted(k: usize, c: Columns) -> bool
    ensures { result ≡ is_wanted k c }
{
    k == c.grower || k == c.weight || k == c.oil_yield
}

// The numbers of the three columns after field k, whose number is `new`.
fn pick_all(k: usize, c: Columns, new: Option<u32>, old: Picks) -> Picks
    ensures { PicksIs k c new old result }
{
    Picks {
        grower: picked(k, c.grower, new, old.grower),
        weight: picked(k, c.weight, new, old.weight),
        oil_yield: picked(k, c.oil_yield, new, old.oil_yield),
    }
}

// One field more, which is field k, at a byte; the number of one that is of none of the three columns is not read. None if no record goes on
// or ends behind it.
fn next_field(text: &[u8], at: usize, k: usize, c: Columns, old: Picks) -> Option<Step>
    requires { at ≤ length text.now }
    ensures { StepIs text.now at k c old result }
{
    if wanted(k, c) {
        let cell = csv_fields::cell_at(text, at)?;
        return Some(Step {
            picks: pick_all(k, c, cell.number, old),
            behind: cell.behind,
        });
    }
    let behind = csv_fields::skip_field(text, at)?;
    Some(Step { picks: old, behind })
}

// The record at a byte, with the numbers of the three columns; none if a quote in it is broken.
fn any_record(text: &[u8], at: usize, c: Columns) -> Option<Record>
    requires { at ≤ length text.now }
    ensures { RecordIs text.now at c result }
{
    let mut i = at;
    let mut count: usize = 0;
    let mut picks = NO_PICKS;
    loop {
        let step = next_field(text, i, count, c, picks)?;
        picks = step.picks;
        count += 1;
        match step.behind {
            Behind::Comma(next) => i = next,
            Behind::End(next) => return Some(Record { count, picks, next }),
        }
    }
}

// Whether the three columns are the first, in the order of an export.
fn in_order(c: Columns) -> bool
    ensures { result ≡ in_order c }
{
    c.grower == 0 && c.weight == 1 && c.oil_yield == 2
}

// A record of three short numbers where the columns are an export's own, as an export writes it; none for any other. Its count is taken from
// the columns, so that `row_of` does not ask for it again.
fn short_record(text: &[u8], at: usize, c: Columns) -> Option<Record>
    requires { at ≤ length text.now }
    ensures { ShortRecordIs text.now at c result }
{
    if c.count != 3 || !in_order(c) {
        return None;
    }
    let grower = csv_fields::short_before_comma(text, at, GROWER_DIGITS)?;
    let weight = csv_fields::short_before_comma(text, grower.next, WEIGHT_DIGITS)?;
    let oil_yield = csv_fields::short_before_end(text, weight.next, YIELD_DIGITS)?;
    Some(Record {
        count: c.count,
        picks: Picks {
            grower: Some(grower.number),
            weight: Some(weight.number),
            oil_yield: Some(oil_yield.number),
        },
        next: oil_yield.next,
    })
}

// The row that a record is; none if it is no row (02: 18).
fn row_of(read: Record, c: Columns) -> Option<Row>
    ensures { RowOf read c result }
{
    if read.count != c.count {
        return None;
    }
    let grower = read.picks.grower?;
    let weight = read.picks.weight?;
    let oil_yield = read.picks.oil_yield?;
    if MOST_WEIGHT < weight || MOST_YIELD < oil_yield {
        return None;
    }
    let delivery = Delivery {
        grower,
        weight,
        oil_yield,
        day: 0,
    };
    Some(Row {
        delivery,
        next: read.next,
    })
}

// The row at a byte. A record of short numbers is tried first; `any_record` is called in one place, so that it is inlined, and `row_of` in two,
// so that of short numbers, which are there, it asks nothing again.
fn row_at(text: &[u8], at: usize, c: Columns) -> Option<Row>
    requires { at ≤ length text.now }
    ensures { RowIs text.now at c result }
{
    if let Some(record) = short_record(text, at, c) {
        return row_of(record, c);
    }
    let record = any_record(text, at, c)?;
    row_of(record, c)
}

// How many rows there are from a byte on, each judged, and stored in its order if it is among the first `room`; none if one is bad. Both passes over a text are
// this one loop, so that all that it calls is called in one place and inlined.
fn read_rows(
    text: &[u8],
    at: usize,
    c: Columns,
    room: usize,
    growers: &mut [u32],
    weights: &mut [u32],
    yields: &mut [u32],
) -> Option<usize>
    requires { (at ≤ length text.now) × RoomFor room growers.old weights.old yields.old }
    ensures { ReadRows text.now at c room growers.old weights.old yields.old result
        growers.new weights.new yields.new }
{
    let mut i = at;
    let mut m: usize = 0;
    // A `while`, since a row says where the next one begins.
    while i < text.len() {
        let row = row_at(text, i, c)?;
        let k = m;
        i = row.next;
        m += 1;
        if k < room {
            growers[k] = row.delivery.grower;
            weights[k] = row.delivery.weight;
            yields[k] = row.delivery.oil_yield;
        }
    }
    Some(m)
}

// How many rows there are from a byte on, if each is good: none is stored, since there is room for none.
pub fn judge(text: &[u8], at: usize, c: Columns) -> Option<usize>
    requires { at ≤ length text.now }
    ensures { JudgedIs text.now at c result }
{
    let mut growers = [0u32; 1];
    let mut weights = [0u32; 1];
    let mut yields = [0u32; 1];
    read_rows(text, at, c, 0, &mut growers, &mut weights, &mut yields)
}

// Stores the rows from a byte on, which are good and for which there is room, in their order.
pub fn store(
    text: &[u8],
    at: usize,
    c: Columns,
    growers: &mut [u32],
    weights: &mut [u32],
    yields: &mut [u32],
)
    requires { Storable text.now at c growers.old weights.old yields.old }
    ensures { Stored text.now at c growers.old weights.old yields.old
        growers.new weights.new yields.new }
{
    let room = growers.len().min(weights.len()).min(yields.len());
    read_rows(text, at, c, room, growers, weights, yields);
}
