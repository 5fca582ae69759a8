// The lines of a settlement sheet (02: Slip 4), written from slots in order: one run of slots, one line.
#![tactic(auto)]

ghost use Rattle.std.specs.Prelude.{◌≡◌, ◌+◌, ◌*◌, ◌≤◌, ◌<◌, length, T};
ghost use mathlib.Core.List.{map, flatten};
ghost use Rattle.model.specs.Lent.{records_given};
ghost use Rattle.model.specs.Deliveries.{totals_of};
ghost use Rattle.model.specs.Bounds.{most_slots};
ghost use Rattle.model.specs.Sheet.{each_once, sheet_lines, line_text, wide_line, totals_row, sheet_of};
ghost use Rattle.slices.specs.Slices.{Measured};
ghost use Rattle.fields.specs.Writing.{placed};
ghost use Rattle.slot_order.specs.Passes.{slots_in, growers_at};
ghost use Rattle.sheet_lines.specs.Runs.{records_at, InOrder, run_from};

use fields::WIDE;
use model::{Records, Totals};

// The bytes of a grower's line and of the last line (02: four numbers and three, of 20 columns each, and LF).
pub const LINE: usize = 4 * WIDE + 1;

pub const LAST: usize = 3 * WIDE + 1;

// Totals and LF at a byte: the last line, or what follows a line's grower.
fn put_totals(text: &mut [u8], at: usize, t: Totals)
    requires { at + 61 ≤ length text.old }
    ensures { text.new ≡ placed at (wide_line (totals_row t)) text.old }
{
    fields::put_wide(text, at, t.records);
    fields::put_wide(text, at + WIDE, t.weight);
    fields::put_wide(text, at + 2 * WIDE, t.oil);
    text[at + 3 * WIDE] = b'\n';
}

// A grower's line at a byte.
fn put_line(text: &mut [u8], at: usize, grower: u32, t: Totals)
    requires { at + 81 ≤ length text.old }
    ensures { text.new ≡ placed at (line_text (record { grower = grower; totals = t })) text.old }
{
    fields::put_wide(text, at, u64::from(grower));
    put_totals(text, at + WIDE, t);
}

// The totals of the run of one grower's slots that begins at a place of an order: as many slots as records.
fn run_at(order: &[u32], r: Records, from: usize) -> Totals
    requires { Measured (records_given r) × (length order.now ≤ most_slots) × T (slots_in r.growers.now order.now) × (from < length order.now) }
    ensures { result ≡ totals_of (records_at (records_given r.entry) (run_from r.entry.growers.now from order.now)) }
{
    let grower = r.growers[order[from] as usize];
    let mut run = Totals::none();
    for i in from..order.len() {
        let slot = order[i] as usize;
        if r.growers[slot] != grower {
            return run;
        }
        let weight = u64::from(r.weights[slot]);
        let oil = weight * u64::from(r.yields[slot]);
        run.records += 1;
        run.weight += weight;
        run.oil += oil;
    }
    run
}

// How many bytes the lines take, and the sums of their numbers.
#[derive(Clone, Copy)]
struct Lines {
    bytes: usize,
    totals: Totals,
}

// The growers' lines at the start of a text.
fn put_lines(text: &mut [u8], order: &[u32], r: Records) -> Lines
    requires { Measured (records_given r) × InOrder r.growers.now order.now × (81 * length (each_once (growers_at r.growers.now order.now)) ≤ length text.old) }
    ensures { (text.new ≡ placed 0 (flatten (map line_text (sheet_lines (records_at (records_given r.entry) order.now)))) text.old)
        × (result.bytes ≡ 81 * length (each_once (growers_at r.entry.growers.now order.now)))
        × (result.totals ≡ totals_of (records_at (records_given r.entry) order.now)) }
{
    let mut totals = Totals::none();
    let mut at = 0;
    let mut i = 0;
    // A `while`, since a run is as many slots as the grower has records.
    while i < order.len() {
        let run = run_at(order, r, i);
        put_line(text, at, r.growers[order[i] as usize], run);
        totals = totals.plus(run);
        at += LINE;
        i += run.records as usize;
    }
    Lines { bytes: at, totals }
}

// The sheet of the records in the slots of an order, at the start of a text: how many bytes it takes.
pub fn put_sheet(text: &mut [u8], order: &[u32], r: Records) -> usize
    requires { Measured (records_given r) × InOrder r.growers.now order.now
        × (81 * length (each_once (growers_at r.growers.now order.now)) + 61 ≤ length text.old) }
    ensures { (text.new ≡ placed 0 (sheet_of (records_at (records_given r.entry) order.now)) text.old)
        × (result ≡ length (sheet_of (records_at (records_given r.entry) order.now))) }
{
    let lines = put_lines(text, order, r);
    put_totals(text, lines.bytes, lines.totals);
    lines.bytes + LAST
}
