// The program settlement as a function (02: Slip 4): from its whole input to its whole output, as bytes.
#![tactic(auto)]

ghost use Rattle.std.specs.Prelude.{◌≡◌};
ghost use Rattle.model.specs.SheetCalls.{settlement};
ghost use Rattle.settlement_text.specs.Texts.{output_of};

use lines::Output;
use model::LentSlices;
use sheet_lines::{LAST, LINE};

// The slots that a book is read into (02: 512), and the longest output: each delivery of another grower.
const SLOTS: usize = 512;

const OUTPUT: usize = LINE * SLOTS + LAST;

// The program's output for an input. A book that is read makes a sound column, and there is room for its sheet: the sheet is not refused.
pub fn settlement_text(text: &[u8]) -> Output<OUTPUT>
    ensures { result ≡ output_of (settlement text.now) }
{
    let mut growers = [0u32; SLOTS];
    let mut weights = [0u32; SLOTS];
    let mut yields = [0u32; SLOTS];
    let mut days = [0u32; SLOTS];
    let read = snapshot::read(
        text,
        &mut growers[..],
        &mut weights[..],
        &mut yields[..],
        &mut days[..],
    );
    let directory = match read {
        Ok(directory) => directory,
        Err(refusal) => return Output::one_number(refusal.number()),
    };
    let mut bytes = [0u8; OUTPUT];
    let mut order = [0u32; SLOTS];
    let mut work = [0u32; SLOTS];
    let slices = LentSlices {
        growers: &growers[..],
        weights: &weights[..],
        yields: &yields[..],
        days: &days[..],
    };
    let count = sheet::write_sheet(
        &directory[..],
        slices,
        &mut bytes[..],
        &mut order[..],
        &mut work[..],
    )
    .unwrap_or(0) as usize;
    Output { bytes, count }
}
