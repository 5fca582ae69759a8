// The tally (01): a thin call adds one report's counts to a tally that is lent to it and raised in place.
#![tactic(auto)]

ghost use Rattle.std.specs.Prelude.{◌≡◌, ◌&&◌, ◌+◌, leb};
ghost use Rattle.model.specs.Bounds.{most_tally};
ghost use Rattle.model.specs.Refusals.{number_of};
ghost use Rattle.model.specs.Tallies.{add_call};
ghost use Rattle.tally.specs.Added.{added_of};

use model::{Counts, MOST_TALLY, Refusal, Tally};

// Whether a number of the tally and one more stay within 10^12; their sum is not made before it is known to.
fn has_room(number: u64, more: u64) -> bool
    ensures { result ≡ leb (number + more) most_tally }
{
    number <= MOST_TALLY && more <= MOST_TALLY - number
}

// Check 10 of the three numbers.
fn all_fit(tally: Tally, counts: Counts) -> bool
    ensures { result
        ≡ leb (tally.rr + counts.rr) most_tally && leb (tally.sr + counts.sr) most_tally && leb (tally.«rw» + counts.«rw») most_tally }
{
    has_room(tally.rr, counts.rr) && has_room(tally.sr, counts.sr) && has_room(tally.rw, counts.rw)
}

// The tally with a report's counts added.
pub fn plus(tally: Tally, counts: Counts) -> Result<Tally, Refusal>
    ensures { added_of tally result ≡ add_call tally counts }
{
    if !all_fit(tally, counts) {
        return Err(Refusal::Overflow);
    }
    Ok(Tally {
        rr: tally.rr + counts.rr,
        sr: tally.sr + counts.sr,
        rw: tally.rw + counts.rw,
    })
}

// Adds a report's counts to the lent tally; a refusal leaves it alone.
pub fn add(tally: &mut Tally, counts: Counts) -> Result<(), Refusal>
    ensures { record { refusal = number_of result; tally = tally.new } ≡ add_call tally.old counts }
{
    *tally = plus(*tally, counts)?;
    Ok(())
}
