// The unpartitioned set (01: the unlaid set), its blocks and the layouts of these: the checks that several calls put.
#![tactic(auto)]

mod checked;

ghost use Rattle.std.specs.Prelude.{◌≡◌, ◌&&◌, ◌*◌, ◌≤◌, leb, IfOk};
ghost use Rattle.model.specs.Bounds.{block_limit, most_block_length};
ghost use Rattle.model.specs.Checks.{first_failed};
ghost use Rattle.model.specs.Questions.{apply_checks};
ghost use Rattle.model.specs.Lent.{set_given};
ghost use Rattle.model.specs.Refusals.{number_of};
ghost use Rattle.sets.specs.Sized.{set_refusal_of, counted_checks};
ghost use Rattle.sets.specs.Checked.{checked_set};

pub use checked::CheckedSet;
use model::{BLOCK_LIMIT, LentSet, Refusal};

// Check 4 of m used slots among c.
fn used_ok(block: u32, m: usize, c: usize) -> bool
    requires { block ≤ most_block_length }
    ensures { result ≡ leb 1 m && leb m c && leb m (block_limit * block) }
{
    1 <= m && m <= c && m <= BLOCK_LIMIT * block as usize
}

// Checks 2, 3, 4 and 5 of a set.
fn check_set<'a>(set: LentSet<'a>) -> Result<CheckedSet<'a>, Refusal>
    ensures answer { number_of result ≡ set_refusal_of block_limit (set_given set.entry) }
    ensures accepted { IfOk result (λ s. checked_set s ≡ set_given set.entry) }
{
    if !checks::block_length_ok(set.block) {
        return Err(Refusal::BlockLength);
    }
    let records = checks::records(set.slices)?;
    let m = set.used as usize;
    if !used_ok(set.block, m, records.len()) {
        return Err(Refusal::UsedSlots);
    }
    if !slices::never_falling(&records.growers[..m]) {
        return Err(Refusal::Order);
    }
    Ok(CheckedSet {
        block: set.block,
        used: set.used,
        records,
    })
}

// Checks 2, 3, 4, 5, 6, 8 and 19 of a set and a layout.
pub fn check_layout<'a>(set: LentSet<'a>, ends: &[u32]) -> Result<CheckedSet<'a>, Refusal>
    ensures answer { number_of result ≡ first_failed (apply_checks block_limit (set_given set.entry) ends.now) }
    ensures accepted { IfOk result (λ s. checked_set s ≡ set_given set.entry) }
{
    let checked = check_set(set)?;
    if !checked.layout_ok(ends) {
        return Err(Refusal::Shape);
    }
    if !checked.values_ok() {
        return Err(Refusal::Values);
    }
    if !checked.days_ok() {
        return Err(Refusal::Days);
    }
    Ok(checked)
}

// Checks 2, 3, 4, 5, 7, 8, 19 and 9: of the set, of a call's order, of the set's values and the offered ones, of their days, of the histograms.
pub fn check_counted<'a>(
    histograms: &[u32],
    set: LentSet<'a>,
    ordered: bool,
    offered: bool,
    days_offered: bool,
) -> Result<CheckedSet<'a>, Refusal>
    ensures answer { number_of result
        ≡ first_failed (counted_checks block_limit (set_given set.entry) histograms.now ordered offered days_offered) }
    ensures accepted { IfOk result (λ s. checked_set s ≡ set_given set.entry) }
{
    let checked = check_set(set)?;
    if !ordered {
        return Err(Refusal::Range);
    }
    if !checked.values_ok() {
        return Err(Refusal::Values);
    }
    if !offered {
        return Err(Refusal::Values);
    }
    if !checked.days_ok() {
        return Err(Refusal::Days);
    }
    if !days_offered {
        return Err(Refusal::Days);
    }
    if !histograms::counts_ok(histograms) {
        return Err(Refusal::Histograms);
    }
    Ok(checked)
}
