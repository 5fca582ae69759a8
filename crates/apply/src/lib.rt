// Applying a layout to an unpartitioned set (01: laying): the directory, and no record moved.
#![tactic(auto)]

ghost use Rattle.std.specs.Prelude.{◌≡◌, T};
ghost use Rattle.model.specs.Bounds.{block_limit};
ghost use Rattle.model.specs.Answers.{applied_of};
ghost use Rattle.model.specs.Layouts.{layout_ok};
ghost use Rattle.model.specs.Directory.{directory_numbers};
ghost use Rattle.model.specs.Column.{directory_for};
ghost use Rattle.model.specs.Lent.{set_given};
ghost use Rattle.model.specs.ColumnCalls.{apply_call};
ghost use Rattle.sets.specs.Checked.{checked_set};

use model::{DIRECTORY_SIZE, LentSet, Refusal};
use sets::CheckedSet;

// The directory of a layout: a partition's length is from the slot where the one before it stops to its own, its fence its last grower.
fn directory_of(set: CheckedSet, ends: &[u32]) -> [u32; DIRECTORY_SIZE]
    requires { T (layout_ok (checked_set set) ends.now) }
    ensures { result ≡ directory_numbers block_limit (directory_for (checked_set set.entry) ends.now) }
{
    let mut d = directory::blank(set.block, ends.len());
    let mut start: u32 = 0;
    for i in 0..ends.len() {
        let e = ends[i];
        let stop = set.block_stop(e);
        let fence = set.last_grower(e);
        directory::put(&mut d[..], i, stop - start, fence);
        start = stop;
    }
    d
}

// Applies a layout: its directory, or a refusal.
pub fn apply_layout(set: LentSet, ends: &[u32]) -> Result<[u32; DIRECTORY_SIZE], Refusal>
    ensures { applied_of result ≡ apply_call block_limit (set_given set.entry) ends.now }
{
    let checked = sets::check_layout(set, ends)?;
    Ok(directory_of(checked, ends))
}
