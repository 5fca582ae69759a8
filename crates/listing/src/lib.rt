// Every permitted layout of a small set, with its cost (02: Slip 13). Whether the lines fit is known before anything is written.
#![tactic(auto)]

ghost use Rattle.std.specs.Prelude.{◌≡◌, IfOk};
ghost use Rattle.model.specs.Answers.{listed_of};
ghost use Rattle.model.specs.Bounds.{block_limit};
ghost use Rattle.model.specs.Checks.{first_failed};
ghost use Rattle.model.specs.Lent.{set_given};
ghost use Rattle.model.specs.ListingCalls.{list_call};
ghost use Rattle.model.specs.Questions.{listing_checks};
ghost use Rattle.model.specs.Refusals.{number_of};
ghost use Rattle.block_costs.specs.Terms.{PricesPass};
ghost use Rattle.listing.specs.Answers.{rules_of, IsSized};

use block_costs::PricedCounts;
use layout_lines::{Choices, Rules, Size};
use layout_search::{SUMS_PER_PLACE, Sums};
use model::{LentSet, Limits, Listing, MOST_LISTED_BLOCKS, PriceCard, Refusal};

// The running sums of all blocks.
const SUMS: usize = (MOST_LISTED_BLOCKS + 1) * SUMS_PER_PLACE;

// What checking a set for a listing finds: what its layouts are held to, where an end may stand, how many layouts there are and the bytes of their lines.
#[derive(Clone, Copy)]
struct Sized {
    rules: Rules,
    fits: [bool; MOST_LISTED_BLOCKS],
    size: Size,
}

// What the limits let a layout of so many blocks be.
fn rules_of(card: PriceCard, limits: Limits, blocks: usize) -> Rules
    requires { PricesPass card }
    ensures { result ≡ rules_of card limits blocks }
{
    let longest = permitted::longest_partition(card, limits);
    let most = permitted::most_partitions(card, limits);
    Rules {
        longest,
        most,
        blocks,
    }
}

// Checks 1, 2, 3, 4, 5, 8, 19, 9, 23, 11 and 15 of a listing. It is lent no text but its length, so that none of them can write.
fn check_listing(
    card: PriceCard,
    limits: Limits,
    set: LentSet,
    histograms: &[u32],
    room: usize,
) -> Result<Sized, Refusal>
    ensures refused { number_of result ≡ first_failed (listing_checks block_limit card limits (set_given set.entry) histograms.now room) }
    ensures accepted { IfOk result (IsSized block_limit card limits (set_given set.entry) histograms.now) }
{
    let checked = permitted::check_plan(card, limits, set, histograms)?;
    let n = checked.block_count() as usize;
    if MOST_LISTED_BLOCKS < n {
        return Err(Refusal::ListedBlocks);
    }
    let rules = rules_of(card, limits, n);
    let mut fits = [false; MOST_LISTED_BLOCKS];
    let growers = checked.records.growers;
    permitted::mark(checked.block, checked.used, growers, n, &mut fits[..]);
    let choices = Choices {
        fits: &fits[..],
        rules,
    };
    let s = choices.size_rest(0, 0, 0);
    if s.layouts == 0 {
        return Err(Refusal::NoLayout);
    }
    if room < s.bytes {
        return Err(Refusal::Room);
    }
    Ok(Sized {
        rules,
        fits,
        size: s,
    })
}

// Lists every permitted layout of a set of at most 12 blocks, a line each at the front of the text; what lies past them stays.
pub fn list_layouts(
    card: PriceCard,
    limits: Limits,
    set: LentSet,
    histograms: &[u32],
    text: &mut [u8],
) -> Result<Listing, Refusal>
    ensures { record { answer = listed_of result; text = text.new }
        ≡ list_call block_limit card limits (set_given set.entry) histograms.now text.old }
{
    let sized = check_listing(card, limits, set, histograms, text.len())?;
    let n = sized.rules.blocks;
    let mut sums = [0u64; SUMS];
    let counts = PricedCounts { card, histograms };
    counts.add_up(n, &mut sums[..]);
    let given = Sums {
        places: &sums[..],
        blocks: n,
    };
    let choices = Choices {
        fits: &sized.fits[..],
        rules: sized.rules,
    };
    choices.put_all(given, text);
    Ok(Listing {
        layouts: sized.size.layouts,
        bytes: sized.size.bytes as u64,
    })
}
