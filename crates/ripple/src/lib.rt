// The moves of a call on the slices (01: the ripple). A record moves whole, and every store is inside the part that is lent.
#![tactic(auto)]

ghost use Rattle.std.specs.Prelude.{◌≡◌, ◌+◌, ◌≤◌, ◌<◌, length, get_or, set};
ghost use Rattle.model.specs.Deliveries.{each_slice, storing, Even};
ghost use Rattle.model.specs.Lent.{slices_at_mut, slices_in_mut, slices_out};
ghost use Rattle.model.specs.Lists.{sum_of};
ghost use Rattle.model.specs.Partitions.{start_of};
ghost use Rattle.model.specs.Moves.{inserted, deleted, moved};
ghost use Rattle.ripple.specs.Held.{slices_held, Keeps, carried};

mod records;

use model::Delivery;
use records::RecordsMut;

// Slot p takes the record of slot q.
fn carry(r: &mut RecordsMut<'_>, q: usize, p: usize)
    requires { (q < length r.old.growers.now) × (p < length r.old.growers.now) }
    ensures slots { slices_held r.new ≡ each_slice (carried q p) (slices_held r.old) }
    ensures keeps { Keeps r.old r.new }
{
    r.growers[p] = r.growers[q];
    r.weights[p] = r.weights[q];
    r.yields[p] = r.yields[q];
    r.days[p] = r.days[q];
}

// Slot p takes the delivery.
fn store(r: &mut RecordsMut<'_>, p: usize, d: Delivery)
    requires { p < length r.old.growers.now }
    ensures slots { slices_held r.new ≡ storing (λ x l. set l p x) d (slices_held r.old) }
    ensures keeps { Keeps r.old r.new }
{
    r.growers[p] = d.grower;
    r.weights[p] = d.weight;
    r.yields[p] = d.oil_yield;
    r.days[p] = d.day;
}

// d goes past the end of the first partition of lens; end is where the last one ends. Each later one gives its first slot's record to the slot
// past its end.
fn insert_ripple(r: &mut RecordsMut<'_>, lens: &[u32], end: usize, d: Delivery)
    requires { (1 ≤ length lens.now) × (end ≡ sum_of lens.now) × (end < length r.old.growers.now) }
    ensures slots { slices_held r.new ≡ storing (inserted lens.now 0) d (slices_held r.old) }
    ensures keeps { Keeps r.old r.new }
{
    let mut p = end;
    for j in (1..lens.len()).rev() {
        let q = p - lens[j] as usize;
        carry(r, q, p);
        p = q;
    }
    store(r, p, d);
}

// A slot of the first partition of lens goes, and d fills the slot that is freed at the end of the last one. Each later one gives its last slot's
// record to the slot ahead of its start.
fn delete_ripple(r: &mut RecordsMut<'_>, lens: &[u32], slot: usize, d: Delivery)
    requires { (1 ≤ length lens.now) × (slot < get_or lens.now 0 0) × (sum_of lens.now ≤ length r.old.growers.now) }
    ensures slots { slices_held r.new ≡ storing (deleted lens.now 0 slot) d (slices_held r.old) }
    ensures keeps { Keeps r.old r.new }
{
    let mut p = lens[0] as usize - 1;
    carry(r, p, slot);
    for j in 1..lens.len() {
        let q = p + lens[j] as usize;
        carry(r, q, p);
        p = q;
    }
    store(r, p, d);
}

// A slot's record goes from the first partition of lens to another, or stays in it, as d.
fn forward_ripple(r: &mut RecordsMut<'_>, lens: &[u32], slot: usize, to: usize, d: Delivery)
    requires { (to < length lens.now) × (slot < get_or lens.now 0 0) × (sum_of lens.now ≤ length r.old.growers.now) }
    ensures slots { slices_held r.new ≡ storing (moved lens.now 0 slot to) d (slices_held r.old) }
    ensures keeps { Keeps r.old r.new }
{
    if to == 0 {
        delete_ripple(r, &lens[..1], slot, d);
    } else {
        delete_ripple(r, &lens[..to], slot, d);
    }
}

// A slot's record goes from a later partition, which begins at start, to the first of lens, as d: its own partition fills the gap from the front.
fn backward_ripple(
    r: &mut RecordsMut<'_>,
    lens: &[u32],
    from: usize,
    start: usize,
    slot: usize,
    d: Delivery,
)
    requires { (1 ≤ from) × (from < length lens.now) × (start ≡ start_of lens.now from) × (slot < get_or lens.now from 0)
        × (sum_of lens.now ≤ length r.old.growers.now) }
    ensures slots { slices_held r.new ≡ storing (moved lens.now from slot 0) d (slices_held r.old) }
    ensures keeps { Keeps r.old r.new }
{
    carry(r, start, start + slot);
    insert_ripple(r, &lens[..from], start, d);
}

// A call's parts, which begin where the first partition of lens begins. The four stay apart from the calls below, which cut the parts, since what comes
// back of a part that went into a struct is not known to the borrow checker.

// d goes past the end of the first partition of lens; end is where the last one ends.
fn insert_part(
    growers: &mut [u32],
    weights: &mut [u32],
    yields: &mut [u32],
    days: &mut [u32],
    lens: &[u32],
    end: usize,
    d: Delivery,
)
    requires { (1 ≤ length lens.now) × (end ≡ sum_of lens.now) × (end < length growers.old) × Even (slices_at_mut growers weights yields days) }
    ensures { slices_out growers weights yields days ≡ storing (inserted lens.now 0) d (slices_in_mut growers weights yields days) }
{
    let mut r = RecordsMut {
        growers,
        weights,
        yields,
        days,
    };
    insert_ripple(&mut r, lens, end, d);
}

// A slot of the first partition of lens goes, and the freed slot gets the numbers of d.
fn delete_part(
    growers: &mut [u32],
    weights: &mut [u32],
    yields: &mut [u32],
    days: &mut [u32],
    lens: &[u32],
    slot: usize,
    d: Delivery,
)
    requires { (1 ≤ length lens.now) × (slot < get_or lens.now 0 0) × (sum_of lens.now ≤ length growers.old)
        × Even (slices_at_mut growers weights yields days) }
    ensures { slices_out growers weights yields days ≡ storing (deleted lens.now 0 slot) d (slices_in_mut growers weights yields days) }
{
    let mut r = RecordsMut {
        growers,
        weights,
        yields,
        days,
    };
    delete_ripple(&mut r, lens, slot, d);
}

// A slot's record goes from the first partition of lens to another, or stays in it, as d.
fn forward_part(
    growers: &mut [u32],
    weights: &mut [u32],
    yields: &mut [u32],
    days: &mut [u32],
    lens: &[u32],
    slot: usize,
    to: usize,
    d: Delivery,
)
    requires { (to < length lens.now) × (slot < get_or lens.now 0 0) × (sum_of lens.now ≤ length growers.old)
        × Even (slices_at_mut growers weights yields days) }
    ensures { slices_out growers weights yields days ≡ storing (moved lens.now 0 slot to) d (slices_in_mut growers weights yields days) }
{
    let mut r = RecordsMut {
        growers,
        weights,
        yields,
        days,
    };
    forward_ripple(&mut r, lens, slot, to, d);
}

// A slot's record goes from a later partition, which begins at start, to the first of lens, as d.
fn backward_part(
    growers: &mut [u32],
    weights: &mut [u32],
    yields: &mut [u32],
    days: &mut [u32],
    lens: &[u32],
    from: usize,
    start: usize,
    slot: usize,
    d: Delivery,
)
    requires { (1 ≤ from) × (from < length lens.now) × (start ≡ start_of lens.now from) × (slot < get_or lens.now from 0)
        × (sum_of lens.now ≤ length growers.old) × Even (slices_at_mut growers weights yields days) }
    ensures { slices_out growers weights yields days ≡ storing (moved lens.now from slot 0) d (slices_in_mut growers weights yields days) }
{
    let mut r = RecordsMut {
        growers,
        weights,
        yields,
        days,
    };
    backward_ripple(&mut r, lens, from, start, slot, d);
}

// The calls: each cuts the four slices once, where the first partition that changes begins, so that no slot ahead of it can be written.

// The delivery goes into a partition, which begins at start; used is where the last one ends.
#[tactic(auto, using(model::proofs::Parts::start_le))]
pub fn insert_slots(
    growers: &mut [u32],
    weights: &mut [u32],
    yields: &mut [u32],
    days: &mut [u32],
    lens: &[u32],
    partition: usize,
    start: usize,
    used: usize,
    d: Delivery,
)
    requires { (partition < length lens.now) × (start ≡ start_of lens.now partition) × (used ≡ sum_of lens.now) × (used < length growers.old)
        × Even (slices_at_mut growers weights yields days) }
    ensures { slices_out growers weights yields days ≡ storing (inserted lens.now partition) d (slices_in_mut growers weights yields days) }
{
    insert_part(
        &mut growers[start..],
        &mut weights[start..],
        &mut yields[start..],
        &mut days[start..],
        &lens[partition..],
        used - start,
        d,
    );
}

// A slot of a partition, which begins at start, goes, and the freed slot gets the numbers of d.
#[tactic(auto, using(model::proofs::Parts::start_le))]
pub fn delete_slots(
    growers: &mut [u32],
    weights: &mut [u32],
    yields: &mut [u32],
    days: &mut [u32],
    lens: &[u32],
    partition: usize,
    start: usize,
    slot: usize,
    d: Delivery,
)
    requires { (partition < length lens.now) × (start ≡ start_of lens.now partition) × (slot < get_or lens.now partition 0)
        × (sum_of lens.now ≤ length growers.old) × Even (slices_at_mut growers weights yields days) }
    ensures { slices_out growers weights yields days ≡ storing (deleted lens.now partition slot) d (slices_in_mut growers weights yields days) }
{
    delete_part(
        &mut growers[start..],
        &mut weights[start..],
        &mut yields[start..],
        &mut days[start..],
        &lens[partition..],
        slot,
        d,
    );
}

// A slot's record goes from one partition to another, no earlier one, as d.
#[tactic(auto, using(model::proofs::Parts::start_le))]
pub fn forward_slots(
    growers: &mut [u32],
    weights: &mut [u32],
    yields: &mut [u32],
    days: &mut [u32],
    lens: &[u32],
    from: usize,
    from_start: usize,
    slot: usize,
    to: usize,
    d: Delivery,
)
    requires { (from ≤ to) × (to < length lens.now) × (from_start ≡ start_of lens.now from) × (slot < get_or lens.now from 0)
        × (sum_of lens.now ≤ length growers.old) × Even (slices_at_mut growers weights yields days) }
    ensures { slices_out growers weights yields days ≡ storing (moved lens.now from slot to) d (slices_in_mut growers weights yields days) }
{
    forward_part(
        &mut growers[from_start..],
        &mut weights[from_start..],
        &mut yields[from_start..],
        &mut days[from_start..],
        &lens[from..],
        slot,
        to - from,
        d,
    );
}

// A slot's record goes from one partition to an earlier one, as d.
#[tactic(auto, using(model::proofs::Parts::start_le))]
pub fn backward_slots(
    growers: &mut [u32],
    weights: &mut [u32],
    yields: &mut [u32],
    days: &mut [u32],
    lens: &[u32],
    from: usize,
    from_start: usize,
    slot: usize,
    to: usize,
    to_start: usize,
    d: Delivery,
)
    requires { (to < from) × (from < length lens.now) × (from_start ≡ start_of lens.now from) × (to_start ≡ start_of lens.now to)
        × (slot < get_or lens.now from 0) × (sum_of lens.now ≤ length growers.old) × Even (slices_at_mut growers weights yields days) }
    ensures { slices_out growers weights yields days ≡ storing (moved lens.now from slot to) d (slices_in_mut growers weights yields days) }
{
    backward_part(
        &mut growers[to_start..],
        &mut weights[to_start..],
        &mut yields[to_start..],
        &mut days[to_start..],
        &lens[to..],
        from - to,
        from_start - to_start,
        slot,
        d,
    );
}
