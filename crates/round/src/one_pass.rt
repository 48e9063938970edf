//! One pass.
ghost use Rattle.std.specs.Prelude.{◌≡◌, ◌<◌, length, IfOk, OnOk, OnErr};
ghost use Rattle.admit_core.specs.Boarding.{boarding};
ghost use Rattle.admit_core.specs.CallOrder.{AreCallOrders};
ghost use Rattle.admit_core.specs.Days.{IsPass, offered};
ghost use Rattle.admit_core.specs.Falls.{IsGreatest};
ghost use Rattle.bar_fixpoint.specs.Chosen.{StopsAbove, TellsOfFalls};
ghost use Rattle.bar_fixpoint.specs.Steps.{AreUnchanged};
ghost use Rattle.round.specs.KeptFalls.{AreKeptOfRun, IsKeptOf, IsPassBy, IsPassOffered, are_kept, kept_pass};
ghost use Rattle.round.specs.PassLaws.{KeepsPassLaws};
ghost use Rattle.round.specs.Picks.{PicksFalls};

use crate::bars::bars_of;
use crate::falls::Falls;
use admit_core::{CallOrders, Fall, OutOfMemory, PassRecord, Sequence, Stamp, Steps};
use bar_fixpoint::{Falling, Picker, greatest, settle};
use day_state::DayState;
use linked_demand::Roster;
use std::alloc::Global;
use std::marker::Brand;
use std::sync::ledger::{Blank, Ledger};

/// Makes a pass as `pass_along` does, along a roster of its own.
pub fn pass(
    alloc: Global,
    state: &mut DayState<'_>,
    orders: &CallOrders,
    ceilings: &[u32],
    stamp: Stamp,
    picker: &mut dyn Picker,
) -> Result<PassRecord, OutOfMemory>
    requires orders { AreCallOrders state.old.dossier.groups orders.now.orders }
    requires ceilings { length ceilings.now ≡ length state.old.dossier.schools }

    ensures pass { IfOk result (IsPass state.old orders.now.orders ceilings.now) }
    ensures state { IfOk result (λ found.
        state.new ≡ offered state.old orders.now.orders found.bars stamp) }
    ensures picks { PicksFalls (boarding state.old orders.now.orders ceilings.now)
        (choice picker.old) (choice picker.new) (told picker.old) (told picker.new) result }
    ensures laws { IfOk result (KeepsPassLaws state.old state.new ceilings.now) }
    ensures refused { OnErr result (state.new ≡ state.old) }
{
    let roster = Roster::build(alloc, state, orders)?;
    pass_along(alloc, state, &roster, ceilings, stamp, picker)
}

/// Finds the greatest bars under the ceilings that overfill no boarding school, and offers exactly
/// the wishes that are proposed under them. The roster is that of the state's dossier.
///
/// Which picker is asked decides nothing but the order of the falls.
pub fn pass_along(
    alloc: Global,
    state: &mut DayState<'_>,
    roster: &Roster<'_, '_>,
    ceilings: &[u32],
    stamp: Stamp,
    picker: &mut dyn Picker,
) -> Result<PassRecord, OutOfMemory>
    requires same { roster.now.dossier ≡ state.old.dossier }
    requires ceilings { length ceilings.now ≡ length state.old.dossier.schools }

    ensures pass { IfOk result (IsPass state.old roster.now.orders ceilings.now) }
    ensures state { IfOk result (λ found.
        state.new ≡ offered state.old roster.now.orders found.bars stamp) }
    ensures picks { PicksFalls (boarding state.old roster.now.orders ceilings.now)
        (choice picker.old) (choice picker.new) (told picker.old) (told picker.new) result }

    // Seats, call limits and beds suffice, bars are lowered for beds alone, and falls are few.
    ensures laws { IfOk result (KeepsPassLaws state.old state.new ceilings.now) }

    // Memory ran out: nothing was offered, but the picker may have told of schools by then.
    ensures refused { OnErr result (state.new ≡ state.old) }
{
    pass_keeping(alloc, state, roster, ceilings, stamp, picker, Falls::Kept)
}

/// Makes a pass as [`pass_along`] does, and keeps its falls or leaves them out.
pub fn pass_keeping(
    alloc: Global,
    state: &mut DayState<'_>,
    roster: &Roster<'_, '_>,
    ceilings: &[u32],
    stamp: Stamp,
    picker: &mut dyn Picker,
    falls: Falls,
) -> Result<PassRecord, OutOfMemory>
    requires same { roster.now.dossier ≡ state.old.dossier }
    requires ceilings { length ceilings.now ≡ length state.old.dossier.schools }

    ensures pass { IfOk result (IsKeptOf (kept_pass (are_kept falls))
        (IsPassOffered state.old state.new roster.now.orders ceilings.now stamp (record {
          before = told picker.old;
          after = told picker.new;
          choice = choice picker.old;
        }))) }
    ensures told_by_then { OnErr result (TellsOfFalls
        (boarding state.old roster.now.orders ceilings.now)
        (choice picker.old) (told picker.old) (told picker.new)) }
    ensures refused { OnErr result (state.new ≡ state.old) }
    ensures choice { choice picker.new ≡ choice picker.old }
{
    let dossier = state.dossier();
    let _ = &dossier.wishes; // learns that the dossier is valid
    let _ = roster.orders(); // these are the dossier's
    let blank = Blank::new(1);
    let found = find::<Brand>(alloc, blank, state, roster, ceilings, picker, falls)?;
    state.offer_all(found.offers.as_slice(), stamp);
    Ok(found)
}

/// What a pass over this state is, with a counter that nobody reads.
fn find<L: Ledger>(
    alloc: Global,
    blank: Blank,
    state: &DayState<'_>,
    roster: &Roster<'_, '_>,
    ceilings: &[u32],
    picker: &mut dyn Picker,
    falls: Falls,
) -> Result<PassRecord, OutOfMemory>
    requires name { blank.name ≡ L.name }
    requires parts { blank.parts ≡ L.parts }
    requires shared { 0 < L.parts }
    requires same { roster.now.dossier ≡ state.now.dossier }
    requires ceilings { length ceilings.now ≡ length state.now.dossier.schools }

    ensures pass { IfOk result (IsKeptOf (kept_pass (are_kept falls))
        (IsPassBy state.now roster.now.orders ceilings.now (record {
          before = told picker.old;
          after = told picker.new;
          choice = choice picker.old;
        }))) }
    ensures told_by_then { OnErr result (TellsOfFalls
        (boarding state.now roster.now.orders ceilings.now)
        (choice picker.old) (told picker.old) (told picker.new)) }
    ensures choice { choice picker.new ≡ choice picker.old }
{
    let mut steps: Steps<L> = Steps::new(blank);
    let mut round = roster.begin_round(alloc, state, ceilings)?;
    let falls = lower(alloc, &mut round, picker, &mut steps, falls)?;
    let bars = bars_of(alloc, &round)?;
    let offers = round.proposed(alloc)?;
    Ok(PassRecord {
        bars: Sequence::from_vec(bars),
        falls: Sequence::from_vec(falls),
        offers: Sequence::from_vec(offers),
    })
}

/// Lowers the bars of a system to the greatest, and answers the falls where they are kept.
fn lower<F: Falling, L: Ledger>(
    alloc: Global,
    system: &mut F,
    picker: &mut dyn Picker,
    steps: &mut Steps<L>,
    falls: Falls,
) -> Result<Vec<Fall>, OutOfMemory>
    requires { F.bars system.old ≡ (F.system system.old).ceilings }

    ensures greatest { OnOk result (IsGreatest (F.system system.old) (F.bars system.new)) }
    ensures run { IfOk result (λ kept. AreKeptOfRun (are_kept falls) (F.system system.old)
        (choice picker.old) (told picker.old) (told picker.new) (F.bars system.new) kept.items) }
    ensures stops { OnErr result (StopsAbove (F.system system.old) (choice picker.old)
        (told picker.old) (told picker.new) (F.bars system.new)) }
    ensures unchanged { AreUnchanged (F.system system.old) (F.system system.new)
        (F.offers system.old) (F.offers system.new) (choice picker.old) (choice picker.new) }
{
    match falls {
        Falls::Kept => greatest(alloc, system, picker, steps),
        Falls::LeftOut => {
            settle(alloc, system, picker, steps)?;
            Ok(Vec::new(alloc))
        }
    }
}
