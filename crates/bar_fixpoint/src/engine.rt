//! The engine.
ghost use Rattle.std.specs.Prelude.{◌≡◌, List, [], ◌∷◌, ◌++◌, Contains, IfOk, IsOk, OnOk, OnErr, IfSome, IfNone, IsTrue};
ghost use Rattle.admit_core.specs.declared.records.Fall.{Fall};
ghost use Rattle.admit_core.specs.Falls.{IsAtMost, IsGreatest, is_overfilled, is_settled, fall_of, fallen};
ghost use Rattle.bar_fixpoint.specs.Overfilled.{all_overfilled};
ghost use Rattle.bar_fixpoint.specs.Chosen.{IsPicked, IsRunBy, IsRunOf, StopsAbove};
ghost use Rattle.bar_fixpoint.specs.Costs.{AreCounted, Counts, CountsFalls, fall_cost, step_cost};
ghost use Rattle.bar_fixpoint.specs.Steps.{AreUnchanged, HasFallen, IsStep, IsNoStep, GetsFall};

use crate::falling::Falling;
use crate::keeper::{Keeper, NoFalls};
use crate::picker::Picker;
use admit_core::{Fall, OutOfMemory, Steps};
use std::alloc::Global;
use std::sync::ledger::Ledger;

/// Lowers bars from the ceilings until no place is overfilled, each time that of the place that the
/// picker chooses from all overfilled ones, and answers the falls in order.
///
/// Which picker is asked decides nothing but the order of the falls.
pub fn greatest<F: Falling, L: Ledger>(
    alloc: Global,
    system: &mut F,
    picker: &mut dyn Picker,
    steps: &mut Steps<L>,
) -> Result<Vec<Fall>, OutOfMemory>
    requires { F.bars system.old ≡ (F.system system.old).ceilings }

    ensures greatest { OnOk result (IsGreatest (F.system system.old) (F.bars system.new)) }
    ensures run { IfOk result (λ falls. IsRunOf (F.system system.old) (choice picker.old)
        (told picker.old) (told picker.new) (F.bars system.new) falls.items) }

    ensures stops { OnErr result (StopsAbove (F.system system.old) (choice picker.old)
        (told picker.old) (told picker.new) (F.bars system.new)) }
    ensures steps { AreCounted (F.system system.old) (choice picker.old)
        (told picker.old) (told picker.new) (F.bars system.new)
        (CountsFalls (F.cost system.old) (F.bars system.old) steps.old steps.new) }
    ensures always { F.lends system.old
        → all_overfilled (F.system system.old) (F.bars system.old) ≡ [] → IsOk result }

    ensures unchanged { AreUnchanged (F.system system.old) (F.system system.new)
        (F.offers system.old) (F.offers system.new) (choice picker.old) (choice picker.new) }
{
    let mut falls = Vec::new(alloc);
    lower_all(alloc, system, picker, &mut falls, steps)?;
    Ok(falls)
}

/// Lowers bars as [`greatest`] does, for callers who need the bars alone: it keeps no fall and
/// names nobody, so it takes no memory for them.
pub fn settle<F: Falling, L: Ledger>(
    alloc: Global,
    system: &mut F,
    picker: &mut dyn Picker,
    steps: &mut Steps<L>,
) -> Result<(), OutOfMemory>
    requires { F.bars system.old ≡ (F.system system.old).ceilings }

    ensures greatest { OnOk result (IsGreatest (F.system system.old) (F.bars system.new)) }
    ensures run { OnOk result (IsRunBy (F.system system.old) (choice picker.old)
        (told picker.old) (told picker.new) (F.bars system.new)) }

    ensures stops { OnErr result (StopsAbove (F.system system.old) (choice picker.old)
        (told picker.old) (told picker.new) (F.bars system.new)) }
    ensures steps { AreCounted (F.system system.old) (choice picker.old)
        (told picker.old) (told picker.new) (F.bars system.new)
        (CountsFalls (F.cost system.old) (F.bars system.old) steps.old steps.new) }
    ensures always { F.lends system.old
        → all_overfilled (F.system system.old) (F.bars system.old) ≡ [] → IsOk result }

    ensures unchanged { AreUnchanged (F.system system.old) (F.system system.new)
        (F.offers system.old) (F.offers system.new) (choice picker.old) (choice picker.new) }
{
    lower_all(alloc, system, picker, &mut NoFalls, steps)
}

/// Lowers bars from the ceilings until no place is overfilled. The keeper is given each fall.
fn lower_all<F: Falling, K: Keeper, L: Ledger>(
    alloc: Global,
    system: &mut F,
    picker: &mut dyn Picker,
    keeper: &mut K,
    steps: &mut Steps<L>,
) -> Result<(), OutOfMemory>
    requires ceilings { F.bars system.old ≡ (F.system system.old).ceilings }
    requires none { K.was_given keeper.old [] }
    ensures fallen { OnOk result (HasFallen (F.system system.old) (choice picker.old)
        (told picker.old) (told picker.new) (F.bars system.new) (K.was_given keeper.new)) }
    ensures steps { AreCounted (F.system system.old) (choice picker.old)
        (told picker.old) (told picker.new) (F.bars system.new)
        (CountsFalls (F.cost system.old) (F.bars system.old) steps.old steps.new) }
    ensures always { F.lends system.old
        → all_overfilled (F.system system.old) (F.bars system.old) ≡ [] → IsOk result }
    ensures unchanged { AreUnchanged (F.system system.old) (F.system system.new)
        (F.offers system.old) (F.offers system.new) (choice picker.old) (choice picker.new) }
{
    while let Some(_school) = fall_once(alloc, system, picker, keeper, steps)? {}
    Ok(())
}

/// Lowers the bar of the picked place, and answers that place; `None` where no place is
/// overfilled.
fn fall_once<F: Falling, K: Keeper, L: Ledger>(
    alloc: Global,
    system: &mut F,
    picker: &mut dyn Picker,
    keeper: &mut K,
    steps: &mut Steps<L>,
) -> Result<Option<u32>, OutOfMemory>
    requires { IsAtMost (F.bars system.old) (F.system system.old).ceilings }
    ensures step { IfOk result (IsStep (F.system system.old) (choice picker.old)
        (told picker.old) (F.bars system.old) (told picker.new) (F.bars system.new)) }
    ensures kept { IfOk result (GetsFall (K.was_given keeper.old) (K.was_given keeper.new)
        (fall_of (F.system system.old) (F.bars system.old))) }
    ensures stopped { OnErr result (IsNoStep (F.system system.old) (choice picker.old)
        (told picker.old) (F.bars system.old) (told picker.new) (F.bars system.new)) }
    ensures always { F.lends system.old
        → all_overfilled (F.system system.old) (F.bars system.old) ≡ [] → IsOk result }
    ensures steps { Counts (F.cost system.old) (F.cost system.new) steps.old steps.new
        (step_cost (F.cost system.old (F.bars system.old) (F.bars system.new)) result) }
    ensures unchanged { AreUnchanged (F.system system.old) (F.system system.new)
        (F.offers system.old) (F.offers system.new) (choice picker.old) (choice picker.new) }
{
    match picked(alloc, system, picker)? {
        None => Ok(None),
        Some(school) => {
            lower_over(alloc, system, school, keeper, steps)?;
            Ok(Some(school))
        }
    }
}

/// The place that the picker chooses from all overfilled ones; `None` where no place is overfilled.
fn picked<F: Falling>(
    alloc: Global,
    system: &F,
    picker: &mut dyn Picker,
) -> Result<Option<u32>, OutOfMemory>
    ensures picked { IfOk result (λ place.
        IfSome place (IsPicked (F.system system.now) (choice picker.old) (F.bars system.now)
        (told picker.old) (told picker.new))) }
    ensures settled { IfOk result (λ place.
        IfNone place (IsTrue (is_settled (F.system system.now) (F.bars system.now)))) }
    ensures rest { IfOk result (λ place. IfNone place (told picker.new ≡ told picker.old)) }
    ensures err { OnErr result (told picker.new ≡ told picker.old) }
    ensures always { F.lends system.now
        → all_overfilled (F.system system.now) (F.bars system.now) ≡ [] → IsOk result }
    ensures choice { choice picker.new ≡ choice picker.old }
{
    if let Some(places) = system.listed() {
        return pick_any(places, picker);
    }
    let places = system.overfilled(alloc)?;
    pick_any(places.as_slice(), picker)
}

/// The place that the picker chooses from these; `None` where there are none.
fn pick_any(places: &[u32], picker: &mut dyn Picker) -> Result<Option<u32>, OutOfMemory>
    ensures member { IfOk result (λ place. IfSome place (Contains places.now)) }
    ensures chosen { IfOk result (λ place.
        IfSome place (λ i. i ≡ choice picker.old (told picker.old) places.now)) }
    ensures told { IfOk result (λ place.
        IfSome place (λ i. told picker.new ≡ told picker.old ++ i ∷ [])) }
    ensures none { IfOk result (λ place. IfNone place (places.now ≡ [])) }
    ensures rest { IfOk result (λ place. IfNone place (told picker.new ≡ told picker.old)) }
    ensures err { OnErr result (told picker.new ≡ told picker.old) }
    ensures always { places.now ≡ [] → IsOk result }
    ensures choice { choice picker.new ≡ choice picker.old }
{
    if places.is_empty() {
        return Ok(None);
    }
    let place = picker.pick(places)?;
    Ok(Some(place))
}

/// Lowers the bar of an overfilled place below its first rank that has no bed.
fn lower_over<F: Falling, K: Keeper, L: Ledger>(
    alloc: Global,
    system: &mut F,
    school: u32,
    keeper: &mut K,
    steps: &mut Steps<L>,
) -> Result<(), OutOfMemory>
    requires under { IsAtMost (F.bars system.old) (F.system system.old).ceilings }
    requires over { IsTrue (is_overfilled (F.system system.old) (F.bars system.old) school) }
    ensures bars { OnOk result (F.bars system.new ≡ fallen (F.bars system.old)
        (fall_of (F.system system.old) (F.bars system.old) school)) }
    ensures kept { OnOk result ((falls : List Fall) → K.was_given keeper.old falls
        → K.was_given keeper.new
        (falls ++ fall_of (F.system system.old) (F.bars system.old) school ∷ [])) }
    ensures err { OnErr result (F.bars system.new ≡ F.bars system.old) }
    ensures same { F.system system.new ≡ F.system system.old }
    ensures offers { F.offers system.new ≡ F.offers system.old }
    ensures steps { Counts (F.cost system.old) (F.cost system.new) steps.old steps.new
        (fall_cost (F.cost system.old (F.bars system.old) (F.bars system.new)) result) }
{
    match system.over(alloc, school)? {
        None => unreachable!(),
        Some(rank) => {
            keeper.keep(alloc, system, school, rank)?;
            system.lower(school, rank - 1, steps);
            Ok(())
        }
    }
}
