//! The greatest bars of a state with other beds, where nobody asks which falls led to them.
ghost use Rattle.std.specs.Prelude.{◌≡◌, ◌<◌, length, IfOk};
ghost use Rattle.admit_core.specs.Boarding.{boarding};
ghost use Rattle.admit_core.specs.Falls.{IsGreatest};
ghost use Rattle.linked_demand.specs.Lent.{lent};
ghost use Rattle.bed_need.specs.Telling.{IsAsked};

use crate::questions::BedQuestions;
use admit_core::{OutOfMemory, Steps};
use bar_fixpoint::{Falling, Picker, settle};
use linked_demand::LinkedRound;
use round::bars_of;
use std::alloc::Global;
use std::marker::Brand;
use std::sync::ledger::{Blank, Ledger};

/// The schools with these beds, one number each, whose bars have fallen to the greatest. No fall
/// that led to them is kept.
pub(crate) fn settled<'a, 'd>(
    alloc: Global,
    questions: &BedQuestions<'a, 'd>,
    beds: &[u32],
    ceilings: &[u32],
    picker: &mut dyn Picker,
) -> Result<LinkedRound<'a, 'd>, OutOfMemory>
    requires beds { length beds.now ≡ length questions.now.state.dossier.schools }
    requires ceilings { length ceilings.now ≡ length questions.now.state.dossier.schools }

    ensures system { IfOk result (λ round. ⟦<LinkedRound<'a, 'd> as Falling>⟧.system round
        ≡ boarding (lent questions.now.state beds.now) questions.now.orders ceilings.now) }
    ensures bars { IfOk result (λ round.
        IsGreatest (boarding (lent questions.now.state beds.now) questions.now.orders ceilings.now)
        (⟦<LinkedRound<'a, 'd> as Falling>⟧.bars round)) }
    ensures asked { IsAsked
        (boarding (lent questions.now.state beds.now) questions.now.orders ceilings.now) result
        (choice picker.old) (choice picker.new) (told picker.old) (told picker.new) }
{
    counted::<Brand>(alloc, Blank::new(1), questions, beds, ceilings, picker)
}

/// Settles the bars of a round, with a counter of steps that nobody reads.
fn counted<'a, 'd, L: Ledger>(
    alloc: Global,
    blank: Blank,
    questions: &BedQuestions<'a, 'd>,
    beds: &[u32],
    ceilings: &[u32],
    picker: &mut dyn Picker,
) -> Result<LinkedRound<'a, 'd>, OutOfMemory>
    requires name { blank.name ≡ L.name }
    requires parts { blank.parts ≡ L.parts }
    requires shared { 0 < L.parts }
    requires beds { length beds.now ≡ length questions.now.state.dossier.schools }
    requires ceilings { length ceilings.now ≡ length questions.now.state.dossier.schools }

    ensures system { IfOk result (λ round. ⟦<LinkedRound<'a, 'd> as Falling>⟧.system round
        ≡ boarding (lent questions.now.state beds.now) questions.now.orders ceilings.now) }
    ensures bars { IfOk result (λ round.
        IsGreatest (boarding (lent questions.now.state beds.now) questions.now.orders ceilings.now)
        (⟦<LinkedRound<'a, 'd> as Falling>⟧.bars round)) }
    ensures asked { IsAsked
        (boarding (lent questions.now.state beds.now) questions.now.orders ceilings.now) result
        (choice picker.old) (choice picker.new) (told picker.old) (told picker.new) }
{
    let BedQuestions { state, roster } = questions;
    let mut steps: Steps<L> = Steps::new(blank);
    let mut round = roster.begin_round_with(alloc, state, beds, ceilings)?;
    settle(alloc, &mut round, picker, &mut steps)?;
    Ok(round)
}

/// The greatest bars of all schools with these beds, by place.
pub(crate) fn bars_with(
    alloc: Global,
    questions: &BedQuestions<'_, '_>,
    beds: &[u32],
    ceilings: &[u32],
    picker: &mut dyn Picker,
) -> Result<Vec<u32>, OutOfMemory>
    requires beds { length beds.now ≡ length questions.now.state.dossier.schools }
    requires ceilings { length ceilings.now ≡ length questions.now.state.dossier.schools }

    ensures bars { IfOk result (λ bars.
        IsGreatest (boarding (lent questions.now.state beds.now) questions.now.orders ceilings.now)
        bars.items) }
    ensures asked { IsAsked
        (boarding (lent questions.now.state beds.now) questions.now.orders ceilings.now) result
        (choice picker.old) (choice picker.new) (told picker.old) (told picker.new) }
{
    let round = settled(alloc, questions, beds, ceilings, picker)?;
    bars_of(alloc, &round)
}
