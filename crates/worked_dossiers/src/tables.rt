//! Dossiers from the bytes of their slots.
ghost use Rattle.std.specs.Prelude.{IfOk};
ghost use Rattle.admit_core.specs.CallOrder.{AreCallOrders};
ghost use Rattle.admit_core.specs.Ranges.{AreTables};

use admit_core::{CallOrders, Dossier, InFault, OutOfMemory, Sequence, Slot, Tables};
use call_order::call_orders;
use case_file::Slots;
use dossier_check::check;
use dossier_csv::{
    read_answers, read_boarding, read_ceilings, read_groups, read_programmes, read_rankings,
    read_schools, read_state, read_wishes,
};
use std::alloc::Global;

/// The tables of slots.
pub(crate) fn tables_of(alloc: Global, slots: &Slots) -> Result<Tables, InFault>
    ensures { IfOk result AreTables }
{
    Ok(Tables {
        groups: Sequence::from_vec(read_groups(alloc, slots.bytes(Slot::Groups))?),
        programmes: Sequence::from_vec(read_programmes(alloc, slots.bytes(Slot::Programmes))?),
        schools: Sequence::from_vec(read_schools(alloc, slots.bytes(Slot::Schools))?),
        rankings: Sequence::from_vec(read_rankings(alloc, slots.bytes(Slot::Rankings))?),
        boarding: Sequence::from_vec(read_boarding(alloc, slots.bytes(Slot::Boarding))?),
        wishes: Sequence::from_vec(read_wishes(alloc, slots.bytes(Slot::Wishes))?),
        state: Sequence::from_vec(read_state(alloc, slots.bytes(Slot::State))?),
        ceilings: Sequence::from_vec(read_ceilings(alloc, slots.bytes(Slot::Ceilings))?),
        answers: Sequence::from_vec(read_answers(alloc, slots.bytes(Slot::Answers))?),
    })
}

/// The dossier that slots stand for, or their first fault.
pub(crate) fn dossier_of(alloc: Global, slots: &Slots) -> Result<Dossier, InFault> {
    let tables = tables_of(alloc, slots)?;
    let checked = check(alloc, &tables)?;
    Ok(checked.dossier)
}

/// The call orders of a dossier.
pub(crate) fn call_orders_of(alloc: Global, dossier: &Dossier) -> Result<CallOrders, OutOfMemory>
    ensures { IfOk result (λ called. AreCallOrders dossier.now.groups called.orders) }
{
    let groups = dossier.groups.as_slice();
    call_orders(alloc, groups)
}
