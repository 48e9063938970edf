//! What the slots hold.
ghost use Rattle.std.specs.Prelude.{◌≡◌, ◌≢◌, ◌≤◌, ℕ, List, [], AllPairs, Some, IfErr, IfOk, OnErr};
ghost use Rattle.std.specs.Prelude.{OnOk};
ghost use Rattle.admit_core.specs.declared.slot.Slot.{Slot};
ghost use Rattle.admit_core.specs.declared.slot.Slot.TheVariants.{Chain};
ghost use Rattle.admit_core.specs.Ranges.{AreTables};
ghost use Rattle.dossier_csv.specs.Shape.{Answers};
ghost use Rattle.intake.specs.Input.{IsOfFiles};
ghost use Rattle.intake.specs.Reading as Reading;
ghost use Rattle.intake.specs.Shelves.{FaultsIn, IsSized, ReadsOnce, TakesSlots, Tells, on_shelf};
ghost use Rattle.intake.specs.Stops.{Gives, slot_stop};

use crate::stop::Stop;
use admit_core::{InFault, Reason, Refusal, Sequence, Slot, Tables};
use dossier_csv::{
    read_answers, read_boarding, read_ceilings, read_groups, read_programmes, read_rankings,
    read_schools, read_state, read_wishes,
};
use sample_gen::sample;
use slot_io::{Shelf, SlotRefusal, read_slot_in};
use std::alloc::Global;

/// What slots hold: the rows of nine, and the bytes of the chain.
#[derive(Drop)]
pub(crate) struct Files {
    pub(crate) tables: Tables,
    pub(crate) chain: Sequence<u8>,
}

/// The most bytes of a slot.
const MAX_BYTES: u64 = 1_073_741_824;

/// Why a run stops at a slot that was not read to its end.
fn stop_at(slot: Slot, refusal: SlotRefusal) -> Stop
    ensures { result ≡ slot_stop slot refusal }
{
    match refusal {
        SlotRefusal::ReadFault => Stop::ReadFault(slot),
        SlotRefusal::TooLarge => Stop::Refused(Refusal {
            slot,
            row: 0,
            reason: Reason::TooLarge,
        }),
        SlotRefusal::OutOfMemory => Stop::OutOfMemory,
    }
}

/// The bytes of a slot that is not too large, in the room of a text.
#[tactic(auto, unfolding(crate::specs::Reading::sized))]
fn slot_bytes<S: Shelf>(shelf: &mut S, slot: Slot, room: Vec<u8>) -> Result<Vec<u8>, Stop>
    ensures value { (bytes : List ℕ) → S.left shelf.old slot ≡ Some bytes
        → Gives (λ read. read.items) result (Reading.sized slot bytes) }
    ensures ends { (bytes : List ℕ) → S.left shelf.old slot ≡ Some bytes
        → OnOk result (S.left shelf.new slot ≡ Some []) }
    ensures touches { ReadsOnce slot
        (on_shelf S.left S.taken S.faults shelf.old)
        (on_shelf S.left S.taken S.faults shelf.new) }
    ensures fault { FaultsIn slot (S.faults shelf.old) (S.faults shelf.new) result }
    ensures size { IsSized slot (S.taken shelf.old slot) (S.taken shelf.new slot) result }
{
    read_slot_in(shelf, slot, MAX_BYTES, room).map_err(|refusal| stop_at(slot, refusal))
}

/// Tables of no rows.
fn no_rows(alloc: Global) -> Tables
    ensures rows { result ≡ Reading.no_rows }
    ensures ranges { AreTables result }
{
    Tables {
        groups: Sequence::new(alloc),
        programmes: Sequence::new(alloc),
        schools: Sequence::new(alloc),
        rankings: Sequence::new(alloc),
        boarding: Sequence::new(alloc),
        wishes: Sequence::new(alloc),
        state: Sequence::new(alloc),
        ceilings: Sequence::new(alloc),
        answers: Sequence::new(alloc),
    }
}

/// Puts rows in the place of others.
fn put<T: Drop>(place: &mut Sequence<T>, rows: Vec<T>)
    ensures { place.new ≡ rows.items }
{
    *place = Sequence::from_vec(rows);
}

/// Puts the rows of one slot, which has these bytes, into tables. The chain slot has no rows. The
/// tables are lent: held here, they would be dropped list by list at each refusal.
#[tactic(auto, unfolding(crate::specs::Reading::with_rows))]
fn put_rows(alloc: Global, tables: &mut Tables, slot: Slot, bytes: &[u8]) -> Result<(), InFault>
    requires { AreTables tables.old }
    ensures value { Answers (λ _. tables.new) result
        (Reading.with_rows tables.old slot bytes.now) }
    ensures ranges { OnOk result (AreTables tables.new) }
    ensures memory { OnErr result (slot ≢ Chain) }
{
    match slot {
        Slot::Groups => put(&mut tables.groups, read_groups(alloc, bytes)?),
        Slot::Programmes => put(&mut tables.programmes, read_programmes(alloc, bytes)?),
        Slot::Schools => put(&mut tables.schools, read_schools(alloc, bytes)?),
        Slot::Rankings => put(&mut tables.rankings, read_rankings(alloc, bytes)?),
        Slot::Boarding => put(&mut tables.boarding, read_boarding(alloc, bytes)?),
        Slot::Wishes => put(&mut tables.wishes, read_wishes(alloc, bytes)?),
        Slot::State => put(&mut tables.state, read_state(alloc, bytes)?),
        Slot::Ceilings => put(&mut tables.ceilings, read_ceilings(alloc, bytes)?),
        Slot::Answers => put(&mut tables.answers, read_answers(alloc, bytes)?),
        Slot::Chain => (),
    }
    Ok(())
}

/// The text in whose room a slot is read: that of the slot before. The chain's bytes are kept, so
/// they have a text of their own.
fn room_for(alloc: Global, slot: Slot, text: Vec<u8>) -> Vec<u8> {
    match slot {
        Slot::Chain => Vec::new(alloc),
        _ => text,
    }
}

/// The chain's bytes once a slot has been read: the slot's own where it is the chain slot. And the
/// text that is not kept.
fn chain_after(
    alloc: Global,
    chain: Sequence<u8>,
    slot: Slot,
    bytes: Vec<u8>,
) -> (Sequence<u8>, Vec<u8>)
    ensures { result.0 ≡ Reading.chain_after chain slot bytes.items }
{
    match slot {
        Slot::Chain => (Sequence::from_vec(bytes), Vec::new(alloc)),
        _ => (chain, bytes),
    }
}

/// The files with what one slot of these bytes holds, and the text that is not kept.
#[tactic(auto, unfolding(crate::specs::Reading::with_slot))]
fn with_slot(
    alloc: Global,
    files: Files,
    slot: Slot,
    bytes: Vec<u8>,
) -> Result<(Files, Vec<u8>), InFault>
    requires { AreTables files.tables }
    ensures value { Answers (λ more. more.0) result (Reading.with_slot files slot bytes.items) }
    ensures ranges { IfOk result (λ more. AreTables more.0.tables) }
    ensures memory { OnErr result (slot ≢ Chain) }
{
    let Files { mut tables, chain } = files;
    put_rows(alloc, &mut tables, slot, &bytes)?;
    let (chain, text) = chain_after(alloc, chain, slot, bytes);
    Ok((Files { tables, chain }, text))
}

/// The files of these slots, each read once, then tested by its size and then by its shape, in this
/// order.
pub(crate) fn read_slots<S: Shelf>(
    alloc: Global,
    shelf: &mut S,
    order: &[Slot],
) -> Result<Files, Stop>
    requires { AllPairs (λ one other. one ≢ other) order.now }
    ensures value { (slots : Slot → List ℕ) → Tells order.now (S.left shelf.old) slots
        → Gives (λ files. files) result (Reading.files_in order.now slots) }
    ensures ranges { IfOk result (λ files. AreTables files.tables) }
    ensures slots { TakesSlots order.now
        (on_shelf S.left S.taken S.faults shelf.old)
        (on_shelf S.left S.taken S.faults shelf.new) result }
{
    let mut files = Files {
        tables: no_rows(alloc),
        chain: Sequence::new(alloc),
    };
    let mut text = Vec::new(alloc);
    for slot in order {
        let bytes = slot_bytes(shelf, *slot, room_for(alloc, *slot, text))?;
        let (more, left) = with_slot(alloc, files, *slot, bytes)?;
        files = more;
        text = left;
    }
    Ok(files)
}

/// The files of a sample.
pub(crate) fn made(alloc: Global, number: u32) -> Result<Files, Stop>
    requires some { 1 ≤ number }
    requires at_most { number ≤ 1000000 }
    ensures value { Gives (λ files. files) result (Reading.made number) }
    ensures kinds { IfErr result IsOfFiles }
    ensures ranges { IfOk result (λ files. AreTables files.tables) }
{
    Ok(Files {
        tables: sample(alloc, number)?,
        chain: Sequence::new(alloc),
    })
}
