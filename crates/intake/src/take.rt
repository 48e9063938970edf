//! Taking in what a request is about.
ghost use Rattle.std.specs.Prelude.{◌≡◌, ℕ, List, IfOk, IfSome};
ghost use Rattle.admit_core.specs.Ranges.{AreTables};
ghost use Rattle.admit_core.specs.declared.slot.Slot.{Slot};
ghost use Rattle.admit_core.specs.Standing.{dossier_of};
ghost use Rattle.dossier_check.specs.Dates.{dates_of};
ghost use Rattle.dossier_check.specs.Ids.{ids_of};
ghost use Rattle.request.specs.Modes as Modes;
ghost use Rattle.request.specs.Modes.{IsMode};
ghost use Rattle.sample_gen.specs.Samples.{sample_tables};
ghost use Rattle.intake.specs.Reading as Reading;
ghost use Rattle.intake.specs.Input.{IsInputFrom, TakesIn, by_check, by_name, has_name, having};
ghost use Rattle.intake.specs.Input.{with_files};
ghost use Rattle.intake.specs.Shelves.{TakesSlots, Tells, on_shelf};
ghost use Rattle.intake.specs.Stops.{Gives};
ghost use Rattle.intake.specs.declared.files.Files.{Files};

use crate::files::{Files, made, read_slots};
use crate::input::Input;
use crate::stop::{Missing, Stop};
use admit_core::InFault;
use dossier_check::{Checked, Index, check, school_place, wish_place};
use request::{Mode, Name, Request, named_by, sample_of, slots_of};
use slot_io::Shelf;
use std::alloc::Global;

/// The files that a mode is about: those of a sample, or of the slots that it reads.
fn files_of<S: Shelf>(alloc: Global, shelf: &mut S, mode: Mode) -> Result<Files, Stop>
    requires { IsMode mode }
    ensures value { (slots : Slot → List ℕ) → Tells (Modes.slots_of mode) (S.left shelf.old) slots
        → Gives (λ files. files) result (Reading.files_of mode slots) }
    ensures ranges { IfOk result (λ files. AreTables files.tables) }
    ensures made { IfSome (Modes.sample_of mode) (λ number.
        IfOk result (λ files. files.tables ≡ sample_tables number)) }
    ensures slots { TakesSlots (Modes.slots_of mode)
        (on_shelf S.left S.taken S.faults shelf.old)
        (on_shelf S.left S.taken S.faults shelf.new) result }
{
    match sample_of(mode) {
        Some(number) => made(alloc, number),
        None => read_slots(alloc, shelf, slots_of(mode)),
    }
}

/// Whether a dossier with this index has what is named.
fn has_name(index: &Index, name: Name) -> bool
    ensures { result ≡ has_name index.now name }
{
    match name {
        Name::Wish(id) => wish_place(index, id).is_some(),
        Name::School(id) => school_place(index, id).is_some(),
    }
}

/// The input of files whose rows were checked, where they have what is named.
fn named_input(files: Files, checked: Checked, named: Option<Name>) -> Result<Input, Missing>
    requires dossier { checked.dossier ≡ dossier_of files.tables }
    requires index { checked.index ≡ ids_of files.tables }
    requires dates { checked.dates ≡ dates_of files.tables }
    ensures named { having named files ≡ by_name files result }
    ensures input { IfOk result (IsInputFrom files) }
{
    match named {
        Some(name) if !has_name(&checked.index, name) => Err(Missing { name }),
        _ => Ok(Input {
            dossier: checked.dossier,
            index: checked.index,
            dates: checked.dates,
            chain: files.chain,
        }),
    }
}

/// The input of files, by what the check of their rows answered. Nothing here takes memory.
fn input_of(
    files: Files,
    checked: Result<Checked, InFault>,
    named: Option<Name>,
) -> Result<Input, Stop>
    requires dossier { IfOk checked (λ checked. checked.dossier ≡ dossier_of files.tables) }
    requires index { IfOk checked (λ checked. checked.index ≡ ids_of files.tables) }
    requires dates { IfOk checked (λ checked. checked.dates ≡ dates_of files.tables) }
    ensures stops { by_check named files checked ≡ with_files files result }
    ensures input { IfOk result (IsInputFrom files) }
{
    Ok(named_input(files, checked?, named)?)
}

/// Takes in what a request is about: the slots that its mode reads, in their order, each once and
/// no other. The tables are dropped in here.
pub fn take_in<S: Shelf>(alloc: Global, request: &Request, shelf: &mut S) -> Result<Input, Stop>
    requires { IsMode request.now.mode }
    ensures { TakesIn request.now
        (on_shelf S.left S.taken S.faults shelf.old)
        (on_shelf S.left S.taken S.faults shelf.new) result }
{
    let files = files_of(alloc, shelf, request.mode)?;
    let checked = check(alloc, &files.tables);
    input_of(files, checked, named_by(request.mode))
}
