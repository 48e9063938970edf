//! The slots of a dossier.
ghost use Rattle.std.specs.Prelude.{◌≡◌, IfSome, OnErr, OnOk, None, Some, option_copied};
ghost use Rattle.admit_core.specs.Lines.{slot_name};
ghost use Rattle.admit_core.specs.Slots.{at, with_at};
ghost use Rattle.admit_core.specs.declared.slot.Slot.{Slot};
ghost use Rattle.case_file.specs.Cases.{bytes_in, put_in, with_case};
ghost use Rattle.case_file.specs.Given.{header_of, nothing_given};

use admit_core::{PerSlot, Slot};
use std::alloc::{AllocError, Global};
use std::marker::Model;

/// All slots.
pub const SLOTS: [Slot; 10] = [
    Slot::Groups,
    Slot::Programmes,
    Slot::Schools,
    Slot::Rankings,
    Slot::Boarding,
    Slot::Wishes,
    Slot::State,
    Slot::Ceilings,
    Slot::Answers,
    Slot::Chain,
];

/// The slot of this name.
pub fn slot_named(name: &str) -> Option<Slot>
    ensures named { IfSome result (λ slot. name.now ≡ slot_name slot) }
    ensures each { (slot : Slot) → name.now ≡ slot_name slot → result ≡ Some slot }
{
    match name {
        "groups" => Some(Slot::Groups),
        "programmes" => Some(Slot::Programmes),
        "schools" => Some(Slot::Schools),
        "rankings" => Some(Slot::Rankings),
        "boarding" => Some(Slot::Boarding),
        "wishes" => Some(Slot::Wishes),
        "state" => Some(Slot::State),
        "ceilings" => Some(Slot::Ceilings),
        "answers" => Some(Slot::Answers),
        "chain" => Some(Slot::Chain),
        _ => None,
    }
}

/// The bytes of a slot without rows.
fn header_of(slot: Slot) -> &'static str
    ensures { result.now ≡ header_of slot }
{
    match slot {
        Slot::Groups => "group,scholar_pct,resident_pct\n",
        Slot::Programmes => "programme,group,seats\n",
        Slot::Schools => "school,beds,ceiling\n",
        Slot::Rankings => "group,candidate,rank,scholar,resident\n",
        Slot::Boarding => "school,candidate,rank\n",
        Slot::Wishes => "wish,candidate,programme,school,preference\n",
        Slot::State => "wish,status\n",
        Slot::Ceilings => "day,school,ceiling\n",
        Slot::Answers => "day,kind,target\n",
        Slot::Chain => "",
    }
}

/// The bytes of the slots that were given some.
#[derive(Drop)]
struct Given {
    bytes: PerSlot<Option<Vec<u8>>>,
}

impl Model for Given {
    ghost use Rattle.case_file.specs.Given.{GivenBytes, items_in};

    ghost Value = { GivenBytes };

    ghost view = { λ given. items_in given.bytes };
}

impl Given {
    /// No slot was given anything.
    fn new() -> Given
        ensures { result ≡ nothing_given }
    {
        Given {
            bytes: PerSlot {
                groups: None,
                programmes: None,
                schools: None,
                rankings: None,
                boarding: None,
                wishes: None,
                state: None,
                ceilings: None,
                answers: None,
                chain: None,
            },
        }
    }

    fn put(&mut self, slot: Slot, bytes: Vec<u8>)
        ensures { self.new ≡ with_at self.old slot (Some bytes.items) }
    {
        *self.bytes.get_mut(slot) = Some(bytes);
    }

    fn get(&self, slot: Slot) -> Option<&[u8]>
        ensures { option_copied result ≡ at self.now slot }
    {
        match self.bytes.get(slot) {
            Some(bytes) => Some(bytes.as_slice()),
            None => None,
        }
    }
}

/// The slots of a dossier, and those that a case has in place of them. A slot that is in neither
/// has its header alone.
#[derive(Drop)]
pub struct Slots {
    dossier: Given,
    case: Option<Given>,
}

impl Slots {
    /// A dossier without rows.
    pub fn new() -> Slots
        ensures { result ≡ record { dossier = nothing_given; case = None } }
    {
        Slots {
            dossier: Given::new(),
            case: None,
        }
    }

    /// Lets the slots that follow stand in place of the dossier's, until the next case.
    pub fn begin_case(&mut self)
        ensures { self.new ≡ with_case self.old nothing_given }
    {
        self.case = Some(Given::new());
    }

    /// Gives a slot its bytes, in the case if there is one.
    pub fn put(&mut self, alloc: Global, slot: Slot, bytes: &[u8]) -> Result<(), AllocError>
        ensures put { OnOk result (self.new ≡ put_in slot bytes.now self.old) }
        ensures kept { OnErr result (self.new ≡ self.old) }
    {
        let bytes = Vec::from_slice(alloc, bytes)?;
        match &mut self.case {
            Some(given) => given.put(slot, bytes),
            None => self.dossier.put(slot, bytes),
        }
        Ok(())
    }

    /// The bytes of a slot.
    pub fn bytes(&self, slot: Slot) -> &[u8]
        ensures { result.now ≡ bytes_in self.now slot }
    {
        let own = match &self.case {
            Some(given) => given.get(slot),
            None => None,
        };
        let bytes = own.or(self.dossier.get(slot));
        bytes.unwrap_or(header_of(slot).as_bytes())
    }
}
