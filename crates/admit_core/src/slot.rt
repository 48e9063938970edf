//! The input files.
ghost use Rattle.std.specs.Prelude.{◌≡◌};
ghost use Rattle.std.specs.Borrow.{sem};

/// An input file, in the order in which they are read.
#[derive(Clone, Copy, Debug, PartialEq, Eq)]
pub enum Slot {
    Groups,
    Programmes,
    Schools,
    Rankings,
    Boarding,
    Wishes,
    State,
    Ceilings,
    Answers,
    Chain,
}

/// A value for each slot.
#[derive(Drop)]
pub struct PerSlot<T> {
    pub groups: T,
    pub programmes: T,
    pub schools: T,
    pub rankings: T,
    pub boarding: T,
    pub wishes: T,
    pub state: T,
    pub ceilings: T,
    pub answers: T,
    pub chain: T,
}

impl<T> PerSlot<T> {
    ghost use Rattle.admit_core.specs.Slots.{at};
    ghost use Rattle.admit_core.specs.SlotLoans.{lends_value};
    ghost use Rattle.admit_core.specs.declared.slot.Slot.{Slot};

    /// The same value for each slot.
    pub fn splat(value: T) -> PerSlot<T>
    where
        T: Copy,
        ensures { (slot : Slot) → at result slot ≡ value }
    {
        PerSlot::from_fn(
            |_| -> T
                ensures { result ≡ value }
            { value },
        )
    }

    /// The values that `make` gives, one for each slot.
    pub fn from_fn<F: Fn(Slot) -> T>(make: F) -> PerSlot<T>
        requires { F.IsAlwaysCallable make }
        ensures { (slot : Slot) → F.post make slot (at result slot) }
    {
        PerSlot {
            groups: make(Slot::Groups),
            programmes: make(Slot::Programmes),
            schools: make(Slot::Schools),
            rankings: make(Slot::Rankings),
            boarding: make(Slot::Boarding),
            wishes: make(Slot::Wishes),
            state: make(Slot::State),
            ceilings: make(Slot::Ceilings),
            answers: make(Slot::Answers),
            chain: make(Slot::Chain),
        }
    }

    /// The value of a slot.
    pub fn get(&self, slot: Slot) -> &T
        ensures { result.now ≡ at self.now slot }
    {
        match slot {
            Slot::Groups => &self.groups,
            Slot::Programmes => &self.programmes,
            Slot::Schools => &self.schools,
            Slot::Rankings => &self.rankings,
            Slot::Boarding => &self.boarding,
            Slot::Wishes => &self.wishes,
            Slot::State => &self.state,
            Slot::Ceilings => &self.ceilings,
            Slot::Answers => &self.answers,
            Slot::Chain => &self.chain,
        }
    }

    /// The value of a slot, to be changed.
    pub fn get_mut(&mut self, slot: Slot) -> &mut T
        ensures value { result.now ≡ at self.old slot }
        ensures* writes_back { sem 𝓛 (lends_value T.row self.entry slot result) }
    {
        match slot {
            Slot::Groups => &mut self.groups,
            Slot::Programmes => &mut self.programmes,
            Slot::Schools => &mut self.schools,
            Slot::Rankings => &mut self.rankings,
            Slot::Boarding => &mut self.boarding,
            Slot::Wishes => &mut self.wishes,
            Slot::State => &mut self.state,
            Slot::Ceilings => &mut self.ceilings,
            Slot::Answers => &mut self.answers,
            Slot::Chain => &mut self.chain,
        }
    }
}
