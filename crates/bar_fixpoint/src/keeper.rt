//! What is kept of falls.
ghost use Rattle.std.specs.Prelude.{◌≡◌, List, [], ◌∷◌, ◌++◌, Some, IsOk, OnOk, IsTrue, ⊤};
ghost use Rattle.admit_core.specs.declared.records.Fall.{Fall};
ghost use Rattle.admit_core.specs.Falls.{IsAtMost, is_overfilled, fall_of};
ghost use Rattle.bar_fixpoint.specs.Overfilled.{rank_over};

use crate::falling::Falling;
use admit_core::{Fall, OutOfMemory, Sequence};
use std::alloc::Global;

/// One that is given each fall before it comes, and keeps of it what it will.
pub(crate) trait Keeper {
    /// That it was given these falls, in order.
    ghost was_given: { Self → List Fall → Type 0 };

    /// Keeps the fall of an overfilled place, whose first rank without a bed this is.
    fn keep<F: Falling>(
        &mut self,
        alloc: Global,
        system: &F,
        school: u32,
        rank: u32,
    ) -> Result<(), OutOfMemory>
        requires under { IsAtMost (F.bars system.now) (F.system system.now).ceilings }
        requires over { IsTrue (is_overfilled (F.system system.now) (F.bars system.now) school) }
        requires rank { Some rank ≡ rank_over (F.system system.now) (F.bars system.now) school }
        ensures { OnOk result ((falls : List Fall) → was_given self.old falls → was_given self.new
            (falls ++ fall_of (F.system system.now) (F.bars system.now) school ∷ [])) };
}

/// A list has each fall, with the names of those who lose their bed.
impl Keeper for Vec<Fall> {
    ghost was_given = { λ kept falls. kept.items ≡ falls };

    fn keep<F: Falling>(
        &mut self,
        alloc: Global,
        system: &F,
        school: u32,
        rank: u32,
    ) -> Result<(), OutOfMemory> {
        let names = system.names(alloc, school, rank)?;
        let fall = Fall {
            school,
            from: system.bar(school),
            to: rank - 1,
            wishes: Sequence::from_vec(names),
        };
        self.push(fall)?;
        Ok(())
    }
}

/// What keeps no fall: so nobody is named, and no memory is taken.
#[derive(Drop)]
pub(crate) struct NoFalls;

impl Keeper for NoFalls {
    ghost was_given = { λ kept falls. ⊤ };

    fn keep<F: Falling>(
        &mut self,
        _alloc: Global,
        _system: &F,
        _school: u32,
        _rank: u32,
    ) -> Result<(), OutOfMemory>
        ensures kept { OnOk result ((falls : List Fall) →
            ⟦<NoFalls as Keeper>⟧.was_given self.old falls →
            ⟦<NoFalls as Keeper>⟧.was_given self.new
            (falls ++ fall_of (F.system _system.now) (F.bars _system.now) _school ∷ [])) }
        ensures always { IsOk result }
    {
        Ok(())
    }
}
