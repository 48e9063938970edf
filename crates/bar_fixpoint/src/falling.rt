//! What a system of falling bars can be asked.
ghost use Rattle.std.specs.Prelude.{◌≡◌, ℕ, ◌+◌, ◌<◌, List, length, slice_index, slice_set, map, filter, nat_le, IfOk, IfSome, IsSome};
ghost use Rattle.admit_core.specs.Falls.{FallingSystem, IsLawful};
ghost use Rattle.bar_fixpoint.specs.Overfilled.{rank_over, all_overfilled};

use admit_core::{OutOfMemory, Steps};
use std::alloc::Global;
use std::sync::ledger::Ledger;

/// A system of bars, one for each place, that only fall. Places are counted from 0.
pub trait Falling {
    /// The ceilings, the free beds, the demanded ranks under all bars, and their names: they never
    /// change.
    ghost system: { Self → FallingSystem };

    /// The present bars.
    ghost bars: { Self → List ℕ };

    /// What is offered under given bars: this never changes.
    ghost offers: { Self → List ℕ → List ℕ };

    /// What `lower` counts where the bars fall from these to those: this never changes.
    ghost cost: { Self → List ℕ → List ℕ → ℕ };

    /// That `listed` lends the list, so that asking which places are overfilled takes no memory.
    ghost lends: { Self → Type 0 } = { λ s. ⊥ };

    /// The number of places.
    fn count(&self) -> u32
        ensures { result ≡ length (system self.now).ceilings };

    /// The present bar of a place.
    fn bar(&self, i: u32) -> u32
        requires { i < length (system self.now).ceilings }
        ensures { result ≡ slice_index (bars self.now) i };

    /// The least demanded rank of a place that finds no bed; none where the place isn't overfilled.
    fn over(&self, alloc: Global, i: u32) -> Result<Option<u32>, OutOfMemory>
        requires { i < length (system self.now).ceilings }
        ensures { IfOk result (λ over. over ≡ rank_over (system self.now) (bars self.now) i) };

    /// All overfilled places, from the least. A system that keeps count of them answers in less
    /// than this scan, which asks every place.
    fn overfilled(&self, alloc: Global) -> Result<Vec<u32>, OutOfMemory>
        ensures { IfOk result (λ places.
            places.items ≡ all_overfilled (system self.now) (bars self.now)) }
    {
        let mut places = Vec::new(alloc);
        for i in 0..self.count() {
            let is_overfilled = self.over(alloc, i)?.is_some();
            if is_overfilled {
                places.push(i)?;
            }
        }
        Ok(places)
    }

    /// The same, lent by a system that keeps the list; `None` from one that keeps none.
    fn listed(&self) -> Option<&[u32]>
        ensures places { IfSome result (λ places.
            places.now ≡ all_overfilled (system self.now) (bars self.now)) }
        ensures lent { lends self.now → IsSome result };

    /// A name for each demanded rank of at most `upto`, from the least rank.
    fn names(&self, alloc: Global, i: u32, upto: u32) -> Result<Vec<u32>, OutOfMemory>
        requires { i < length (system self.now).ceilings }
        ensures { IfOk result (λ names. names.items ≡ map ((system self.now).name (bars self.now) i)
            (filter (λ rank. nat_le rank upto) ((system self.now).ranks (bars self.now) i))) };

    /// Lowers a bar, and counts what that costs.
    fn lower<L: Ledger>(&mut self, i: u32, to: u32, steps: &mut Steps<L>)
        requires in_range { i < length (system self.old).ceilings }
        requires lower { to < slice_index (bars self.old) i }
        ensures bars { bars self.new ≡ slice_set (bars self.old) i to }
        ensures same { system self.new ≡ system self.old }
        ensures offers { offers self.new ≡ offers self.old }
        ensures cost { cost self.new ≡ cost self.old }
        ensures steps { steps.new
            ≡ steps.old + cost self.old (bars self.old) (bars self.new) };

    /// Ranks are from 1 to the bar, and stay demanded while bars fall.
    ghost lawful: { (s : Self) → IsLawful (system s) };

    /// No bar is missing.
    ghost one_bar_each: { (s : Self) → length (bars s) ≡ length (system s).ceilings };
}
