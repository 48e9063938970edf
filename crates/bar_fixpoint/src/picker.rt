//! What chooses the place whose bar falls.
ghost use Rattle.std.specs.Prelude.{◌≡◌, ℕ, ◌<◌, ◌≤◌, List, length, [], ◌++◌, ◌∷◌, Contains, IfOk, OnErr, vec_capacity, vec_len};

use admit_core::OutOfMemory;

/// One that chooses among overfilled places.
pub trait Picker: Drop {
    /// All places that it has answered, in order.
    ghost told: { Self → List ℕ };

    /// What it answers, by what it has told and the places it is asked with. This never changes.
    ghost choice: { Self → List ℕ → List ℕ → ℕ };

    /// Answers one of the places, which are in ascending order, unless it runs out of memory.
    fn pick(&mut self, places: &[u32]) -> Result<u32, OutOfMemory>
        requires { 0 < length places.now }
        ensures member { IfOk result (Contains places.now) }
        ensures chosen { IfOk result (λ i. i ≡ choice self.old (told self.old) places.now) }
        ensures told { IfOk result (λ i. told self.new ≡ told self.old ++ i ∷ []) }
        ensures err { OnErr result (told self.new ≡ told self.old) }
        ensures same { choice self.new ≡ choice self.old };

    /// All places that it has answered, in order.
    fn told_list(&self) -> &[u32]
        ensures { result.now ≡ told self.now };
}

/// Keeps an answer with those told before.
pub(crate) fn tell(told: &mut Vec<u32>, place: u32) -> Result<u32, OutOfMemory>
    ensures ok { IfOk result (λ i. (i ≡ place) × (told.new.items ≡ told.old.items ++ place ∷ [])) }
    ensures err { OnErr result (told.new.items ≡ told.old.items) }
    ensures full { OnErr result (vec_capacity told.old ≤ vec_len told.old) }
{
    told.push(place)?;
    Ok(place)
}
