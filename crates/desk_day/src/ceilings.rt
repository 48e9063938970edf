//! The ceilings of a day.
ghost use Rattle.std.specs.Prelude.{◌≡◌, ◌<◌, [], All, IfOk, IsOk, length, map};
ghost use Rattle.admit_core.specs.Days.{ceilings_of};
ghost use Rattle.desk_day.specs.Ceilings.{changed};

use admit_core::{CeilingChange, Dossier, OutOfMemory};
use std::alloc::Global;

/// The ceilings of a day, by school: that of its latest change by then, or its own.
pub fn ceilings_on(alloc: Global, dossier: &Dossier, day: u32) -> Result<Vec<u32>, OutOfMemory>
    ensures ceilings { IfOk result (λ v. v.items ≡ ceilings_of dossier.now day) }
    ensures one_each { IfOk result (λ v. length v.items ≡ length dossier.now.schools) }
    ensures always { dossier.now.schools ≡ [] → IsOk result }
{
    let mut ceilings = own_ceilings(alloc, dossier)?;
    apply_changes(&mut ceilings, dossier.ceilings.as_slice(), day);
    Ok(ceilings)
}

/// The schools' own ceilings.
pub fn own_ceilings(alloc: Global, dossier: &Dossier) -> Result<Vec<u32>, OutOfMemory>
    ensures own { IfOk result (λ v. v.items ≡ map (λ school. school.ceiling) dossier.now.schools) }
    ensures always { dossier.now.schools ≡ [] → IsOk result }
{
    let schools = dossier.schools.as_slice();
    let mut ceilings = Vec::new(alloc);
    for school in schools {
        ceilings.push(school.ceiling)?;
    }
    Ok(ceilings)
}

/// Writes each ceiling that has changed by a day over the one before it.
fn apply_changes(ceilings: &mut Vec<u32>, changes: &[CeilingChange], day: u32)
    requires { All (λ c. c.school < length ceilings.old.items) changes.now }
    ensures { ceilings.new.items ≡ changed day changes.now ceilings.old.items }
{
    for change in changes {
        if change.day <= day {
            ceilings[change.school as usize] = change.ceiling;
        }
    }
}
