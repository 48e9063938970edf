//! A dossier in which one school has another number of beds.
ghost use Rattle.std.specs.Prelude.{◌≡◌, ◌≤◌, ◌<◌, IfOk, length};
ghost use Rattle.admit_core.specs.LeastBeds.{rebuilt, schools_with};
ghost use Rattle.admit_core.specs.Validity.{IsValid};

use crate::dossier::{Answer, CeilingChange, Dossier, Programme, School, Wish};
use crate::ranking::RankGroup;
use crate::refusal::OutOfMemory;
use crate::sequence::Sequence;
use crate::state::Status;
use std::alloc::Global;

/// A copy of a group.
fn copy_of(alloc: Global, group: &RankGroup) -> Result<RankGroup, OutOfMemory>
    ensures { IfOk result (λ copy. copy ≡ group.now) }
{
    Ok(RankGroup {
        id: group.id,
        scholar_pct: group.scholar_pct,
        resident_pct: group.resident_pct,
        list: group.list.copied(alloc)?,
    })
}

/// A copy of each group.
fn copies_of(alloc: Global, groups: &[RankGroup]) -> Result<Vec<RankGroup>, OutOfMemory>
    ensures { IfOk result (λ copies. copies.items ≡ groups.now) }
{
    let mut copies = Vec::new(alloc);
    for group in groups {
        copies.push(copy_of(alloc, group)?)?;
    }
    Ok(copies)
}

/// These schools, with so many beds in the one at this place.
fn with_beds_at(
    alloc: Global,
    schools: &[School],
    place: usize,
    beds: u32,
) -> Result<Vec<School>, OutOfMemory>
    requires { place < length schools.now }
    ensures { IfOk result (λ v. v.items ≡ schools_with schools.now place beds) }
{
    let mut copies = Vec::from_slice(alloc, schools)?;
    let school = schools[place];
    copies[place] = School { beds, ..school };
    Ok(copies)
}

/// Copies of the groups, the programmes and the wishes.
fn named_copied(
    alloc: Global,
    dossier: &Dossier,
) -> Result<(Sequence<RankGroup>, Sequence<Programme>, Sequence<Wish>), OutOfMemory>
    ensures groups { IfOk result (λ copies. copies.0 ≡ dossier.now.groups) }
    ensures programmes { IfOk result (λ copies. copies.1 ≡ dossier.now.programmes) }
    ensures wishes { IfOk result (λ copies. copies.2 ≡ dossier.now.wishes) }
{
    let groups = copies_of(alloc, dossier.groups.as_slice())?;
    let programmes = dossier.programmes.copied(alloc)?;
    let wishes = dossier.wishes.copied(alloc)?;
    Ok((Sequence::from_vec(groups), programmes, wishes))
}

/// Copies of what happens to wishes and schools, day by day.
fn events_copied(
    alloc: Global,
    dossier: &Dossier,
) -> Result<(Sequence<Status>, Sequence<CeilingChange>, Sequence<Answer>), OutOfMemory>
    ensures statuses { IfOk result (λ copies. copies.0 ≡ dossier.now.statuses) }
    ensures ceilings { IfOk result (λ copies. copies.1 ≡ dossier.now.ceilings) }
    ensures answers { IfOk result (λ copies. copies.2 ≡ dossier.now.answers) }
{
    let statuses = dossier.statuses.copied(alloc)?;
    let ceilings = dossier.ceilings.copied(alloc)?;
    let answers = dossier.answers.copied(alloc)?;
    Ok((statuses, ceilings, answers))
}

/// A dossier's copy, but for its schools.
fn with_schools(
    alloc: Global,
    dossier: &Dossier,
    schools: Vec<School>,
) -> Result<Dossier, OutOfMemory>
    requires { IsValid (record dossier.now { schools = schools.items }) }
    ensures { IfOk result (λ copy. copy ≡ record dossier.now { schools = schools.items }) }
{
    let (groups, programmes, wishes) = named_copied(alloc, dossier)?;
    let (statuses, ceilings, answers) = events_copied(alloc, dossier)?;
    Ok(Dossier {
        groups,
        programmes,
        schools: Sequence::from_vec(schools),
        wishes,
        statuses,
        ceilings,
        answers,
    })
}

impl Dossier {
    /// An equal dossier, but for the number of beds of the school at this place.
    pub fn with_beds(&self, alloc: Global, school: u32, beds: u32) -> Result<Dossier, OutOfMemory>
        requires in_range { school < length self.now.schools }
        requires beds { beds ≤ 2000000000 }
        ensures { IfOk result (λ dossier. dossier ≡ rebuilt self.now school beds) }
    {
        let schools = with_beds_at(alloc, self.schools.as_slice(), school as usize, beds)?;
        with_schools(alloc, self, schools)
    }
}
