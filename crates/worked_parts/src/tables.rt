//! Dossiers from rankings alone, and samples.
ghost use Rattle.std.specs.Prelude.{IfOk, IfSome};
ghost use Rattle.admit_core.specs.Ranges.{AreTables};

use admit_core::{Dossier, InFault, Sequence, Tables};
use dossier_check::check;
use dossier_csv::{read_groups, read_rankings};
use sample_gen::sample;
use std::alloc::Global;

/// Tables with groups and their rankings alone.
fn tables_of(alloc: Global, groups: &str, rankings: &str) -> Result<Tables, InFault>
    ensures { IfOk result AreTables }
{
    Ok(Tables {
        groups: Sequence::from_vec(read_groups(alloc, groups.as_bytes())?),
        programmes: Sequence::new(alloc),
        schools: Sequence::new(alloc),
        rankings: Sequence::from_vec(read_rankings(alloc, rankings.as_bytes())?),
        boarding: Sequence::new(alloc),
        wishes: Sequence::new(alloc),
        state: Sequence::new(alloc),
        ceilings: Sequence::new(alloc),
        answers: Sequence::new(alloc),
    })
}

/// The dossier of these groups and rankings.
pub(crate) fn ranked(alloc: Global, groups: &str, rankings: &str) -> Result<Dossier, InFault> {
    let tables = tables_of(alloc, groups, rankings)?;
    let checked = check(alloc, &tables)?;
    Ok(checked.dossier)
}

/// The tables of a sample; none where there are too many candidates, or none.
pub(crate) fn sampled(alloc: Global, number: u32) -> Result<Option<Tables>, InFault>
    ensures { IfOk result (λ tables. IfSome tables AreTables) }
{
    if number < 1 || number > 1_000_000 {
        return Ok(None);
    }
    Ok(Some(sample(alloc, number)?))
}

/// The dossier of a sample.
pub(crate) fn sampled_dossier(alloc: Global, number: u32) -> Result<Option<Dossier>, InFault> {
    let Some(tables) = sampled(alloc, number)? else {
        return Ok(None);
    };
    let checked = check(alloc, &tables)?;
    Ok(Some(checked.dossier))
}
