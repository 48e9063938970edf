//! The relations between the rows of tables, as a whole.
ghost use Rattle.std.specs.Prelude.{◌≡◌, All, IfOk, map};
ghost use Rattle.admit_core.specs.Ranges.{AreTables};
ghost use Rattle.admit_core.specs.Relations.{first_fault, group_ids, programme_ids, school_ids, wish_ids};
ghost use Rattle.admit_core.specs.Standing.{dossier_of, group_of_row, wish_of_row, status_of_row, ceiling_of_row, answer_of_row};
ghost use Rattle.admit_core.specs.Validity.{IsValid};
ghost use Rattle.dossier_check.specs.Dates.{dates_of};
ghost use Rattle.dossier_check.specs.Dealt.{AreDealt, HasItsGroup};
ghost use Rattle.dossier_check.specs.Hashing.{numbers_of};
ghost use Rattle.dossier_check.specs.Ids.{ids_of};
ghost use Rattle.dossier_check.specs.Keys.{AreKeysOf};
ghost use Rattle.dossier_check.specs.Known.{IsKnown};
ghost use Rattle.dossier_check.specs.Outcome.{AnswersFault, first_in_named, first_in_ranks, first_from_wishes};
ghost use Rattle.dossier_check.specs.RowsBefore.{boarded_pairs};
ghost use Rattle.keyed_hash.specs.Keys.{keyed_by};

use crate::answers::check_answers;
use crate::dates::{Dates, dates_of};
use crate::hashing::hashing_of;
use crate::index::Index;
use crate::items::{Keys, answers_of, ceilings_of, programmes_of, schools_of, wishes_of};
use crate::known::Known;
use crate::placed::places_of;
use crate::ranks::{Dealt, check_ranks};
use crate::row_ids::RowIds;
use crate::rules::{ItsGroup, OwnId};
use crate::slots::{check_boarding, check_ceilings, check_ids, check_programmes};
use crate::state::check_state;
use crate::statuses::statuses_of;
use crate::who_is_ranked::WhoIsRanked;
use crate::wishes::{WishKeys, check_wishes};
use admit_core::{
    Answer, CeilingChange, Dossier, InFault, OutOfMemory, RankGroup, Sequence, Slot, Status,
    Tables, Wish,
};
use indexmap::IndexSet;
use keyed_hash::Keyed;
use std::alloc::Global;

/// The dossier that tables stand for, the places of its ids, and since when each wish has its
/// status.
#[derive(Drop)]
pub struct Checked {
    pub dossier: Dossier,
    pub index: Index,
    pub dates: Dates,
}

/// Tests the slots from the wishes on, and answers what the wishes and the statuses are found by.
fn check_wishes_on<'a>(
    alloc: Global,
    tables: &'a Tables,
    known: Known<'a>,
) -> Result<(WishKeys, RowIds), InFault>
    requires known { IsKnown tables.now known }
    requires ranges { AreTables tables.now }
    ensures fault { AnswersFault result (first_from_wishes tables.now) }
    ensures wishes { IfOk result (λ keys. keys.0.ids.keys ≡ wish_ids tables.now) }
    ensures state { IfOk result (λ keys. keys.1.keys ≡ map (λ s. s.wish) tables.now.state) }
{
    let keyed = known.keyed;
    let schools = known.schools;
    let wishes = check_wishes(alloc, tables, known)?;
    let state = check_state(alloc, keyed, tables, &wishes.ids)?;
    check_ceilings(alloc, keyed, tables, schools)?;
    check_answers(tables, &wishes.ids, &wishes.candidates)?;
    Ok((wishes, state))
}

/// The ids of the groups, the programmes and the schools.
struct Named {
    groups: RowIds,
    programmes: RowIds,
    schools: RowIds,
}

// Not derived: so ids are dropped in one step where they are held, and not by each list.
impl Drop for Named {
    fn drop(self) {
        let Named {
            groups: _,
            programmes: _,
            schools: _,
        } = self;
    }
}

impl Named {
    ghost use Rattle.dossier_check.specs.declared.items.Keys.{Keys};

    /// The keys of all slots.
    fn into_keys(
        self,
        boarding: IndexSet<(u32, u32), Keyed>,
        wishes: WishKeys,
        state: RowIds,
    ) -> Keys
        ensures { result ≡ record {
          groups = self.groups;
          programmes = self.programmes;
          schools = self.schools;
          boarding = boarding;
          wishes = wishes.ids;
          state = state;
          near = wishes.places;
        } }
    {
        let Named {
            groups,
            programmes,
            schools,
        } = self;
        let (wishes, near) = wishes.into_parts();
        Keys {
            groups,
            programmes,
            schools,
            boarding,
            wishes,
            state,
            near,
        }
    }
}

/// Tests the slots that name no candidates, and answers their ids.
fn check_named(alloc: Global, keyed: Keyed, tables: &Tables) -> Result<Named, InFault>
    requires keyed { keyed ≡ keyed_by (numbers_of tables.now) }
    requires ranges { AreTables tables.now }
    ensures fault { AnswersFault result (first_in_named tables.now) }
    ensures groups { IfOk result (λ named. named.groups.keys ≡ group_ids tables.now) }
    ensures programmes { IfOk result (λ named.
        named.programmes.keys ≡ programme_ids tables.now) }
    ensures schools { IfOk result (λ named. named.schools.keys ≡ school_ids tables.now) }
{
    let groups = check_ids(alloc, keyed, Slot::Groups, OwnId, &tables.groups)?;
    let programmes = check_programmes(alloc, keyed, tables, &groups)?;
    let schools = check_ids(alloc, keyed, Slot::Schools, OwnId, &tables.schools)?;
    Ok(Named {
        groups,
        programmes,
        schools,
    })
}

/// The rankings dealt out by group, and the pairs of school and candidate.
struct Ranks {
    dealt: Dealt,
    boarding: IndexSet<(u32, u32), Keyed>,
}

// Not derived, as above.
impl Drop for Ranks {
    fn drop(self) {
        let Ranks {
            dealt: _,
            boarding: _,
        } = self;
    }
}

impl Ranks {
    /// The rankings, and the pairs.
    fn into_parts(self) -> (Vec<RankGroup>, IndexSet<(u32, u32), Keyed>)
        ensures rankings { result.0.items ≡ self.dealt.rankings.items }
        ensures boarding { result.1.keys ≡ self.boarding.keys }
    {
        let Ranks { dealt, boarding } = self;
        let Dealt {
            rankings,
            candidates: _,
        } = dealt;
        (rankings, boarding)
    }
}

/// Tests the rankings and the boarding ranks, and answers what they are found by.
fn check_both_ranks(
    alloc: Global,
    keyed: Keyed,
    tables: &Tables,
    named: &Named,
) -> Result<Ranks, InFault>
    requires keyed { keyed ≡ keyed_by (numbers_of tables.now) }
    requires groups { named.now.groups.keys ≡ group_ids tables.now }
    requires schools { named.now.schools.keys ≡ school_ids tables.now }
    requires ranges { AreTables tables.now }
    ensures fault { AnswersFault result (first_in_ranks tables.now) }
    ensures dealt { IfOk result (λ ranks. AreDealt tables.now ranks.dealt) }
    ensures known { IfOk result (λ ranks.
        All (HasItsGroup (group_ids tables.now)) tables.now.rankings) }
    ensures boarding { IfOk result (λ ranks. ranks.boarding.keys ≡ boarded_pairs tables.now) }
{
    let dealt = check_ranks(alloc, tables, &named.groups)?;
    let boarding = check_boarding(alloc, keyed, tables, &named.schools)?;
    Ok(Ranks { dealt, boarding })
}

/// Tests the rows of all slots in their order, and answers what they are found by, with the
/// rankings.
fn check_slots(alloc: Global, tables: &Tables) -> Result<(Keys, Vec<RankGroup>), InFault>
    requires { AreTables tables.now }
    ensures fault { AnswersFault result (first_fault tables.now) }
    ensures keys { IfOk result (λ found. AreKeysOf tables.now found.0) }
    ensures rankings { IfOk result (λ found.
        found.1.items ≡ map (group_of_row tables.now) tables.now.groups) }
{
    let keyed = hashing_of(tables);
    let named = check_named(alloc, keyed, tables)?;
    let ranks = check_both_ranks(alloc, keyed, tables, &named)?;
    let places = places_of(
        alloc,
        &ItsGroup,
        tables.programmes.as_slice(),
        &named.groups,
    )?;
    let ranked = WhoIsRanked {
        places: places.as_slice(),
        candidates: ranks.dealt.candidates.as_slice(),
    };
    let known = Known {
        keyed,
        programmes: &named.programmes,
        schools: &named.schools,
        ranked,
        boarded: &ranks.boarding,
    };
    let (wishes, state) = check_wishes_on(alloc, tables, known)?;
    let (rankings, boarding) = ranks.into_parts();
    Ok((named.into_keys(boarding, wishes, state), rankings))
}

/// What a dossier has from the wishes on.
#[derive(Drop)]
struct FromWishes {
    wishes: Vec<Wish>,
    statuses: Vec<Status>,
    ceilings: Vec<CeilingChange>,
    answers: Vec<Answer>,
}

/// Makes what the dossier has from the wishes on.
fn from_wishes(alloc: Global, tables: &Tables, keys: &Keys) -> Result<FromWishes, OutOfMemory>
    requires { AreKeysOf tables.now keys.now }
    ensures wishes { IfOk result (λ made.
        made.wishes.items ≡ map (wish_of_row tables.now) tables.now.wishes) }
    ensures statuses { IfOk result (λ made.
        made.statuses.items ≡ map (status_of_row tables.now) tables.now.wishes) }
    ensures ceilings { IfOk result (λ made.
        made.ceilings.items ≡ map (ceiling_of_row tables.now) tables.now.ceilings) }
    ensures answers { IfOk result (λ made.
        made.answers.items ≡ map (answer_of_row tables.now) tables.now.answers) }
{
    Ok(FromWishes {
        wishes: wishes_of(alloc, tables, keys)?,
        statuses: statuses_of(alloc, tables, &keys.wishes)?,
        ceilings: ceilings_of(alloc, tables, keys)?,
        answers: answers_of(alloc, tables, keys)?,
    })
}

/// Makes the dossier that fault-free tables stand for.
fn make_dossier(
    alloc: Global,
    tables: &Tables,
    keys: &Keys,
    rankings: Vec<RankGroup>,
) -> Result<Dossier, OutOfMemory>
    requires keys { AreKeysOf tables.now keys.now }
    requires rankings { rankings.items ≡ map (group_of_row tables.now) tables.now.groups }
    requires valid { IsValid (dossier_of tables.now) }
    ensures { IfOk result (λ dossier. dossier ≡ dossier_of tables.now) }
{
    let programmes = programmes_of(alloc, tables, keys)?;
    let schools = schools_of(alloc, tables, keys)?;
    let FromWishes {
        wishes,
        statuses,
        ceilings,
        answers,
    } = from_wishes(alloc, tables, keys)?;
    Ok(Dossier {
        groups: Sequence::from_vec(rankings),
        programmes: Sequence::from_vec(programmes),
        schools: Sequence::from_vec(schools),
        wishes: Sequence::from_vec(wishes),
        statuses: Sequence::from_vec(statuses),
        ceilings: Sequence::from_vec(ceilings),
        answers: Sequence::from_vec(answers),
    })
}

/// Checks the relations between the rows of tables: their first fault by slot, row and reason, or
/// the dossier that they stand for, with all rows in file order and the rankings by rank, its index
/// and the dates of its statuses.
pub fn check(alloc: Global, tables: &Tables) -> Result<Checked, InFault>
    requires { AreTables tables.now }
    ensures fault { AnswersFault result (first_fault tables.now) }
    ensures dossier { IfOk result (λ checked. checked.dossier ≡ dossier_of tables.now) }
    ensures index { IfOk result (λ checked. checked.index ≡ ids_of tables.now) }
    ensures dates { IfOk result (λ checked. checked.dates ≡ dates_of tables.now) }
{
    let (keys, rankings) = check_slots(alloc, tables)?;
    let dossier = make_dossier(alloc, tables, &keys, rankings)?;
    let dates = dates_of(alloc, tables, &keys)?;
    Ok(Checked {
        dossier,
        index: keys.into_index(),
        dates,
    })
}
