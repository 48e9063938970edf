//! The lists of those in a dossier who rank their wishes.
ghost use Rattle.std.specs.Prelude.{◌≡◌, ◌<◌, ◌++◌, ◌∷◌, [], List, length, map, filter, slice_set, slice_index_or, IfOk, OnOk};
ghost use Rattle.admit_core.specs.Lists.{sorted_by};
ghost use Rattle.admit_core.specs.declared.dossier.Wish.{Wish};
ghost use Rattle.indexmap.specs.IndexSet.{hasher_of};
ghost use Rattle.markets.specs.Choices.{choice_of, own_choices};
ghost use Rattle.markets.specs.Dossiers.{by_preference, counts, keyed_by_wishes, named, own};

use admit_core::{OutOfMemory, Sequence, Wish};
use indexmap::IndexSet;
use keyed_hash::{KeyMaker, Keyed};
use std::alloc::Global;

/// Whether a wish counts in the market: its candidate ranks their wishes, and it asks for no bed.
fn counts(wish: Wish) -> bool
    ensures { result ≡ counts wish }
{
    wish.preference > 0 && wish.school.is_none()
}

/// The wishes that count.
pub fn counted(alloc: Global, wishes: &[Wish]) -> Result<Vec<Wish>, OutOfMemory>
    ensures { IfOk result (λ v. v.items ≡ filter counts wishes.now) }
{
    let counted = wishes
        .iter()
        .copied()
        .filter(|wish| counts(*wish))
        .collect(alloc)?;
    Ok(counted)
}

/// Hashing by a key of the wishes' candidates.
fn keyed_by_wishes(wishes: &[Wish]) -> Keyed
    ensures { result ≡ keyed_by_wishes wishes.now }
{
    let key = wishes.iter().fold(KeyMaker::new(), |key, wish| {
        key.with(wish.candidate, wish.id)
    });
    key.done()
}

/// The candidates of wishes, each once, in the order of their first wishes.
pub fn named(alloc: Global, wishes: &[Wish]) -> Result<IndexSet<u32, Keyed>, OutOfMemory>
    ensures names { IfOk result (λ names. names.keys ≡ named wishes.now) }
    ensures hashing { IfOk result (λ names. hasher_of names ≡ keyed_by_wishes wishes.now) }
{
    let mut names = IndexSet::with_hasher(alloc, keyed_by_wishes(wishes));
    for wish in wishes {
        names.insert(wish.candidate)?;
    }
    Ok(names)
}

/// What a candidate wishes for: a programme, and which of their preferences it is.
#[derive(Clone, Copy)]
pub struct Choice {
    pub preference: u32,
    pub programme: u32,
}

/// What a wish is for.
fn choice_of(wish: Wish) -> Choice
    ensures { result ≡ choice_of wish }
{
    Choice {
        preference: wish.preference,
        programme: wish.programme,
    }
}

/// Adds a choice to one of several rows.
fn add(rows: &mut Vec<Vec<Choice>>, place: usize, choice: Choice) -> Result<(), OutOfMemory>
    requires { place < length rows.old.items }
    ensures added { OnOk result (map (λ r. r.items) rows.new.items ≡ slice_set
        (map (λ r. r.items) rows.old.items) place
        (slice_index_or (map (λ r. r.items) rows.old.items) place [] ++ choice ∷ [])) }
    ensures as_many { OnOk result (length rows.new.items ≡ length rows.old.items) }
{
    rows[place].push(choice)?;
    Ok(())
}

/// An empty row for each name.
fn empty_rows(alloc: Global, names: &IndexSet<u32, Keyed>) -> Result<Vec<Vec<Choice>>, OutOfMemory>
    ensures { IfOk result (λ rows. map (λ r. r.items) rows.items ≡ map (own_choices [])
        names.now.keys) }
{
    let mut rows = Vec::with_capacity(alloc, names.len())?;
    for name in 0..names.len() {
        rows.push(Vec::new(alloc))?;
    }
    Ok(rows)
}

/// Adds what a wish is for to the row of its candidate.
fn lay(
    rows: &mut Vec<Vec<Choice>>,
    names: &IndexSet<u32, Keyed>,
    wish: Wish,
) -> Result<(), OutOfMemory>
    requires { length rows.old.items ≡ length names.now.keys }
    ensures laid { (before : List Wish) → map (λ r. r.items) rows.old.items
        ≡ map (own_choices before) names.now.keys → OnOk result (map (λ r. r.items) rows.new.items
        ≡ map (own_choices (before ++ wish ∷ [])) names.now.keys) }
    ensures as_many { OnOk result (length rows.new.items ≡ length rows.old.items) }
{
    let _ = names.len();
    if let Some(place) = names.get_index_of(&wish.candidate) {
        add(rows, place, choice_of(wish))?;
        return Ok(());
    }
    Ok(())
}

/// What the wishes of each candidate are for.
fn rows_of(
    alloc: Global,
    wishes: &[Wish],
    names: &IndexSet<u32, Keyed>,
) -> Result<Vec<Vec<Choice>>, OutOfMemory>
    ensures { IfOk result (λ rows. map (λ r. r.items) rows.items ≡ map (own_choices wishes.now)
        names.now.keys) }
{
    let mut rows = empty_rows(alloc, names)?;
    for wish in wishes {
        lay(&mut rows, names, *wish)?;
    }
    Ok(rows)
}

/// Puts choices in order by preference.
fn sort_by_preference(choices: &mut Vec<Choice>) -> Result<(), OutOfMemory>
    ensures { OnOk result (choices.new.items ≡ sorted_by (λ x. x.preference) choices.old.items) }
{
    choices.sort_by_key(|choice| choice.preference)?;
    Ok(())
}

/// The programmes of choices, by preference. The choices are put in this order.
fn by_preference(alloc: Global, own: &mut Vec<Choice>) -> Result<Sequence<u32>, OutOfMemory>
    ensures { IfOk result (λ list. list ≡
        map (λ x. x.programme) (sorted_by (λ x. x.preference) own.old.items)) }
{
    sort_by_preference(own)?;
    let list = own.iter().map(|choice| choice.programme).collect(alloc)?;
    Ok(Sequence::from_vec(list))
}

/// The lists of candidates with these choices.
fn lists_from(alloc: Global, rows: Vec<Vec<Choice>>) -> Result<Vec<Sequence<u32>>, OutOfMemory>
    ensures { IfOk result (λ lists. lists.items ≡ map (λ row.
        map (λ x. x.programme) (sorted_by (λ x. x.preference) row.items)) rows.items) }
{
    let mut lists = Vec::with_capacity(alloc, rows.len())?;
    for mut row in rows {
        lists.push(by_preference(alloc, &mut row)?)?;
    }
    Ok(lists)
}

/// The list of each candidate of wishes, best first.
pub fn lists_of(
    alloc: Global,
    wishes: &[Wish],
    names: &IndexSet<u32, Keyed>,
) -> Result<Vec<Sequence<u32>>, OutOfMemory>
    ensures { IfOk result (λ lists. lists.items ≡ map (λ c. by_preference (own wishes.now c))
        names.now.keys) }
{
    let rows = rows_of(alloc, wishes, names)?;
    lists_from(alloc, rows)
}
