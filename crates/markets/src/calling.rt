//! Who lists a programme, in the order in which its group calls them.
ghost use Rattle.std.specs.Prelude.{◌≡◌, ◌<◌, ◌≤◌, [], All, length, filter, map, nat_eq, slice_index, IfOk, None, OnOk, Some};
ghost use Rattle.std.specs.List.{position_or_len, range_with_len};
ghost use Rattle.std.specs.List.Sorted.{IsNonDecreasingBy, IsPermutation};
ghost use Rattle.admit_core.specs.DossierRows.{group_of};
ghost use Rattle.admit_core.specs.Lists.{is_among};
ghost use Rattle.markets.specs.Walks.{AreCalled, AreNoted, IsWalk, numbers_in};

use admit_core::{CallOrders, Dossier, OutOfMemory, Sequence};
use indexmap::IndexSet;
use keyed_hash::Keyed;
use std::alloc::Global;

/// The group whose call order was walked along last, the numbers of its candidates in this order,
/// and for each number its place in it.
pub struct Walk {
    group: Option<u32>,
    numbers: Vec<u32>,
    places: Vec<usize>,
}

// Not derived: so it is dropped in one step where it is held, and not by each list.
impl Drop for Walk {
    fn drop(self) {
        let Walk {
            group: _,
            numbers: _,
            places: _,
        } = self;
    }
}

/// The number of a candidate in the market; one past the last for somebody who is not in it.
fn number_of(names: &IndexSet<u32, Keyed>, candidate: u32) -> u32
    requires { length names.now.keys ≤ 16000000 }
    ensures { result ≡ position_or_len (nat_eq candidate) names.now.keys }
{
    match names.get_index_of(&candidate) {
        Some(number) => number as u32,
        None => names.len() as u32,
    }
}

/// The numbers of candidates.
fn numbers_of(
    alloc: Global,
    names: &IndexSet<u32, Keyed>,
    order: &[u32],
) -> Result<Vec<u32>, OutOfMemory>
    requires { length names.now.keys ≤ 16000000 }
    ensures { IfOk result (λ v. v.items ≡ numbers_in names.now.keys order.now) }
{
    let mut numbers = Vec::with_capacity(alloc, order.len())?;
    for candidate in order {
        numbers.push(number_of(names, *candidate))?;
    }
    Ok(numbers)
}

/// Notes for each number of a list where it stands in it.
fn note_places(numbers: &[u32], places: &mut Vec<usize>)
    ensures noted { AreNoted numbers.now places.new.items }
    ensures as_many { length places.new.items ≡ length places.old.items }
{
    for (place, number) in numbers.iter().enumerate() {
        if (*number as usize) < places.len() {
            places[*number as usize] = place;
        }
    }
}

/// The places of numbers.
fn places_of(alloc: Global, places: &[usize], numbers: &[u32]) -> Result<Vec<usize>, OutOfMemory>
    requires { All (λ number. number < length places.now) numbers.now }
    ensures { IfOk result (λ v. v.items ≡ map (slice_index places.now) numbers.now) }
{
    let mut found = Vec::with_capacity(alloc, numbers.len())?;
    for number in numbers {
        found.push(places[*number as usize])?;
    }
    Ok(found)
}

/// The numbers at places.
fn numbers_at(alloc: Global, numbers: &[u32], places: &[usize]) -> Result<Vec<u32>, OutOfMemory>
    requires { All (λ place. place < length numbers.now) places.now }
    ensures { IfOk result (λ v. v.items ≡ map (slice_index numbers.now) places.now) }
{
    let mut found = Vec::with_capacity(alloc, places.len())?;
    for place in places {
        found.push(numbers[*place])?;
    }
    Ok(found)
}

/// Those who list a programme, in the order in which these numbers stand.
fn called(
    alloc: Global,
    numbers: &[u32],
    places: &[usize],
    listers: &[u32],
) -> Result<Sequence<u32>, OutOfMemory>
    requires noted { AreNoted numbers.now places.now }
    requires called { AreCalled numbers.now places.now listers.now }
    ensures { IfOk result (λ v. v ≡ filter (λ x. is_among x listers.now) numbers.now) }
{
    let mut found = places_of(alloc, places, listers)?;
    found.sort_unstable();
    let order = numbers_at(alloc, numbers, &found)?;
    Ok(Sequence::from_vec(order))
}

impl Walk {
    /// A walk along no call order yet.
    pub fn new(alloc: Global, names: &IndexSet<u32, Keyed>) -> Result<Walk, OutOfMemory>
        ensures group { IfOk result (λ w. w.group ≡ None) }
        ensures numbers { IfOk result (λ w. w.numbers.items ≡ []) }
        ensures places { IfOk result (λ w. length w.places.items ≡ length names.now.keys) }
    {
        let places = vec![in alloc; 0; names.len()]?;
        Ok(Walk {
            group: None,
            numbers: Vec::new(alloc),
            places,
        })
    }

    /// Walks along the call order of a group, unless the last walk was along it.
    pub fn enter(
        &mut self,
        alloc: Global,
        names: &IndexSet<u32, Keyed>,
        orders: &CallOrders,
        group: u32,
    ) -> Result<(), OutOfMemory>
        requires few { length names.now.keys ≤ 16000000 }
        requires group { group < length orders.now.orders }
        requires walk { IsWalk names.now.keys orders.now.orders self.old }
        ensures walk { OnOk result (IsWalk names.now.keys orders.now.orders self.new) }
        ensures entered { OnOk result (self.new.group ≡ Some group) }
    {
        if self.group == Some(group) {
            return Ok(());
        }
        let order = orders.orders.as_slice()[group as usize].list.as_slice();
        let numbers = numbers_of(alloc, names, order)?;
        note_places(&numbers, &mut self.places);
        self.numbers = numbers;
        self.group = Some(group);
        Ok(())
    }

    /// Those who list a programme of the group, as they are called.
    pub fn called(&self, alloc: Global, listers: &[u32]) -> Result<Sequence<u32>, OutOfMemory>
        requires noted { AreNoted self.now.numbers.items self.now.places.items }
        requires called { AreCalled self.now.numbers.items self.now.places.items listers.now }
        ensures { IfOk result (λ v. v ≡
            filter (λ x. is_among x listers.now) self.now.numbers.items) }
    {
        called(alloc, &self.numbers, &self.places, listers)
    }
}

/// The group of the programme at a place.
pub fn group_at(dossier: &Dossier, orders: &CallOrders, programme: u32) -> u32
    requires programme { programme < length dossier.now.programmes }
    requires orders { length orders.now.orders ≡ length dossier.now.groups }
    ensures group { result ≡ group_of dossier.now programme }
    ensures within { result < length orders.now.orders }
{
    let _ = &orders.orders;
    dossier.programmes.as_slice()[programme as usize].group
}

/// The number by which programmes are put in order: that of the group.
fn order_key(dossier: &Dossier, programme: u32) -> u32
    ensures { result ≡ group_of dossier.now programme }
{
    match dossier.programmes.as_slice().get(programme as usize) {
        Some(row) => row.group,
        None => 0,
    }
}

/// The places of so many programmes.
fn all_programmes(alloc: Global, count: u32) -> Result<Vec<u32>, OutOfMemory>
    ensures { IfOk result (λ v. v.items ≡ map (λ p. p) (range_with_len 0 count)) }
{
    Ok((0..count).map(|programme| programme).collect(alloc)?)
}

/// The places of all programmes, those of one group together.
pub fn by_group(alloc: Global, dossier: &Dossier, count: u32) -> Result<Vec<u32>, OutOfMemory>
    ensures all { IfOk result (λ v. IsPermutation (range_with_len 0 count) v.items) }
    ensures together { IfOk result (λ v. IsNonDecreasingBy (group_of dossier.now) v.items) }
{
    let mut programmes = all_programmes(alloc, count)?;
    programmes.sort_by_key(|programme| order_key(dossier, *programme))?;
    Ok(programmes)
}
