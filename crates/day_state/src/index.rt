//! An index from a candidate to their own wishes.
ghost use Rattle.std.specs.Prelude.{◌≡◌, ◌<◌, ◌≤◌, ◌+◌, ◌^◌, length, map, slice_index, IfOk, All, nat_lt, true, false};
ghost use Rattle.std.specs.List.{range_with_len};
ghost use Rattle.std.specs.List.Sorted.{IsNonDecreasingBy, IsPartitionPoint};
ghost use Rattle.admit_core.specs.DossierRows.{DossierRows, candidate_of};
ghost use Rattle.admit_core.specs.OwnWishes.{own_places};
ghost use Rattle.day_state.specs.Kept.{candidate_in, key_at, place_in, all_keys, span_at, IsIndex, HoldsOneKey, IsPut, AreNumbered, FindsOne};

use crate::spans::{Span, part};
use admit_core::{Dossier, OutOfMemory, Wish};
use std::alloc::Global;
use std::marker::Model;

/// The places of a dossier's wishes in order by candidate. Candidates are numbered from 0 on, by
/// their ids. Each wish has its candidate's number, and each number the place of the order at which
/// the candidate's wishes begin. They end where those of the next number begin.
#[derive(Drop)]
pub struct CandidateIndex<'d> {
    dossier: &'d Dossier,
    order: Vec<u32>,
    candidates: Candidates,
}

/// The number of each wish's candidate, and where the wishes of each number begin in the order.
/// Behind the last one stands where the order ends.
#[derive(Drop)]
struct Candidates {
    numbers: Vec<u32>,
    begins: Vec<u32>,
}

impl<'d> Model for CandidateIndex<'d> {
    ghost use Rattle.admit_core.specs.DossierRows.{DossierRows};
    ghost use Rattle.day_state.specs.Kept.{IsIndexed};

    ghost Value = { DossierRows };

    ghost view = { λ s. s.dossier.now };

    ghost invariant = { λ s. IsIndexed s.dossier.now.wishes s.order.items
        s.candidates.numbers.items s.candidates.begins.items };
}

impl<'d> CandidateIndex<'d> {
    /// The index of a dossier.
    pub fn build(alloc: Global, dossier: &'d Dossier) -> Result<CandidateIndex<'d>, OutOfMemory>
        ensures { IfOk result (λ s. s ≡ dossier.now) }
    {
        let wishes = dossier.wishes.as_slice();
        let order = order_of(alloc, wishes)?;
        let candidates = numbered(alloc, wishes, order.as_slice())?;
        Ok(CandidateIndex {
            dossier,
            order,
            candidates,
        })
    }

    /// The places of all wishes by candidate.
    pub fn order(&self) -> &[u32]
        ensures { IsIndex self.now.wishes result.now }
    {
        self.order.as_slice()
    }

    /// The places of a candidate's wishes, ascending: a binary search.
    pub fn of(&self, candidate: u32) -> &[u32]
        ensures { result.now ≡ own_places self.now candidate }
    {
        let dossier = self.dossier;
        match first_of(dossier.wishes.as_slice(), self.order.as_slice(), candidate) {
            None => &[],
            Some(wish) => self.own_of(wish),
        }
    }

    /// The places of the wishes of a wish's candidate, ascending.
    pub fn own_of(&self, wish: u32) -> &[u32]
        requires { wish < length self.now.wishes }
        ensures { result.now ≡ own_places self.now (candidate_of self.now wish) }
    {
        let number = self.candidates.numbers[wish as usize];
        part(
            self.order.as_slice(),
            span_at(&self.candidates.begins, number),
        )
    }
}

/// Where in an order by candidate the wishes of the candidate with a number stand.
fn span_at(begins: &Vec<u32>, number: u32) -> Span
    requires { number + 1 < length begins.now.items }
    ensures { result ≡ span_at begins.now.items number }
{
    let number = number as usize;
    Span {
        from: begins[number],
        to: begins[number + 1],
    }
}

/// The candidate of the wish at a place, or 0 where none is there.
pub fn candidate_at(wishes: &[Wish], place: u32) -> u32
    ensures { result ≡ candidate_in wishes.now place }
{
    match wishes.get(place as usize) {
        None => 0,
        Some(wish) => wish.candidate,
    }
}

/// The candidate of the wish at a place and, behind it, the place, as one number.
fn key_at(wishes: &[Wish], place: u32) -> u64
    ensures { result ≡ key_at wishes.now place }
{
    u64::from(candidate_at(wishes, place)) * 4_294_967_296 + u64::from(place)
}

/// The place in such a number.
fn place_in(key: u64) -> u32
    ensures { result ≡ place_in key }
{
    (key % 4_294_967_296) as u32
}

/// The keys of all wishes, in the order of the wishes.
fn keys_of(alloc: Global, wishes: &[Wish]) -> Result<Vec<u64>, OutOfMemory>
    requires { length wishes.now < 2 ^ 32 }
    ensures { IfOk result (λ v. v.items ≡ all_keys wishes.now) }
{
    let mut keys = Vec::with_capacity(alloc, wishes.len())?;
    for place in 0..wishes.len() as u32 {
        keys.push(key_at(wishes, place))?;
    }
    Ok(keys)
}

/// The places in keys.
fn places_in(alloc: Global, keys: &[u64]) -> Result<Vec<u32>, OutOfMemory>
    ensures { IfOk result (λ v. v.items ≡ map place_in keys.now) }
{
    Ok(keys.iter().map(|key| place_in(*key)).collect(alloc)?)
}

/// Whether no wish's candidate has a lesser id than that of the wish before it.
fn candidates_rise(wishes: &[Wish]) -> bool
    ensures { result ≡ true → IsNonDecreasingBy (λ w. w.candidate) wishes.now }
{
    wishes.is_sorted_by(|one, next| one.candidate <= next.candidate)
}

/// The first places, ascending.
fn first_places(alloc: Global, count: u32) -> Result<Vec<u32>, OutOfMemory>
    ensures { IfOk result (λ v. v.items ≡ range_with_len 0 count) }
{
    let mut places = Vec::with_capacity(alloc, count as usize)?;
    for place in 0..count {
        places.push(place)?;
    }
    Ok(places)
}

/// The places of wishes in order by candidate, those of one candidate ascending. Where candidates
/// don't rise, what is sorted is a key of each wish, so that no comparison reads a row.
fn order_of(alloc: Global, wishes: &[Wish]) -> Result<Vec<u32>, OutOfMemory>
    requires { length wishes.now < 2 ^ 32 }
    ensures { IfOk result (λ v. IsIndex wishes.now v.items) }
{
    if candidates_rise(wishes) {
        return first_places(alloc, wishes.len() as u32);
    }
    let mut keys = keys_of(alloc, wishes)?;
    keys.sort_unstable();
    places_in(alloc, keys.as_slice())
}

/// The first of the places in order whose candidate isn't below this one.
fn first_not_below(wishes: &[Wish], order: &[u32], candidate: u32) -> usize
    requires { IsNonDecreasingBy (candidate_in wishes.now) order.now }
    ensures within { result ≤ length order.now }
    ensures point { IsPartitionPoint (λ k. nat_lt (candidate_in wishes.now k) candidate ≡ true)
        (λ k. nat_lt (candidate_in wishes.now k) candidate ≡ false) order.now result }
{
    order.partition_point(|place| candidate_at(wishes, *place) < candidate)
}

/// The first of a candidate's wishes in an order by candidate.
fn first_of(wishes: &[Wish], order: &[u32], candidate: u32) -> Option<u32>
    requires { IsIndex wishes.now order.now }
    ensures { FindsOne wishes.now order.now candidate result }
{
    let first = first_not_below(wishes, order, candidate);
    if first < order.len() && candidate_at(wishes, order[first]) == candidate {
        Some(order[first])
    } else {
        None
    }
}

/// Where the wishes of the candidate end who begin at a place of an order by candidate.
fn end_of_run(wishes: &[Wish], order: &[u32], from: usize) -> usize
    requires rises { IsNonDecreasingBy (candidate_in wishes.now) order.now }
    requires from { from < length order.now }
    ensures further { from < result }
    ensures within { result ≤ length order.now }
    ensures alike { HoldsOneKey (candidate_in wishes.now) order.now from result }
{
    let candidate = candidate_at(wishes, order[from]);
    let mut to = from + 1;
    while to < order.len() && candidate_at(wishes, order[to]) == candidate {
        to += 1;
    }
    to
}

/// Puts a number at these places.
fn put_number(numbers: &mut Vec<u32>, places: &[u32], number: u32)
    requires { All (λ k. k < length numbers.old.items) places.now }
    ensures { IsPut places.now number numbers.old.items numbers.new.items }
{
    for place in places {
        numbers[*place as usize] = number;
    }
}

/// Numbers the candidates, in one walk along the order: the wishes of one candidate stand together
/// in it.
fn numbered(alloc: Global, wishes: &[Wish], order: &[u32]) -> Result<Candidates, OutOfMemory>
    requires index { IsIndex wishes.now order.now }
    requires count { length order.now < 2 ^ 32 }
    ensures { IfOk result (λ c. AreNumbered wishes.now order.now c.numbers.items c.begins.items) }
{
    let mut numbers = vec![in alloc; 0; wishes.len()]?;
    let mut begins = vec![in alloc; 0; 1]?;
    let mut number = 0;
    let mut from = 0;
    while from < order.len() {
        let to = end_of_run(wishes, order, from);
        put_number(&mut numbers, &order[from..to], number);
        begins.push(to as u32)?;
        number += 1;
        from = to;
    }
    Ok(Candidates { numbers, begins })
}
