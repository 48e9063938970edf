//! The claims of those who wish for a programme: each candidate's wishes for it.
ghost use Rattle.std.specs.Prelude.{◌≡◌, ◌+◌, ◌<◌, ◌≤◌, ◌^◌, ◌&&◌, [], true, false, nat_lt, nat_le, length, map, All, Some, slice_get, slice_index_or};
ghost use Rattle.std.specs.List.Sorted.{IsNonDecreasingBy, IsPartitionPoint};
ghost use Rattle.day_state.specs.Spans.{IsWithin, part_of};
ghost use Rattle.linked_demand.specs.Claims.{IsSpanOf, begins_at, candidates_of, lower_before};
ghost use Rattle.linked_demand.specs.Ends.{spans_in};

use crate::wishing::Application;
use day_state::{Span, part};
use std::marker::Model;

/// The first application in order by candidate that isn't below this one.
fn first_not_below(applications: &[Application], candidate: u32) -> usize
    requires { IsNonDecreasingBy (λ k. k) (candidates_of applications.now) }
    ensures within { result ≤ length applications.now }
    ensures point { IsPartitionPoint (λ k. nat_lt k candidate ≡ true)
        (λ k. nat_lt k candidate ≡ false) (candidates_of applications.now) result }
{
    applications.partition_point(|application| application.candidate < candidate)
}

/// The first place in applications by candidate that is above this one, from the first place that
/// isn't below: a candidate has few wishes in a group.
fn first_above(applications: &[Application], candidate: u32, from: usize) -> usize
    requires rises { IsNonDecreasingBy (λ k. k) (candidates_of applications.now) }
    requires begins { from ≤ length applications.now }
    requires point { IsPartitionPoint (λ k. nat_lt k candidate ≡ true)
        (λ k. nat_lt k candidate ≡ false) (candidates_of applications.now) from }
    ensures within { result ≤ length applications.now }
    ensures point { IsPartitionPoint (λ k. nat_le k candidate ≡ true)
        (λ k. nat_le k candidate ≡ false) (candidates_of applications.now) result }
{
    let mut to = from;
    while to < applications.len() && applications[to].candidate == candidate {
        to += 1;
    }
    to
}

/// Whether a place of applications by candidate is their front, or stands behind one who is below a
/// candidate.
fn lower_before(applications: &[Application], candidate: u32, place: usize) -> bool
    requires { place ≤ length applications.now }
    ensures { result ≡ lower_before (candidates_of applications.now) candidate place }
{
    place == 0 || applications[place - 1].candidate < candidate
}

/// Whether a candidate stands at a place of applications by candidate, and not before it.
fn begins_at(applications: &[Application], candidate: u32, place: usize) -> bool
    ensures { result ≡ begins_at (candidates_of applications.now) candidate place }
{
    place < applications.len()
        && (applications[place].candidate == candidate
            && lower_before(applications, candidate, place))
}

/// The first place in applications by candidate that isn't below this one. It searches where the
/// candidate doesn't begin at the guessed place.
fn first_of(applications: &[Application], candidate: u32, guess: usize) -> usize
    requires { IsNonDecreasingBy (λ k. k) (candidates_of applications.now) }
    ensures within { result ≤ length applications.now }
    ensures point { IsPartitionPoint (λ k. nat_lt k candidate ≡ true)
        (λ k. nat_lt k candidate ≡ false) (candidates_of applications.now) result }
{
    if begins_at(applications, candidate, guess) {
        return guess;
    }
    first_not_below(applications, candidate)
}

/// Where a candidate stands in applications by candidate.
pub fn span_of(applications: &[Application], candidate: u32, guess: usize) -> Span
    requires rises { IsNonDecreasingBy (λ k. k) (candidates_of applications.now) }
    requires few { length applications.now < 2 ^ 32 }
    ensures { IsSpanOf (candidates_of applications.now) candidate result }
{
    let from = first_of(applications, candidate, guess);
    let to = first_above(applications, candidate, from);
    Span {
        from: from as u32,
        to: to as u32,
    }
}

/// Where in a list the part at a place begins and ends, of parts that follow one another within
/// these bounds.
fn span_at(bounds: &[u32], place: usize) -> Span
    requires { place + 1 < length bounds.now }
    ensures { Some result ≡ slice_get (spans_in bounds.now) place }
{
    Span {
        from: bounds[place],
        to: bounds[place + 1],
    }
}

/// The claims of those who stand in a line, by place: parts of the list of the wishes, which follow
/// one another, by where the first one begins and where each ends.
pub struct Claims {
    wishes: Vec<u32>,
    bounds: Vec<u32>,
}

// Not derived: so claims are dropped in one step where they are held, and not list by list.
impl Drop for Claims {
    fn drop(self) {
        let Claims {
            wishes: _,
            bounds: _,
        } = self;
    }
}

impl Model for Claims {
    ghost use Rattle.std.specs.Prelude.{ℕ, List, length, map, All};
    ghost use Rattle.day_state.specs.Spans.{IsWithin, part_of};
    ghost use Rattle.linked_demand.specs.Ends.{spans_in};

    ghost Value = { List (List ℕ) };

    ghost view = { λ c. map (part_of c.wishes.items) (spans_in c.bounds.items) };

    ghost invariant = { λ c. All (IsWithin (length c.wishes.items)) (spans_in c.bounds.items) };
}

impl Claims {
    /// The claims that follow one another in a list of wishes within these bounds.
    pub fn new(wishes: Vec<u32>, bounds: Vec<u32>) -> Claims
        requires { All (IsWithin (length wishes.items)) (spans_in bounds.items) }
        ensures { result ≡ map (part_of wishes.items) (spans_in bounds.items) }
    {
        Claims { wishes, bounds }
    }

    /// How many claims there are.
    pub fn count(&self) -> usize
        ensures { result ≡ length self.now }
    {
        self.bounds.len().saturating_sub(1)
    }

    /// The wishes of the claim at a place.
    pub fn at(&self, place: usize) -> &[u32]
        requires { place < length self.now }
        ensures { result.now ≡ slice_index_or self.now place [] }
    {
        part(
            self.wishes.as_slice(),
            span_at(self.bounds.as_slice(), place),
        )
    }
}
