//! Where the search for an open wish of a claim goes on.
ghost use Rattle.std.specs.Prelude.{◌≡◌, ◌<◌, ◌≤◌, ◌&&◌, drop, false, length, nat_lt, not, slice_index_or};
ghost use Rattle.std.specs.List.{list_any};

use crate::open_wishes::OpenWishes;
use admit_core::OutOfMemory;
use day_state::BundleNumber;
use std::alloc::Global;

/// For each claim of more than one wish a place of it: the wishes before it are closed. A wish that
/// is closed stays so, and so the searches of a claim cost about as much as it has wishes. A place
/// decides nothing but the cost: those before it are asked where no other wish is open.
#[derive(Drop)]
pub struct Cursors {
    places: Vec<u32>,
}

/// The place of the first open wish of a claim from a place on, or how many there are.
fn next_open(opens: &OpenWishes, claim: &[u32], from: usize) -> usize
    requires { from ≤ length claim.now }
    ensures { nat_lt result (length claim.now)
        ≡ list_any (λ k. slice_index_or opens.now k false) (drop from claim.now) }
{
    let mut at = from;
    while at < claim.len() {
        if opens.get(claim[at]) {
            return at;
        }
        at += 1;
    }
    at
}

/// Which cursor is a claim's, by the number of its bundle: none where it is of one wish.
fn slot_of(bundle: BundleNumber) -> usize {
    match bundle.count() {
        None => usize::MAX,
        Some(number) => number as usize,
    }
}

impl Cursors {
    /// Cursors for so many claims, by the numbers of their bundles.
    pub fn new(alloc: Global, count: usize) -> Result<Cursors, OutOfMemory> {
        let places = vec![in alloc; 0u32; count]?;
        Ok(Cursors { places })
    }

    /// Where the search in a claim of so many wishes goes on.
    fn from(&self, bundle: BundleNumber, count: usize) -> usize
        ensures { result ≤ count }
    {
        match self.places.as_slice().get(slot_of(bundle)) {
            Some(place) if *place as usize <= count => *place as usize,
            _ => 0,
        }
    }

    /// Notes where a search ended.
    fn note(&mut self, bundle: BundleNumber, place: usize) {
        let slot = slot_of(bundle);
        if slot < self.places.len() {
            self.places[slot] = u32::try_from(place).unwrap_or(0);
        }
    }

    /// Whether a wish of a claim is open.
    fn is_any_open(&mut self, opens: &OpenWishes, bundle: BundleNumber, claim: &[u32]) -> bool
        ensures { result ≡ list_any (λ k. slice_index_or opens.now k false) claim.now }
    {
        let from = self.from(bundle, claim.len());
        let at = next_open(opens, claim, from);
        self.note(bundle, at);
        if at < claim.len() {
            return true;
        }
        next_open(opens, claim, 0) < claim.len()
    }

    /// Whether one with this claim wants a seat, who is live in the programme or not.
    pub fn wants_seat(
        &mut self,
        is_live: bool,
        opens: &OpenWishes,
        bundle: BundleNumber,
        claim: &[u32],
    ) -> bool
        ensures { result ≡ (not is_live && list_any (λ k. slice_index_or opens.now k false)
            claim.now) }
    {
        !is_live && self.is_any_open(opens, bundle, claim)
    }
}
