//! The walks that number the bundles of a dossier's wishes.
ghost use Rattle.std.specs.Prelude.{◌≡◌, ℕ, ◌<◌, ◌^◌, ◌++◌, true, All, List, Option, map, length, IfOk, OnOk, replicate, None};
ghost use Rattle.admit_core.specs.declared.dossier.Wish.{Wish};
ghost use Rattle.std.specs.Option.{ForSome};
ghost use Rattle.day_state.specs.declared.bundles.Sites.{Sites};
ghost use Rattle.day_state.specs.declared.bundles.Sites.TheVariants.{Programmes, Schools};
ghost use Rattle.day_state.specs.Bundles.{site_of, AreSitesBelow, AreTheirs, bundles_of, joined, bundle_there, noted, noted_candidate, AreLaters, later_at, shared_places, is_shared, rank_of, AreEntries, AreSited, HaveEntries, all_numbers};
ghost use Rattle.day_state.specs.Kept.{IsIndex, wish_in};

use crate::ahead::Ahead;
use crate::bundles::Sites;
use crate::numbers::{Numbers, SharedWish};
use admit_core::{OutOfMemory, Wish};
use flags::Flags;
use std::alloc::Global;

/// The programme of a wish, or its school.
fn site_of(sites: Sites, wish: Wish) -> Option<u32>
    ensures { result ≡ site_of sites wish }
{
    match sites {
        Sites::Programmes => Some(wish.programme),
        Sites::Schools => wish.school,
    }
}

/// A wish that is not the first one of its bundle, and that first one.
#[derive(Clone, Copy)]
pub struct Later {
    pub wish: u32,
    pub first: u32,
}

/// The later wishes of all bundles, by programme and by school. Most wishes are alone in theirs, so
/// these are few.
#[derive(Drop)]
pub struct Laters {
    pub programmes: Vec<Later>,
    pub schools: Vec<Later>,
}

/// What came last to each site on a walk: its bundle, and the bundle's candidate. So the walk reads
/// no row but that of the wish at hand.
#[derive(Drop)]
struct Last {
    firsts: Vec<Option<u32>>,
    candidates: Vec<u32>,
}

/// Nothing came to so many sites.
fn none_came(alloc: Global, sites: usize) -> Result<Last, OutOfMemory>
    ensures firsts { IfOk result (λ l. l.firsts.items ≡ replicate sites None) }
    ensures candidates { IfOk result (λ l. l.candidates.items ≡ replicate sites 0) }
{
    Ok(Last {
        firsts: no_numbers(alloc, sites)?,
        candidates: vec![in alloc; 0; sites]?,
    })
}

/// The later wishes of all bundles. The first wish of a bundle is its first one in an order by
/// candidate. Most of the time goes into reading the rows in that order, so one walk finds both
/// kinds.
pub fn laters_of(
    alloc: Global,
    wishes: &[Wish],
    order: &[u32],
    programmes: usize,
    schools: usize,
) -> Result<Laters, OutOfMemory>
    requires order { IsIndex wishes.now order.now }
    requires programmes { AreSitesBelow Programmes wishes.now programmes }
    requires schools { AreSitesBelow Schools wishes.now schools }
    ensures programmes { IfOk result (λ l. AreLaters (bundles_of Programmes wishes.now)
        l.programmes.items) }
    ensures schools { IfOk result (λ l. AreLaters (bundles_of Schools wishes.now)
        l.schools.items) }
{
    let mut last_programmes = none_came(alloc, programmes)?;
    let mut in_programmes = Vec::new(alloc);
    let mut last_schools = none_came(alloc, schools)?;
    let mut in_schools = Vec::new(alloc);
    let mut ahead = Ahead::along(alloc, wishes, order)?;
    for place in order {
        let wish = ahead.next(*place)?;
        let programme = site_of(Sites::Programmes, wish);
        walk_on(
            &mut last_programmes,
            &mut in_programmes,
            programme,
            *place,
            wish.candidate,
        )?;
        let school = site_of(Sites::Schools, wish);
        walk_on(
            &mut last_schools,
            &mut in_schools,
            school,
            *place,
            wish.candidate,
        )?;
    }
    Ok(Laters {
        programmes: in_programmes,
        schools: in_schools,
    })
}

/// Notes the bundle of the wish that comes next in the order, and lists the wish where it is not
/// the first one there.
#[inline(always)]
fn walk_on(
    last: &mut Last,
    laters: &mut Vec<Later>,
    site: Option<u32>,
    place: u32,
    candidate: u32,
) -> Result<(), OutOfMemory>
    requires site { ForSome site (λ h. h < length last.old.firsts.items) }
    requires long { length last.old.candidates.items ≡ length last.old.firsts.items }
    ensures last { (ws : List Wish) → AreTheirs ws last.old.firsts.items last.old.candidates.items
        → (wish_in ws place).candidate ≡ candidate → last.new.firsts.items
        ≡ noted last.old.firsts.items site (bundle_there ws last.old.firsts.items site place) }
    ensures candidates { last.new.candidates.items
        ≡ noted_candidate last.old.candidates.items site candidate }
    ensures laters { (ws : List Wish) → AreTheirs ws last.old.firsts.items last.old.candidates.items
        → (wish_in ws place).candidate ≡ candidate → OnOk result (laters.new.items
        ≡ laters.old.items ++ later_at place (bundle_there ws last.old.firsts.items site place)) }
{
    let first = bundle_there(last, site, place, candidate);
    note(last, site, first, candidate);
    push_later(laters, place, first)
}

/// Lists a wish that is not the first one of its bundle.
fn push_later(laters: &mut Vec<Later>, place: u32, first: Option<u32>) -> Result<(), OutOfMemory>
    ensures { OnOk result (laters.new.items ≡ laters.old.items ++ later_at place first) }
{
    match first {
        Some(first) if first != place => laters.push(Later { wish: place, first })?,
        _ => {}
    }
    Ok(())
}

fn no_numbers(alloc: Global, count: usize) -> Result<Vec<Option<u32>>, OutOfMemory>
    ensures { IfOk result (λ v. v.items ≡ replicate count None) }
{
    Ok(vec![in alloc; None; count]?)
}

/// The number of a wish's bundle, where it has a site.
fn bundle_there(last: &Last, site: Option<u32>, place: u32, candidate: u32) -> Option<u32>
    requires site { ForSome site (λ h. h < length last.now.firsts.items) }
    requires long { length last.now.candidates.items ≡ length last.now.firsts.items }
    ensures { (ws : List Wish) → AreTheirs ws last.now.firsts.items last.now.candidates.items
        → (wish_in ws place).candidate ≡ candidate
        → result ≡ bundle_there ws last.now.firsts.items site place }
{
    match site {
        None => None,
        Some(site) => {
            let there = site as usize;
            Some(joined(last.firsts[there], last.candidates[there], place, candidate))
        }
    }
}

/// The bundle that was found, where it is of the same candidate, and else a new one.
fn joined(found: Option<u32>, theirs: u32, place: u32, candidate: u32) -> u32
    ensures { (ws : List Wish) → ForSome found (λ b. theirs ≡ (wish_in ws b).candidate)
        → (wish_in ws place).candidate ≡ candidate → result ≡ joined ws found place }
{
    match found {
        Some(found) if theirs == candidate => found,
        _ => place,
    }
}

/// Notes the bundle that came last to a site, and its candidate.
fn note(last: &mut Last, site: Option<u32>, number: Option<u32>, candidate: u32)
    requires site { ForSome site (λ h. h < length last.old.firsts.items) }
    requires long { length last.old.candidates.items ≡ length last.old.firsts.items }
    ensures firsts { last.new.firsts.items ≡ noted last.old.firsts.items site number }
    ensures candidates { last.new.candidates.items
        ≡ noted_candidate last.old.candidates.items site candidate }
{
    if let Some(site) = site {
        last.firsts[site as usize] = number;
        last.candidates[site as usize] = candidate;
    }
}

/// The first wishes of the bundles that have two wishes or more, ascending.
pub fn shared_firsts(alloc: Global, laters: &[Later]) -> Result<Vec<u32>, OutOfMemory>
    ensures { IfOk result (λ v. (bundles : List (Option ℕ)) → AreLaters bundles laters.now
        → v.items ≡ shared_places bundles) }
{
    let mut firsts = Vec::with_capacity(alloc, laters.len())?;
    for later in laters {
        firsts.push(later.first)?;
    }
    firsts.sort_unstable();
    firsts.dedup();
    Ok(firsts)
}

/// The number of a bundle by its first wish: its place among those of shared bundles.
fn place_of(shared: &[u32], first: u32) -> u32
    requires few { length shared.now < 2 ^ 32 }
    ensures { (bundles : List (Option ℕ)) → shared.now ≡ shared_places bundles
        → first < length bundles → is_shared bundles first ≡ true
        → result ≡ rank_of bundles first }
{
    match shared.binary_search(&first) {
        Ok(place) => place as u32,
        Err(_) => 0,
    }
}

/// The entries of the wishes in bundles of two or more, ascending by wish, each once.
fn entries_of(
    alloc: Global,
    shared: &[u32],
    laters: &[Later],
) -> Result<Vec<SharedWish>, OutOfMemory>
    requires few { length shared.now < 2 ^ 32 }
    ensures { IfOk result (λ v. (sites : Sites) (ws : List Wish)
        → shared.now ≡ shared_places (bundles_of sites ws)
        → AreLaters (bundles_of sites ws) laters.now → AreEntries (bundles_of sites ws) v.items) }
{
    let mut entries = Vec::new(alloc);
    entries.reserve_exact(laters.len().saturating_mul(2))?;
    for later in laters {
        let number = place_of(shared, later.first);
        entries.push(SharedWish {
            wish: later.first,
            number,
        })?;
        entries.push(SharedWish {
            wish: later.wish,
            number,
        })?;
    }
    entries.sort_unstable_by_key(|entry| entry.wish);
    entries.dedup_by_key(|entry| entry.wish);
    Ok(entries)
}

/// Which wishes have a site.
fn sited_of(alloc: Global, sites: Sites, wishes: &[Wish]) -> Result<Flags, OutOfMemory>
    requires few { length wishes.now < 2 ^ 31 }
    ensures { IfOk result (AreSited sites wishes.now) }
{
    let mut sited = Flags::all(alloc, wishes.len(), false)?;
    for (place, wish) in wishes.iter().enumerate() {
        sited.set(place as u32, site_of(sites, *wish).is_some());
    }
    Ok(sited)
}

/// Which of so many wishes have an entry.
fn several_of(alloc: Global, count: usize, entries: &[SharedWish]) -> Result<Flags, OutOfMemory>
    requires { All (λ e. e.wish < count) entries.now }
    ensures { IfOk result (HaveEntries entries.now count) }
{
    let mut several = Flags::all(alloc, count, false)?;
    for entry in entries {
        several.set(entry.wish, true);
    }
    Ok(several)
}

/// The numbers of all bundles. The shared ones are known by their first wishes, ascending.
pub fn number_all(
    alloc: Global,
    sites: Sites,
    wishes: &[Wish],
    shared: &[u32],
    laters: &[Later],
) -> Result<Numbers, OutOfMemory>
    requires few { length wishes.now < 2 ^ 31 }
    requires shared { shared.now ≡ shared_places (bundles_of sites wishes.now) }
    requires laters { AreLaters (bundles_of sites wishes.now) laters.now }
    ensures { IfOk result (λ n. n ≡ all_numbers sites wishes.now) }
{
    let entries = entries_of(alloc, shared, laters)?;
    let sited = sited_of(alloc, sites, wishes)?;
    let several = several_of(alloc, wishes.len(), &entries)?;
    Ok(Numbers::new(alloc, sited, several, entries)?)
}
