//! The marks of a dossier's wishes, with the numbers of live candidates.
ghost use Rattle.std.specs.Prelude.{◌≡◌, ℕ, ◌<◌, ◌+◌, ◌-◌, ◌^◌, ◌==◌, false, length, All, IfOk, replicate, option_map, map};
ghost use Rattle.std.specs.List.{list_any};
ghost use Rattle.admit_core.specs.State.{State, is_live, is_waiting, with_mark_at, has_school, holds_seat, holds_bed, seat_holders, bed_holders};
ghost use Rattle.admit_core.specs.DossierRows.{candidate_of};
ghost use Rattle.admit_core.specs.OwnWishes.{own_places};
ghost use Rattle.admit_core.specs.AutoAnswer.{auto_one, best_live, freed_by};
ghost use Rattle.day_state.specs.Along.{change_own, changed_by};
ghost use Rattle.day_state.specs.Best.{best_among};
ghost use Rattle.day_state.specs.Bundles.{seat_bundle, shared_in_all};
ghost use Rattle.day_state.specs.declared.bundles.Sites.TheVariants.{Programmes};
ghost use Rattle.day_state.specs.Kept.{mark_in, lives_at, has_seat_there, has_bed_there, waiting_mark, state_of, IsIndex};
ghost use Rattle.admit_core.specs.Lists.{is_among};
ghost use Rattle.day_state.specs.Members.{waits_beside};
ghost use Rattle.day_state.specs.Others.{TakesOver};

use crate::bundle_numbers::laters_of;
use crate::bundles::{Bundles, Sites};
use crate::counts::{copy_counts, recount, recount_some, zeros};
use crate::mark::{
    OwnChange, better, changed_by, is_same_mark, live_preference, lives_in_programme,
    lives_in_school, lost, wish_at,
};
use crate::marks::Marks;
use crate::numbers::BundleNumber;
use admit_core::{Dossier, Freed, Mark, OutOfMemory, Stamp, Wish};
use flags::Flags;
use std::alloc::Global;
use std::marker::Model;

/// The marks of a dossier's wishes, and of each programme and each school the number of candidates
/// who are live there. A change of one mark takes the same time however many wishes its candidate
/// has: the bundles tell whether they are still live there.
#[derive(Drop)]
pub struct CountedMarks<'d> {
    dossier: &'d Dossier,
    marks: Marks,
    seats: Vec<u32>,
    beds: Vec<u32>,
    in_programmes: Bundles,
    in_schools: Bundles,
}

impl<'d> Model for CountedMarks<'d> {
    ghost use Rattle.admit_core.specs.State.{State};
    ghost use Rattle.day_state.specs.Bundles.{KeepsCounts};

    ghost Value = { State };

    ghost view = { λ s. record { dossier = s.dossier.now; marks = s.marks } };

    ghost invariant = { λ s. KeepsCounts (record { dossier = s.dossier.now; marks = s.marks })
        s.seats.items s.beds.items s.in_programmes.numbers.value s.in_programmes.live
        s.in_schools.numbers.value s.in_schools.live };
}

impl<'d> CountedMarks<'d> {
    /// All wishes wait; `order` has their places by candidate.
    pub fn waiting(
        alloc: Global,
        dossier: &'d Dossier,
        order: &[u32],
    ) -> Result<CountedMarks<'d>, OutOfMemory>
        requires { IsIndex dossier.now.wishes order.now }
        ensures { IfOk result (λ s. s ≡ state_of dossier.now
            (replicate (length dossier.now.wishes) waiting_mark)) }
    {
        let wishes = dossier.wishes.as_slice();
        let programmes = dossier.programmes.len();
        let schools = dossier.schools.len();
        let marks = Marks::all_waiting(alloc, wishes.len())?;
        let seats = zeros(alloc, programmes)?;
        let beds = zeros(alloc, schools)?;
        let laters = laters_of(alloc, wishes, order, programmes, schools)?;
        let by_programme = laters.programmes.as_slice();
        let in_programmes = Bundles::build(alloc, Sites::Programmes, wishes, by_programme)?;
        let by_school = laters.schools.as_slice();
        let in_schools = Bundles::build(alloc, Sites::Schools, wishes, by_school)?;
        Ok(CountedMarks {
            dossier,
            marks,
            seats,
            beds,
            in_programmes,
            in_schools,
        })
    }

    /// The same marks again.
    pub fn copy(&self, alloc: Global) -> Result<CountedMarks<'d>, OutOfMemory>
        ensures { IfOk result (λ s. s ≡ self.now) }
    {
        Ok(CountedMarks {
            dossier: self.dossier,
            marks: self.marks.copy(alloc)?,
            seats: self.seats.as_slice().to_vec(alloc)?,
            beds: self.beds.as_slice().to_vec(alloc)?,
            in_programmes: self.in_programmes.copy(alloc)?,
            in_schools: self.in_schools.copy(alloc)?,
        })
    }

    /// Takes over the marks of another one of the same dossier.
    pub fn set_from(&mut self, other: &CountedMarks<'d>)
        requires { self.old.dossier ≡ other.now.dossier }
        ensures { self.new ≡ other.now }
    {
        self.marks.set_from(&other.marks);
        copy_counts(&mut self.seats, &other.seats);
        copy_counts(&mut self.beds, &other.beds);
        self.in_programmes.set_from(&other.in_programmes);
        self.in_schools.set_from(&other.in_schools);
    }

    /// Gives wishes the marks that they have in another one of as many.
    pub fn take_over(&mut self, places: &[u32], other: &CountedMarks<'d>)
        requires long { length other.now.marks ≡ length self.old.marks }
        requires places { All (λ k. k < length self.old.marks) places.now }
        ensures { TakesOver places.now other.now self.old self.new }
    {
        for place in places {
            self.set_other(*place, other.mark(*place));
        }
    }

    /// The marks of all wishes, by place.
    pub fn marks(&self) -> &Marks
        ensures { result.now ≡ self.now.marks }
    {
        &self.marks
    }

    /// The marks of all wishes alone.
    pub fn into_marks(self) -> Marks
        ensures { result ≡ self.entry.marks }
    {
        self.marks
    }

    /// Whether each wish waits, by place.
    pub fn waits(&self) -> &Flags
        ensures { result.now ≡ map is_waiting self.now.marks }
    {
        self.marks.waits()
    }

    /// The mark of a wish.
    pub fn mark(&self, wish: u32) -> Mark
        requires { wish < length self.now.marks }
        ensures { result ≡ mark_in self.now.marks wish }
    {
        self.marks.get(wish)
    }

    /// The number of candidates who are live in a programme.
    pub fn live_in_programme(&self, programme: u32) -> u32
        requires { programme < length self.now.dossier.programmes }
        ensures { result ≡ length (seat_holders self.now programme) }
    {
        self.seats[programme as usize]
    }

    /// The number of candidates who are live in a school.
    pub fn live_in_school(&self, school: u32) -> u32
        requires { school < length self.now.dossier.schools }
        ensures { result ≡ length (bed_holders self.now school) }
    {
        self.beds[school as usize]
    }

    /// The dossier.
    pub fn dossier(&self) -> &'d Dossier
        ensures { result.now ≡ self.now.dossier }
    {
        self.dossier
    }

    /// Whether a candidate is live in a programme; `own` has the places of their wishes.
    pub fn holds_seat(&self, own: &[u32], candidate: u32, programme: u32) -> bool
        requires { own.now ≡ own_places self.now.dossier candidate }
        ensures { result ≡ holds_seat self.now candidate programme }
    {
        let dossier = self.dossier;
        any_in_programme(dossier.wishes.as_slice(), &self.marks, own, programme)
    }

    /// Whether a candidate is live in a school; `own` has the places of their wishes.
    pub fn holds_bed(&self, own: &[u32], candidate: u32, school: u32) -> bool
        requires { own.now ≡ own_places self.now.dossier candidate }
        ensures { result ≡ holds_bed self.now candidate school }
    {
        let dossier = self.dossier;
        any_in_school(dossier.wishes.as_slice(), &self.marks, own, school)
    }

    /// Whether a wish's candidate is live in its programme.
    pub fn is_live_in_its_programme(&self, wish: u32) -> bool
        requires { wish < length self.now.marks }
        ensures { result ≡ has_seat_there self.now wish }
    {
        self.in_programmes.is_live(wish, &self.marks)
    }

    /// Whether a wish's candidate is live in its school.
    pub fn is_live_in_its_school(&self, wish: u32) -> bool
        requires { wish < length self.now.marks }
        ensures { result ≡ has_bed_there self.now wish }
    {
        self.in_schools.is_live(wish, &self.marks)
    }

    /// The number of a wish's bundle in its programme.
    pub fn seat_bundle(&self, wish: u32) -> BundleNumber
        requires { wish < length self.now.marks }
        ensures { result ≡ seat_bundle self.now.dossier wish }
    {
        self.in_programmes.number(wish)
    }

    /// How many bundles of wishes in one programme have two wishes or more.
    pub fn shared_in_programmes(&self) -> usize
        ensures { result ≡ shared_in_all Programmes self.now.dossier.wishes }
    {
        self.in_programmes.shared()
    }

    /// The wishes that wait while their candidate is live in the programme.
    pub fn waiting_beside_live(&self, alloc: Global) -> Result<Vec<u32>, OutOfMemory>
        ensures { IfOk result (λ v. (k : ℕ) → is_among k v.items ≡ waits_beside self.now k) }
    {
        self.in_programmes.beside_live(alloc, self.marks.waits())
    }

    /// Whether the candidate of a wish that is not live is live in its programme, by the number of
    /// the wish's bundle there.
    pub fn is_live_beside(&self, bundle: BundleNumber) -> bool
        ensures { (k : ℕ) → k < length self.now.marks → bundle ≡ seat_bundle self.now.dossier k
            → is_live (mark_in self.now.marks k) ≡ false → result ≡ has_seat_there self.now k }
    {
        self.in_programmes.is_live_beside(bundle)
    }

    /// The preference number of a candidate's best live wish, where they rank their wishes, whose
    /// places `own` has.
    pub fn best_preference(&self, own: &[u32], candidate: u32) -> Option<u32>
        requires { own.now ≡ own_places self.now.dossier candidate }
        ensures { result ≡ option_map (λ x. x.0.preference) (best_live self.now candidate) }
    {
        let dossier = self.dossier;
        best_among(dossier.wishes.as_slice(), &self.marks, own)
    }

    /// Changes all wishes of a candidate, and counts what that frees; `own` has their places.
    pub fn change_own(
        &mut self,
        own: &[u32],
        candidate: u32,
        change: OwnChange,
        stamp: Stamp,
    ) -> Freed
        requires { own.now ≡ own_places self.old.dossier candidate }
        ensures state { self.new ≡ change_own (changed_by change stamp) candidate self.old }
        ensures freed { result ≡ freed_by self.old self.new candidate }
    {
        let dossier = self.dossier;
        let wishes = dossier.wishes.as_slice();
        let mut freed = NOTHING_FREED;
        for place in own {
            let mark = changed_by(change, wish_at(wishes, *place), self.mark(*place), stamp);
            freed = freed_in_all(freed, self.set_other(*place, mark));
        }
        freed
    }

    /// Answers for a candidate, where they rank their wishes and one of them is live; `own` has the
    /// places of their wishes.
    pub fn take_best(&mut self, own: &[u32], candidate: u32, stamp: Stamp) -> Freed
        requires { own.now ≡ own_places self.old.dossier candidate }
        ensures state { self.new ≡ auto_one self.old candidate stamp }
        ensures freed { result ≡ freed_by self.old self.new candidate }
    {
        let _ = &self.marks; // learns the invariant
        match self.best_preference(own, candidate) {
            None => NOTHING_FREED,
            Some(best) => self.change_own(own, candidate, OwnChange::TakeBest(best), stamp),
        }
    }

    /// Gives a wish a mark, where it has another one, and counts what its candidate frees.
    pub fn set_other(&mut self, wish: u32, mark: Mark) -> Freed
        requires { wish < length self.old.marks }
        ensures state { self.new ≡ with_mark_at self.old wish mark }
        ensures freed { result ≡ freed_by self.old self.new (candidate_of self.old.dossier wish) }
    {
        if is_same_mark(self.mark(wish), mark) {
            return NOTHING_FREED;
        }
        self.set_mark(wish, mark)
    }

    /// Gives a wish a mark, and counts what its candidate frees.
    pub fn set_mark(&mut self, wish: u32, mark: Mark) -> Freed
        requires { wish < length self.old.marks }
        ensures state { self.new ≡ with_mark_at self.old wish mark }
        ensures freed { result ≡ freed_by self.old self.new (candidate_of self.old.dossier wish) }
    {
        let dossier = self.dossier;
        let named = wish_at(dossier.wishes.as_slice(), wish);
        let was_live = self.marks.is_live(wish);
        let lives = mark.is_live();
        let seat = self.in_programmes.turn(wish, was_live, lives);
        let bed = self.in_schools.turn(wish, was_live, lives);
        self.marks.set(wish, mark);
        recount(&mut self.seats, named.programme, seat.had, seat.has);
        recount_some(&mut self.beds, named.school, bed.had, bed.has);
        Freed {
            seats: lost(seat.had, seat.has),
            beds: lost(bed.had, bed.has),
        }
    }
}

/// What a change that leaves all as it was frees.
pub const NOTHING_FREED: Freed = Freed { seats: 0, beds: 0 };

/// What two changes, one after the other, free together.
pub fn freed_in_all(first: Freed, then: Freed) -> Freed
    requires seats { first.seats + then.seats < 2 ^ 32 }
    requires beds { first.beds + then.beds < 2 ^ 32 }
    ensures { result ≡ record { seats = first.seats + then.seats; beds = first.beds + then.beds } }
{
    Freed {
        seats: first.seats + then.seats,
        beds: first.beds + then.beds,
    }
}

/// The preference number of the best of a candidate's live wishes that are ranked.
fn best_among(wishes: &[Wish], marks: &Marks, own: &[u32]) -> Option<u32>
    requires wishes { All (λ k. k < length wishes.now) own.now }
    requires marks { length marks.now ≡ length wishes.now }
    ensures { result ≡ best_among wishes.now marks.now own.now }
{
    own.iter().fold(None, |best, place| {
        better(best, live_preference(wishes, marks, *place))
    })
}

/// Whether one of a candidate's own wishes is live in a programme.
fn any_in_programme(wishes: &[Wish], marks: &Marks, own: &[u32], programme: u32) -> bool
    requires wishes { All (λ k. k < length wishes.now) own.now }
    requires marks { length marks.now ≡ length wishes.now }
    ensures { result ≡ list_any (lives_at wishes.now marks.now (λ w. w.programme == programme))
        own.now }
{
    own.iter().any(|place| lives_in_programme(wishes, marks, *place, programme))
}

/// Whether one of a candidate's own wishes is live in a school.
fn any_in_school(wishes: &[Wish], marks: &Marks, own: &[u32], school: u32) -> bool
    requires wishes { All (λ k. k < length wishes.now) own.now }
    requires marks { length marks.now ≡ length wishes.now }
    ensures { result ≡ list_any (lives_at wishes.now marks.now (λ w. has_school w school)) own.now }
{
    own.iter()
        .any(|place| lives_in_school(wishes, marks, *place, school))
}
