//! The state of a dossier's wishes on a day.
ghost use Rattle.std.specs.Prelude.{◌≡◌, ℕ, ◌<◌, ◌^◌, ◌==◌, false, length, map, ◌↔◌, IfOk, IsOk, IsTrue, All, pos, slice_index_or};
ghost use Rattle.admit_core.specs.declared.state.Status.TheVariants.{Offered, Accepted};
ghost use Rattle.admit_core.specs.declared.dossier.AnswerKind.TheVariants.{Accept, Quit};
ghost use Rattle.admit_core.specs.State.{State, with_mark_at, holds_seat, holds_bed, seat_holders, bed_holders, is_live, is_waiting, changed_to};
ghost use Rattle.admit_core.specs.DossierRows.{candidate_of};
ghost use Rattle.admit_core.specs.Answers.{mark_at, status_at, change_at, after_kind, first_unfit};
ghost use Rattle.admit_core.specs.OwnWishes.{own_places, IsOneAccepted};
ghost use Rattle.admit_core.specs.Days.{first_evening};
ghost use Rattle.admit_core.specs.Validity.{IsTarget};
ghost use Rattle.admit_core.specs.Lapses.{lapse};
ghost use Rattle.admit_core.specs.AutoAnswer.{auto_one, freed_by};
ghost use Rattle.day_state.specs.Bundles.{seat_bundle, shared_in_all};
ghost use Rattle.day_state.specs.declared.bundles.Sites.TheVariants.{Programmes};
ghost use Rattle.day_state.specs.Kept.{mark_in, wish_in, has_seat_there, holds_bed_in, IsIndex};
ghost use Rattle.day_state.specs.Along.{change_along};
ghost use Rattle.admit_core.specs.Lists.{is_among};
ghost use Rattle.day_state.specs.Members.{waits_beside};
ghost use Rattle.day_state.specs.Lapsing.{lapsed};
ghost use Rattle.day_state.specs.Others.{SameOthers};
ghost use Rattle.day_state.specs.Laws.{AreOwn, OwnFit};
ghost use Rattle.day_state.specs.Applied.{answered, after_fitting, after_fitting_front, refused_at};

use crate::counted_marks::CountedMarks;
use crate::index::{CandidateIndex, candidate_at};
use crate::mark::{OwnChange, changed_to, first_mark, kind_fits, lapses};
use crate::marked::MarkedWishes;
use crate::marks::Marks;
use crate::numbers::BundleNumber;
use admit_core::{Answer, AnswerKind, Dossier, Freed, OutOfMemory, Stamp, Status, Terms};
use flags::Flags;
use std::alloc::Global;
use std::marker::Model;
use std::rc::Rc;

/// An answer that does not fit; the status is the one that was found.
#[derive(Clone, Copy)]
pub struct UnfitAnswer {
    pub status: Status,
}

/// The first answer of a list that does not fit.
#[derive(Clone, Copy)]
pub struct UnfitAt {
    pub index: u32,
    pub status: Status,
}

/// So many wishes are copied in their order in the time in which those of one candidate are looked
/// for, and taken over one by one.
const COPIED_PER_TAKEN: usize = 512;

/// The marks of a dossier's wishes. At most one wish of each candidate is accepted.
pub struct DayState<'d> {
    index: Rc<CandidateIndex<'d>>,
    live: CountedMarks<'d>,
}

// Not derived: so a state is dropped in one step where it is held, and not by each list.
impl Drop for DayState<'_> {
    fn drop(self) {
        let DayState { index: _, live: _ } = self;
    }
}

impl<'d> Model for DayState<'d> {
    ghost use Rattle.admit_core.specs.State.{State};
    ghost use Rattle.day_state.specs.Whole.{IsDayState};

    ghost Value = { State };

    ghost view = { λ s. s.live };

    ghost invariant = { λ s. IsDayState s.index.value s.live };
}

impl<'d> DayState<'d> {
    /// The statuses that the dossier comes in with.
    pub fn begin(alloc: Global, dossier: &'d Dossier) -> Result<DayState<'d>, OutOfMemory>
        ensures { IfOk result (λ s. s ≡ first_evening dossier.now) }
    {
        let index = Rc::new(alloc, CandidateIndex::build(alloc, dossier)?)?;
        let mut live = CountedMarks::waiting(alloc, dossier, index.order())?;
        for (place, status) in dossier.statuses.as_slice().iter().enumerate() {
            if !status.is_waiting() {
                live.set_other(place as u32, first_mark(*status));
            }
        }
        Ok(DayState { index, live })
    }

    /// An equal state.
    pub fn copy(&self, alloc: Global) -> Result<DayState<'d>, OutOfMemory>
        ensures { IfOk result (λ s. s ≡ self.now) }
    {
        Ok(DayState {
            index: self.index.clone()?,
            live: self.live.copy(alloc)?,
        })
    }

    /// Becomes equal to another state of the same dossier.
    pub fn set_from(&mut self, other: &DayState<'d>)
        requires { self.old.dossier ≡ other.now.dossier }
        ensures { self.new ≡ other.now }
    {
        self.live.set_from(&other.live);
    }

    /// Becomes equal to another state of the same dossier that differs from this one in wishes of
    /// the candidates of these wishes alone.
    pub fn take_over_beside(&mut self, other: &DayState<'d>, places: &[u32])
        requires dossier { self.old.dossier ≡ other.now.dossier }
        requires within { All (λ k. k < length self.old.dossier.wishes) places.now }
        requires others { SameOthers places.now self.old other.now }
        ensures { self.new ≡ other.now }
    {
        if places.len() > self.dossier().wishes.len() / COPIED_PER_TAKEN {
            self.set_from(other);
        } else {
            self.take_over_each(other, places);
        }
    }

    /// Does the same candidate by candidate.
    fn take_over_each(&mut self, other: &DayState<'d>, places: &[u32])
        requires dossier { self.old.dossier ≡ other.now.dossier }
        requires within { All (λ k. k < length self.old.dossier.wishes) places.now }
        requires others { SameOthers places.now self.old other.now }
        ensures { self.new ≡ other.now }
    {
        for place in places {
            let own = self.index.own_of(*place);
            self.live.take_over(own, &other.live);
        }
    }

    /// The dossier.
    pub fn dossier(&self) -> &'d Dossier
        ensures { result.now ≡ self.now.dossier }
    {
        self.live.dossier()
    }

    /// The marks of all wishes, by place.
    pub fn marks(&self) -> &Marks
        ensures marks { result.now ≡ self.now.marks }
        ensures one_each { length result.now ≡ length self.now.dossier.wishes }
    {
        self.live.marks()
    }

    /// The dossier with the marks of its wishes.
    pub fn marked(&self) -> MarkedWishes<'_>
        ensures { result ≡ self.now }
    {
        MarkedWishes::of(self.dossier(), self.marks())
    }

    /// The marks of all wishes alone; the room of all else is given back.
    pub fn into_marks(self) -> Marks
        ensures marks { result ≡ self.entry.marks }
        ensures one_each { length result ≡ length self.entry.dossier.wishes }
    {
        let DayState { index: _, live } = self;
        live.into_marks()
    }

    /// Whether each wish waits, by place.
    pub fn waits(&self) -> &Flags
        ensures { result.now ≡ map is_waiting self.now.marks }
    {
        self.live.waits()
    }

    /// At most one wish of each candidate is accepted. The call does nothing.
    pub fn accepts_once(&self)
        ensures { IsOneAccepted self.now }
    {
        let _ = &self.live; // learns the invariant
    }

    /// The status of a wish.
    pub fn status(&self, wish: u32) -> Status
        requires { wish < length self.now.dossier.wishes }
        ensures { result ≡ status_at self.now wish }
    {
        self.live.marks().status(wish)
    }

    /// The stamp of a wish.
    pub fn stamp(&self, wish: u32) -> Stamp
        requires { wish < length self.now.dossier.wishes }
        ensures { result ≡ (mark_at self.now wish).stamp }
    {
        self.live.marks().stamp(wish)
    }

    /// The number of candidates who are live in a programme.
    pub fn live_in_programme(&self, programme: u32) -> u32
        requires { programme < length self.now.dossier.programmes }
        ensures { result ≡ length (seat_holders self.now programme) }
    {
        self.live.live_in_programme(programme)
    }

    /// The number of candidates who are live in a school.
    pub fn live_in_school(&self, school: u32) -> u32
        requires { school < length self.now.dossier.schools }
        ensures { result ≡ length (bed_holders self.now school) }
    {
        self.live.live_in_school(school)
    }

    /// The places of a candidate's wishes, ascending.
    pub fn own_wishes(&self, candidate: u32) -> &[u32]
        ensures { result.now ≡ own_places self.now.dossier candidate }
    {
        self.index.of(candidate)
    }

    /// The places of the wishes of a wish's candidate, ascending.
    pub fn own_wishes_beside(&self, wish: u32) -> &[u32]
        requires { wish < length self.now.dossier.wishes }
        ensures { result.now ≡ own_places self.now.dossier (candidate_of self.now.dossier wish) }
    {
        self.index.own_of(wish)
    }

    /// The places of all wishes by candidate.
    pub fn places_by_candidate(&self) -> &[u32]
        ensures { IsIndex self.now.dossier.wishes result.now }
    {
        self.index.order()
    }

    /// Whether a candidate is live in a programme.
    pub fn is_live_in_programme(&self, candidate: u32, programme: u32) -> bool
        ensures { result ≡ holds_seat self.now candidate programme }
    {
        self.live
            .holds_seat(self.index.of(candidate), candidate, programme)
    }

    /// Whether a candidate is live in a school.
    pub fn is_live_in_school(&self, candidate: u32, school: u32) -> bool
        ensures { result ≡ holds_bed self.now candidate school }
    {
        self.live
            .holds_bed(self.index.of(candidate), candidate, school)
    }

    /// Whether a wish's candidate is live in its programme.
    pub fn is_live_in_its_programme(&self, wish: u32) -> bool
        requires { wish < length self.now.dossier.wishes }
        ensures { result ≡ holds_seat self.now (wish_in self.now.dossier.wishes wish).candidate
            (wish_in self.now.dossier.wishes wish).programme }
    {
        self.live.is_live_in_its_programme(wish)
    }

    /// Whether a wish's candidate is live in its school.
    pub fn is_live_in_its_school(&self, wish: u32) -> bool
        requires { wish < length self.now.dossier.wishes }
        ensures { result ≡ holds_bed_in self.now (wish_in self.now.dossier.wishes wish).candidate
            (wish_in self.now.dossier.wishes wish).school }
    {
        self.live.is_live_in_its_school(wish)
    }

    /// The number of a wish's bundle in its programme: its candidate's wishes there. It follows
    /// from the dossier alone, so it may be kept and asked about in any of its states.
    pub fn seat_bundle(&self, wish: u32) -> BundleNumber
        requires { wish < length self.now.dossier.wishes }
        ensures { result ≡ seat_bundle self.now.dossier wish }
    {
        let _ = &self.live; // learns the invariant
        self.live.seat_bundle(wish)
    }

    /// How many bundles of wishes in one programme have two wishes or more.
    pub fn shared_in_programmes(&self) -> usize
        ensures { result ≡ shared_in_all Programmes self.now.dossier.wishes }
    {
        self.live.shared_in_programmes()
    }

    /// The wishes that wait while their candidate is live in the programme, in no order. It takes
    /// as long as there are wishes in bundles with a live one.
    pub fn waiting_beside_live(&self, alloc: Global) -> Result<Vec<u32>, OutOfMemory>
        ensures { IfOk result (λ v. (k : ℕ) → is_among k v.items ≡ waits_beside self.now k) }
    {
        self.live.waiting_beside_live(alloc)
    }

    /// Whether the candidate of a wish that is not live is live in its programme, by the number of
    /// the wish's bundle there. Nothing is read by wish.
    pub fn is_live_beside(&self, bundle: BundleNumber) -> bool
        ensures { (k : ℕ) → k < length self.now.dossier.wishes
            → bundle ≡ seat_bundle self.now.dossier k
            → is_live (mark_in self.now.marks k) ≡ false → result ≡ has_seat_there self.now k }
    {
        let _ = &self.live; // learns the invariant
        self.live.is_live_beside(bundle)
    }

    /// Gives a wish a status. Its stamp stays where it has that status already.
    pub fn set(&mut self, wish: u32, status: Status, stamp: Stamp)
        requires place { wish < length self.old.dossier.wishes }
        requires one_accepted { IsOneAccepted (change_at self.old wish status stamp) }
        ensures { self.new ≡ change_at self.old wish status stamp }
    {
        let mark = changed_to(self.live.mark(wish), status, stamp);
        self.live.set_mark(wish, mark);
    }

    /// Gives a wish another status than accepted.
    fn put(&mut self, wish: u32, status: Status, stamp: Stamp)
        requires place { wish < length self.old.dossier.wishes }
        requires other { ¬ (status ≡ Accepted) }
        ensures { self.new ≡ change_at self.old wish status stamp }
    {
        let _ = &self.live;
        self.set(wish, status, stamp);
    }

    /// Offers a waiting wish.
    pub fn offer(&mut self, wish: u32, stamp: Stamp)
        requires place { wish < length self.old.dossier.wishes }
        requires waits { IsTrue (is_waiting (mark_at self.old wish)) }
        ensures { self.new ≡ change_at self.old wish Offered stamp }
    {
        self.put(wish, Status::Offered, stamp);
    }

    /// Offers wishes that wait, and keeps one mark for each wish.
    pub fn offer_all(&mut self, wishes: &[u32], stamp: Stamp)
        requires { All (λ k. k < length self.old.dossier.wishes) wishes.now }
        ensures offered { self.new ≡ change_along (λ w m. changed_to Offered stamp m)
            wishes.now self.old }
        ensures marks { length self.new.marks ≡ length self.new.dossier.wishes }
    {
        let _ = &self.live; // learns the invariant
        for wish in wishes {
            self.put(*wish, Status::Offered, stamp);
        }
    }

    /// Accepts a wish: its candidate's other live wishes are refused.
    fn accept(&mut self, wish: u32, stamp: Stamp)
        requires { wish < length self.old.dossier.wishes }
        ensures { self.new ≡ after_kind Accept self.old wish stamp }
    {
        let dossier = self.live.dossier();
        let candidate = candidate_at(dossier.wishes.as_slice(), wish);
        let own = self.index.own_of(wish);
        let mark = changed_to(self.live.mark(wish), Status::Accepted, stamp);
        self.live
            .change_own(own, candidate, OwnChange::RefuseLive, stamp);
        self.live.set_mark(wish, mark);
    }

    /// Quits all that is open of a candidate.
    fn quit(&mut self, candidate: u32, stamp: Stamp)
        ensures { self.new ≡ after_kind Quit self.old candidate stamp }
    {
        let own = self.index.of(candidate);
        self.live
            .change_own(own, candidate, OwnChange::QuitOpen, stamp);
    }

    /// Refuses an answer that does not fit.
    fn test(&self, answer: Answer) -> Result<(), UnfitAnswer>
        requires { IsTarget self.now.dossier answer.kind answer.target }
        ensures { result ≡ answered self.now answer }
    {
        if answer.kind == AnswerKind::Quit {
            return Ok(()); // its target is no wish
        }
        let status = self.status(answer.target);
        if kind_fits(answer.kind, status) {
            Ok(())
        } else {
            Err(UnfitAnswer { status })
        }
    }

    /// Does what an answer says, where it fits.
    pub fn apply(&mut self, answer: Answer, stamp: Stamp) -> Result<(), UnfitAnswer>
        requires { IsTarget self.old.dossier answer.kind answer.target }
        ensures result { result ≡ answered self.old answer }
        ensures state { self.new ≡ after_fitting self.old stamp answer }
    {
        self.test(answer)?;
        let wish = answer.target;
        match answer.kind {
            AnswerKind::Accept => self.accept(wish, stamp),
            AnswerKind::Refuse => self.put(wish, Status::Refused, stamp),
            AnswerKind::Withdraw => self.put(wish, Status::Withdrawn, stamp),
            AnswerKind::Quit => self.quit(answer.target, stamp),
        }
        Ok(())
    }

    /// Does what answers say, in their order, up to the first one that does not fit. Each
    /// candidate's wishes follow that candidate's answers alone, and the list fits where those of
    /// each candidate do.
    pub fn apply_day(&mut self, answers: &[Answer], stamp: Stamp) -> Result<(), UnfitAt>
        requires targets { All (λ a. IsTarget self.old.dossier a.kind a.target) answers.now }
        requires count { length answers.now < 2 ^ 32 }
        ensures result { result ≡ refused_at (first_unfit 0 self.old stamp answers.now) }
        ensures state { self.new ≡ after_fitting_front self.old stamp answers.now }
        ensures own_fit { IsOk result ↔ OwnFit self.old stamp answers.now }
        ensures apart { IsOk result → AreOwn self.old stamp answers.now self.new }
    {
        let _ = &self.live; // learns the invariant
        self.apply_front(answers, stamp)
    }

    /// Does what answers say, in their order, up to the first one that does not fit.
    fn apply_front(&mut self, answers: &[Answer], stamp: Stamp) -> Result<(), UnfitAt>
        requires targets { All (λ a. IsTarget self.old.dossier a.kind a.target) answers.now }
        requires count { length answers.now < 2 ^ 32 }
        ensures result { result ≡ refused_at (first_unfit 0 self.old stamp answers.now) }
        ensures state { self.new ≡ after_fitting_front self.old stamp answers.now }
    {
        for (index, answer) in answers.iter().enumerate() {
            if let Err(unfit) = self.apply(*answer, stamp) {
                return Err(UnfitAt {
                    index: index as u32,
                    status: unfit.status,
                });
            }
        }
        Ok(())
    }

    /// Answers for a candidate, where they rank their wishes and one of them is live: the best live
    /// one is accepted, their other live wishes are given up, and so are the waiting ones behind
    /// it. Tells what they free.
    pub fn answer_automatically(&mut self, candidate: u32, stamp: Stamp) -> Freed
        ensures state { self.new ≡ auto_one self.old candidate stamp }
        ensures freed { result ≡ freed_by self.old self.new candidate }
    {
        let dossier = self.live.dossier();
        let _ = &dossier.wishes; // learns that the preferences of a candidate differ
        let own = self.index.of(candidate);
        self.live.take_best(own, candidate, stamp)
    }

    /// Answers for a wish's candidate, whom it finds without a search.
    pub fn answer_beside(&mut self, wish: u32, stamp: Stamp) -> Freed
        requires { wish < length self.old.dossier.wishes }
        ensures state { self.new ≡ auto_one self.old (candidate_of self.old.dossier wish) stamp }
        ensures freed { result ≡ freed_by self.old self.new (candidate_of self.old.dossier wish) }
    {
        let dossier = self.live.dossier();
        let candidate = candidate_at(dossier.wishes.as_slice(), wish);
        let own = self.index.own_of(wish);
        self.live.take_best(own, candidate, stamp)
    }

    /// Ends the offers whose deadline has passed.
    pub fn lapse(&mut self, terms: &Terms, day: u32)
        requires { length terms.now.before ≡ length self.old.dossier.wishes }
        ensures { self.new ≡ lapse terms.now day self.old }
    {
        let dossier = self.live.dossier();
        let count = dossier.wishes.len() as u32;
        for wish in 0..count {
            lapse_at(&mut self.live, terms, day, wish);
        }
    }
}

/// Ends the offer of a wish where its deadline has passed.
fn lapse_at(live: &mut CountedMarks<'_>, terms: &Terms, day: u32, wish: u32)
    requires before { wish < length terms.now.before }
    requires place { wish < length live.old.marks }
    ensures { live.new ≡ with_mark_at live.old wish
        (lapsed terms.now.term day (slice_index_or terms.now.before wish (pos 0))
        (mark_in live.old.marks wish)) }
{
    let mark = live.mark(wish);
    if lapses(terms, day, wish, mark) {
        let mark = changed_to(mark, Status::Lapsed, Stamp { day, pass: 0 });
        live.set_mark(wish, mark);
    }
}
