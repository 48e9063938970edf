//! A dossier with a mark for each of its wishes.
ghost use Rattle.std.specs.Prelude.{◌≡◌, ◌<◌, length};
ghost use Rattle.admit_core.specs.Answers.{mark_at, status_at};
ghost use Rattle.day_state.specs.Kept.{state_of};

use crate::marks::Marks;
use admit_core::{Dossier, Stamp, Status};
use std::marker::Model;

/// A dossier and the marks of its wishes, one each. A text of a state is made of these alone, so
/// what else a state keeps can be given up before.
#[derive(Drop)]
pub struct MarkedWishes<'a> {
    dossier: &'a Dossier,
    marks: &'a Marks,
}

impl<'a> Model for MarkedWishes<'a> {
    ghost use Rattle.std.specs.Prelude.{◌≡◌, length};
    ghost use Rattle.admit_core.specs.State.{State};
    ghost use Rattle.day_state.specs.Kept.{state_of};

    ghost Value = { State };

    ghost view = { λ s. state_of s.dossier.now s.marks.now };

    ghost invariant = { λ s. length s.marks.now ≡ length s.dossier.now.wishes };
}

impl<'a> MarkedWishes<'a> {
    /// A dossier with these marks.
    pub fn of(dossier: &'a Dossier, marks: &'a Marks) -> MarkedWishes<'a>
        requires one_each { length marks.now ≡ length dossier.now.wishes }
        ensures { result ≡ state_of dossier.now marks.now }
    {
        MarkedWishes { dossier, marks }
    }

    /// The dossier.
    pub fn dossier(&self) -> &'a Dossier
        ensures { result.now ≡ self.now.dossier }
    {
        self.dossier
    }

    /// The status of a wish.
    pub fn status(&self, wish: u32) -> Status
        requires { wish < length self.now.dossier.wishes }
        ensures { result ≡ status_at self.now wish }
    {
        self.marks.status(wish)
    }

    /// The stamp of a wish.
    pub fn stamp(&self, wish: u32) -> Stamp
        requires { wish < length self.now.dossier.wishes }
        ensures { result ≡ (mark_at self.now wish).stamp }
    {
        self.marks.stamp(wish)
    }
}
