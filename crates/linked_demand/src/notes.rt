//! What is known of each wish from the line of its programme.
ghost use Rattle.std.specs.Prelude.{◌≡◌, ◌<◌, ◌^◌, false, length, replicate, slice_index_or, All, IfOk};
ghost use Rattle.linked_demand.specs.Notes.{IsNoted, PutAt, note_of, nothing_noted};

use admit_core::OutOfMemory;
use std::alloc::Global;
use std::marker::Model;

/// What is known of each wish, by place, in one number: the place of its candidate in the line of
/// its programme, and whether they are called by the programme's limit.
pub struct Notes {
    notes: Vec<u32>,
}

// Not derived: so notes are dropped in one step where they are held.
impl Drop for Notes {
    fn drop(self) {
        let Notes { notes: _ } = self;
    }
}

impl Model for Notes {
    ghost use Rattle.linked_demand.specs.Notes.{Noted, read_from};

    ghost Value = { Noted };

    ghost view = { λ n. read_from n.notes.items };
}

/// So many zeros.
fn zeros(alloc: Global, count: u32) -> Result<Vec<u32>, OutOfMemory>
    ensures { IfOk result (λ v. v.items ≡ replicate count 0) }
{
    let zeros = vec![in alloc; 0u32; count as usize]?;
    Ok(zeros)
}

/// A place with a flag in one number.
fn note_of(place: u32, is_called: bool) -> u32
    requires { place < 2 ^ 30 }
    ensures { result ≡ note_of place is_called }
{
    place * 2 + u32::from(is_called)
}

/// The number that is kept of a wish, which is 0 where there is no such wish.
fn note_at(notes: &[u32], wish: u32) -> u32
    ensures { result ≡ slice_index_or notes.now wish 0 }
{
    match notes.get(wish as usize) {
        None => 0,
        Some(note) => *note,
    }
}

/// Puts a number at the places of a claim.
fn put_at(numbers: &mut Vec<u32>, claim: &[u32], number: u32)
    requires { All (λ k. k < length numbers.old.items) claim.now }
    ensures { PutAt claim.now number numbers.old.items numbers.new.items }
{
    for wish in claim {
        numbers[*wish as usize] = number;
    }
}

impl Notes {
    /// Notes of so many wishes, of which nothing is known yet.
    pub fn none(alloc: Global, count: u32) -> Result<Notes, OutOfMemory>
        ensures { IfOk result (λ n. n ≡ nothing_noted count) }
    {
        let notes = zeros(alloc, count)?;
        Ok(Notes { notes })
    }

    /// Notes for the wishes of a claim their candidate's place in the line, and whether they are
    /// called by the programme's limit.
    pub fn note(&mut self, claim: &[u32], place: u32, is_called: bool)
        requires within { All (λ k. k < length self.old.places) claim.now }
        requires fits { place < 2 ^ 30 }
        ensures { IsNoted claim.now place is_called self.old self.new }
    {
        put_at(&mut self.notes, claim, note_of(place, is_called));
    }

    /// The place of a wish's candidate in the line of its programme.
    pub fn place(&self, wish: u32) -> u32
        requires { wish < length self.now.places }
        ensures { result ≡ slice_index_or self.now.places wish 0 }
    {
        note_at(&self.notes, wish) / 2
    }

    /// Whether a wish's candidate is called by the limit of its programme.
    pub fn is_called_by_limit(&self, wish: u32) -> bool
        ensures { result ≡ slice_index_or self.now.called_by_limit wish false }
    {
        note_at(&self.notes, wish) % 2 == 1
    }
}
