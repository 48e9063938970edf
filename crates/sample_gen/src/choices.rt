//! The choices of a sample's candidates.
ghost use Rattle.std.specs.Prelude.{◌≡◌, ◌+◌, ◌++◌, ◌<◌, ◌≤◌, OnOk, IfOk, All};
ghost use Rattle.sample_gen.specs.Choices.{school_of, chosen, choice_at, own_choices, choices_of, programmes_of, is_boarder, is_first_at_school, IsSmall};

use admit_core::OutOfMemory;
use std::alloc::Global;

/// The most programmes that a candidate chooses.
pub(crate) const CHOICES: u32 = 3;

/// There is one programme, and one more for each so many candidates.
const CANDIDATES_A_PROGRAMME: u32 = 500;

/// How many programmes share a boarding school.
const PROGRAMMES_A_SCHOOL: u32 = 2;

/// A programme that a candidate chooses, with its boarding school.
#[derive(Clone, Copy)]
pub(crate) struct Choice {
    pub(crate) candidate: u32,
    /// 0 for the first of the candidate's choices.
    pub(crate) place: u32,
    pub(crate) programme: u32,
    pub(crate) school: u32,
}

/// The number of programmes of a sample, which is that of its groups.
pub(crate) fn programmes_of(candidates: u32) -> u32
    ensures { result ≡ programmes_of candidates }
{
    1 + candidates / CANDIDATES_A_PROGRAMME
}

/// The boarding school of a programme; of the last programme, the number of schools.
pub(crate) fn school_of(programme: u32) -> u32
    requires { 1 ≤ programme }
    ensures { result ≡ school_of programme }
{
    1 + (programme - 1) / PROGRAMMES_A_SCHOOL
}

/// The programme that a candidate chooses.
fn chosen(programmes: u32, candidate: u32, place: u32) -> u32
    requires some { 1 ≤ programmes }
    requires candidate { candidate ≤ 1000000 }
    requires place { place < 3 }
    ensures { result ≡ chosen programmes candidate place }
{
    1 + (candidate + place) % programmes
}

/// A candidate's choice.
fn choice_at(programmes: u32, candidate: u32, place: u32) -> Choice
    requires some { 1 ≤ programmes }
    requires candidate { candidate ≤ 1000000 }
    requires place { place < 3 }
    ensures { result ≡ choice_at programmes candidate place }
{
    let programme = chosen(programmes, candidate, place);
    Choice {
        candidate,
        place,
        programme,
        school: school_of(programme),
    }
}

/// Adds a candidate's choices.
fn add_choices(
    choices: &mut Vec<Choice>,
    programmes: u32,
    candidate: u32,
) -> Result<(), OutOfMemory>
    requires some { 1 ≤ programmes }
    requires candidate { candidate ≤ 1000000 }
    ensures { OnOk result (choices.new.items ≡ choices.old.items ++ own_choices
        programmes candidate) }
{
    for place in 0..programmes.min(CHOICES) {
        choices.push(choice_at(programmes, candidate, place))?;
    }
    Ok(())
}

/// The choices of all candidates, by candidate.
pub(crate) fn choices_of(alloc: Global, candidates: u32) -> Result<Vec<Choice>, OutOfMemory>
    requires { candidates ≤ 1000000 }
    ensures { IfOk result (λ choices. choices.items ≡ choices_of candidates) }
{
    let programmes = programmes_of(candidates);
    let mut choices = Vec::new(alloc);
    for candidate in 1..candidates + 1 {
        add_choices(&mut choices, programmes, candidate)?;
    }
    Ok(choices)
}

impl Choice {
    /// Whether the candidate wishes for boarding schools.
    pub(crate) fn is_boarder(self) -> bool
        ensures { result ≡ is_boarder self }
    {
        self.candidate % 2 == 0
    }

    /// Whether no earlier choice of the candidate has the school.
    pub(crate) fn is_first_at_school(self, programmes: u32) -> bool
        requires some { 1 ≤ programmes }
        requires small { IsSmall self }
        ensures { result ≡ is_first_at_school programmes self }
    {
        (0..self.place).all(|place| school_of(chosen(programmes, self.candidate, place))
            != self.school)
    }
}
