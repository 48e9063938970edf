//! The summary of a sample.
ghost use Rattle.std.specs.Prelude.{◌≡◌, ◌<◌, ◌+◌, ◌||◌, if◌then◌else◌, IfOk, flat_map, not};
ghost use Rattle.std.specs.Prelude.{sum_by};
ghost use Rattle.admit_core.specs.State.{is_gone, is_live, is_live_status, is_waiting};
ghost use Rattle.admit_core.specs.State.{is_waiting_status};
ghost use Rattle.report.specs.Pushes.{Pushes};
ghost use Rattle.report.specs.SampleText.{day_summary, falls_in, offers_in, sample_text};
ghost use Rattle.report.specs.SampleText.{state_summary, wishes_with};

use crate::piece::{Piece, push_all};
use admit_core::{DayRecord, OutOfMemory, PassEnd, Status};
use day_state::DayState;
use itoa::Buffer;
use std::alloc::{AllocError, Global};

/// How many falls and offers passes have. Each count of a pass may be as great as a list is long,
/// so their sums are wider.
struct PassSums {
    falls: u128,
    offers: u128,
}

fn pass_sums(passes: &[PassEnd]) -> PassSums
    ensures falls { result.falls ≡ sum_by falls_in passes.now }
    ensures offers { result.offers ≡ sum_by offers_in passes.now }
{
    let mut sums = PassSums {
        falls: 0,
        offers: 0,
    };
    for end in passes {
        sums.falls += end.pass.falls.len() as u128;
        sums.offers += end.pass.offers.len() as u128;
    }
    sums
}

/// How many wishes are live, wait, or are neither.
struct WishCounts {
    live: usize,
    waiting: usize,
    gone: usize,
}

impl WishCounts {
    /// The counts with one more wish, which has this status.
    fn with(mut self, status: Status) -> WishCounts
        requires { self.live + self.waiting + self.gone < usize.MAX }
        ensures live { result.live ≡ self.live + (if is_live_status status then 1 else 0) }
        ensures waiting { result.waiting
            ≡ self.waiting + (if is_waiting_status status then 1 else 0) }
        ensures gone { result.gone ≡ self.gone
            + (if not (is_live_status status || is_waiting_status status) then 1 else 0) }
        ensures total { result.live + result.waiting + result.gone
            ≡ self.live + self.waiting + self.gone + 1 }
    {
        match status {
            Status::Offered | Status::Accepted => self.live += 1,
            Status::Waiting => self.waiting += 1,
            _ => self.gone += 1,
        }
        self
    }
}

fn wish_counts(state: &DayState<'_>) -> WishCounts
    ensures live { result.live ≡ wishes_with is_live state.now }
    ensures waiting { result.waiting ≡ wishes_with is_waiting state.now }
    ensures gone { result.gone ≡ wishes_with is_gone state.now }
{
    let mut counts = WishCounts {
        live: 0,
        waiting: 0,
        gone: 0,
    };
    let wishes = state.dossier().wishes.len() as u32;
    for wish in 0..wishes {
        counts = counts.with(state.status(wish));
    }
    counts
}

/// Adds the summary of a day. What its passes have in all is wider than the number of a piece.
fn push_summary(text: &mut String, day: &DayRecord) -> Result<(), AllocError>
    ensures { Pushes result text.old text.new (day_summary day.now) }
{
    let PassSums { falls, offers } = pass_sums(day.passes.as_slice());
    let (mut fall_digits, mut offer_digits) = (Buffer::new(), Buffer::new());
    let pieces = [
        Piece::Text("day "),
        Piece::Number(day.day),
        Piece::Text(" passes "),
        Piece::Count(day.passes.len() as u64),
        Piece::Text(" falls "),
        Piece::Text(fall_digits.format(falls)),
        Piece::Text(" offers "),
        Piece::Text(offer_digits.format(offers)),
        Piece::End,
    ];
    push_all(text, &pieces)
}

/// Adds the summary of each day.
fn push_summaries(text: &mut String, days: &[DayRecord]) -> Result<(), AllocError>
    ensures { Pushes result text.old text.new (flat_map day_summary days.now) }
{
    for day in days {
        push_summary(text, day)?;
    }
    Ok(())
}

/// Adds the numbers of wishes that are live, wait and are gone.
fn push_counts(text: &mut String, state: &DayState<'_>) -> Result<(), AllocError>
    ensures { Pushes result text.old text.new (state_summary state.now) }
{
    let WishCounts {
        live,
        waiting,
        gone,
    } = wish_counts(state);
    let pieces = [
        Piece::Text("live "),
        Piece::Count(live as u64),
        Piece::Text(" waiting "),
        Piece::Count(waiting as u64),
        Piece::Text(" gone "),
        Piece::Count(gone as u64),
        Piece::End,
    ];
    push_all(text, &pieces)
}

/// Adds the summary of a sample.
fn push_sample(
    text: &mut String,
    number: u32,
    wishes: u32,
    days: &[DayRecord],
    state: &DayState<'_>,
) -> Result<(), AllocError>
    ensures { Pushes result text.old text.new (sample_text number wishes days.now state.now) }
{
    let pieces = [
        Piece::Text("sample "),
        Piece::Number(number),
        Piece::Text(" wishes "),
        Piece::Number(wishes),
        Piece::End,
    ];
    push_all(text, &pieces)?;
    push_summaries(text, days)?;
    push_counts(text, state)
}

/// The summary of a sample: its numbers of candidates and of wishes, the passes, falls and offers
/// of each day, and the numbers of wishes that are live, wait and are gone in the final state.
pub fn sample_text(
    alloc: Global,
    number: u32,
    wishes: u32,
    days: &[DayRecord],
    state: &DayState<'_>,
) -> Result<Vec<u8>, OutOfMemory>
    ensures { IfOk result (λ text. text.items ≡ sample_text number wishes days.now state.now) }
{
    let mut text = String::new(alloc);
    push_sample(&mut text, number, wishes, days, state)?;
    Ok(text.into_bytes())
}
