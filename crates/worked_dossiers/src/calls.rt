//! What single calls of passes and days answer, as lines.
ghost use Rattle.std.specs.Prelude.{◌≡◌, length, IfOk};
ghost use Rattle.admit_core.specs.CallOrder.{AreCallOrders};
ghost use Rattle.admit_core.specs.Ranges.{IsDay as IsDayNumber};

use crate::campaigns::{campaign_of, grown_bars_of, least_beds_of, with_beds_of};
use crate::tables::{call_orders_of, dossier_of};
use crate::views::{push_wishes, school_id};
use admit_core::{
    CallOrders, DayRecord, Dossier, InFault, Lapse, OutOfMemory, PassEnd, PassRecord, Refusal,
    Sequence, Stamp, Terms,
};
use auto_answer::auto_one;
use bar_fixpoint::FirstPicker;
use case_file::Slots;
use day_run::{run_dated_day, run_day};
use day_state::DayState;
use desk_day::{DayRefusal, Desk, make_morning, own_ceilings};
use envy::envy_list;
use round::pass;
use std::alloc::Global;
use std::fmt::Write;

/// The first pass of day 1.
const FIRST: Stamp = Stamp { day: 1, pass: 1 };

/// Adds the lines of a pass: its falls, the bars that they end with, and its offers.
fn push_pass(text: &mut String, dossier: &Dossier, pass: &PassRecord) -> Result<(), OutOfMemory> {
    for fall in pass.falls.as_slice() {
        let school = school_id(dossier, fall.school);
        write!(text, "fall {school} {} {}", fall.from, fall.to)?;
        push_wishes(text, dossier, fall.wishes.as_slice())?;
    }
    text.push_str("bars")?;
    push_numbers(text, pass.bars.as_slice())?;
    text.push_str("offers")?;
    push_wishes(text, dossier, pass.offers.as_slice())
}

/// Adds numbers to a line, and ends it.
pub(crate) fn push_numbers(text: &mut String, numbers: &[u32]) -> Result<(), OutOfMemory> {
    for number in numbers {
        write!(text, " {number}")?;
    }
    text.push_str("\n")?;
    Ok(())
}

/// Adds the lines of a pass of a day: the pass, what automatic answers changed, what they freed.
fn push_end(text: &mut String, dossier: &Dossier, end: &PassEnd) -> Result<(), OutOfMemory> {
    push_pass(text, dossier, &end.pass)?;
    for change in end.autos.as_slice() {
        write!(text, "auto {}", change.status.word())?;
        push_wishes(text, dossier, &[change.wish])?;
    }
    write!(text, "freed {} {}\n", end.freed.seats, end.freed.beds)?;
    Ok(())
}

/// Adds a line for each offer that lapses.
fn push_lapses(text: &mut String, dossier: &Dossier, lapses: &[Lapse]) -> Result<(), OutOfMemory> {
    for lapse in lapses {
        write!(text, "lapse of day {}", lapse.offered)?;
        push_wishes(text, dossier, &[lapse.wish])?;
    }
    Ok(())
}

/// The lines of a day.
fn day_text(alloc: Global, dossier: &Dossier, day: &DayRecord) -> Result<String, OutOfMemory> {
    let mut text = String::new(alloc);
    push_lapses(&mut text, dossier, day.lapsed.as_slice())?;
    for end in day.passes.as_slice() {
        push_end(&mut text, dossier, end)?;
    }
    text.push_str("left")?;
    push_numbers(&mut text, day.left.as_slice())?;
    text.push_str("free")?;
    push_numbers(&mut text, day.free.as_slice())?;
    Ok(text)
}

/// The lines of a state: the wishes with their statuses.
fn state_text(alloc: Global, state: &DayState<'_>) -> Result<String, OutOfMemory> {
    let mut text = String::new(alloc);
    let wishes = state.dossier().wishes.as_slice();
    for (wish, status) in wishes.iter().zip(state.marks().statuses()) {
        write!(text, "{} {}\n", wish.id, status.word())?;
    }
    Ok(text)
}

/// The line of a refusal.
fn refusal_text(alloc: Global, refusal: &Refusal) -> Result<String, OutOfMemory> {
    let mut text = String::new(alloc);
    refusal.push_onto(&mut text)?;
    text.push_str("\n")?;
    Ok(text)
}

/// The lines of a day, or that of the answer that ended it.
pub(crate) fn ended_text(
    alloc: Global,
    dossier: &Dossier,
    ended: &Result<DayRecord, DayRefusal>,
) -> Result<String, OutOfMemory> {
    match ended {
        Ok(day) => day_text(alloc, dossier, day),
        Err(DayRefusal::Unfit(refusal)) => refusal_text(alloc, refusal),
        Err(DayRefusal::OutOfMemory) => Err(OutOfMemory),
    }
}

/// The lines of the first pass of a state.
fn pass_of(
    alloc: Global,
    state: &mut DayState<'_>,
    orders: &CallOrders,
    ceilings: &[u32],
) -> Result<String, OutOfMemory>
    requires orders { AreCallOrders state.old.dossier.groups orders.now.orders }
    requires ceilings { length ceilings.now ≡ length state.old.dossier.schools }
{
    let dossier = state.dossier();
    let mut picker = FirstPicker::new(alloc);
    let found = pass(alloc, state, orders, ceilings, FIRST, &mut picker)?;
    let mut text = String::new(alloc);
    push_pass(&mut text, dossier, &found)?;
    Ok(text)
}

/// The lines of the first pass of a dossier, under the schools' own ceilings.
pub(crate) fn first_pass(alloc: Global, dossier: &Dossier) -> Result<String, OutOfMemory> {
    let orders = call_orders_of(alloc, dossier)?;
    let ceilings = own_ceilings(alloc, dossier)?;
    let mut state = DayState::begin(alloc, dossier)?;
    pass_of(alloc, &mut state, &orders, &ceilings)
}

/// The lines of a day without lapses.
fn day_of(
    alloc: Global,
    desk: &mut Desk<'_>,
    orders: &CallOrders,
    ceilings: &[u32],
    day: u32,
) -> Result<String, OutOfMemory>
    requires orders { AreCallOrders desk.old.present.dossier.groups orders.now.orders }
    requires ceilings { length ceilings.now ≡ length desk.old.present.dossier.schools }
    requires day { IsDayNumber day }
{
    let dossier = desk.now().dossier();
    let mut picker = FirstPicker::new(alloc);
    let ended = run_day(alloc, desk, orders, ceilings, day, &mut picker);
    ended_text(alloc, dossier, &ended)
}

/// The lines of a day, numbered as asked for, under the schools' own ceilings.
fn one_day(alloc: Global, dossier: &Dossier, day: u32) -> Result<String, OutOfMemory>
    requires { IsDayNumber day }
{
    let orders = call_orders_of(alloc, dossier)?;
    let ceilings = own_ceilings(alloc, dossier)?;
    let mut desk = Desk::begin(alloc, dossier)?;
    day_of(alloc, &mut desk, &orders, &ceilings, day)
}

/// Terms of so many days, where all offers that came in are of the day before the first.
fn terms_of(alloc: Global, dossier: &Dossier, term: u32) -> Result<Terms, OutOfMemory>
    ensures { IfOk result (λ terms. length terms.before ≡ length dossier.now.wishes) }
{
    let before = vec![in alloc; 0; dossier.wishes.len()]?;
    Ok(Terms {
        term,
        before: Sequence::from_vec(before),
    })
}

/// The lines of a day before which offers lapse by these terms.
fn dated_day_of(
    alloc: Global,
    desk: &mut Desk<'_>,
    orders: &CallOrders,
    ceilings: &[u32],
    terms: &Terms,
    day: u32,
) -> Result<String, OutOfMemory>
    requires orders { AreCallOrders desk.old.present.dossier.groups orders.now.orders }
    requires ceilings { length ceilings.now ≡ length desk.old.present.dossier.schools }
    requires before { length terms.now.before ≡ length desk.old.present.dossier.wishes }
    requires day { IsDayNumber day }
{
    let dossier = desk.now().dossier();
    let mut picker = FirstPicker::new(alloc);
    let ended = run_dated_day(alloc, desk, orders, ceilings, terms, day, &mut picker);
    ended_text(alloc, dossier, &ended)
}

/// The lines of a day with terms of one day, under the schools' own ceilings.
fn one_dated_day(alloc: Global, dossier: &Dossier, day: u32) -> Result<String, OutOfMemory>
    requires { IsDayNumber day }
{
    let orders = call_orders_of(alloc, dossier)?;
    let ceilings = own_ceilings(alloc, dossier)?;
    let terms = terms_of(alloc, dossier, 1)?;
    let mut desk = Desk::begin(alloc, dossier)?;
    dated_day_of(alloc, &mut desk, &orders, &ceilings, &terms, day)
}

/// The statuses of a morning, or the line of the answer that does not fit.
fn morning_of(alloc: Global, state: &mut DayState<'_>, day: u32) -> Result<String, OutOfMemory> {
    match make_morning(state, None, day) {
        Ok(()) => state_text(alloc, state),
        Err(DayRefusal::Unfit(refusal)) => refusal_text(alloc, &refusal),
        Err(DayRefusal::OutOfMemory) => Err(OutOfMemory),
    }
}

/// The line of what an automatic answer frees, and the statuses after it.
fn answer_of(
    alloc: Global,
    state: &mut DayState<'_>,
    candidate: u32,
) -> Result<String, OutOfMemory> {
    let freed = auto_one(state, candidate, FIRST);
    let mut text = state_text(alloc, state)?;
    write!(text, "freed {} {}\n", freed.seats, freed.beds)?;
    Ok(text)
}

/// A line for each wish whose candidate envies another: the wish, and who is envied.
fn envy_of(alloc: Global, state: &DayState<'_>, orders: &CallOrders) -> Result<String, OutOfMemory>
    requires { AreCallOrders state.now.dossier.groups orders.now.orders }
{
    let mut text = String::new(alloc);
    for envy in &envy_list(alloc, state, orders)? {
        write!(text, "envies {}", envy.envied)?;
        push_wishes(&mut text, state.dossier(), &[envy.wish])?;
    }
    Ok(text)
}

/// What a call answers in a state: the statuses of the morning of a day, those after the automatic
/// answer of a candidate, or who envies whom.
fn answer_in(
    alloc: Global,
    dossier: &Dossier,
    call: &str,
    number: u32,
) -> Result<String, OutOfMemory> {
    let mut state = DayState::begin(alloc, dossier)?;
    match call {
        "make_morning" => morning_of(alloc, &mut state, number),
        "auto_one" => answer_of(alloc, &mut state, number),
        _ => envy_of(alloc, &state, &call_orders_of(alloc, dossier)?),
    }
}

/// What a call of this name answers, with its number: mostly a day.
fn answer_on(
    alloc: Global,
    dossier: &Dossier,
    call: &str,
    number: u32,
) -> Result<String, OutOfMemory> {
    match call {
        "pass" => first_pass(alloc, dossier),
        "run_day" if 1 <= number && number <= 366 => one_day(alloc, dossier, number),
        "run_dated_day" if 1 <= number && number <= 366 => one_dated_day(alloc, dossier, number),
        "campaign" => campaign_of(alloc, dossier, number),
        "with_beds" => with_beds_of(alloc, dossier, number),
        "least_beds" => least_beds_of(alloc, dossier, number),
        "grown_bars" => grown_bars_of(alloc, dossier, number),
        _ => answer_in(alloc, dossier, call, number),
    }
}

/// What a call answers about the dossier that slots stand for.
pub(crate) fn called_in(
    alloc: Global,
    slots: &Slots,
    call: &str,
    number: u32,
) -> Result<String, InFault> {
    let dossier = dossier_of(alloc, slots)?;
    Ok(answer_on(alloc, &dossier, call, number)?)
}
