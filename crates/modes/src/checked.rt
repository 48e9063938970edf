//! The mode `check`: the days of a chain, tested one after another.
//!
//! `reply_to_check` takes the room of a line and calls `read_and_check`, which reads the chain and
//! calls `check_and_reply`. That calls `check_chain`, which tests the days (`check_days`, and
//! `check_next` for each), and then `reply_after_test`, which makes a reply of the outcome.
ghost use Rattle.std.specs.Prelude.{◌≡◌, ◌≤◌, ◌<◌, ◌^◌, All, Err, IfErr, IfOk, IfSome, Some, OnErr, OnOk, length, option_copied};
ghost use Rattle.admit_core.specs.Chains.{IsDayChain, day_fault};
ghost use Rattle.admit_core.specs.Days.{first_evening};
ghost use Rattle.admit_core.specs.Lapses.{AreTermsFor};
ghost use Rattle.admit_core.specs.Ranges.{IsDay as IsDayNumber};
ghost use Rattle.certificate.specs.Checked.{ids_in};
ghost use Rattle.certificate.specs.Grammar.{read};
ghost use Rattle.certificate.specs.ProvedDays.{evening_after};
ghost use Rattle.intake.specs.Dated.{AreDatedFor, terms_in};
ghost use Rattle.modes.specs.CheckedDays.{IsEveningOfDay, IsEveningOfDays, KeepsIn, NamesSchool, TellsWhy};
ghost use Rattle.modes.specs.Checking.{DaysMayLackMemory, IsChecked, IsDoneUnless, IsReplyAfterTest, MayLackMemory, proved_text, rejected_at};
ghost use Rattle.modes.specs.Checking.{why_line, why_not_all, why_not, why_without_pass};
ghost use Rattle.modes.specs.Replay.{CanBeDated};
ghost use Rattle.modes.specs.declared.unproved.Unproved.TheVariants as unproved;
ghost use Rattle.modes.specs.declared.unproved.Why.TheVariants.{NoChain};

use crate::all_played::AllPlayed;
use crate::job::terms_in;
use crate::replay::push_final_lines;
use crate::reply::{Reply, StopLine, done, tell_refused};
use crate::unproved::{Unproved, Why};
use admit_core::{CheckReason, DayChain, Dossier, OutOfMemory, Terms};
use certificate::{ChainRefusal, Grounds, Rejection, check_day_on, read_chain};
use day_state::{DayState, MarkedWishes};
use desk_day::{DayRefusal, Present, ceilings_on};
use intake::{DatedTerms, Input};
use played::LastDesk;
use std::alloc::Global;

/// Tests the chain of a day from its morning on, and leaves the evening of the day.
fn check_morning(
    alloc: Global,
    grounds: &Grounds<'_, '_>,
    ceilings: &[u32],
    present: &mut Present<'_>,
    day: u32,
    chain: &DayChain,
) -> Result<(), Unproved>
    requires same { grounds.now.dossier ≡ present.old.dossier }
    requires ceilings { length ceilings.now ≡ length present.old.dossier.schools }
    requires passes { length chain.now.passes < 2 ^ 32 }

    ensures found { TellsWhy result (rejected_at
        (day_fault grounds.now.orders ceilings.now day present.old chain.now)) }
    ensures valid { OnOk result (IsDayChain grounds.now.orders ceilings.now day present.old
        chain.now present.new) }
    ensures school { IfErr result (KeepsIn (length present.old.dossier.schools)) }
{
    check_day_on(alloc, grounds, present, ceilings, day, chain)?;
    Ok(())
}

/// Why a day is refused whose chain has no pass: its first answer that does not fit, or else the
/// pass that is missing. It says so too where there is no memory for the list of lapses.
fn refuse_day(
    alloc: Global,
    present: &mut Present<'_>,
    terms: Option<&Terms>,
    day: u32,
    chain: &DayChain,
) -> Why
    requires terms { AreTermsFor present.old.dossier (option_copied terms) }
    requires day { IsDayNumber day }
    ensures why { why_without_pass (option_copied terms.entry) day present.old chain.now
        ≡ Some result }
    ensures school { NamesSchool (length present.old.dossier.schools) result }
{
    match present.begin_day(alloc, terms, day) {
        Err(DayRefusal::Unfit(refusal)) => Why::Unfit(refusal),
        _ => Why::Rejected(Rejection {
            row: chain.next_row,
            reason: CheckReason::PassMissing,
        }),
    }
}

/// Tests the chain of a day from the evening before on, and leaves the evening of the day. Without
/// a pass, or with an answer that does not fit, it is refused whatever memory there is.
fn check_next(
    alloc: Global,
    grounds: &Grounds<'_, '_>,
    terms: Option<&Terms>,
    present: &mut Present<'_>,
    day: u32,
    chain: &DayChain,
) -> Result<(), Unproved>
    requires same { grounds.now.dossier ≡ present.old.dossier }
    requires terms { AreTermsFor present.old.dossier (option_copied terms) }
    requires day { IsDayNumber day }
    requires passes { length chain.now.passes < 2 ^ 32 }

    ensures found { TellsWhy result (why_not (option_copied terms.entry) grounds.now.orders day
        present.old chain.now) }
    ensures evening { OnOk result (IsEveningOfDay (option_copied terms.entry) grounds.now.orders day
        present.old chain.now present.new) }
    ensures memory { result ≡ Err unproved.OutOfMemory
        → MayLackMemory (option_copied terms.entry) day present.old chain.now }
    ensures school { IfErr result (KeepsIn (length present.old.dossier.schools)) }
{
    if chain.passes.is_empty() {
        return Err(Unproved::Refused(refuse_day(alloc, present, terms, day, chain)));
    }
    let _ = present.begin_day(alloc, terms, day)?;
    let ceilings = ceilings_on(alloc, present.now().dossier(), day)?;
    check_morning(alloc, grounds, &ceilings, present, day, chain)
}

/// Tests the days of a chain from day 1 on, and leaves the evening of the last.
fn check_days(
    alloc: Global,
    grounds: &Grounds<'_, '_>,
    terms: Option<&Terms>,
    present: &mut Present<'_>,
    days: &[DayChain],
) -> Result<(), Unproved>
    requires same { grounds.now.dossier ≡ present.old.dossier }
    requires terms { AreTermsFor present.old.dossier (option_copied terms) }
    requires days { length days.now ≤ 366 }
    requires passes { All (λ day. length day.passes < 2 ^ 32) days.now }

    ensures found { TellsWhy result (why_not_all (option_copied terms.entry) grounds.now.orders 1
        present.old days.now) }
    ensures evening { OnOk result (IsEveningOfDays (option_copied terms.entry) grounds.now.orders
        present.old days.now present.new) }
    ensures school { IfErr result (KeepsIn (length present.old.dossier.schools)) }
    ensures memory { result ≡ Err unproved.OutOfMemory
        → DaysMayLackMemory (option_copied terms.entry) 1 present.old days.now }
{
    for (place, chain) in days.iter().enumerate() {
        check_next(alloc, grounds, terms, present, place as u32 + 1, chain)?;
    }
    Ok(())
}

/// The text where so many days are proved, and lead to this evening. Of the evening only the marks
/// are kept while the text is made.
fn proved_text(
    alloc: Global,
    number: usize,
    evening: DayState<'_>,
    dated: Option<&DatedTerms>,
) -> Result<Vec<u8>, OutOfMemory>
    requires { CanBeDated (option_copied dated) evening }
    ensures { IfOk result (λ text. text.items ≡ proved_text number evening.entry
        (option_copied dated.entry)) }
{
    let dossier = evening.dossier();
    let marks = evening.into_marks();
    let evening = MarkedWishes::of(dossier, &marks);
    let mut text = String::new(alloc);
    writeln!(text, "proved {number}")?;
    push_final_lines(&mut text, &evening, dated)?;
    Ok(text.into_bytes())
}

/// Makes the reply of what the test of the days came to. The line of a chain that is refused has
/// its room already.
fn reply_after_test(
    line: StopLine,
    dossier: &Dossier,
    tested: Result<Vec<u8>, Unproved>,
) -> Result<Reply, OutOfMemory>
    requires { IfErr tested (KeepsIn (length dossier.now.schools)) }
    ensures { IsReplyAfterTest dossier.now tested result }
{
    match tested {
        Ok(text) => Ok(done(text)),
        Err(Unproved::Refused(why)) => tell_refused(line, dossier, why),
        Err(Unproved::OutOfMemory) => Err(OutOfMemory),
    }
}

/// Tests the days of a chain from the first evening on, along the roster of the run, and makes the
/// text where all are proved.
fn check_chain(
    alloc: Global,
    input: &Input,
    dated: Option<&DatedTerms>,
    last: LastDesk<'_, '_>,
    days: &[DayChain],
) -> Result<Vec<u8>, Unproved>
    requires index { input.now.index ≡ ids_in input.now.dossier }
    requires dated { IfSome (option_copied dated) (AreDatedFor input.now.dossier) }
    requires first { last.desk.present ≡ first_evening input.now.dossier }
    requires days { length days.now ≤ 366 }
    requires passes { All (λ day. length day.passes < 2 ^ 32) days.now }

    ensures tells { TellsWhy result (why_not_all (terms_in (option_copied dated.entry))
        last.entry.orders 1 (first_evening input.now.dossier) days.now) }
    ensures text { IfOk result (λ text. text.items ≡ proved_text (length days.now)
        (evening_after (terms_in (option_copied dated.entry)) last.entry.orders 1
        (first_evening input.now.dossier) days.now)
        (option_copied dated.entry)) }
    ensures school { IfErr result (KeepsIn (length input.now.dossier.schools)) }
{
    let (first, roster) = last.into_now_along(alloc)?;
    let grounds = Grounds::along(&roster, &input.index);
    let mut present = Present::begin(first);
    check_days(alloc, &grounds, terms_in(dated), &mut present, days)?;
    Ok(proved_text(alloc, days.len(), present.into_now(), dated)?)
}

/// Tests the days of a chain, and makes the reply.
fn check_and_reply(
    alloc: Global,
    line: StopLine,
    input: &Input,
    dated: Option<&DatedTerms>,
    last: LastDesk<'_, '_>,
    days: &[DayChain],
) -> Result<Reply, OutOfMemory>
    requires index { input.now.index ≡ ids_in input.now.dossier }
    requires dated { IfSome (option_copied dated) (AreDatedFor input.now.dossier) }
    requires first { last.desk.present ≡ first_evening input.now.dossier }
    requires days { length days.now ≤ 366 }
    requires passes { All (λ day. length day.passes < 2 ^ 32) days.now }

    ensures { IfOk result (λ reply. IsDoneUnless input.now.dossier
        (why_not_all (terms_in (option_copied dated.entry)) last.entry.orders 1
        (first_evening input.now.dossier) days.now)
        (proved_text (length days.now)
        (evening_after (terms_in (option_copied dated.entry)) last.entry.orders 1
        (first_evening input.now.dossier) days.now)
        (option_copied dated.entry))
        reply.exit reply.text.items) }
{
    let tested = check_chain(alloc, input, dated, last, days);
    reply_after_test(line, &input.dossier, tested)
}

/// Reads the chain that is handed in, tests its days, and makes the reply. Where the text is no
/// chain, neither a state nor a roster is made.
fn read_and_check(
    alloc: Global,
    line: StopLine,
    input: &Input,
    dated: Option<&DatedTerms>,
    last: LastDesk<'_, '_>,
) -> Result<Reply, OutOfMemory>
    requires index { input.now.index ≡ ids_in input.now.dossier }
    requires dated { IfSome (option_copied dated) (AreDatedFor input.now.dossier) }
    requires first { last.desk.present ≡ first_evening input.now.dossier }
    ensures ends { IfOk result (λ reply. IsChecked
        input.now.dossier input.now.chain (option_copied dated.entry) last.entry.orders
        reply.exit reply.text.items) }
    ensures told { OnErr result (IfErr (read input.now.chain) (λ fault.
        128 < length (why_line input.now.dossier (NoChain fault)))) }
{
    match read_chain(alloc, input.chain.as_slice()) {
        Ok(chain) => check_and_reply(alloc, line, input, dated, last, chain.days.as_slice()),
        Err(ChainRefusal::Fault(fault)) => tell_refused(line, &input.dossier, Why::NoChain(fault)),
        Err(ChainRefusal::OutOfMemory) => Err(OutOfMemory),
    }
}

/// Replies to `check`, which runs no day, so the desk is the first one. The room for the line of a
/// refused chain is taken before the chain is read. No picker is asked.
pub(crate) fn reply_to_check(
    alloc: Global,
    input: &Input,
    dated: Option<&DatedTerms>,
    played: AllPlayed<'_, '_>,
) -> Result<Reply, OutOfMemory>
    requires index { input.now.index ≡ ids_in input.now.dossier }
    requires dated { IfSome (option_copied dated) (AreDatedFor input.now.dossier) }
    requires first { played.last.desk.present ≡ first_evening input.now.dossier }
    ensures { IfOk result (λ reply. IsChecked
        input.now.dossier input.now.chain (option_copied dated.entry) played.entry.last.orders
        reply.exit reply.text.items) }
{
    let last = played.into_last();
    let line = StopLine::new(alloc)?;
    read_and_check(alloc, line, input, dated, last)
}
