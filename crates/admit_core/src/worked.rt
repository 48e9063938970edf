//! Worked cases of the rules, as theorems.
ghost use Rattle.admit_core.specs.WorkedFaults.{RankingFaults, WishFaults, StateFaults, OtherFaults, StandingRows};
ghost use Rattle.admit_core.specs.WorkedChains.{ValidChain, ChainFaults, TwoPasses, AnyName, Envies, LastOfTwo, SeatIsVacant, NoneBlocks, BedsNeeded};
ghost use Rattle.admit_core.specs.WorkedDays.{VacantSeat, BedIsHeld, CeilingsChange, EdgesOfBars, FreedSeat, FreedBed, LimitUnderBar, AnswersFit, AcceptsOne, AcceptedStays, BetterOffer, LiveTwice, HoldersStandAside, Quits, Deadline, FirstDayExplained, SecondDayExplained, BarsExplained};
ghost use Rattle.admit_core.specs.WorkedRows.{SmallRate, NoRate, FullRates, ScholarshipAlone, ScholarsExhausted, GreatestBar, OneFall, WhyNot, OneBed, NoSecondSeat, TwoOffers, BetterWaits, CallLimit, Cascade, OneDay, TwoDays, OldOffer, SmallDossier};

/// What the definitions give on worked cases of the rules. It does nothing when it is called: its
/// clauses are theorems.
pub fn worked_rows()
    ensures small_rate { SmallRate }
    ensures no_rate { NoRate }
    ensures full_rates { FullRates }
    ensures scholarship_alone { ScholarshipAlone }
    ensures scholars_exhausted { ScholarsExhausted }
    ensures greatest_bar { GreatestBar }
    ensures one_fall { OneFall }
    ensures why_not { WhyNot }
    ensures one_bed { OneBed }
    ensures no_second_seat { NoSecondSeat }
    ensures two_offers { TwoOffers }
    ensures better_waits { BetterWaits }
    ensures call_limit { CallLimit }
    ensures cascade { Cascade }
    ensures one_day { OneDay }
    ensures two_days { TwoDays }
    ensures old_offer { OldOffer }
    ensures small_dossier { SmallDossier }
{}

/// What worked days leave, and how their wishes are explained.
pub fn worked_days()
    ensures vacant_seat { VacantSeat }
    ensures bed_is_held { BedIsHeld }
    ensures ceilings_change { CeilingsChange }
    ensures edges_of_bars { EdgesOfBars }
    ensures freed_seat { FreedSeat }
    ensures freed_bed { FreedBed }
    ensures limit_under_bar { LimitUnderBar }
    ensures answers_fit { AnswersFit }
    ensures accepts_one { AcceptsOne }
    ensures accepted_stays { AcceptedStays }
    ensures better_offer { BetterOffer }
    ensures live_twice { LiveTwice }
    ensures holders_stand_aside { HoldersStandAside }
    ensures quits { Quits }
    ensures deadline { Deadline }
    ensures first_day_explained { FirstDayExplained }
    ensures second_day_explained { SecondDayExplained }
    ensures bars_explained { BarsExplained }
{}

/// Which worked chains are valid, and the first fault of the others; which wishes block worked
/// states; and how many beds worked schools need.
pub fn worked_chains()
    ensures valid_chain { ValidChain }
    ensures chain_faults { ChainFaults }
    ensures two_passes { TwoPasses }
    ensures any_name { AnyName }
    ensures envies { Envies }
    ensures last_of_two { LastOfTwo }
    ensures seat_is_vacant { SeatIsVacant }
    ensures none_blocks { NoneBlocks }
    ensures beds_needed { BedsNeeded }
{}

/// What the first fault is of worked tables, and which dossier fault-free ones stand for.
pub fn worked_faults()
    ensures rankings { RankingFaults }
    ensures wishes { WishFaults }
    ensures state { StateFaults }
    ensures others { OtherFaults }
    ensures standing { StandingRows }
{}
