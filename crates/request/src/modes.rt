//! The modes, and short tables by mode: its word, the slots that it reads, whether it runs days and
//! picks after them, and what it names in the dossier.
ghost use Rattle.std.specs.Prelude.{◌≡◌, ◌≢◌, ◌≤◌, ◌++◌, [], AllPairs, IfSome, OnErr, OnOk};
ghost use Rattle.std.specs.Prelude.{string_bytes};
ghost use Rattle.admit_core.specs.Texts.{KeepsRoom, LacksRoom};
ghost use Rattle.request.specs.Modes as Modes;
ghost use Rattle.request.specs.Modes.{IsMode};

use admit_core::{Slot, push_after};
use std::alloc::AllocError;

/// What a run is to do, with the data that this needs.
#[derive(Clone, Copy)]
pub enum Mode {
    /// Writes the call orders of all groups.
    Order,
    /// Writes the call orders, the days that are run, and the final state.
    Replay,
    /// Writes the falls of the days that are run, as a text that can be checked.
    Chain,
    /// Checks such a text, that of the chain slot, day by day.
    Check,
    /// Explains why a wish, named by its id, stands as it does after the days.
    Explain { wish: u32 },
    /// Lists the wishes that block the evening after the days.
    Envy,
    /// Says how many beds a school, named by its id, needs so that its bar stays at its ceiling in
    /// the last pass.
    Beds { school: u32 },
    /// Writes the stable matching that is best for the candidates who rank their wishes, over the
    /// wishes without boarding.
    Market,
    /// Makes a dossier of so many candidates, from 1 to 1,000,000, and writes a summary of its
    /// days.
    Sample { number: u32 },
}

/// What an option of a mode names in the dossier, by its id.
#[derive(Clone, Copy)]
pub enum Name {
    Wish(u32),
    School(u32),
}

impl Name {
    ghost use Rattle.request.specs.Modes.{name_text};

    /// Adds the words for it in a line.
    pub fn push_onto(self, text: &mut String) -> Result<(), AllocError>
        ensures all { OnOk result
            (string_bytes text.new ≡ string_bytes text.old ++ name_text self) }
        ensures full { OnErr result (LacksRoom text.old (name_text self)) }
        ensures room { KeepsRoom text.old text.new }
    {
        match self {
            Name::Wish(id) => push_after(text, "wish ", u64::from(id)),
            Name::School(id) => push_after(text, "school ", u64::from(id)),
        }
    }
}

/// The numbers that the options give, each of which a mode may need.
#[derive(Clone, Copy)]
pub(crate) struct Numbers {
    pub(crate) number: Option<u32>,
    pub(crate) wish: Option<u32>,
    pub(crate) school: Option<u32>,
}

/// The mode of a word, where it is given what it needs.
pub(crate) fn mode_of(word: &str, numbers: Numbers) -> Option<Mode>
    ensures { result ≡ Modes.mode_of numbers word.now }
{
    match word {
        "order" => Some(Mode::Order),
        "replay" => Some(Mode::Replay),
        "chain" => Some(Mode::Chain),
        "check" => Some(Mode::Check),
        "explain" => numbers.wish.map(|wish| Mode::Explain { wish }),
        "envy" => Some(Mode::Envy),
        "beds" => numbers.school.map(|school| Mode::Beds { school }),
        "market" => Some(Mode::Market),
        "sample" => numbers.number.map(|number| Mode::Sample { number }),
        _ => None,
    }
}

/// All slots in their order.
static ALL_SLOTS: [Slot; 10] = [
    Slot::Groups,
    Slot::Programmes,
    Slot::Schools,
    Slot::Rankings,
    Slot::Boarding,
    Slot::Wishes,
    Slot::State,
    Slot::Ceilings,
    Slot::Answers,
    Slot::Chain,
];

/// How many slots stand up to that of the wishes: a market needs no more.
const UP_TO_WISHES: usize = 6;

/// How many slots stand before that of the chain.
const BEFORE_CHAIN: usize = 9;

/// The slots that a mode reads, in this order.
pub fn slots_of(mode: Mode) -> &'static [Slot]
    ensures slots { result.now ≡ Modes.slots_of mode }
    ensures distinct { AllPairs (λ one other. one ≢ other) result.now }
{
    match mode {
        Mode::Order => &[Slot::Groups, Slot::Rankings],
        Mode::Sample { .. } => &[],
        Mode::Market => &ALL_SLOTS[..UP_TO_WISHES],
        Mode::Check => &ALL_SLOTS,
        _ => &ALL_SLOTS[..BEFORE_CHAIN],
    }
}

/// How many candidates the made-up dossier of a mode has; none where it reads its dossier.
pub fn sample_of(mode: Mode) -> Option<u32>
    ensures value { result ≡ Modes.sample_of mode }
    ensures range { IsMode mode → IfSome result (λ number. (1 ≤ number) × (number ≤ 1000000)) }
    ensures reads_none { IfSome result (λ _. Modes.slots_of mode ≡ []) }
{
    match mode {
        Mode::Sample { number } => Some(number),
        _ => None,
    }
}

/// Whether a mode runs days, for which pickers are asked.
pub fn runs_days(mode: Mode) -> bool
    ensures { result ≡ Modes.runs_days mode }
{
    !matches!(mode, Mode::Order | Mode::Check | Mode::Market)
}

/// The day whose picker the ending of a run is lent, where so many days are asked for; most modes
/// ask nobody once their days are over.
pub fn picks_after(mode: Mode, days: u32) -> Option<u32>
    ensures { result ≡ Modes.picks_after mode days }
{
    match mode {
        Mode::Beds { .. } => Some(days),
        Mode::Market => Some(1),
        _ => None,
    }
}

/// What a mode names in the dossier.
pub fn named_by(mode: Mode) -> Option<Name>
    ensures { result ≡ Modes.named_by mode }
{
    match mode {
        Mode::Explain { wish } => Some(Name::Wish(wish)),
        Mode::Beds { school } => Some(Name::School(school)),
        _ => None,
    }
}
