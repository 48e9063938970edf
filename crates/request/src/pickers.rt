//! Which picker chooses on a day.
ghost use Rattle.std.specs.Prelude.{◌≡◌};
ghost use Rattle.request.specs.Pickers as Pickers;

/// A picker, which chooses the overfilled school that falls.
#[derive(Clone, Copy, Debug, PartialEq, Eq)]
pub enum PickerName {
    /// Chooses the school of least place.
    First,
    /// Chooses the school of greatest place.
    Last,
    /// Chooses the next school after the one that fell before.
    Turn,
}

/// Which picker each day has.
#[derive(Clone, Copy)]
pub enum PickerChoice {
    /// The same on all days.
    Same(PickerName),
    /// The first, the last and the next in turn, from day to day.
    Each,
}

/// The picker of a day.
pub fn picker_on(choice: PickerChoice, day: u32) -> PickerName
    ensures { result ≡ Pickers.picker_on choice day }
{
    match choice {
        PickerChoice::Same(name) => name,
        PickerChoice::Each => match day % 3 {
            1 => PickerName::First,
            2 => PickerName::Last,
            _ => PickerName::Turn,
        },
    }
}
