//! What pickers told.

use bar_fixpoint::Picker;
use replay_cli::Pickers;
use std::alloc::{AllocError, Global};

/// The places that each picker told, in all runs of a case so far.
#[derive(Drop)]
pub(crate) struct Told {
    first: Vec<u32>,
    last: Vec<u32>,
    turn: Vec<u32>,
}

/// One of the three pickers.
#[derive(Clone, Copy)]
enum Whose {
    First,
    Last,
    Turn,
}

fn named(name: &str) -> Whose {
    match name {
        "last" => Whose::Last,
        "turn" => Whose::Turn,
        _ => Whose::First,
    }
}

/// What a picker told; one that is not there counts as telling a place that does not exist.
fn told_by(alloc: Global, picker: &Option<Box<dyn Picker>>) -> Result<Vec<u32>, AllocError> {
    match picker {
        Some(picker) => Vec::from_slice(alloc, picker.told_list()),
        None => Ok(vec![in alloc; u32::MAX]?),
    }
}

impl Told {
    /// What no picker told.
    pub(crate) fn nothing(alloc: Global) -> Told {
        Told {
            first: Vec::new(alloc),
            last: Vec::new(alloc),
            turn: Vec::new(alloc),
        }
    }

    /// What a line says, as `first 0 1 0 last 1`.
    pub(crate) fn read(alloc: Global, line: &str) -> Result<Told, AllocError> {
        let mut told = Told::nothing(alloc);
        let mut who = Whose::First;
        for word in line.split_whitespace() {
            match word.parse::<u32>() {
                Ok(place) => told.add(who, place)?,
                Err(_) => who = named(word),
            }
        }
        Ok(told)
    }

    /// What these pickers told.
    pub(crate) fn of(alloc: Global, pickers: &Pickers) -> Result<Told, AllocError> {
        Ok(Told {
            first: told_by(alloc, &pickers.first)?,
            last: told_by(alloc, &pickers.last)?,
            turn: told_by(alloc, &pickers.turn)?,
        })
    }

    fn add(&mut self, who: Whose, place: u32) -> Result<(), AllocError> {
        match who {
            Whose::First => self.first.push(place)?,
            Whose::Last => self.last.push(place)?,
            Whose::Turn => self.turn.push(place)?,
        }
        Ok(())
    }

    pub(crate) fn is_same(&self, other: &Told) -> bool {
        self.first == other.first && self.last == other.last && self.turn == other.turn
    }
}
