//! What a run is to come to.

use crate::outside::Ran;
use crate::told::Told;
use replay_cli::Exit;
use std::alloc::{AllocError, Global};

/// How a run ends, what it writes, and what the pickers told, where that is said.
#[derive(Drop)]
pub(crate) struct Expected {
    pub(crate) status: u8,
    pub(crate) text: Vec<u8>,
    /// Whether the run may write more than the text.
    pub(crate) is_front: bool,
    pub(crate) told: Option<Told>,
}

impl Expected {
    /// A run of which nothing is said.
    pub(crate) fn nothing(alloc: Global) -> Expected {
        Expected {
            status: 0,
            text: Vec::new(alloc),
            is_front: true,
            told: None,
        }
    }

    /// A run that ends so, having written these bytes.
    pub(crate) fn ended(
        alloc: Global,
        exit: Exit,
        text: &[u8],
        told: Option<Told>,
    ) -> Result<Expected, AllocError> {
        Ok(Expected {
            status: exit as u8,
            text: Vec::from_slice(alloc, text)?,
            is_front: false,
            told,
        })
    }

    /// Whether a run ended so.
    pub(crate) fn is_met(&self, ran: &Ran) -> bool {
        let (found, text) = (ran.text.as_slice(), self.text.as_slice());
        let is_text = if self.is_front {
            found.starts_with(text)
        } else {
            found == text
        };
        let is_told = match &self.told {
            Some(told) => told.is_same(&ran.told),
            None => true,
        };
        ran.status == self.status && is_text && is_told
    }
}
