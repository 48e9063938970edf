//! Which wishes are open.
ghost use Rattle.std.specs.Prelude.{◌≡◌, ◌<◌, ◌&&◌, false, not, length, map, slice_index_or, slice_set, IfOk};
ghost use Rattle.admit_core.specs.State.{is_waiting};

use admit_core::OutOfMemory;
use day_state::DayState;
use flags::Flags;
use std::alloc::Global;
use std::marker::Model;

/// Whether each wish is open, by place: it waits, and is not closed.
#[derive(Drop)]
pub struct OpenWishes {
    open: Flags,
}

impl Model for OpenWishes {
    ghost use Rattle.std.specs.Prelude.{List, Bool};

    ghost Value = { List Bool };

    ghost view = { λ o. o.open };
}

impl OpenWishes {
    /// All wishes that wait.
    pub fn all_waiting(alloc: Global, state: &DayState<'_>) -> Result<OpenWishes, OutOfMemory>
        ensures { IfOk result (λ o. o ≡ map is_waiting state.now.marks) }
    {
        let open = state.waits().copy(alloc)?;
        Ok(OpenWishes { open })
    }

    /// How many wishes there are, open or not.
    pub fn count(&self) -> usize
        ensures { result ≡ length self.now }
    {
        self.open.len()
    }

    /// Whether a wish is open: none is past the last one.
    pub fn get(&self, place: u32) -> bool
        ensures { result ≡ slice_index_or self.now place false }
    {
        self.open.get(place)
    }

    /// Closes a wish.
    pub fn close(&mut self, place: u32)
        requires { place < length self.old }
        ensures { self.new ≡ slice_set self.old place false }
    {
        self.open.set(place, false);
    }

    /// Closes a wish where its candidate is behind the bar of its school.
    pub fn close_if(&mut self, place: u32, is_behind: bool)
        requires { place < length self.old }
        ensures { self.new ≡ slice_set self.old place (slice_index_or self.old place false
            && not is_behind) }
    {
        if is_behind {
            self.close(place);
        }
    }
}
