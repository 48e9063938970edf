//! Why a device refuses.

use std::alloc::AllocError;

/// Why a device took or gave nothing.
#[derive(Clone, Copy, Debug, PartialEq, Eq)]
pub enum IoRefusal {
    Failed,
    OutOfMemory,
}

/// Why a slot was not read to its end.
#[derive(Clone, Copy, Debug, PartialEq, Eq)]
pub enum SlotRefusal {
    ReadFault,
    TooLarge,
    OutOfMemory,
}

impl From<AllocError> for IoRefusal {
    ghost use Rattle.std.specs.Prelude.{◌≡◌};
    ghost use Rattle.slot_io.specs.declared.refusal.IoRefusal.TheVariants.{OutOfMemory};

    ghost from_gives = { λ _ refusal. refusal ≡ OutOfMemory };

    fn from(_error: AllocError) -> IoRefusal {
        IoRefusal::OutOfMemory
    }
}

impl From<IoRefusal> for SlotRefusal {
    ghost use Rattle.std.specs.Prelude.{◌≡◌};
    ghost use Rattle.slot_io.specs.Refusals.{slot_refusal_of};

    ghost from_gives = { λ of_device of_slot. of_slot ≡ slot_refusal_of of_device };

    fn from(refusal: IoRefusal) -> SlotRefusal {
        match refusal {
            IoRefusal::Failed => SlotRefusal::ReadFault,
            IoRefusal::OutOfMemory => SlotRefusal::OutOfMemory,
        }
    }
}

impl From<AllocError> for SlotRefusal {
    ghost use Rattle.std.specs.Prelude.{◌≡◌};
    ghost use Rattle.slot_io.specs.declared.refusal.SlotRefusal.TheVariants.{OutOfMemory};

    ghost from_gives = { λ _ refusal. refusal ≡ OutOfMemory };

    fn from(_error: AllocError) -> SlotRefusal {
        SlotRefusal::OutOfMemory
    }
}
