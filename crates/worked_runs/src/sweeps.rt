//! Many runs of one case: each read fails, the sink is full at each length, each slot is cut off at
//! each length.

use crate::expected::Expected;
use crate::outside::{CALM, Outside, Ran, play_anew};
use crate::told::Told;
use admit_core::Slot;
use case_file::{Slots, slot_named};
use replay_cli::Exit;
use std::alloc::{AllocError, Global};

/// How often a slot of less than a buffer is read: for its bytes, and for its end.
const READS_OF_A_SLOT: u64 = 2;

/// Whether a run ends as it is to end.
pub(crate) fn comes_about(
    alloc: Global,
    words: &str,
    slots: &Slots,
    outside: Outside,
    expected: &Expected,
) -> Result<bool, AllocError> {
    let ran = play_anew(alloc, words, slots, outside)?;
    Ok(expected.is_met(&ran))
}

/// Whether the text is cut off wherever the sink has less room than it needs.
fn is_cut_off(
    alloc: Global,
    words: &str,
    slots: &Slots,
    failing_read: Option<u64>,
    text: &[u8],
) -> Result<bool, AllocError> {
    for room in 0..text.len() {
        let outside = Outside {
            failing_read,
            room: Some(room as u64),
        };
        let expected = Expected::ended(alloc, Exit::WriteFault, &text[..room], None)?;
        if !comes_about(alloc, words, slots, outside, &expected)? {
            return Ok(false);
        }
    }
    Ok(true)
}

/// Whether the sink takes the whole text where there is room for it, and is full at each lesser
/// length.
pub(crate) fn each_room_cuts_off(
    alloc: Global,
    words: &str,
    slots: &Slots,
    expected: &Expected,
) -> Result<bool, AllocError> {
    let text = expected.text.as_slice();
    let outside = Outside {
        room: Some(text.len() as u64),
        ..CALM
    };
    Ok(
        comes_about(alloc, words, slots, outside, expected)?
            && is_cut_off(alloc, words, slots, None, text)?,
    )
}

/// Whether a run that cannot read a slot says so, asks no picker, and is cut off at each length.
fn is_unread(
    alloc: Global,
    words: &str,
    slots: &Slots,
    read: u64,
    slot: &str,
) -> Result<bool, AllocError> {
    let line = format!(in alloc; "read fault {slot}\n")?;
    let outside = Outside {
        failing_read: Some(read),
        ..CALM
    };
    let nothing = Some(Told::nothing(alloc));
    let expected = Expected::ended(alloc, Exit::ReadFault, line.as_bytes(), nothing)?;
    Ok(
        comes_about(alloc, words, slots, outside, &expected)?
            && is_cut_off(alloc, words, slots, Some(read), line.as_bytes())?,
    )
}

/// Whether each read of a slot ends the run where it fails, after so many reads of slots before it.
fn each_read_of_slot_fails(
    alloc: Global,
    words: &str,
    slots: &Slots,
    before: u64,
    name: &str,
) -> Result<bool, AllocError> {
    for number in 1..READS_OF_A_SLOT + 1 {
        if !is_unread(alloc, words, slots, before.saturating_add(number), name)? {
            return Ok(false);
        }
    }
    Ok(true)
}

/// Whether each read of these slots, which the run reads in this order, ends the run where it
/// fails, and no read comes after them.
pub(crate) fn each_read_fails(
    alloc: Global,
    words: &str,
    slots: &Slots,
    expected: &Expected,
    names: &str,
) -> Result<bool, AllocError> {
    let mut read: u64 = 0;
    for name in names.split_whitespace() {
        if !each_read_of_slot_fails(alloc, words, slots, read, name)? {
            return Ok(false);
        }
        read = read.saturating_add(READS_OF_A_SLOT);
    }
    let outside = Outside {
        failing_read: Some(read.saturating_add(1)),
        ..CALM
    };
    comes_about(alloc, words, slots, outside, expected)
}

/// Whether a run is done, refused, proves nothing, or does not find what it names, with a line that
/// says so.
fn is_answered(ran: &Ran) -> bool {
    let text = ran.text.as_slice();
    let last = text
        .split(|byte| *byte == b'\n')
        .rev()
        .nth(1)
        .unwrap_or(b"");
    if ran.status == Exit::Refused as u8 {
        last.starts_with(b"refused ")
    } else if ran.status == Exit::NotProved as u8 {
        last.starts_with(b"not a chain ") || last.starts_with(b"not proved ")
    } else if ran.status == Exit::NoSuchWish as u8 {
        last.starts_with(b"no such ")
    } else {
        ran.status == Exit::Done as u8
    }
}

/// Whether the run is answered so wherever a slot is cut off. If so, the slot is left whole.
fn each_cut_of_slot_is_answered(
    alloc: Global,
    words: &str,
    slots: &mut Slots,
    slot: Slot,
) -> Result<bool, AllocError> {
    let whole = Vec::from_slice(alloc, slots.bytes(slot))?;
    for end in 0..whole.len() {
        slots.put(alloc, slot, &whole[..end])?;
        let ran = play_anew(alloc, words, slots, CALM)?;
        if !is_answered(&ran) {
            return Ok(false);
        }
    }
    slots.put(alloc, slot, &whole)?;
    Ok(true)
}

/// Whether the run is answered so wherever one of these slots is cut off.
pub(crate) fn each_cut_is_answered(
    alloc: Global,
    words: &str,
    slots: &mut Slots,
    names: &str,
) -> Result<bool, AllocError> {
    for name in names.split_whitespace() {
        let Some(slot) = slot_named(name) else {
            return Ok(false);
        };
        if !each_cut_of_slot_is_answered(alloc, words, slots, slot)? {
            return Ok(false);
        }
    }
    Ok(true)
}
