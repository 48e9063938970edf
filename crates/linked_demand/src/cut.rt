//! A bar falls.
ghost use Rattle.std.specs.Prelude.{◌≡◌, ◌+◌, ◌<◌, ◌≤◌, length, take, count_by};
ghost use Rattle.std.specs.List.{enumerate_from};
ghost use Rattle.admit_core.specs.State.{entries};
ghost use Rattle.linked_demand.specs.Marks.{is_new, MarksWishes};
ghost use Rattle.linked_demand.specs.Rows.{row_in, CanBeCut, CutsAt};

use crate::links::SeatLinks;
use crate::marks::Marks;
use crate::rows::RowWish;
use admit_core::Steps;
use std::sync::ledger::Ledger;

/// Closes those of the first boarders of a school who rank past a number and wait for a bed there.
/// The others are still the first ones: so many are answered. It ticks once for each wish that it
/// closes and once for each that becomes proposed, which is marked.
pub fn close_past<L: Ledger>(
    links: &mut SeatLinks<'_, '_>,
    front: &[RowWish],
    to: u32,
    bars: &[u32],
    marked: &mut Marks,
    steps: &mut Steps<L>,
) -> usize
    requires front { CanBeCut links.old bars.now to front.now }
    requires bars { length bars.now ≡ length links.old.state.dossier.schools }
    requires marked { length marked.old ≡ length links.old.state.dossier.wishes }
    ensures within { result ≤ length front.now }
    ensures cut { CutsAt to (row_in links.old.state front.now) links.old.opens
        (row_in links.old.state (take result front.now)) links.new.opens }
    ensures links { links.new ≡ record links.old { opens = links.new.opens } }
    ensures steps { steps.new + length (row_in links.old.state (take result front.now))
        ≡ steps.old + length (row_in links.old.state front.now) + count_by
        (is_new links.old.state bars.now links.old links.new)
        (enumerate_from 0 (entries links.old.state)) }
    ensures marked { MarksWishes links.old.state (is_new links.old.state bars.now links.old
        links.new) marked.old marked.new }
{
    let mut end = front.len();
    while end > 0 && front[end - 1].rank > to {
        end -= 1;
        let last = &front[end];
        if links.needs_bed(last) {
            steps.tick();
            links.close(last, bars, marked, steps);
        }
    }
    end
}
