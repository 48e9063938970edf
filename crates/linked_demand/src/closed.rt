//! Closing a wish by which its candidate may have a seat.
ghost use Rattle.std.specs.Prelude.{◌≡◌, ◌<◌, ◌&&◌, [], false, length, nat_lt, slice_index_or, slice_set};
ghost use Rattle.admit_core.specs.State.{is_live};
ghost use Rattle.day_state.specs.Bundles.{seat_bundle};
ghost use Rattle.day_state.specs.Kept.{has_seat_there, mark_in};
ghost use Rattle.linked_demand.specs.Wants.{stops_wanting};

use crate::claims::Claims;
use crate::cursors::Cursors;
use crate::open_wishes::OpenWishes;
use crate::rows::{RowWish, is_item_live};
use day_state::{BundleNumber, DayState};

/// Closes a wish of a claim. Whether its candidate, who is live in the programme or not, wanted a
/// seat before and wants none any more.
fn stops_by_closing(
    is_live: bool,
    claim: &[u32],
    bundle: BundleNumber,
    cursors: &mut Cursors,
    opens: &mut OpenWishes,
    wish: u32,
) -> bool
    requires { wish < length opens.old }
    ensures opens { opens.new ≡ slice_set opens.old wish false }
    ensures stops { result ≡ stops_wanting is_live opens.old opens.new claim.now }
{
    let wanted = cursors.wants_seat(is_live, opens, bundle, claim);
    opens.close(wish);
    let wants = cursors.wants_seat(is_live, opens, bundle, claim);
    wanted && !wants
}

/// Closes a wish of a row, in whose programme so many places are reached. Whether its candidate is
/// reached and wants no seat any more: one who is not reached is not asked.
pub fn leaves_by_closing(
    state: &DayState<'_>,
    claims: &Claims,
    cursors: &mut Cursors,
    opens: &mut OpenWishes,
    item: &RowWish,
    reached: usize,
) -> bool
    requires wish { item.now.wish < length state.now.dossier.wishes }
    requires opens { length opens.old ≡ length state.now.dossier.wishes }
    requires place { item.now.place < length claims.now }
    requires waits { is_live (mark_in state.now.marks item.now.wish) ≡ false }
    requires bundle { item.now.bundle ≡ seat_bundle state.now.dossier item.now.wish }
    ensures opens { opens.new ≡ slice_set opens.old item.now.wish false }
    ensures leaves { result ≡ (nat_lt item.now.place reached
        && stops_wanting (has_seat_there state.now item.now.wish) opens.old opens.new
        (slice_index_or claims.now item.now.place [])) }
{
    let place = item.place as usize;
    if place < reached {
        let claim = claims.at(place);
        let is_live = is_item_live(state, item);
        return stops_by_closing(is_live, claim, item.bundle, cursors, opens, item.wish);
    }
    opens.close(item.wish);
    false
}
