//! The programmes of a dossier, and their call orders.
ghost use Rattle.std.specs.Prelude.{◌≡◌, ℕ, ◌<◌, length};
ghost use Rattle.admit_core.specs.CallOrder.{AreCallOrders};
ghost use Rattle.admit_core.specs.DossierRows.{limit_of};
ghost use Rattle.admit_core.specs.Proposals.{order_of};
ghost use Rattle.day_state.specs.Kept.{wish_in};
ghost use Rattle.proposals.specs.Called.{AreCalled};

use admit_core::CallOrders;
use day_state::DayState;

/// The call orders of a dossier's groups call every candidate who has a wish. The call does
/// nothing.
pub fn call_everyone(state: &DayState<'_>, orders: &CallOrders)
    requires { AreCallOrders state.now.dossier.groups orders.now.orders }
    ensures { AreCalled state.now.dossier orders.now.orders }
{
    let dossier = state.dossier();
    let _ = &dossier.wishes; // learns the invariant
}

/// The call order of a programme.
pub fn order_of<'o>(state: &DayState<'_>, orders: &'o CallOrders, programme: u32) -> &'o [u32]
    requires programme { programme < length state.now.dossier.programmes }
    requires orders { length orders.now.orders ≡ length state.now.dossier.groups }
    ensures { result.now ≡ order_of state.now.dossier orders.now.orders programme }
{
    let dossier = state.dossier();
    let group = dossier.programmes.as_slice()[programme as usize].group;
    let order = &orders.orders.as_slice()[group as usize];
    order.list.as_slice()
}

/// The call limit of a programme, a position in its call order; 0 is none.
pub fn limit_of(state: &DayState<'_>, programme: u32) -> u32
    requires { programme < length state.now.dossier.programmes }
    ensures { result ≡ limit_of state.now.dossier programme }
{
    let dossier = state.dossier();
    dossier.programmes.as_slice()[programme as usize].limit
}

/// The number of programmes. Each wish is for one of them.
pub fn programme_count(state: &DayState<'_>) -> u32
    ensures count { result ≡ length state.now.dossier.programmes }
    ensures each { (k : ℕ) → k < length state.now.dossier.wishes
        → (wish_in state.now.dossier.wishes k).programme < result }
{
    let dossier = state.dossier();
    dossier.programmes.len() as u32
}
