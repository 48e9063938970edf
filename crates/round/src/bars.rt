//! The bars of a system, as a list.
ghost use Rattle.std.specs.Prelude.{◌≡◌, [], IfOk, IsOk};

use admit_core::OutOfMemory;
use bar_fixpoint::Falling;
use std::alloc::Global;

/// The present bars of all places.
pub fn bars_of<F: Falling>(alloc: Global, system: &F) -> Result<Vec<u32>, OutOfMemory>
    ensures bars { IfOk result (λ bars. bars.items ≡ F.bars system.now) }
    ensures always { F.bars system.now ≡ [] → IsOk result }
{
    let mut bars = Vec::new(alloc);
    for i in 0..system.count() {
        bars.push(system.bar(i))?;
    }
    Ok(bars)
}
