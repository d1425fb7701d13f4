//! The test of the weight of a project.

ghost use Rattle.std.specs.Prelude.{◌≡◌, ◌⊎◌, IfErr, OnOk, None, Some};
ghost use Rattle.rw_tree.specs.Accepting.{full};

use rw_nodes::parts::Parts;
use rw_refusals::refusal::EditRefusal;
use rw_sites::weight::parts_weight;
use std::alloc::Global;

/// Refuses a project that weighs more than it may.
#[tactic(auto, unfolding(crate::specs::Accepting::full))]
pub fn within_weight(alloc: Global, parts: &Parts) -> Result<(), EditRefusal>
    ensures ok { OnOk result (full parts.now ≡ None) }
    ensures err { IfErr result (λ e. (e ≡ EditRefusal.Memory) ⊎ (full parts.now ≡ Some e)) }
{
    match parts_weight(alloc, parts) {
        Ok(weight) => {
            if weight > u64::from(parts.most) {
                return Err(EditRefusal::Full(weight));
            }
            Ok(())
        }
        Err(_) => Err(EditRefusal::Memory),
    }
}
