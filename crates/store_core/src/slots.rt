//! The slot of a volume by its number.
ghost use Rattle.std.specs.Prelude.{◌≡◌, ◌==◌, ℕ, None, if◌then◌else◌, option_map};
ghost use Rattle.std.specs.Ordering.{nat_cmp};
ghost use Rattle.std.specs.BTreeMap.{get};
ghost use Rattle.store_core.specs.Slots.{unreadable, with_seal};

use crate::slot::Slot;
use std::collections::BTreeMap;
use world_model::types::Refusal;

/// Why no line on the volume is answered, whatever it asks.
pub(crate) fn unreadable(slots: &BTreeMap<u32, Slot>, volume: u32) -> Option<Refusal>
    ensures { result ≡ unreadable (get nat_cmp slots.now volume) }
{
    match slots.get(&volume) {
        None => Some(Refusal::NoVolume),
        Some(slot) => slot.unreadable(),
    }
}

/// Marks a plain volume as sealed or not.
pub(crate) fn seal(slots: &mut BTreeMap<u32, Slot>, volume: u32, seal: bool)
    requires { unreadable (get nat_cmp slots.old volume) ≡ None }
    ensures { (v : ℕ) → get nat_cmp slots.new v
        ≡ (if v == volume then option_map (with_seal seal) (get nat_cmp slots.old v) else get nat_cmp
        slots.old v) }
{
    match slots.get_mut(&volume) {
        Some(slot) => slot.seal(seal),
        None => unreachable!(),
    }
}
