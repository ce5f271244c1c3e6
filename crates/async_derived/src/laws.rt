//! Laws of the definitions that the crate's contracts cite.
ghost use Rattle.std.specs.Prelude.{◌≡◌, ◌↔◌, Option, None, Some, true};
ghost use Rattle.values.specs.declared.code.Code.{Code as CodeValue};
ghost use Rattle.async_derived.specs.Loads.{is_key, after_poll, first_load};

use crate::loading::Polled;
use values::Code;

/// Two keys are told apart by their values.
pub fn keys_are_told_apart()
    ensures { (kept : Option CodeValue) (key : CodeValue) → (is_key kept key ≡ true) ↔ (kept ≡ Some key) }
{}

/// Worked rows: a load that waits, fails and arrives, and is then polled with another key.
pub fn a_load_is_polled()
    ensures waits { after_poll first_load (Code.Word 3) Polled.Waiting
        ≡ record { key = Some (Code.Word 3); arrived = None; asked = 1 } }
    ensures fails { after_poll (record { key = Some (Code.Word 3); arrived = None; asked = 1 }) (Code.Word 3) Polled.Failed
        ≡ record { key = Some (Code.Word 3); arrived = None; asked = 2 } }
    ensures arrives { after_poll (record { key = Some (Code.Word 3); arrived = None; asked = 2 }) (Code.Word 3) Polled.Arrived
        ≡ record { key = Some (Code.Word 3); arrived = Some (Code.Word 3); asked = 3 } }
    ensures stays { after_poll (record { key = Some (Code.Word 3); arrived = Some (Code.Word 3); asked = 3 }) (Code.Word 3) Polled.Arrived
        ≡ record { key = Some (Code.Word 3); arrived = Some (Code.Word 3); asked = 3 } }
    ensures turns { after_poll (record { key = Some (Code.Word 3); arrived = Some (Code.Word 3); asked = 3 }) (Code.Word 4) Polled.Waiting
        ≡ record { key = Some (Code.Word 4); arrived = None; asked = 1 } }
    ensures holds { after_poll (record { key = Some (Code.Word 3); arrived = None; asked = 4294967295 }) (Code.Word 3) Polled.Waiting
        ≡ record { key = Some (Code.Word 3); arrived = None; asked = 4294967295 } }
{}
