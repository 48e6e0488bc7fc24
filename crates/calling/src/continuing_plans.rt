//! Calling `continuing`: whether a plan goes on from another.
ghost use Rattle.std.specs.Prelude.{◌↔◌, IsTrue};
ghost use Rattle.continuing.specs.Continuing.{Continues};

use continuing::continues;
use plan::Plan;

/// Whether robots that drive the old plan may be given the new one, which begins as that does.
pub fn goes_on(old: &Plan, new: &Plan) -> bool
    ensures { IsTrue result ↔ Continues old.now new.now }
{
    continuing::laws::one_answer();
    continues(old, new).is_ok()
}
