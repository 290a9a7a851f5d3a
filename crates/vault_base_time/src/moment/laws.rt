//! What holds of every moment, by a law that is the contract of a public function that does nothing.
ghost use Rattle.std.specs.Prelude.{◌≤◌};
ghost use Rattle.vault_base_time.specs.Days.{last_moment};

use crate::moment::Moment;

/// No moment is past the last one, 9999-12-31T23:59:59Z.
pub fn moment_is_in_range(at: Moment)
    ensures { at ≤ last_moment }
{
    let _seconds = at.secs();
}
