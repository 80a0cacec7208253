//! Floors compared with what legal sequences cost at the least.

ghost use Rattle.std.specs.Prelude.{◌↔◌, IsTrue};
ghost use Rattle.plain_bounds.specs.Floors.{IsTooHigh};

/// Whether a floor is above the least cost. None stands above each cost as a floor; as a least cost it means that no sequence
/// is legal, so that any floor will do.
pub fn is_too_high(floor: Option<u32>, least: Option<u32>) -> bool
    ensures { IsTrue result ↔ IsTooHigh floor least }
{
    let Some(lowest) = least else {
        return false;
    };
    let Some(height) = floor else {
        return true;
    };
    height > lowest
}
