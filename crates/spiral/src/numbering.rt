//! The numbers of offsets along the spiral.
ghost use Rattle.std.specs.Prelude.{◌≡◌, ℕ, ◌+◌, ◌<◌};
ghost use Rattle.go_rules.specs.Transform.{IsNear};
ghost use Rattle.spiral.specs.Spiral.{offset_count, offset_at};

use crate::ring::{LAST_RING, in_ring, index_in_square, ring_start, ring_with};

/// How many offsets there are. Both parts of an offset are from -24 to 24.
pub const OFFSETS: u16 = (2 * LAST_RING + 1) * (2 * LAST_RING + 1);

/// The offset with an index: how many rows down and how many columns to the right it leads. A negative number leads the
/// other way.
pub fn offset(index: u16) -> (i8, i8)
    requires { index < offset_count }
    ensures value { result ≡ offset_at index }
    ensures near { IsNear result }
{
    let k = ring_with(index);
    in_ring(k, index - ring_start(k))
}

/// The offset after (`dr`, `dc`) along the spiral. After the last offset comes the first offset of the ring beyond it.
pub fn following(dr: i8, dc: i8) -> (i8, i8)
    requires { IsNear (dr, dc) }
    ensures { (i : ℕ) → i + 1 < offset_count → offset_at i ≡ (dr, dc) → result ≡ offset_at (i + 1) }
{
    if dr + dc < 0 && dr <= dc {
        (dr, dc + 1)
    } else if dr < dc {
        (dr + 1, dc)
    } else if dr + dc > 0 {
        (dr, dc - 1)
    } else if dr > dc + 1 {
        (dr - 1, dc)
    } else {
        (dc - 1, dc - 1)
    }
}

/// The index along the spiral of the offset of `dr` rows down and `dc` columns to the right.
pub fn index(dr: i8, dc: i8) -> u16
    requires { IsNear (dr, dc) }
    ensures value { offset_at result ≡ (dr, dc) }
    ensures bound { result < offset_count }
{
    index_in_square(
        (dr as i16 + LAST_RING as i16) as u16,
        (dc as i16 + LAST_RING as i16) as u16,
    )
}
