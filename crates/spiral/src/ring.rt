//! The rings of the spiral, and the places of offsets in them.
ghost use Rattle.std.specs.Prelude.{◌≡◌, ◌+◌, ◌*◌, ◌<◌, ◌≤◌, pos, ◌-ℤ◌, ◌-◌};
ghost use Rattle.go_rules.specs.Board.{largest_size};
ghost use Rattle.go_rules.specs.Transform.{IsNear, largest_offset};
ghost use Rattle.spiral.specs.Spiral.{offset_count, square_side, ring_start as start_of, ring_place as offset_in};
ghost use Rattle.spiral.specs.Spiral.{ring_up_to, offset_at, place_in};

use go_base::size::MAX_OFFSET;

/// The number of the outermost ring.
pub const LAST_RING: u16 = MAX_OFFSET as u16;

/// The index of the first offset of ring `k`.
pub fn ring_start(k: u16) -> u16
    requires { k < largest_size }
    ensures { result ≡ start_of k }
{
    if k == 0 {
        return 0;
    }
    (2 * (k - 1) + 1) * (2 * (k - 1) + 1)
}

/// The ring that has the offset with an index.
pub fn ring_with(index: u16) -> u16
    requires { index < offset_count }
    ensures value { result ≡ ring_up_to largest_offset index }
    ensures bound { result < largest_size }
    ensures begun { start_of result ≤ index }
    ensures open { index < start_of result + 8 * result + 1 }
{
    let mut k = LAST_RING;
    while ring_start(k) > index {
        k -= 1;
    }
    k
}

/// The offset at place `j` of ring `k`.
pub fn in_ring(k: u16, j: u16) -> (i8, i8)
    requires ring { k < largest_size }
    requires place { j < 8 * k + 1 }
    ensures value { result ≡ offset_in k j }
    ensures near { IsNear result }
{
    let k = k as i16;
    let j = j as i16;
    if j < 2 * k {
        (-k as i8, (j - k) as i8)
    } else if j < 4 * k {
        ((j - 3 * k) as i8, k as i8)
    } else if j < 6 * k {
        (k as i8, (5 * k - j) as i8)
    } else {
        ((7 * k - j) as i8, -k as i8)
    }
}

/// The place in ring `k` of the offset `a` rows below and `b` columns right of the first offset of the ring.
fn place_in_ring(k: u16, a: u16, b: u16) -> u16
    requires ring { k < largest_size }
    requires row { a ≤ 2 * k }
    requires column { b ≤ 2 * k }
    ensures value { result ≡ place_in k a b }
    ensures bound { result ≤ 8 * k }
{
    if a == 0 {
        b
    } else if b == 2 * k {
        2 * k + a
    } else if a == 2 * k {
        6 * k - b
    } else {
        8 * k - a
    }
}

/// How far the row or column `strip` is from the middle one.
fn from_middle(strip: u16) -> u16
    requires { strip < square_side }
    ensures { result ≡ (strip - largest_offset) + (largest_offset - strip) }
{
    if strip < LAST_RING {
        LAST_RING - strip
    } else {
        strip - LAST_RING
    }
}

/// The index of the offset in a row and a column of the square of all offsets.
pub fn index_in_square(row: u16, column: u16) -> u16
    requires row { row < square_side }
    requires column { column < square_side }
    ensures value { offset_at result ≡ (pos row -ℤ pos largest_offset, pos column -ℤ pos largest_offset) }
    ensures bound { result < offset_count }
{
    let k = from_middle(row).max(from_middle(column));
    ring_start(k) + place_in_ring(k, row + k - LAST_RING, column + k - LAST_RING)
}
