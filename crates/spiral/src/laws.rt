//! What the numbers of offsets mean. Each function is a law: its contract is what is proved, and it does nothing.

ghost use Rattle.std.specs.Prelude.{◌≡◌, ℕ, ◌<◌};
ghost use Rattle.go_rules.specs.Transform.{IsNear};
ghost use Rattle.spiral.specs.Spiral.{offset_count, offset_at};

/// Different indices have different offsets, and each index below `OFFSETS` has an offset with both parts from -24 to
/// 24.
pub fn offsets_differ()
    ensures differ { (i j : ℕ) → i < offset_count → j < offset_count → offset_at i ≡ offset_at j → i ≡ j }
    ensures near { (i : ℕ) → i < offset_count → IsNear (offset_at i) }
{}
