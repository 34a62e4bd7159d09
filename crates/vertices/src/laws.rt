//! What the definitions of specs/ mean together. The function is a law: its contract is what is proved, and it does
//! nothing.

ghost use Rattle.std.specs.Prelude.{◌≡◌, ℕ, ◌*◌, ◌<◌, Some};
ghost use Rattle.go_rules.specs.Board.{IsSize};
ghost use Rattle.vertices.specs.Vertices.{vertex_of, vertex_text};

/// The vertex that is printed for a point of a board is read as that point.
pub fn vertices_are_read_back()
    ensures { (s p : ℕ) → IsSize s → p < s * s → vertex_of s (vertex_text s p) ≡ Some p }
{}
