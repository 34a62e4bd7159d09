//! Questions to a board between its moves. The strings of the board are kept, so no answer searches for a string, and
//! none takes memory.

ghost use Rattle.std.specs.Prelude.{◌≡◌};
ghost use Rattle.go_rules.specs.Play.{legal_points};
ghost use Rattle.go_strings.specs.Games.{reached};

use crate::board::StringBoard;
use go_base::Colour;
use go_base::points::PointSet;

impl StringBoard {
    /// The points where `c` may play.
    pub fn legal_points(&self, c: Colour) -> PointSet
        ensures { result ≡ legal_points (reached self.now) c }
    {
        let mut found = PointSet::new();
        for p in 0..self.size().points() {
            if self.is_legal(c, p) {
                found.add(p);
            }
        }
        found
    }
}
