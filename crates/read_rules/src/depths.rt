//! How deep a reading goes, and in which tree.

ghost use Rattle.std.specs.Prelude.{◌≡◌, ◌≤◌, ◌↔◌, IsSome, IfSome};
ghost use Rattle.read_rules.specs.Ranges.{least_plies, most_plies, most_wide, AreDepths};

use crate::tree::Tree;

/// The least number of plies of a reading.
pub const MIN_PLIES: u8 = 1;

/// The greatest number of plies of a reading.
pub const MAX_PLIES: u8 = 200;

/// The greatest number of wide plies of a reading; the least is 0.
pub const MAX_WIDE: u8 = 12;

/// How deep a reading goes: the plies from the question to the end of the tree, the wide plies at its beginning, each
/// number in its range, and which of the two trees is read.
#[derive(Clone, Copy, Debug, PartialEq, Eq)]
pub struct Depths {
    /// Which tree is read.
    pub tree: Tree,
    /// How many moves may follow on one another; a pass counts as a move.
    pub plies: u8,
    /// How many of the first plies are wide: in a wide ply more candidates are tried.
    pub wide: u8,
    ghost some_plies: { least_plies ≤ plies },
    ghost few_plies: { plies ≤ most_plies },
    ghost few_wide: { wide ≤ most_wide },
}

impl Depths {
    /// These depths in the stated tree, or `None` if `plies` or `wide` is out of its range.
    pub fn new(plies: u8, wide: u8) -> Option<Depths>
        ensures valid { IsSome result ↔ AreDepths plies wide }
        ensures value { IfSome result (λ depths. (depths.plies ≡ plies) × (depths.wide ≡ wide)
            × (depths.tree ≡ Tree.Stated)) }
    {
        if plies < MIN_PLIES || plies > MAX_PLIES || wide > MAX_WIDE {
            return None;
        }
        Some(Depths {
            tree: Tree::Stated,
            plies,
            wide,
        })
    }

    /// The same depths in `tree`.
    pub fn in_tree(self, tree: Tree) -> Depths
        ensures tree { result.tree ≡ tree }
        ensures depths { (result.plies ≡ self.plies) × (result.wide ≡ self.wide) }
    {
        Depths {
            tree,
            plies: self.plies,
            wide: self.wide,
        }
    }
}
