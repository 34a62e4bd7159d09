//! The depths of a reading as numbers of a caller.

ghost use Rattle.std.specs.Prelude.{◌≡◌, IfSome, is_some};
ghost use Rattle.board_doors.specs.Doors.{are_depths, tree_named, AreDepthsOf};

use read_rules::{Depths, Tree};

/// How deep a reading goes, as a caller says it. The layout is that of C, and each field may hold any number.
#[repr(C)]
#[derive(Clone, Copy)]
pub struct DepthBytes {
    /// How many moves may follow one another, passes included: 1 to 200.
    pub plies: u8,
    /// In how many of the first plies more moves are tried than the liberties of the strings: 0 to 12.
    pub wide: u8,
    /// Which tree is read: 0 is the stated one, 1 the wider one.
    pub tree: u8,
}

/// The number of the wider tree, the greatest number of a tree; the stated tree has number 0.
const WIDER: u8 = 1;

/// The tree with this number.
fn tree_named(tree: u8) -> Tree
    ensures { result ≡ tree_named tree }
{
    if tree == 0 { Tree::Stated } else { Tree::Wider }
}

/// The depths that the numbers name; `None` if one of them is out of its range.
pub fn depths_of(depths: DepthBytes) -> Option<Depths>
    ensures named { is_some result ≡ are_depths depths }
    ensures value { IfSome result (λ found. AreDepthsOf found depths) }
{
    let Some(stated) = Depths::new(depths.plies, depths.wide) else {
        return None;
    };
    if depths.tree > WIDER {
        return None;
    }
    Some(stated.in_tree(tree_named(depths.tree)))
}
