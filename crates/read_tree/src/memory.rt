//! What a reading remembers while it goes on.

ghost use Rattle.std.specs.Prelude.{ℕ, Bool, ◌<◌, ◌↔◌, IsTrue, length};
ghost use Rattle.go_rules.specs.declared.Colour.{Colour};
ghost use Rattle.go_base.specs.Facts.{Fact};
ghost use Rattle.read_rules.specs.declared.tree.Tree.{Tree};
ghost use Rattle.read_tree.specs.Table.{IsTrueOf, IsTrueTable};

use crate::table::{AttackerNode, Entry, Verdict, find, keep};
use go_base::Point;

/// What a reading remembers while it goes on. No answer depends on it: it says which point is tried first, and which
/// nodes need not be read again.
#[derive(Drop)]
pub struct Memory<'a> {
    /// The attacker's play that last had its way; it is tried first if it is a point of the node.
    pub reply: Point,
    /// The attacker's nodes that were read, and what was found. An empty table remembers nothing.
    pub table: &'a mut [Entry],
}

impl Memory<'_> {
    /// Whether the table has room for nodes.
    pub fn has_room(&self) -> bool
        ensures { IsTrue result ↔ (0 < length self.now.table.now) }
    {
        !self.table.is_empty()
    }

    /// What the table knows of the node.
    pub fn find(&self, node: &AttackerNode) -> Verdict
        ensures { (seen : Fact → Bool) (tree : Tree) (target : ℕ) (defender : Colour)
            → IsTrueTable seen tree target defender self.now.table.now
            → IsTrueOf seen tree target defender node.now result }
    {
        if !self.has_room() {
            return Verdict::nothing();
        }
        find(self.table, node)
    }

    /// Remembers the verdict on the node, if the table has room.
    pub fn keep(&mut self, node: &AttackerNode, verdict: Verdict)
        ensures { (seen : Fact → Bool) (tree : Tree) (target : ℕ) (defender : Colour)
            → IsTrueTable seen tree target defender self.old.table.now
            → IsTrueOf seen tree target defender node.now verdict
            → IsTrueTable seen tree target defender self.new.table.now }
    {
        if self.has_room() {
            keep(self.table, node, verdict);
        }
    }
}
