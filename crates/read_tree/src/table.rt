//! What a reading remembers of the attacker's nodes, so that it does not read a node again that other plays lead to.
//! The table is an array, takes no memory from an allocator, and lives for one reading.

ghost use Rattle.std.specs.Prelude.{◌≡◌, ℕ, Bool, true, ◌<◌, length, replicate};
ghost use Rattle.go_rules.specs.declared.Colour.{Colour};
ghost use Rattle.go_base.specs.Facts.{Fact};
ghost use Rattle.read_rules.specs.declared.tree.Tree.{Tree};
ghost use Rattle.read_tree.specs.declared.table.AttackerNode.{AttackerNode};
ghost use Rattle.read_tree.specs.Allowances.{both, either};
ghost use Rattle.read_tree.specs.Table.{IsTrueOf, IsTrueEntry, IsTrueTable};
ghost use Rattle.read_tree.specs.KnownPlies.{IsMonotone, IsTrueKnown};

use crate::allowances::Allowances;
use crate::known_plies::KnownPlies;
use go_base::bits::WORDS;
use go_base::{Colour, Point};
use trial_board::Changes;

/// How many nodes a table remembers at most.
pub const ENTRIES: usize = 4096;

/// How many nodes a smaller table remembers at most. A question in the stated tree is read with a smaller table: that
/// tree has fewer nodes, and making a larger table takes longer than most of its readings.
pub const FEWER_ENTRIES: usize = 1024;

/// How many places a node may have. If they all hold other nodes, the node that was read with the fewest plies is
/// replaced.
const PLACES: usize = 4;

/// A node at the attacker's turn, described by what the trial moves changed of the position that is read. Its tree,
/// target and defender are those of the reading.
#[derive(Clone, Copy, Debug, PartialEq, Eq)]
pub struct AttackerNode {
    /// What the trial moves changed; the ban is part of it.
    pub changes: Changes,
    /// How many plies are left after the attacker's play.
    pub plies: u8,
    /// How many wide plies are left.
    pub wide: u8,
}

/// What is known of an attacker's node.
#[derive(Clone, Copy, Debug, PartialEq, Eq)]
pub struct Verdict {
    /// The allowances under which it is known whether the attacker has his way.
    pub known: Allowances,
    /// The allowances under which he has his way; only those that are also in `known` count.
    pub good: Allowances,
}

/// What is remembered of an attacker's node, for any number of plies left.
#[derive(Clone, Copy, Debug, PartialEq, Eq)]
pub struct Entry {
    /// What the trial moves changed.
    pub changes: Changes,
    /// How many wide plies are left.
    pub wide: u8,
    /// What is known if the defender may ignore the ban.
    pub defender: KnownPlies,
    /// What is known if neither side may ignore the ban.
    pub neither: KnownPlies,
    /// What is known if the attacker may ignore the ban.
    pub attacker: KnownPlies,
}

impl Verdict {
    /// A verdict that knows nothing.
    pub fn nothing() -> Verdict
        ensures { (seen : Fact → Bool) (tree : Tree) (target : ℕ) (defender : Colour) (node : AttackerNode)
            → IsTrueOf seen tree target defender node result }
    {
        Verdict {
            known: Allowances::none(),
            good: Allowances::none(),
        }
    }

    /// This verdict, and what was found for the allowances `missing`: the attacker has his way under those in `found`.
    pub fn with(self, missing: Allowances, found: Allowances) -> Verdict
        ensures { result ≡ record {
          known = either self.known missing;
          good = either (both self.known self.good) found;
        } }
    {
        Verdict {
            known: self.known.either(missing),
            good: self.known.both(self.good).either(found),
        }
    }
}

impl Entry {
    /// An entry of the node that knows nothing.
    fn nothing_of(node: &AttackerNode) -> Entry
        ensures changes { result.changes ≡ node.now.changes }
        ensures wide { result.wide ≡ node.now.wide }
        ensures holds { (seen : Fact → Bool) (tree : Tree) (target : ℕ) (defender : Colour)
            → IsTrueEntry seen tree target defender result }
    {
        Entry {
            changes: node.changes,
            wide: node.wide,
            defender: KnownPlies::nothing(),
            neither: KnownPlies::nothing(),
            attacker: KnownPlies::nothing(),
        }
    }

    /// Whether the entry is about the node.
    fn is_of(&self, node: &AttackerNode) -> bool
        ensures { result ≡ true → (self.now.changes ≡ node.now.changes) × (self.now.wide ≡ node.now.wide) }
    {
        self.wide == node.wide && self.changes == node.changes
    }

    /// What the entry knows with `plies` plies left.
    fn with_plies(&self, plies: u8) -> Verdict
        ensures { (seen : Fact → Bool) (tree : Tree) (target : ℕ) (defender : Colour)
            → IsTrueEntry seen tree target defender self.now
            → IsTrueOf seen tree target defender
            (record { changes = self.now.changes; plies = plies; wide = self.now.wide }) result }
    {
        Verdict {
            known: Allowances {
                defender: self.defender.is_known(plies),
                neither: self.neither.is_known(plies),
                attacker: self.attacker.is_known(plies),
            },
            good: Allowances {
                defender: self.defender.is_won(plies),
                neither: self.neither.is_won(plies),
                attacker: self.attacker.is_won(plies),
            },
        }
    }

    /// This entry, and what `verdict` says with `plies` plies left.
    fn with(&self, plies: u8, verdict: Verdict) -> Entry
        ensures { (seen : Fact → Bool) (tree : Tree) (target : ℕ) (defender : Colour)
            → IsTrueEntry seen tree target defender self.now
            → IsTrueOf seen tree target defender
            (record { changes = self.now.changes; plies = plies; wide = self.now.wide }) verdict
            → IsTrueEntry seen tree target defender result }
    {
        let known = verdict.known;
        let good = verdict.good;
        Entry {
            changes: self.changes,
            wide: self.wide,
            defender: learnt(self.defender, plies, known.defender, good.defender),
            neither: learnt(self.neither, plies, known.neither, good.neither),
            attacker: learnt(self.attacker, plies, known.attacker, good.attacker),
        }
    }

    /// How many plies the knowledge of the entry reaches: the more, the longer it took to find.
    fn depth(&self) -> u8 {
        self.defender
            .depth()
            .max(self.neither.depth())
            .max(self.attacker.depth())
    }
}

/// What is known after a reading with `plies` plies. If it was `found`, `good` says whether the attacker has his way;
/// else nothing new is known.
fn learnt(before: KnownPlies, plies: u8, found: bool, good: bool) -> KnownPlies
    ensures { (won : ℕ → Bool) → IsMonotone won → IsTrueKnown won before → (found ≡ true → good ≡ won plies)
        → IsTrueKnown won result }
{
    if found {
        before.with(plies, good)
    } else {
        before
    }
}

/// A table that has `entry` in every place.
fn filled_with(entry: Entry) -> [Entry; ENTRIES]
    ensures { result ≡ replicate 4096 entry }
{
    [entry; ENTRIES]
}

/// A table that knows nothing of any node.
pub fn empty_table() -> [Entry; ENTRIES]
    ensures { (seen : Fact → Bool) (tree : Tree) (target : ℕ) (defender : Colour)
        → IsTrueTable seen tree target defender result }
{
    filled_with(Entry::nothing_of(&AttackerNode {
        changes: Changes::of_ban(None),
        plies: 0,
        wide: 0,
    }))
}

/// A smaller table that has `entry` in every place.
fn fewer_filled_with(entry: Entry) -> [Entry; FEWER_ENTRIES]
    ensures { result ≡ replicate 1024 entry }
{
    [entry; FEWER_ENTRIES]
}

/// A smaller table that knows nothing of any node.
pub fn smaller_table() -> [Entry; FEWER_ENTRIES]
    ensures { (seen : Fact → Bool) (tree : Tree) (target : ℕ) (defender : Colour)
        → IsTrueTable seen tree target defender result }
{
    fewer_filled_with(Entry::nothing_of(&AttackerNode {
        changes: Changes::of_ban(None),
        plies: 0,
        wide: 0,
    }))
}

/// Mixes one more word into a number.
fn mixed(number: u64, word: u64) -> u64 {
    (number.rotate_left(5) ^ word).wrapping_mul(0x517c_c1b7_2722_0a95)
}

/// A number that stands for the ban.
fn ban_word(ban: Option<(Point, Colour)>) -> u64 {
    match ban {
        None => 0,
        Some((p, Colour::Black)) => 1 + 2 * u64::from(p),
        Some((p, Colour::White)) => 2 + 2 * u64::from(p),
    }
}

/// The first of the node's places in a table of `entries` entries. It does not depend on the plies that are left.
fn first_place(node: &AttackerNode, entries: usize) -> usize
    requires { 0 < entries }
    ensures { result < entries }
{
    let mut number = mixed(u64::from(node.wide), ban_word(node.changes.ban));
    for i in 0..WORDS {
        number = mixed(mixed(number, node.changes.black[i]), node.changes.white[i]);
    }
    ((number ^ (number >> 32)) % entries as u64) as usize
}

/// The place of the node among its places: the place of its entry, or else of the entry that reaches the fewest plies.
fn place_of(table: &[Entry], node: &AttackerNode) -> usize
    requires { 0 < length table.now }
    ensures { result < length table.now }
{
    let first = first_place(node, table.len());
    let mut place = first;
    let mut depth = u8::MAX;
    'places: for i in first..table.len().min(first + PLACES) {
        let entry = &table[i];
        if entry.is_of(node) {
            return i;
        }
        let its = entry.depth();
        if its < depth {
            place = i;
            depth = its;
        }
    }
    place
}

/// What the table knows of the node: nothing, if none of its places has the node.
pub fn find(table: &[Entry], node: &AttackerNode) -> Verdict
    requires { 0 < length table.now }
    ensures { (seen : Fact → Bool) (tree : Tree) (target : ℕ) (defender : Colour)
        → IsTrueTable seen tree target defender table.now
        → IsTrueOf seen tree target defender node.now result }
{
    let entry = &table[place_of(table, node)];
    if entry.is_of(node) {
        entry.with_plies(node.plies)
    } else {
        Verdict::nothing()
    }
}

/// What the entry knows of the node: nothing, if it is about another node.
fn entry_of(entry: &Entry, node: &AttackerNode) -> Entry
    ensures changes { result.changes ≡ node.now.changes }
    ensures wide { result.wide ≡ node.now.wide }
    ensures holds { (seen : Fact → Bool) (tree : Tree) (target : ℕ) (defender : Colour)
        → IsTrueEntry seen tree target defender entry.now → IsTrueEntry seen tree target defender result }
{
    if entry.is_of(node) {
        *entry
    } else {
        Entry::nothing_of(node)
    }
}

/// Remembers the verdict on the node: together with what was known of the node before, or in the place of another node.
pub fn keep(table: &mut [Entry], node: &AttackerNode, verdict: Verdict)
    requires { 0 < length table.old }
    ensures { (seen : Fact → Bool) (tree : Tree) (target : ℕ) (defender : Colour)
        → IsTrueTable seen tree target defender table.old
        → IsTrueOf seen tree target defender node.now verdict → IsTrueTable seen tree target defender table.new }
{
    let place = place_of(table, node);
    let before = entry_of(&table[place], node);
    table[place] = before.with(node.plies, verdict);
}
