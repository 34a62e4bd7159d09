//! A list of helpers, which are asked by name.

ghost use Rattle.std.specs.Prelude.{⊤, ◌≡◌, ◌<◌, ◌*◌, true, Some, map, length, option_map, is_some, IfOk, IfSome};
ghost use Rattle.std.specs.List.{position_from};
ghost use Rattle.helpers.specs.HelperStates.{has_name, named, slot_says, slot_asked, says_yes, calls_of, after_asking};
ghost use Rattle.helpers.specs.HelperStates.{after_off, after_remove};
ghost use Rattle.helpers.specs.Slots.{slot_state, listed};

use crate::Helper;
use go_base::{Bytes, Colour, NoMemory, Point, Position};
use std::alloc::{AllocError, Global};

/// A place in a list of helpers.
#[derive(Drop)]
pub struct HelperSlot {
    /// The helper at this place.
    pub helper: Box<dyn Helper>,
    /// Whether the helper is on. A helper that is off is not asked, and counts as one that says no.
    pub on: bool,
}

impl HelperSlot {
    /// The name of the helper at this place.
    fn name(&self) -> &str
        ensures { result.now ≡ (slot_state state self.now).helper.name }
    {
        self.helper.name()
    }

    /// Whether the helper at this place is called `name`.
    fn has_name(&self, name: &[u8]) -> bool
        ensures { result ≡ has_name name.now (slot_state state self.now) }
    {
        self.helper.name().as_bytes() == name
    }

    /// How often the helper at this place was asked.
    fn calls(&self) -> u64
        ensures { result ≡ (slot_state state self.now).helper.calls }
    {
        self.helper.calls()
    }

    /// What the helper at this place says of a play of `friend` at `at`; no if it is off.
    fn decide(&mut self, pos: &Position, at: Point, friend: Colour) -> bool
        requires { at < pos.now.size * pos.now.size }
        ensures answer { result ≡ slot_says (Some (slot_state state self.old)) pos.now at friend }
        ensures after { slot_state state self.new ≡ slot_asked (slot_state state self.old) }
    {
        self.on && self.helper.decide(pos, at, friend)
    }
}

/// A copy of some bytes. Takes memory.
fn copied(alloc: Global, bytes: &[u8]) -> Result<Bytes, NoMemory>
    ensures { IfOk result (λ copy. copy ≡ bytes.now) }
{
    let mut copy = Bytes::new(alloc);
    copy.extend(bytes)?;
    Ok(copy)
}

/// A list of helpers. Each is asked by its name; if two share a name, the first is meant.
#[derive(Drop)]
pub struct Helpers {
    /// The helpers in order.
    pub slots: Vec<HelperSlot>,
}

impl Helpers {
    /// A list with one place for each helper in `list`, in order, all switched on. Takes memory.
    ///
    /// The empty condition of this call and of `off` and `remove` says that these calls make no helper of their own, so
    /// the crates above are proved for whatever helpers they are given.
    pub fn new(alloc: Global, list: Vec<Box<dyn Helper>>) -> Result<Helpers, NoMemory>
        requires { ⊤ }
        ensures slots { IfOk result
            (λ helpers. helpers.slots.items ≡ map (λ b. record { helper = b; on = true }) list.items) }
        ensures states { IfOk result
            (λ helpers. listed state helpers ≡ map (λ b. record { helper = state b; on = true }) list.items) }
    {
        match Helpers::all_on(alloc, list) {
            Ok(helpers) => Ok(helpers),
            Err(_) => Err(NoMemory),
        }
    }

    /// The helpers in `list`, each switched on, or the error of the allocator.
    fn all_on(alloc: Global, list: Vec<Box<dyn Helper>>) -> Result<Helpers, AllocError>
        ensures { IfOk result
            (λ helpers. helpers.slots.items ≡ map (λ b. record { helper = b; on = true }) list.items) }
    {
        let mut slots = Vec::new(alloc);
        for helper in list {
            slots.push(HelperSlot { helper, on: true })?;
        }
        Ok(Helpers { slots })
    }

    /// The names of the helpers, in order. Takes memory.
    pub fn names(&self, alloc: Global) -> Result<Vec<Bytes>, NoMemory>
        ensures { IfOk result (λ names. names.items ≡ map (λ s. s.helper.name) (listed state self.now)) }
    {
        let mut names = Vec::new(alloc);
        for slot in &self.slots {
            names.push(copied(alloc, slot.name().as_bytes())?)?;
        }
        Ok(names)
    }

    /// The index of the first helper called `name`, or `None` if there is none.
    fn place(&self, name: &[u8]) -> Option<usize>
        ensures bound { IfSome result (λ i. i < length self.now.slots.items) }
        ensures first { result ≡ position_from (has_name name.now) 0 (listed state self.now) }
    {
        for (i, slot) in self.slots.iter().enumerate() {
            if slot.has_name(name) {
                return Some(i);
            }
        }
        None
    }

    /// How often the helper called `name` was asked; `None` exactly if no helper has this name.
    pub fn calls(&self, name: &[u8]) -> Option<u64>
        ensures { result ≡ calls_of name.now (listed state self.now) }
    {
        let place = self.place(name)?;
        Some(self.slots[place].calls())
    }

    /// Switches off the helper called `name`. Returns false exactly if no helper has this name.
    pub fn off(&mut self, name: &[u8]) -> bool
        requires { ⊤ }
        ensures found { result ≡ is_some (named name.now (listed state self.old)) }
        ensures after { listed state self.new ≡ after_off name.now (listed state self.old) }
    {
        match self.place(name) {
            Some(place) => {
                self.slots[place].on = false;
                true
            }
            None => false,
        }
    }

    /// Takes the helper called `name` out of the list. Returns `None` exactly if no helper has this name.
    pub fn remove(&mut self, name: &[u8]) -> Option<Box<dyn Helper>>
        requires { ⊤ }
        ensures found { option_map state result ≡ option_map (λ s. s.helper) (named name.now (listed state self.old)) }
        ensures after { listed state self.new ≡ after_remove name.now (listed state self.old) }
    {
        let place = self.place(name)?;
        let slot = self.slots.remove(place);
        Some(slot.helper)
    }

    /// What the helper called `name` says of a play of `friend` at `at`. If no helper has this name, or the helper is
    /// off, the answer is no and nothing is called.
    pub fn decide(&mut self, name: &[u8], pos: &Position, at: Point, friend: Colour) -> bool
        requires { at < pos.now.size * pos.now.size }
        ensures answer { result ≡ says_yes (listed state self.old) name.now pos.now at friend }
        ensures after { listed state self.new ≡ after_asking name.now (listed state self.old) }
    {
        match self.place(name) {
            Some(place) => self.slots[place].decide(pos, at, friend),
            None => false,
        }
    }
}
