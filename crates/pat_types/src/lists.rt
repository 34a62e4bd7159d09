//! The lists that a pattern keeps, each seen as the list of its elements, in order.

ghost use Rattle.std.specs.Prelude.{◌≡◌, [], ◌∷◌, ◌++◌, OnOk, OnErr};

use crate::expr::Arg;
use crate::letter::Letter;
use crate::pattern::{Item, LabelAt};
use go_base::NoMemory;
use std::alloc::Global;
use std::marker::Model;

/// The letters of a diagram, in reading order.
pub type Letters = ListOf<Letter>;

/// The helpers that a pattern names.
pub type Items = ListOf<Item>;

/// The labels of a constraint diagram.
pub type Labels = ListOf<LabelAt>;

/// The arguments of a call.
pub type Args = ListOf<Arg>;

/// Elements in order, in the allocator that `new` was given. `push` alone takes memory.
#[derive(Debug, Drop)]
pub struct ListOf<T> {
    items: Vec<T>,
}

impl<T> Model for ListOf<T> {
    ghost use Rattle.std.specs.Prelude.{List};

    ghost Value = { List T };

    ghost view = { λ s. s.items.items };
}

impl<T> ListOf<T> {
    /// The empty list. It keeps the allocator and takes no memory.
    pub fn new(alloc: Global) -> ListOf<T>
        ensures { result ≡ [] }
    {
        ListOf {
            items: Vec::new(alloc),
        }
    }

    /// The elements in order.
    pub fn as_slice(&self) -> &[T]
        ensures { result.now ≡ self.now }
    {
        self.items.as_slice()
    }
}

impl<T: Drop> ListOf<T> {
    /// Puts an element at the end. After an `Err` the list is unchanged.
    pub fn push(&mut self, x: T) -> Result<(), NoMemory>
        ensures ok { OnOk result (self.new ≡ self.old ++ x ∷ []) }
        ensures err { OnErr result (self.new ≡ self.old) }
    {
        match self.items.push(x) {
            Ok(()) => Ok(()),
            Err(_) => Err(NoMemory),
        }
    }
}
