//! The trait of loaders: contents are found by their names.
ghost use Rattle.std.specs.Prelude.{◌≡◌, ◌<◌, List, Option, ℕ, IfOk, OnOk, string_bytes, vec_len, vec_capacity};
ghost use Rattle.gtp_io.specs.Loading.{IsLoaded, missed_after};

use crate::LoadError;
use std::alloc::AllocError;

/// A loader of contents by their names.
pub trait Loader {
    /// The contents under a name, if the loader tells them. No call changes them.
    ghost contents: { Self → List ℕ → Option (List ℕ) };

    /// The names of the calls that answered `Failed`, in order. The length of this list is the loader's count of
    /// faults.
    ghost missed: { Self → List (List ℕ) };

    /// Appends the contents under `name` to the bytes of `into`, and returns all of them.
    ///
    /// A load that answers `Failed` appends `name` to the missed names, and no other load does. Every loader may answer
    /// `NoMemory` at any call.
    fn load(&mut self, name: &str, into: Vec<u8>) -> Result<Vec<u8>, LoadError>
        ensures loaded { IfOk result (λ bytes. IsLoaded (contents self.old name.now) into.items bytes.items) }
        ensures missed { missed self.new ≡ missed_after (missed self.old) name.now result }
        ensures same { contents self.new ≡ contents self.old };
}

/// Makes room for one more name in `missed`, and returns the copy of `name` that is to stand there.
pub(crate) fn place_for(missed: &mut Vec<String>, name: &str) -> Result<String, AllocError>
    ensures name { IfOk result (λ copy. string_bytes copy ≡ name.now) }
    ensures place { OnOk result (vec_len missed.new < vec_capacity missed.new) }
    ensures same { missed.new.items ≡ missed.old.items }
{
    missed.reserve(1)?;
    String::from_str(*missed.allocator(), name)
}
