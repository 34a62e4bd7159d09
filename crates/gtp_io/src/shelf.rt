//! Loaders of contents in memory.
ghost use Rattle.std.specs.Prelude.{◌≡◌, ◌≢◌, ◌⊎◌, ◌++◌, ◌<◌, [], None, Some, Err, map, length, Contains};
ghost use Rattle.std.specs.Prelude.{IfOk, OnOk, IsErrOf, IfSome, IsSome, IsSomeAnd, MatchBool, slice_get};
ghost use Rattle.std.specs.Prelude.{option_and_then, string_bytes, vec_len, unwrap_or};
ghost use Rattle.gtp_io.specs.Loading.{IsLoaded, missed_after, named};
ghost use Rattle.gtp_io.specs.Memory.{ShelfState, SureShelfState, next_call};

use crate::loader::place_for;
use crate::{LoadError, Loader};
use std::alloc::AllocError;
use std::marker::Model;

/// A loader that holds contents by name. It fails at the calls that a list names, and for every name that it does not
/// hold.
#[derive(Drop)]
pub struct Shelf {
    names: Vec<String>,
    contents: Vec<Vec<u8>>,
    fails: Vec<u64>,
    calls: u64,
    missed: Vec<String>,
}

impl Model for Shelf {
    ghost Value = { ShelfState };

    ghost view = { λ s. record {
      names = map string_bytes s.names.items;
      contents = map (λ v. v.items) s.contents.items;
      calls = s.calls;
      fails = s.fails.items;
      missed = map string_bytes s.missed.items;
    } };

    ghost invariant = { λ s. vec_len s.names ≡ vec_len s.contents };
}

// The index of the first of `names` that equals `name`.
fn find(names: &[String], contents: &[Vec<u8>], name: &str) -> Option<usize>
    requires { length names.now ≡ length contents.now }
    ensures bound { IfSome result (λ at. at < length contents.now) }
    ensures found { named (map string_bytes names.now) (map (λ v. v.items) contents.now) name.now
        ≡ option_and_then (slice_get (map (λ v. v.items) contents.now)) result }
{
    for (i, known) in names.iter().enumerate() {
        if known.as_str() == name {
            return Some(i);
        }
    }
    None
}

// Appends the contents under `name` to `into` and returns `true`, or returns `false` if there are none.
fn append_named(
    names: &[String],
    contents: &[Vec<u8>],
    name: &str,
    into: &mut Vec<u8>,
) -> Result<bool, AllocError>
    requires { length names.now ≡ length contents.now }
    ensures loaded { IfOk result (λ known. MatchBool known
        (IsSomeAnd (named (map string_bytes names.now) (map (λ v. v.items) contents.now) name.now)
        (λ text. into.new.items ≡ into.old.items ++ text))
        ((named (map string_bytes names.now) (map (λ v. v.items) contents.now) name.now ≡ None)
        × (into.new.items ≡ into.old.items))) }
{
    match find(names, contents, name) {
        Some(at) => {
            into.extend_from_slice(contents[at].as_slice())?;
            Ok(true)
        }
        None => Ok(false),
    }
}

impl Shelf {
    /// A shelf of these contents. `names` and `contents` have one length, and of equal names the first counts. `fails`
    /// lists the calls that fail, counted from 1.
    pub fn new(names: Vec<String>, contents: Vec<Vec<u8>>, fails: Vec<u64>) -> Shelf
        requires { vec_len names ≡ vec_len contents }
        ensures { result ≡ record {
          names = map string_bytes names.items;
          contents = map (λ v. v.items) contents.items;
          calls = 0;
          fails = fails.items;
          missed = [];
        } }
    {
        let missed = Vec::new(*names.allocator());
        Shelf {
            names,
            contents,
            fails,
            calls: 0,
            missed,
        }
    }
}

impl Loader for Shelf {
    ghost contents = { λ s. named s.names s.contents };

    ghost missed = { λ s. s.missed };

    fn load(&mut self, name: &str, mut into: Vec<u8>) -> Result<Vec<u8>, LoadError>
        ensures loaded { IfOk result
            (λ bytes. IsLoaded (named self.old.names self.old.contents name.now) into.items bytes.items) }
        ensures missed { self.new.missed ≡ missed_after self.old.missed name.now result }
        ensures same { named self.new.names self.new.contents ≡ named self.old.names self.old.contents }

        // The listed calls fail, and so does a call for an unknown name. A call that finds no memory is not counted.
        ensures failed { IsErrOf result LoadError.Failed →
            Contains self.old.fails (next_call self.old.calls)
            ⊎ (named self.old.names self.old.contents name.now ≡ None) }
        ensures known { OnOk result (IsSome (named self.old.names self.old.contents name.now)) }
        ensures unlisted { OnOk result (¬ Contains self.old.fails (next_call self.old.calls)) }
        ensures no_memory { IsErrOf result LoadError.NoMemory → self.new ≡ self.old }
        ensures calls { result ≢ Err LoadError.NoMemory → self.new.calls ≡ next_call self.old.calls }
        ensures kept { (self.new.names ≡ self.old.names) × (self.new.contents ≡ self.old.contents)
            × (self.new.fails ≡ self.old.fails) }
    {
        let place = place_for(&mut self.missed, name)?;
        let call = self.calls.saturating_add(1);
        if !self.fails.contains(&call)
            && append_named(&self.names, &self.contents, name, &mut into)?
        {
            self.calls = call;
            return Ok(into);
        }
        self.calls = call;
        self.missed.push(place).unwrap();
        Err(LoadError::Failed)
    }
}

/// A loader that holds contents by name. A name that it does not hold has empty contents, and no call answers `Failed`.
#[derive(Drop)]
pub struct SureShelf {
    names: Vec<String>,
    contents: Vec<Vec<u8>>,
}

impl Model for SureShelf {
    ghost Value = { SureShelfState };

    ghost view = { λ s. record {
      names = map string_bytes s.names.items;
      contents = map (λ v. v.items) s.contents.items;
    } };

    ghost invariant = { λ s. vec_len s.names ≡ vec_len s.contents };
}

impl SureShelf {
    /// A shelf of these contents. `names` and `contents` have one length, and of equal names the first counts.
    pub fn new(names: Vec<String>, contents: Vec<Vec<u8>>) -> SureShelf
        requires { vec_len names ≡ vec_len contents }
        ensures { result ≡ record {
          names = map string_bytes names.items;
          contents = map (λ v. v.items) contents.items;
        } }
    {
        SureShelf { names, contents }
    }
}

impl Loader for SureShelf {
    ghost contents = { λ s name. Some (unwrap_or (named s.names s.contents name) []) };

    ghost missed = { λ _. [] };

    fn load(&mut self, name: &str, mut into: Vec<u8>) -> Result<Vec<u8>, LoadError> {
        append_named(&self.names, &self.contents, name, &mut into)?;
        Ok(into)
    }
}
