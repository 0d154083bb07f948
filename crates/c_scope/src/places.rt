//! The maps from a name and from a tag to the place of its innermost binding.

ghost use Rattle.std.specs.Prelude.{◌≡◌, ℕ, Bool, List, None, ◌&&◌, OnOk, OnErr, IfOk, if◌then◌else◌};
ghost use Rattle.std.specs.Str.{bytes_eq};
ghost use Rattle.c_scope.specs.Scopes.{in_space};
ghost use Rattle.c_scope.specs.Places.{entries_of, place_at};

use indexmap::IndexMap;
use std::alloc::{AllocError, Global};

/// A name whose bindings have all been left keeps its entry, without a place.
pub type Innermost = IndexMap<Vec<u8>, Option<usize>>;

/// A map for each name space.
#[derive(Drop)]
pub struct Places {
    pub names: Innermost,
    pub tags: Innermost,
}

fn found(map: &Innermost, name: &[u8]) -> Option<usize>
    ensures { result ≡ place_at map.now.entries name.now }
{
    match map.get(name) {
        Some(place) => *place,
        None => None,
    }
}

// Gives a name another place, and tells the one that it had. Only a name without an entry can fail.
fn put(
    map: &mut Innermost,
    name: Vec<u8>,
    place: Option<usize>,
) -> Result<Option<usize>, AllocError>
    ensures old { IfOk result (λ old. old ≡ place_at map.old.entries name.items) }
    ensures new { OnOk result ((n : List ℕ) → place_at map.new.entries n ≡ (if bytes_eq n name.items then place else place_at map.old.entries n)) }
    ensures same { OnErr result (map.new.entries ≡ map.old.entries) }
    ensures absent { OnErr result (place_at map.old.entries name.items ≡ None) }
{
    match map.insert(name, place)? {
        Some(old) => Ok(old),
        None => Ok(None),
    }
}

impl Places {
    /// No name has a place.
    pub fn new(alloc: Global) -> Places
        ensures { (tags : Bool) (n : List ℕ) → place_at (entries_of tags result) n ≡ None }
    {
        Places {
            names: IndexMap::new(alloc),
            tags: IndexMap::new(alloc),
        }
    }

    /// The place of a name in a name space.
    pub fn place_of(&self, tags: bool, name: &[u8]) -> Option<usize>
        ensures { result ≡ place_at (entries_of tags self.now) name.now }
    {
        if tags {
            found(&self.tags, name)
        } else {
            found(&self.names, name)
        }
    }

    /// Gives a name another place in the name space of tags or the other one, and tells the one that it had there. Only a name
    /// without an entry can fail.
    pub fn replace(
        &mut self,
        tag: bool,
        name: Vec<u8>,
        place: Option<usize>,
    ) -> Result<Option<usize>, AllocError>
        ensures old { IfOk result (λ old. old ≡ place_at (entries_of tag self.old) name.items) }
        ensures new { OnOk result ((tags : Bool) (n : List ℕ) → place_at (entries_of tags self.new) n ≡ (if in_space tags tag && bytes_eq n name.items then place else place_at (entries_of tags self.old) n)) }
        ensures same { OnErr result ((tags : Bool) (n : List ℕ) → place_at (entries_of tags self.new) n ≡ place_at (entries_of tags self.old) n) }
        ensures absent { OnErr result (place_at (entries_of tag self.old) name.items ≡ None) }
    {
        if tag {
            put(&mut self.tags, name, place)
        } else {
            put(&mut self.names, name, place)
        }
    }
}
