//! What becomes of macros, and for how long it is known.

ghost use Rattle.std.specs.Prelude.{◌≡◌, [], true, ℕ, List, Some, None, IfOk, OnOk, option_map};
ghost use Rattle.c_pre.specs.Macros.{with_body};
ghost use Rattle.c_pre.specs.Views.{Entries, macros_in};
ghost use Rattle.c_pre.specs.Known.{fates_in, with_fate, is_in, findings_of, name_in_place, Precedes, Keeps, Forgets};

use crate::macros::{Macros, body_of};
use c_token::Token;
use indexmap::{IndexMap, IndexSet};
use std::alloc::{AllocError, Global};

/// What becomes of a macro wherever it isn't being replaced.
#[derive(Clone, Copy)]
pub enum Fate {
    /// Nothing: its body is of macros of lower ranks that become nothing.
    Vanishes { rank: usize },
    /// Something. It has this node.
    Lasts { node: usize },
}

/// How a macro leads to another one.
#[derive(Clone, Copy)]
pub struct Link {
    /// How many macros come behind it, each of whose bodies the next one is all that lasts of, up to its root. 0 for a root.
    pub depth: usize,
    /// The node of the next of them; of a root its own.
    pub parent: usize,
    /// The node of one of them that is further behind, or a root's own.
    pub jump: usize,
    /// The node of its root.
    pub root: usize,
}

/// A macro that doesn't vanish.
#[derive(Drop)]
pub struct Node {
    pub name: Vec<u8>,
    /// Its body without names that vanish.
    pub tokens: Vec<Token>,
    pub link: Link,
}

/// What becomes of names. A name of which nothing is known any more keeps its entry, without a fate.
pub type Fates = IndexMap<Vec<u8>, Option<Fate>>;

/// What becomes of macros, as long as the names in their bodies are given no other bodies.
#[derive(Drop)]
pub struct Known {
    pub fates: Fates,
    pub nodes: Vec<Node>,
    /// The names that were met in the bodies of macros.
    pub used: IndexSet<Vec<u8>>,
    /// Above the ranks of all that vanish.
    pub ranks: usize,
}

/// Nothing is known.
pub fn nothing(alloc: Global) -> Known
    ensures fates { result.fates.entries ≡ [] }
    ensures nodes { result.nodes.items ≡ [] }
    ensures used { result.used.keys ≡ [] }
{
    Known {
        fates: IndexMap::new(alloc),
        nodes: Vec::new(alloc),
        used: IndexSet::new(alloc),
        ranks: 0,
    }
}

/// What becomes of a name, if it is known.
pub fn fate_of(fates: &Fates, name: &[u8]) -> Option<Fate>
    ensures { result ≡ fates_in fates.now.entries name.now }
{
    match fates.get(name) {
        Some(fate) => *fate,
        None => None,
    }
}

/// Notes what becomes of a name, or that it isn't known.
pub fn note(fates: &mut Fates, name: Vec<u8>, fate: Option<Fate>) -> Result<(), AllocError>
    ensures { OnOk result (fates_in fates.new.entries ≡ with_fate name.items fate (fates_in fates.old.entries)) }
{
    fates.insert(name, fate)?;
    Ok(())
}

/// Whether a name was met in the body of a macro.
pub fn is_used(used: &IndexSet<Vec<u8>>, name: &[u8]) -> bool
    ensures { result ≡ is_in used.now.keys name.now }
{
    used.contains(name)
}

/// Notes a name as one that was met in the body of a macro.
pub fn mark(alloc: Global, used: &mut IndexSet<Vec<u8>>, name: &[u8]) -> Result<(), AllocError>
    ensures marked { OnOk result (is_in used.new.keys name.now ≡ true) }
    ensures others { OnOk result (Precedes used.old.keys used.new.keys) }
{
    if is_used(used, name) {
        return Ok(());
    }
    let key = name.to_vec(alloc)?;
    used.insert(key)?;
    Ok(())
}

/// The name at an index of those that were met.
pub fn met_at(
    alloc: Global,
    used: &IndexSet<Vec<u8>>,
    index: usize,
) -> Result<Option<Vec<u8>>, AllocError>
    ensures { IfOk result (λ name. option_map (λ v. v.items) name ≡ name_in_place used.now.keys index) }
{
    match used.get_index(index) {
        None => Ok(None),
        Some(name) => {
            let key = name.to_vec(alloc)?;
            Ok(Some(key))
        }
    }
}

/// Forgets what rests on a name that is given another body, or none: all, if it was met in the body of a macro.
pub fn forget(alloc: Global, known: &mut Known, name: &[u8]) -> Result<(), AllocError>
    ensures { OnOk result (Forgets name.now (findings_of known.old) (findings_of known.new)) }
{
    if is_used(&known.used, name) {
        *known = nothing(alloc);
        return Ok(());
    }
    let key = name.to_vec(alloc)?;
    note(&mut known.fates, key, None)?;
    Ok(())
}

/// Forgets what rests on a name that loses its body, if it has one.
pub fn forget_body<'a>(
    alloc: Global,
    macros: &Macros<'a>,
    known: &mut Known,
    name: &[u8],
) -> Result<(), AllocError>
    ensures { OnOk result ((bytes : List ℕ) (es2 : Entries) → macros_in es2 ≡ with_body name.now None (macros_in macros.now.entries)
        → Keeps bytes macros.now.entries (findings_of known.old) es2 (findings_of known.new)) }
{
    match body_of(macros, name) {
        None => Ok(()),
        Some(_) => {
            forget(alloc, known, name)?;
            Ok(())
        }
    }
}
