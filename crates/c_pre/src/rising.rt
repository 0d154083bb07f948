//! The macros behind one, up to its root.

ghost use Rattle.std.specs.Prelude.{◌≡◌, ◌<◌, ◌≤◌, true, false, length, IfOk, IfErr, MatchOption};
ghost use Rattle.c_pre.specs.Known.{link_of, tokens_at, up, Forest, IsBehind, IsLastBefore, Meets};
ghost use Rattle.c_pre.specs.declared.error.PreError.TheVariants.{Memory};

use crate::error::PreError;
use crate::known::{Link, Node};
use c_token::Token;

/// How the macro of a node leads to another one.
pub fn link_at(nodes: &[Node], node: usize) -> Link
    ensures { result ≡ link_of nodes.now node }
{
    match nodes.get(node) {
        Some(found) => found.link,
        None => Link {
            depth: 0,
            parent: 0,
            jump: 0,
            root: 0,
        },
    }
}

/// What lasts of the body of a node's macro.
pub fn tokens_at(nodes: &[Node], node: usize) -> &[Token]
    ensures { result.now ≡ tokens_at nodes.now node }
{
    match nodes.get(node) {
        Some(found) => &found.tokens,
        None => &[],
    }
}

/// A node behind one, as far as there is a link to it, that is as deep as wanted.
fn nearer(nodes: &[Node], node: usize, depth: usize) -> usize
    requires forest { Forest nodes.now }
    requires within { node < length nodes.now }
    requires deep { depth < (link_of nodes.now node).depth }
    ensures behind { IsBehind nodes.now node result }
    ensures high { depth ≤ (link_of nodes.now result).depth }
{
    let link = link_at(nodes, node);
    if link_at(nodes, link.jump).depth >= depth {
        link.jump
    } else {
        link.parent
    }
}

/// The node of so great a depth behind one, or itself if its own is less.
fn risen(nodes: &[Node], node: usize, depth: usize) -> Result<usize, PreError>
    requires forest { Forest nodes.now }
    requires within { node < length nodes.now }
    ensures behind { IfOk result (λ i. IsBehind nodes.now node i) }
    ensures memory { IfErr result (λ e. e ≡ Memory) }
    ensures low { IfOk result (λ i. (link_of nodes.now i).depth ≤ depth) }
    ensures high { IfOk result (λ i. depth ≤ (link_of nodes.now node).depth → depth ≤ (link_of nodes.now i).depth) }
{
    let mut at = node;
    for _ in 0..u64::MAX {
        if link_at(nodes, at).depth <= depth {
            return Ok(at);
        }
        at = nearer(nodes, at, depth);
    }
    Err(PreError::Memory)
}

/// Whether a node is another one or behind it.
fn is_behind(nodes: &[Node], node: usize, other: usize) -> Result<bool, PreError>
    requires forest { Forest nodes.now }
    requires within { node < length nodes.now }
    ensures memory { IfErr result (λ e. e ≡ Memory) }
    ensures yes { IfOk result (λ b. b ≡ true → IsBehind nodes.now node other) }
    ensures no { IfOk result (λ b. b ≡ false → IsBehind nodes.now node other → ⊥) }
{
    let found = risen(nodes, node, link_at(nodes, other).depth)?;
    Ok(found == other)
}

/// A node behind one that isn't behind an entry, as far as there is a link to it; none where the next one is behind the entry.
fn next_before(nodes: &[Node], node: usize, entry: usize) -> Result<Option<usize>, PreError>
    requires forest { Forest nodes.now }
    requires node { node < length nodes.now }
    requires entry { entry < length nodes.now }
    ensures memory { IfErr result (λ e. e ≡ Memory) }
    ensures found { IfOk result (λ found. MatchOption found (IsBehind nodes.now entry (link_of nodes.now node).parent)
        (λ i. IsBehind nodes.now node i × (IsBehind nodes.now entry i → ⊥))) }
{
    let link = link_at(nodes, node);
    if !is_behind(nodes, entry, link.jump)? {
        return Ok(Some(link.jump));
    }
    if !is_behind(nodes, entry, link.parent)? {
        return Ok(Some(link.parent));
    }
    Ok(None)
}

/// The last node from one up that isn't behind an entry, if the first one isn't: the node behind it is.
fn last_before(nodes: &[Node], node: usize, entry: usize) -> Result<usize, PreError>
    requires forest { Forest nodes.now }
    requires node { node < length nodes.now }
    requires entry { entry < length nodes.now }
    requires outside { IsBehind nodes.now entry node → ⊥ }
    ensures memory { IfErr result (λ e. e ≡ Memory) }
    ensures found { IfOk result (λ i. IsLastBefore nodes.now node entry i) }
{
    let mut at = node;
    for _ in 0..u64::MAX {
        match next_before(nodes, at, entry)? {
            None => return Ok(at),
            Some(next) => at = next,
        }
    }
    Err(PreError::Memory)
}

/// The last node from one up that isn't behind an entry. None if the first one is.
pub fn meeting(nodes: &[Node], node: usize, entry: usize) -> Result<Option<usize>, PreError>
    requires forest { Forest nodes.now }
    requires node { node < length nodes.now }
    requires entry { entry < length nodes.now }
    ensures memory { IfErr result (λ e. e ≡ Memory) }
    ensures found { IfOk result (λ found. Meets nodes.now node entry found) }
{
    if is_behind(nodes, entry, node)? {
        return Ok(None);
    }
    let last = last_before(nodes, node, entry)?;
    Ok(Some(last))
}
