//! Noting what becomes of macros. Each is tested before it is noted.

ghost use Rattle.std.specs.Prelude.{◌≡◌, ◌<◌, ◌∷◌, [], true, length, OnOk, IfOk, IfSome};
ghost use Rattle.std.specs.List.{list_all};
ghost use Rattle.c_pre.specs.Views.{macros_in};
ghost use Rattle.c_pre.specs.Known.{fates_in, is_in, findings_of, vanishes, is_below, is_met, Thins, Forest, IsBehind, LinksTo, IsParent, IsLinkFor, Bounded, Adds, Knows, IsTold, Precedes, Learns};

use crate::directive::{split, text_at};
use crate::known::{Fate, Fates, Known, Link, Node, fate_of, mark, note};
use crate::macros::{Macros, body_of};
use crate::rising::link_at;
use c_token::Token;
use indexmap::IndexSet;
use std::alloc::{AllocError, Global};

/// Whether a name is one that vanishes.
pub fn vanishes(bytes: &[u8], fates: &Fates, token: Token) -> bool
    ensures { result ≡ vanishes bytes.now (fates_in fates.now.entries) token }
{
    match fate_of(fates, text_at(bytes, token)) {
        None => false,
        Some(Fate::Vanishes { .. }) => true,
        Some(Fate::Lasts { .. }) => false,
    }
}

/// Whether a name is one that vanishes, of a lower rank.
fn is_below(bytes: &[u8], fates: &Fates, rank: usize, token: Token) -> bool
    ensures { result ≡ is_below bytes.now (fates_in fates.now.entries) rank token }
{
    match fate_of(fates, text_at(bytes, token)) {
        None => false,
        Some(Fate::Vanishes { rank: lower }) => lower < rank,
        Some(Fate::Lasts { .. }) => false,
    }
}

/// Whether all of these names are such.
fn are_below(bytes: &[u8], fates: &Fates, rank: usize, tokens: &[Token]) -> bool
    ensures { result ≡ list_all (is_below bytes.now (fates_in fates.now.entries) rank) tokens.now }
{
    let mut rest = tokens;
    while let Some((token, behind)) = split(rest) {
        if !is_below(bytes, fates, rank, token) {
            return false;
        }
        rest = behind;
    }
    true
}

/// Notes the names in a body as met.
fn mark_all(
    alloc: Global,
    bytes: &[u8],
    used: &mut IndexSet<Vec<u8>>,
    body: &[Token],
) -> Result<(), AllocError>
    ensures marked { OnOk result (list_all (is_met bytes.now (is_in used.new.keys)) body.now ≡ true) }
    ensures others { OnOk result (Precedes used.old.keys used.new.keys) }
{
    let mut rest = body;
    while let Some((token, behind)) = split(rest) {
        mark(alloc, used, text_at(bytes, token))?;
        rest = behind;
    }
    Ok(())
}

/// The tokens that don't vanish.
fn lasting(
    alloc: Global,
    bytes: &[u8],
    fates: &Fates,
    tokens: &[Token],
) -> Result<Vec<Token>, AllocError>
    ensures { IfOk result (λ v. Thins bytes.now (fates_in fates.now.entries) v.items tokens.now) }
{
    let mut all = Vec::new(alloc);
    let mut rest = tokens;
    while let Some((token, behind)) = split(rest) {
        if !vanishes(bytes, fates, token) {
            all.push(token)?;
        }
        rest = behind;
    }
    Ok(all)
}

/// The link of a root that gets the next node.
fn root_link(nodes: &[Node]) -> Link
    ensures depth { result.depth ≡ 0 }
    ensures parent { result.parent ≡ length nodes.now }
    ensures jump { result.jump ≡ length nodes.now }
    ensures root { result.root ≡ length nodes.now }
{
    let node = nodes.len();
    Link {
        depth: 0,
        parent: node,
        jump: node,
        root: node,
    }
}

/// The node that a macro jumps to, which leads to this one: so that few jumps lead far.
fn jump_from(nodes: &[Node], parent: usize) -> usize
    requires forest { Forest nodes.now }
    requires within { parent < length nodes.now }
    ensures { IsBehind nodes.now parent result }
{
    let link = link_at(nodes, parent);
    let near = link_at(nodes, link.jump);
    let far = link_at(nodes, near.jump);
    if link.depth.saturating_sub(near.depth) == near.depth.saturating_sub(far.depth) {
        near.jump
    } else {
        parent
    }
}

/// The link of a macro that leads to the one of this node alone.
fn link_to(nodes: &[Node], parent: usize) -> Link
    requires forest { Forest nodes.now }
    requires within { parent < length nodes.now }
    ensures { LinksTo nodes.now parent result }
{
    let link = link_at(nodes, parent);
    match link.depth.checked_add(1) {
        None => root_link(nodes),
        Some(depth) => Link {
            depth,
            parent,
            jump: jump_from(nodes, parent),
            root: link.root,
        },
    }
}

/// The only one of these tokens, if there is one.
fn only(tokens: &[Token]) -> Option<Token>
    ensures { IfSome result (λ t. tokens.now ≡ t ∷ []) }
{
    match split(tokens) {
        None => None,
        Some((token, behind)) => { if behind.is_empty() { Some(token) } else { None } }
    }
}

/// The node of the macro that is all of these tokens, if they are one that lasts.
fn parent_for(bytes: &[u8], fates: &Fates, tokens: &[Token]) -> Option<usize>
    ensures { IfSome result (λ i. IsParent bytes.now (fates_in fates.now.entries) tokens.now i) }
{
    match fate_of(fates, text_at(bytes, only(tokens)?)) {
        None => None,
        Some(Fate::Vanishes { .. }) => None,
        Some(Fate::Lasts { node }) => Some(node),
    }
}

/// The link of a macro of whose body these tokens last.
fn link_for(bytes: &[u8], known: &Known, tokens: &[Token]) -> Link
    requires forest { Forest known.now.nodes.items }
    requires bounded { Bounded (findings_of known.now) }
    ensures { IsLinkFor bytes.now (findings_of known.now) tokens.now result }
{
    match parent_for(bytes, &known.fates, tokens) {
        None => root_link(&known.nodes),
        Some(parent) => link_to(&known.nodes, parent),
    }
}

/// Notes that a macro lasts, and what of its body does.
fn add(
    alloc: Global,
    bytes: &[u8],
    known: &mut Known,
    name: &[u8],
    body: &[Token],
) -> Result<(), AllocError>
    requires forest { Forest known.old.nodes.items }
    requires bounded { Bounded (findings_of known.old) }
    ensures adds { OnOk result (Adds bytes.now (findings_of known.old) name.now body.now (findings_of known.new)) }
    ensures used { OnOk result (known.new.used.keys ≡ known.old.used.keys) }
{
    let tokens = lasting(alloc, bytes, &known.fates, body)?;
    let link = link_for(bytes, known, &tokens);
    let node = known.nodes.len();
    let word = name.to_vec(alloc)?;
    known.nodes.push(Node {
        name: word,
        tokens,
        link,
    })?;
    let key = name.to_vec(alloc)?;
    note(&mut known.fates, key, Some(Fate::Lasts { node }))?;
    Ok(())
}

/// Notes that a macro lasts, if nothing is known of it; the names in its body are noted as met.
pub fn note_lasting<'a>(
    alloc: Global,
    bytes: &[u8],
    macros: &Macros<'a>,
    known: &mut Known,
    name: &[u8],
) -> Result<(), AllocError>
    requires knows { Knows bytes.now (macros_in macros.now.entries) (findings_of known.old) }
    ensures learns { OnOk result (Learns bytes.now (macros_in macros.now.entries) known.old known.new) }
    ensures told { OnOk result (IsTold (macros_in macros.now.entries) (fates_in known.new.fates.entries) name.now) }
{
    if fate_of(&known.fates, name).is_some() {
        return Ok(());
    }
    match body_of(macros, name) {
        None => Ok(()),
        Some(body) => {
            mark_all(alloc, bytes, &mut known.used, body.tokens)?;
            add(alloc, bytes, known, name, body.tokens)?;
            Ok(())
        }
    }
}

/// Notes that a macro vanishes, if nothing is known of it and all names in its body vanish; these are noted as met. Says
/// whether it is noted.
pub fn note_vanishing<'a>(
    alloc: Global,
    bytes: &[u8],
    macros: &Macros<'a>,
    known: &mut Known,
    name: &[u8],
) -> Result<bool, AllocError>
    requires knows { Knows bytes.now (macros_in macros.now.entries) (findings_of known.old) }
    ensures learns { OnOk result (Learns bytes.now (macros_in macros.now.entries) known.old known.new) }
{
    if fate_of(&known.fates, name).is_some() {
        return Ok(false);
    }
    let rank = known.ranks;
    match body_of(macros, name) {
        None => Ok(false),
        Some(body) => {
            if !are_below(bytes, &known.fates, rank, body.tokens) {
                return Ok(false);
            }
            mark_all(alloc, bytes, &mut known.used, body.tokens)?;
            let key = name.to_vec(alloc)?;
            note(&mut known.fates, key, Some(Fate::Vanishes { rank }))?;
            known.ranks = rank.saturating_add(1);
            Ok(true)
        }
    }
}
