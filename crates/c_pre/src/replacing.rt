//! Replacing macros by their bodies (C11 6.10.3.4).

ghost use Rattle.std.specs.Prelude.{◌≡◌, ◌≢◌, ◌<◌, ◌≤◌, ◌+◌, ◌++◌, ◌∷◌, [], ℕ, List, Some, None, length, reverse, nat_eq, IfOk, IfErr, OnOk, MatchOption};
ghost use Rattle.std.specs.Map.{lookup};
ghost use Rattle.c_token.specs.declared.token.Token.{Token};
ghost use Rattle.c_token.specs.Spelling.{text_of};
ghost use Rattle.c_pre.specs.Macros.{placed, IsReplacedBy};
ghost use Rattle.c_pre.specs.Views.{macros_in};
ghost use Rattle.c_pre.specs.Waiting.{list_of, rest_of, rests_of, RestsTold, put_back, FirstLine, Goes, Exceeds};
ghost use Rattle.c_pre.specs.Known.{fates_in, findings_of, Forest, tokens_at, IsLastBefore, IsTold, AreTold, Suffices, Distinct, AreOpen, opens_of, outer, Stays};
ghost use Rattle.c_pre.specs.declared.error.PreError.TheVariants.{TooMany, Memory};

use crate::directive::{split, text_at};
use crate::error::PreError;
use crate::known::{Fate, Known, Node, fate_of};
use crate::macros::Macros;
use crate::planning::plan_all;
use crate::rising::{link_at, meeting, tokens_at};
use c_token::Token;
use indexmap::IndexMap;
use std::alloc::{AllocError, Global};

/// The greatest number of tokens that are given.
const TOKENS: usize = 200_000;

/// Tokens of a text, or of what lasts of a macro's body.
#[derive(Clone, Copy)]
pub enum Tokens<'a, 'k> {
    Text(&'a [Token]),
    Body(&'k [Token]),
}

/// Tokens that wait to be looked at: the rest of a text, or of a body with the line of the macro's name.
#[derive(Clone, Copy)]
pub struct Rest<'a, 'k> {
    pub tokens: Tokens<'a, 'k>,
    pub line: Option<u32>,
}

/// The roots that are being replaced, the innermost last, each with the node at which it was entered: all macros from that one
/// up to the root are being replaced.
pub type Entries = IndexMap<usize, usize>;

/// The text that is being replaced, with the macros within whose bodies the replacing is.
#[derive(Drop)]
pub struct Replacing<'a, 'k> {
    /// The rest of the text, if it isn't done, and of the bodies in which the replacing is, the innermost last.
    pub rests: Vec<Rest<'a, 'k>>,
    /// The roots that have these bodies.
    pub opened: Entries,
}

/// A token of a macro's body has the line of the macro's name in the text.
fn placed(line: Option<u32>, token: Token) -> Token
    ensures { result ≡ placed line token }
{
    match line {
        None => token,
        Some(line) => Token {
            kind: token.kind,
            line,
            first: token.first,
            start: token.start,
            length: token.length,
        },
    }
}

/// Where a root was entered, if it is being replaced.
fn entry_of(opened: &Entries, root: usize) -> Option<usize>
    requires { Distinct (opens_of opened.now.entries) }
    ensures { result ≡ lookup (nat_eq root) (opens_of opened.now.entries) }
{
    opened.get(&root).copied()
}

/// A root is replaced from here on.
fn enter(opened: &mut Entries, root: usize, node: usize) -> Result<(), AllocError>
    requires { lookup (nat_eq root) (opens_of opened.old.entries) ≡ None }
    ensures { OnOk result (opens_of opened.new.entries ≡ (root, node) ∷ opens_of opened.old.entries) }
{
    opened.insert(root, node)?;
    Ok(())
}

/// The innermost root is replaced.
fn leave(opened: &mut Entries)
    ensures { opens_of opened.new.entries ≡ outer (opens_of opened.old.entries) }
{
    opened.pop();
}

/// The first token, and those behind it.
fn next_of<'a, 'k>(tokens: Tokens<'a, 'k>) -> Option<(Token, Tokens<'a, 'k>)>
    ensures { MatchOption result (list_of tokens.entry ≡ []) (λ x. list_of tokens.entry ≡ x.0 ∷ list_of x.1) }
{
    match tokens {
        Tokens::Text(text) => {
            let (token, behind) = split(text)?;
            Some((token, Tokens::Text(behind)))
        }
        Tokens::Body(body) => {
            let (token, behind) = split(body)?;
            Some((token, Tokens::Body(behind)))
        }
    }
}

/// Tokens that are looked at next.
fn put<'a, 'k>(rests: &mut Vec<Rest<'a, 'k>>, rest: Rest<'a, 'k>) -> Result<(), AllocError>
    ensures { OnOk result (reverse rests.new.items ≡ rest.entry ∷ reverse rests.old.items) }
{
    rests.push(rest)?;
    Ok(())
}

/// Gives one token more, unless there are too many.
fn give(out: &mut Vec<Token>, token: Token) -> Result<(), PreError>
    ensures given { OnOk result (out.new.items ≡ out.old.items ++ token ∷ []) }
    ensures few { OnOk result (length out.new.items ≤ 200000) }
    ensures many { IfErr result (λ e. e ≢ Memory → (e ≡ TooMany) × (200000 < length out.old.items + 1)) }
{
    if out.len() >= TOKENS {
        return Err(PreError::TooMany);
    }
    out.push(token)?;
    Ok(())
}

/// The first of these tokens.
fn first(tokens: &[Token]) -> Token
    requires { tokens.now ≢ [] }
    ensures { (behind : List Token) × (tokens.now ≡ result ∷ behind) }
{
    tokens[0]
}

/// What is given for a name of a node whose root is being replaced, entered at another node: the name itself if that is being
/// replaced too, or the one that stands in the body of the last macro behind it that isn't.
fn found_name(nodes: &[Node], node: usize, entry: usize, token: Token) -> Result<Token, PreError>
    requires forest { Forest nodes.now }
    requires node { node < length nodes.now }
    requires entry { entry < length nodes.now }
    requires leads { (last : ℕ) → IsLastBefore nodes.now node entry last → tokens_at nodes.now last ≢ [] }
    ensures found { IfOk result (λ t. Stays nodes.now node entry token t) }
    ensures memory { IfErr result (λ e. e ≡ Memory) }
{
    match meeting(nodes, node, entry)? {
        None => Ok(token),
        Some(last) => Ok(placed(Some(token.line), first(tokens_at(nodes, last)))),
    }
}

impl<'a, 'k> Replacing<'a, 'k> {
    /// What lasts of a root's body is looked at next.
    fn open(
        &mut self,
        root: usize,
        node: usize,
        tokens: &'k [Token],
        line: u32,
    ) -> Result<(), AllocError>
        requires closed { lookup (nat_eq root) (opens_of self.old.opened.entries) ≡ None }
        ensures rests { OnOk result (rests_of self.new.rests.items ≡ (tokens.entry.now, Some line) ∷ rests_of self.old.rests.items) }
        ensures opened { OnOk result (opens_of self.new.opened.entries ≡ (root, node) ∷ opens_of self.old.opened.entries) }
    {
        enter(&mut self.opened, root, node)?;
        put(
            &mut self.rests,
            Rest {
                tokens: Tokens::Body(tokens),
                line: Some(line),
            },
        )?;
        Ok(())
    }

    /// Goes on with a token of a rest of which only what stands behind it is left: it is given, it vanishes, or what replaces it
    /// is looked at next. The contract alone speaks of the macros.
    fn turn(
        &mut self,
        bytes: &[u8],
        macros: &Macros<'a>,
        known: &'k Known,
        line: Option<u32>,
        token: Token,
        out: &mut Vec<Token>,
    ) -> Result<(), PreError>
        requires few { length out.old.items ≤ 200000 }
        requires line { FirstLine line (rests_of self.old.rests.items) }
        requires suffices { Suffices bytes.now (macros_in macros.now.entries) (findings_of known.now) }
        requires told { IsTold (macros_in macros.now.entries) (fates_in known.now.fates.entries) (text_of bytes.now token) }
        requires rests { RestsTold bytes.now (macros_in macros.now.entries) (fates_in known.now.fates.entries) (rests_of self.old.rests.items) }
        requires opened { AreOpen (findings_of known.now) (opens_of self.old.opened.entries) }
        ensures goes { OnOk result (Goes bytes.now (macros_in macros.now.entries) known.entry.now.nodes.items (put_back token (rests_of self.old.rests.items)) (opens_of self.old.opened.entries)
            (rests_of self.new.rests.items) (opens_of self.new.opened.entries) out.old.items out.new.items) }
        ensures few { OnOk result (length out.new.items ≤ 200000) }
        ensures rests { OnOk result (RestsTold bytes.now (macros_in macros.now.entries) (fates_in known.entry.now.fates.entries) (rests_of self.new.rests.items)) }
        ensures opened { OnOk result (AreOpen (findings_of known.entry.now) (opens_of self.new.opened.entries)) }
        ensures many { IfErr result (λ e. e ≢ Memory → (e ≡ TooMany) × Exceeds bytes.now (macros_in macros.now.entries) known.entry.now.nodes.items (put_back token (rests_of self.old.rests.items))
            (opens_of self.old.opened.entries) (rests_of self.new.rests.items) (opens_of self.new.opened.entries) out.old.items) }
    {
        let name = text_at(bytes, token);
        let placed = placed(line, token);
        match fate_of(&known.fates, name) {
            Some(fate) => match fate {
                Fate::Vanishes { .. } => Ok(()),
                Fate::Lasts { node } => {
                    let root = link_at(&known.nodes, node).root;
                    match entry_of(&self.opened, root) {
                        None => {
                            self.open(root, node, tokens_at(&known.nodes, root), placed.line)?;
                            Ok(())
                        }
                        Some(entry) => match found_name(&known.nodes, node, entry, placed) {
                            Ok(found) => match give(out, found) {
                                Ok(()) => Ok(()),
                                Err(error) => Err(error),
                            },
                            Err(error) => Err(error),
                        },
                    }
                }
            },
            None => match give(out, placed) {
                Ok(()) => Ok(()),
                Err(error) => Err(error),
            },
        }
    }

    /// Looks at the next token of a rest.
    fn step(
        &mut self,
        bytes: &[u8],
        macros: &Macros<'a>,
        known: &'k Known,
        rest: Rest<'a, 'k>,
        out: &mut Vec<Token>,
    ) -> Result<(), PreError>
        requires few { length out.old.items ≤ 200000 }
        requires suffices { Suffices bytes.now (macros_in macros.now.entries) (findings_of known.now) }
        requires told { AreTold bytes.now (macros_in macros.now.entries) (fates_in known.now.fates.entries) (list_of rest.tokens) }
        requires rests { RestsTold bytes.now (macros_in macros.now.entries) (fates_in known.now.fates.entries) (rests_of self.old.rests.items) }
        requires opened { AreOpen (findings_of known.now) (opens_of self.old.opened.entries) }
        ensures goes { OnOk result (Goes bytes.now (macros_in macros.now.entries) known.entry.now.nodes.items (rest_of rest.entry ∷ rests_of self.old.rests.items) (opens_of self.old.opened.entries)
            (rests_of self.new.rests.items) (opens_of self.new.opened.entries) out.old.items out.new.items) }
        ensures few { OnOk result (length out.new.items ≤ 200000) }
        ensures rests { OnOk result (RestsTold bytes.now (macros_in macros.now.entries) (fates_in known.entry.now.fates.entries) (rests_of self.new.rests.items)) }
        ensures opened { OnOk result (AreOpen (findings_of known.entry.now) (opens_of self.new.opened.entries)) }
        ensures many { IfErr result (λ e. e ≢ Memory → (e ≡ TooMany) × Exceeds bytes.now (macros_in macros.now.entries) known.entry.now.nodes.items (rest_of rest.entry ∷ rests_of self.old.rests.items)
            (opens_of self.old.opened.entries) (rests_of self.new.rests.items) (opens_of self.new.opened.entries) out.old.items) }
    {
        match next_of(rest.tokens) {
            None => {
                leave(&mut self.opened);
                Ok(())
            }
            Some((token, behind)) => {
                let line = rest.line;
                put(
                    &mut self.rests,
                    Rest {
                        tokens: behind,
                        line,
                    },
                )?;
                match self.turn(bytes, macros, known, line, token, out) {
                    Ok(()) => Ok(()),
                    Err(error) => Err(error),
                }
            }
        }
    }
}

/// Replaces the macros of a text, of each of which it is known what becomes of it, and gives what it becomes.
fn replace_known<'a, 'k>(
    alloc: Global,
    bytes: &[u8],
    macros: &Macros<'a>,
    known: &'k Known,
    text: &'a [Token],
    out: &mut Vec<Token>,
) -> Result<(), PreError>
    requires few { length out.old.items ≤ 200000 }
    requires suffices { Suffices bytes.now (macros_in macros.now.entries) (findings_of known.now) }
    requires told { AreTold bytes.now (macros_in macros.now.entries) (fates_in known.now.fates.entries) text.now }
    ensures given { OnOk result ((front : List Token) × IsReplacedBy bytes.now (macros_in macros.now.entries) [] None text.entry.now front × (out.new.items ≡ out.old.items ++ front)) }
    ensures few { OnOk result (length out.new.items ≤ 200000) }
    ensures many { IfErr result (λ e. e ≢ Memory → (e ≡ TooMany)
        × ((front : List Token) × IsReplacedBy bytes.now (macros_in macros.now.entries) [] None text.entry.now front × (200000 < length out.old.items + length front))) }
{
    let mut replacing = Replacing {
        rests: Vec::new(alloc),
        opened: IndexMap::new(alloc),
    };
    put(
        &mut replacing.rests,
        Rest {
            tokens: Tokens::Text(text),
            line: None,
        },
    )?;
    for _ in 0..u64::MAX {
        match replacing.rests.pop() {
            None => return Ok(()),
            Some(rest) => match replacing.step(bytes, macros, known, rest, out) {
                Ok(()) => {}
                Err(error) => return Err(error),
            },
        }
    }
    Err(PreError::Memory)
}

/// Replaces the macros of a text, and gives what it becomes. What is known of macros is so as long as they are the same.
pub fn replace<'a>(
    alloc: Global,
    bytes: &[u8],
    macros: &Macros<'a>,
    known: &mut Known,
    text: &'a [Token],
    out: &mut Vec<Token>,
) -> Result<(), PreError>
    requires few { length out.old.items ≤ 200000 }
    requires suffices { Suffices bytes.now (macros_in macros.now.entries) (findings_of known.old) }
    ensures given { OnOk result ((front : List Token) × IsReplacedBy bytes.now (macros_in macros.now.entries) [] None text.now front × (out.new.items ≡ out.old.items ++ front)) }
    ensures few { OnOk result (length out.new.items ≤ 200000) }
    ensures suffices { OnOk result (Suffices bytes.now (macros_in macros.now.entries) (findings_of known.new)) }
    ensures many { IfErr result (λ e. e ≢ Memory → (e ≡ TooMany)
        × ((front : List Token) × IsReplacedBy bytes.now (macros_in macros.now.entries) [] None text.now front × (200000 < length out.old.items + length front))) }
{
    plan_all(alloc, bytes, macros, known, text)?;
    match replace_known(alloc, bytes, macros, known, text, out) {
        Ok(()) => Ok(()),
        Err(error) => Err(error),
    }
}
