//! The graph of words: nodes, operands before their users.

ghost use Rattle.std.specs.Prelude.{
  ◌≡◌,
  ℕ,
  ◌+◌,
  ◌^◌,
  ◌<◌,
  ◌≤◌,
  IsTrue,
  IsFalse,
  is_some,
  ◌↔◌,
  List,
  [],
  ◌∷◌,
  ◌++◌,
  length,
  map,
  nat_lt,
  nat_le,
  ◌&&◌,
  slice_index_or,
  IfOk,
  IfSome,
  OnOk,
  OnErr,
  All,
  ◌==◌,
  true,
  Some,
  None,
  IfNone,
  ◌⊎◌,
  vec_len,
  vec_capacity,
};
ghost use Rattle.std.specs.List.{list_all};
ghost use Rattle.words.specs.BitVector.{BitVector, word};
ghost use Rattle.word_dag.specs.Meaning.{node_width, node_value, widths, values, width, value, valuation_of};
ghost use Rattle.word_dag.specs.Fitting.{is_width, is_there, are_alike, are_bits, fits, is_ordered};
ghost use Rattle.word_dag.specs.Folding.{is_literal, is_constant, folds, chooses};
ghost use Rattle.word_dag.specs.Index.{IsIndex, IsNoted};
ghost use Rattle.word_dag.specs.Growth.{Within, IsNode, Stands, Shares, Extends, Makes, Quantifies, IsTruthValue, IsCopied, Grows, MeansSame, IsDecided, IsFitting};

use crate::evaluate;
use crate::nodes::{Id, Node, Quantifier};
use crate::valuations::Valuation;
use indexmap::IndexMap;
use std::alloc::{AllocError, Global};
use std::marker::Model;
use words::Word;

/// A graph of operations on words: a list of nodes, each of which has earlier nodes as operands, of
/// fitting widths. A node that is made keeps its Id, its width and its meaning, and one that is there is not
/// made again.
#[derive(Drop)]
pub struct Dag {
    nodes: Vec<Node>,
    // The width of each node.
    node_widths: Vec<u32>,
    // A place of each node.
    places: IndexMap<Node, usize>,
}

impl Model for Dag {
    ghost use Rattle.std.specs.Prelude.{◌≡◌, IsTrue, List};
    ghost use Rattle.word_dag.specs.declared.nodes.Node.{Node};
    ghost use Rattle.word_dag.specs.Meaning.{widths};
    ghost use Rattle.word_dag.specs.Fitting.{is_ordered};
    ghost use Rattle.word_dag.specs.Index.{IsIndex};

    ghost Value = { List Node };

    ghost view = { λ d. d.nodes.items };

    ghost invariant = { λ d. IsTrue (is_ordered d.nodes.items) × (d.node_widths.items ≡ widths d.nodes.items) × IsIndex ⟦<Node as PartialEq>⟧.eq d.nodes.items d.places };
}

impl Dag {
    /// The graph without nodes.
    pub fn new(alloc: Global) -> Self
        ensures { result ≡ [] }
    {
        Dag {
            nodes: Vec::new(alloc),
            node_widths: Vec::new(alloc),
            places: IndexMap::new(alloc),
        }
    }

    /// How many nodes there are.
    pub fn len(&self) -> usize
        ensures { result ≡ length self.now }
    {
        self.nodes.len()
    }

    /// The nodes, each behind its operands.
    pub fn nodes(&self) -> &[Node]
        ensures is { result.now ≡ self.now }
        ensures ordered { IsTrue (is_ordered self.now) }
    {
        &self.nodes
    }

    /// The node at this Id.
    pub fn node(&self, id: Id) -> Node
        requires { Within self.now id }
        ensures { result ≡ slice_index_or self.now id.index result }
    {
        self.nodes[id.index]
    }

    /// The width of the node at this Id, from 1 to 64.
    pub fn width(&self, id: Id) -> u32
        requires { Within self.now id }
        ensures is { result ≡ width self.now id }
        ensures positive { 1 ≤ result }
        ensures at_most_64 { result ≤ 64 }
    {
        self.node_widths[id.index]
    }

    /// Whether the node can be made: its operands are nodes of this graph, with fitting widths.
    pub fn fits(&self, node: Node) -> bool
        ensures { IsTrue result ↔ IsFitting self.now node }
    {
        self.passes(node)
    }

    /// Makes a node, and gives its Id. A node of constants, other than one over a list, is made as the
    /// constant that it comes to, and for a choice by a constant the Id of the chosen operand is given. A
    /// node that is there already is not added again: its Id is given. Any other is added as it is, and
    /// nothing else. The only error is that there is no memory; the graph is then unchanged.
    pub fn make(&mut self, node: Node) -> Result<Id, AllocError>
        requires { IsFitting self.old node }
        ensures extends { Extends self.old self.new }
        ensures made { IfOk result (Makes self.old self.new node) }
        ensures grows { Grows self.old self.new node }
        ensures folded { IsTrue (folds self.old node) → IfOk result (λ i. IsTrue (is_constant self.new i)) }
        ensures constant { IsTrue (folds self.old node) → OnOk result ((n : Node) × (is_literal n ≡ true) × Shares self.old self.new n) }
        ensures chosen { IsTrue (chooses self.old node) → self.new ≡ self.old }
        ensures plain { IsFalse (folds self.old node) → IsFalse (chooses self.old node) → IfOk result (Stands self.new node) }
        ensures shared { IsFalse (folds self.old node) → IsFalse (chooses self.old node) → OnOk result (Shares self.old self.new node) }
        ensures err { OnErr result (self.new ≡ self.old) }
    {
        if let Some(id) = self.chosen(node) {
            return Ok(id);
        }
        let reduced = self.reduced(node);
        self.kept(reduced)
    }

    /// Makes a node that tells whether all, or any, of these truth values are true: copies of them, one
    /// behind the other, and the node over the copies. The only error is that there is no memory.
    pub fn quantify(&mut self, quantifier: Quantifier, ids: &[Id]) -> Result<Id, AllocError>
        requires { All (IsTruthValue self.old) ids.now }
        ensures extends { Extends self.old self.new }
        ensures made { IfOk result (Quantifies self.old self.new quantifier ids.now) }
    {
        let first = Id { index: self.len() };
        for id in ids {
            self.copy(*id)?;
        }
        let made = self.make(Node::Quantify(quantifier, first, ids.len()))?;
        Ok(made)
    }

    // Adds a node that has the value of this truth value, be there such a node or not.
    fn copy(&mut self, id: Id) -> Result<(), AllocError>
        requires { IsTruthValue self.old id }
        ensures extends { Extends self.old self.new }
        ensures copied { OnOk result (IsCopied self.old self.new id) }
    {
        let _ = self.nodes();
        let copy = self.reduced(Node::Cut(id, 0, 1));
        self.put(copy)?;
        Ok(())
    }

    // The constant that a node comes to, or else the node.
    fn reduced(&self, node: Node) -> Node
        requires { IsTrue (fits (widths self.now) node) }
        ensures fits { IsTrue (fits (widths self.now) result) }
        ensures same { MeansSame self.now node result }
        ensures constant { IsTrue (folds self.now node) → IsTrue (is_literal result) }
        ensures plain { IsFalse (folds self.now node) → result ≡ node }
        ensures either { (result ≡ node) ⊎ IsTrue (is_literal result) }
    {
        match self.folded(node) {
            Some(word) => Node::Constant(word.bits(), word.width()),
            None => node,
        }
    }

    // The Id of this very node, which is added where it isn't there.
    fn kept(&mut self, node: Node) -> Result<Id, AllocError>
        requires { IsTrue (fits (widths self.old) node) }
        ensures id { IfOk result (Stands self.new node) }
        ensures shares { OnOk result (Shares self.old self.new node) }
        ensures grows { (self.new ≡ self.old) ⊎ (self.new ≡ self.old ++ node ∷ []) }
        ensures ordered { IsTrue (is_ordered self.new) }
        ensures err { OnErr result (self.new ≡ self.old) }
    {
        match self.place(node) {
            Some(id) => Ok(id),
            None => self.put(node),
        }
    }

    // A place of this very node, where it is there.
    fn place(&self, node: Node) -> Option<Id>
        ensures there { IfSome result (λ i. Stands self.now node i) }
        ensures none { IfNone result (IsNode self.now node → ⊥) }
        ensures ordered { IsTrue (is_ordered self.now) }
    {
        let index = self.places.get(&node)?;
        Some(Id { index: *index })
    }

    /// The word of each node where the variables have these values.
    pub fn words(&self, alloc: Global, valuation: &Valuation) -> Result<Vec<Word>, AllocError>
        ensures widths { IfOk result (λ r. map (λ (w : BitVector). w.width) r.items ≡ widths self.now) }
        ensures values { IfOk result (λ r. map (λ (w : BitVector). w.bits) r.items ≡ values (valuation_of valuation.now) self.now) }
    {
        let mut words = Vec::with_capacity(alloc, self.nodes.len())?;
        for node in self.nodes() {
            let word = evaluate::word_of(*node, &words, valuation);
            words.push(word)?;
        }
        Ok(words)
    }

    /// The word of the node at this Id where the variables have these values, by one pass over the
    /// nodes.
    pub fn value(&self, alloc: Global, valuation: &Valuation, id: Id) -> Result<Word, AllocError>
        requires { Within self.now id }
        ensures { IfOk result (λ w. w ≡ word (width self.now id) (value (valuation_of valuation.now) self.now id)) }
    {
        let words = self.words(alloc, valuation)?;
        Ok(words[id.index])
    }

    // Whether the node fits behind the nodes of the graph.
    #[tactic(auto, using(crate::proofs::Folds::length_widths))]
    fn passes(&self, node: Node) -> bool
        ensures { result ≡ fits (widths self.now) node }
    {
        match node {
            Node::Constant(bits, width) => is_bits(bits, width),
            Node::Variable(_, width) => is_width(width),
            Node::Not(a) | Node::Negate(a) => self.has(a),
            Node::Binary(_, a, b) => self.are_alike(a, b),
            Node::Shift(_, a, count) => self.are_alike(a, count),
            Node::Compare(_, a, b) => self.are_alike(a, b),
            Node::Fits(_, a, b) => self.are_alike(a, b),
            Node::Choice(condition, a, b) => {
                self.has(condition) && self.width(condition) == 1 && self.are_alike(a, b)
            }
            Node::ZeroExtend(a, width) => self.has(a) && self.width(a) <= width && width <= 64,
            Node::SignExtend(a, width) => self.has(a) && self.width(a) <= width && width <= 64,
            Node::Cut(a, low, width) => self.has(a)
                && 1 <= width
                && is_part(low, width, self.width(a)),
            Node::Join(high, low) => {
                self.has(high) && self.has(low) && self.width(high) + self.width(low) <= 64
            }
            Node::Quantify(_, first, count) => self.are_bits(first.index, count),
        }
    }

    // Adds this very node.
    fn put(&mut self, node: Node) -> Result<Id, AllocError>
        requires { IsTrue (fits (widths self.old) node) }
        ensures ok { OnOk result (self.new ≡ self.old ++ node ∷ []) }
        ensures id { IfOk result (λ i. i ≡ record { index = length self.old }) }
        ensures err { OnErr result (self.new ≡ self.old) }
        ensures ordered { IsTrue (is_ordered self.new) }
    {
        let id = Id {
            index: self.nodes.len(),
        };
        let width = self.width_of(node);
        self.nodes.reserve(1)?;
        self.node_widths.reserve(1)?;
        note(&mut self.places, node, id.index)?;
        add(&mut self.node_widths, width);
        add(&mut self.nodes, node);
        Ok(id)
    }

    // The width of a node that fits.
    #[tactic(auto, using(crate::proofs::Folds::length_widths))]
    fn width_of(&self, node: Node) -> u32
        requires { IsTrue (fits (widths self.now) node) }
        ensures { result ≡ node_width (widths self.now) node }
    {
        match node {
            Node::Constant(_, width)
            | Node::Variable(_, width)
            | Node::ZeroExtend(_, width)
            | Node::SignExtend(_, width)
            | Node::Cut(_, _, width) => width,
            Node::Not(a)
            | Node::Negate(a)
            | Node::Binary(_, a, _)
            | Node::Shift(_, a, _)
            | Node::Choice(_, a, _) => self.width(a),
            Node::Compare(_, _, _) | Node::Fits(_, _, _) | Node::Quantify(_, _, _) => 1,
            Node::Join(high, low) => self.width(high) + self.width(low),
        }
    }

    // Whether this is a node of the graph.
    fn has(&self, id: Id) -> bool
        ensures { result ≡ is_there (widths self.now) id }
    {
        id.index < self.node_widths.len()
    }

    // Whether these are nodes of the graph and have one width.
    #[tactic(auto, using(crate::proofs::Folds::length_widths))]
    fn are_alike(&self, a: Id, b: Id) -> bool
        ensures { result ≡ are_alike (widths self.now) a b }
    {
        self.has(a) && self.has(b) && self.width(a) == self.width(b)
    }

    // Whether so many nodes from a place on are nodes of the graph and have width 1.
    fn are_bits(&self, first: usize, count: usize) -> bool
        ensures { result ≡ are_bits (widths self.now) first count }
    {
        let length = self.node_widths.len();
        if length < count || length - count < first {
            return false;
        }
        are_ones(&self.node_widths[first..first + count])
    }

    // The word of a node that is a constant.
    fn constant(&self, id: Id) -> Option<Word>
        requires { Within self.now id }
        ensures width { IfSome result (λ w. w.width ≡ width self.now id) }
        ensures bits { IfSome result (λ w. (v : ℕ → ℕ) → value v self.now id ≡ w.bits) }
        ensures some { is_some result ≡ is_constant self.now id }
    {
        match self.nodes[id.index] {
            Node::Constant(bits, width) => Some(Word::new(bits, width)),
            _ => None,
        }
    }

    // The operand that a choice by a constant takes.
    #[tactic(auto, using(crate::proofs::Folds::length_widths))]
    fn chosen(&self, node: Node) -> Option<Id>
        requires { IsTrue (fits (widths self.now) node) }
        ensures made { IfSome result (Makes self.now self.now node) }
        ensures some { is_some result ≡ chooses self.now node }
    {
        match node {
            Node::Choice(condition, a, b) => {
                let word = self.constant(condition)?;
                Some(if word.bits() > 0 { a } else { b })
            }
            _ => None,
        }
    }

    // The word of a node whose operands are constants.
    #[tactic(auto, using(crate::proofs::Folds::length_widths))]
    fn folded(&self, node: Node) -> Option<Word>
        requires { IsTrue (fits (widths self.now) node) }
        ensures decided { IfSome result (IsDecided self.now node) }
        ensures some { is_some result ≡ folds self.now node }
    {
        match node {
            Node::Constant(_, _)
            | Node::Variable(_, _)
            | Node::Choice(_, _, _)
            | Node::Quantify(_, _, _) => None,
            Node::Not(a) => Some(self.constant(a)?.not()),
            Node::Negate(a) => Some(self.constant(a)?.neg()),
            Node::Binary(operator, a, b) => Some(evaluate::binary(
                operator,
                self.constant(a)?,
                self.constant(b)?,
            )),
            Node::Shift(kind, a, count) => Some(evaluate::shift(
                kind,
                self.constant(a)?,
                self.constant(count)?,
            )),
            Node::Compare(comparison, a, b) => {
                let truth = evaluate::compare(comparison, self.constant(a)?, self.constant(b)?);
                Some(evaluate::bit(truth))
            }
            Node::Fits(test, a, b) => {
                let truth = evaluate::result_fits(test, self.constant(a)?, self.constant(b)?);
                Some(evaluate::bit(truth))
            }
            Node::ZeroExtend(a, width) => Some(self.constant(a)?.zext(width)),
            Node::SignExtend(a, width) => Some(self.constant(a)?.sext(width)),
            Node::Cut(a, low, width) => Some(evaluate::cut(self.constant(a)?, low, width)),
            Node::Join(high, low) => Some(evaluate::join(
                self.constant(high)?,
                self.constant(low)?,
            )),
        }
    }
}

// Adds an item where there is room for it.
fn add<T: Copy>(items: &mut Vec<T>, item: T)
    requires { vec_len items.old < vec_capacity items.old }
    ensures { items.new.items ≡ items.old.items ++ item ∷ [] }
{
    match items.push(item) {
        Ok(()) => {}
        Err(_) => unreachable!(),
    }
}

// Notes the place of a node that has none yet.
fn note(places: &mut IndexMap<Node, usize>, node: Node, place: usize) -> Result<(), AllocError>
    ensures ok { OnOk result (IsNoted ⟦<Node as PartialEq>⟧.eq places.old places.new node place) }
    ensures err { OnErr result (places.new.entries ≡ places.old.entries) }
{
    if places.contains_key(&node) {
        return Ok(());
    }
    places.insert(node, place)?;
    Ok(())
}

// Whether each number is 1.
fn are_ones(numbers: &[u32]) -> bool
    ensures { result ≡ list_all (λ n. n == 1) numbers.now }
{
    numbers.iter().all(|number| *number == 1)
}

// Whether this is a width from 1 to 64.
fn is_width(width: u32) -> bool
    ensures { result ≡ is_width width }
{
    1 <= width && width <= 64
}

// Whether these are bits of a word of this width.
fn is_bits(bits: u64, width: u32) -> bool
    ensures { result ≡ (is_width width && nat_lt bits (2 ^ width)) }
{
    is_width(width) && (width == 64 || bits < 1 << width)
}

// Whether the bits from `low` on, as many as `width` says, are among the lowest `whole`.
fn is_part(low: u32, width: u32, whole: u32) -> bool
    ensures { result ≡ nat_le (low + width) whole }
{
    low <= whole && width <= whole - low
}
