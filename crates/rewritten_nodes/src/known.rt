//! What is known of the variables of a graph, and the nodes that stand for its nodes where it holds.

ghost use Rattle.std.specs.Prelude.{◌≡◌, ◌+◌, ◌<◌, ◌≤◌, ℕ, List, length, map, IfOk, IfSome, OnOk};
ghost use Rattle.words.specs.Operators.{low_bits};
ghost use Rattle.word_dag.specs.Growth.{Within, Extends};
ghost use Rattle.word_dag.specs.Meaning.{width, value, places};
ghost use Rattle.word_dag.specs.declared.nodes.Node.{Node};
ghost use Rattle.rewritten_nodes.specs.Images.{image, KnownIn, Agrees};

use crate::folding::simplified;
use crate::operands::{image, over};
use std::alloc::{AllocError, Global};
use std::collections::BTreeMap;
use word_dag::{Dag, Id, Node};

/// Known variables, each with the node that has its value; and for the first nodes of a graph, as many as were
/// needed so far, the nodes that have their values where the known variables have those of theirs.
#[derive(Drop)]
pub struct Known {
    alloc: Global,
    ids: Vec<Id>,
    nodes: BTreeMap<u32, Id>,
}

impl Known {
    /// Nothing is known.
    pub fn new(alloc: Global) -> Known
        ensures within { (d : List Node) → KnownIn d result }
        ensures agrees { (v : ℕ → ℕ) (d : List Node) → Agrees v d result }
    {
        Known {
            alloc,
            ids: Vec::new(alloc),
            nodes: BTreeMap::new(alloc),
        }
    }

    /// From now on a variable has the value of a node, cut to its width. Nodes that were asked for before stay
    /// what they are. The only error is that there is no memory.
    pub fn insert(&mut self, dag: &Dag, variable: u32, id: Id) -> Result<(), AllocError>
        requires within { KnownIn dag.now self.old }
        requires there { Within dag.now id }
        ensures within { OnOk result (KnownIn dag.now self.new) }
        ensures agrees { OnOk result ((v : ℕ → ℕ) → value v dag.now id ≡ low_bits (width dag.now id) (v variable) → Agrees v dag.now self.old → Agrees v dag.now self.new) }
    {
        let _ = dag.nodes();
        self.nodes.insert(variable, id)?;
        Ok(())
    }

    // The node of a variable of this width, if one is known.
    fn of_variable(&self, dag: &Dag, variable: u32, bits: u32) -> Option<Id>
        requires { KnownIn dag.now self.now }
        ensures there { IfSome result (Within dag.now) }
        ensures width { IfSome result (λ i. width dag.now i ≡ bits) }
        ensures value { IfSome result (λ i. (v : ℕ → ℕ) → Agrees v dag.now self.now → value v dag.now i ≡ low_bits bits (v variable)) }
    {
        match self.nodes.get(&variable) {
            Some(id) => {
                if dag.width(*id) == bits {
                    Some(*id)
                } else {
                    None
                }
            }
            None => None,
        }
    }

    // The nodes that stand for so many nodes from a place on, and whether one of them is another.
    fn images(&self, first: usize, count: usize) -> Result<(Vec<Id>, bool), AllocError>
        requires { first + count ≤ length self.now.ids.items }
        ensures { IfOk result (λ r. r.0.items ≡ map (λ j. image self.now.ids.items (record { index = j })) (places first count)) }
    {
        let mut images = Vec::with_capacity(self.alloc, count)?;
        let mut differs = false;
        for at in 0..count {
            let id = Id { index: first + at };
            let other = image(&self.ids, id);
            if other != id {
                differs = true;
            }
            images.push(other)?;
        }
        Ok((images, differs))
    }

    // The node that stands for the first one that has none yet.
    fn next(&self, dag: &mut Dag) -> Result<Id, AllocError>
        requires within { KnownIn dag.old self.now }
        requires more { length self.now.ids.items < length dag.old }
        ensures extends { Extends dag.old dag.new }
        ensures there { IfOk result (Within dag.new) }
        ensures width { IfOk result (λ i. width dag.new i ≡ width dag.old (record { index = length self.now.ids.items })) }
        ensures value { IfOk result (λ i. (v : ℕ → ℕ) → Agrees v dag.old self.now → value v dag.new i ≡ value v dag.old (record { index = length self.now.ids.items })) }
    {
        let _ = dag.nodes();
        let id = Id {
            index: self.ids.len(),
        };
        let node = dag.node(id);
        if let Node::Variable(variable, width) = node {
            return match self.of_variable(dag, variable, width) {
                Some(known) => Ok(known),
                None => Ok(id),
            };
        }
        if let Node::Quantify(quantifier, first, count) = node {
            let (images, differs) = self.images(first.index, count)?;
            if !differs {
                return Ok(id);
            }
            let made = dag.quantify(quantifier, &images)?;
            return Ok(made);
        }
        let other = over(&self.ids, node);
        if other == node {
            return Ok(id);
        }
        let made = simplified(dag, other)?;
        Ok(made)
    }

    // A node and those before it have one that stands for them.
    fn grow(&mut self, dag: &mut Dag, id: Id) -> Result<(), AllocError>
        requires within { KnownIn dag.old self.old }
        requires there { Within dag.old id }
        ensures extends { Extends dag.old dag.new }
        ensures within { OnOk result (KnownIn dag.new self.new) }
        ensures reached { OnOk result (id.index < length self.new.ids.items) }
        ensures agrees { OnOk result ((v : ℕ → ℕ) → Agrees v dag.old self.old → Agrees v dag.new self.new) }
    {
        'growing: while self.ids.len() <= id.index {
            let next = self.next(dag)?;
            self.ids.push(next)?;
        }
        Ok(())
    }

    /// The node that stands for a node of the graph, which is itself where nothing is known. The only error is that
    /// there is no memory.
    pub fn image(&mut self, dag: &mut Dag, id: Id) -> Result<Id, AllocError>
        requires within { KnownIn dag.old self.old }
        requires there { Within dag.old id }
        ensures extends { Extends dag.old dag.new }
        ensures within { OnOk result (KnownIn dag.new self.new) }
        ensures there { IfOk result (Within dag.new) }
        ensures width { IfOk result (λ i. width dag.new i ≡ width dag.old id) }
        ensures value { IfOk result (λ i. (v : ℕ → ℕ) → Agrees v dag.old self.old → value v dag.new i ≡ value v dag.old id) }
        ensures agrees { OnOk result ((v : ℕ → ℕ) → Agrees v dag.old self.old → Agrees v dag.new self.new) }
    {
        if self.nodes.is_empty() {
            return Ok(id);
        }
        self.grow(dag, id)?;
        Ok(self.ids[id.index])
    }
}
