//! A truth value that is put together from the last event of a form to the first.

ghost use Rattle.std.specs.Prelude.{◌≡◌, ℕ, [], false, IfOk, IfSome, OnOk};
ghost use Rattle.mem_seq.specs.Chains.{ChainIn, PartIn, joined, unit_of, chain_value, with_part};
ghost use Rattle.value_nodes.specs.Values.{IsTest};
ghost use Rattle.word_dag.specs.Growth.{Extends, IsTruthValue};
ghost use Rattle.word_dag.specs.Meaning.{value, holds};

use rewritten_nodes::truth;
use std::alloc::{AllocError, Global};
use value_nodes::{both, either};
use word_dag::{Dag, Id, Node, Quantifier};

/// What an event adds, by nodes of 1 bit, to what is later: nothing, a constraint that has to be true and
/// what is later, or a break that is to be true or what is later.
#[derive(Clone, Copy)]
pub enum Part {
    Nothing,
    Needs(Id),
    Breaks(Id),
}

/// What the parts of the events so far say: whether all of some nodes are true and a later one, or any of them
/// or a later one. So parts of one kind behind each other become one node.
#[derive(Drop)]
pub struct Chain {
    quantifier: Quantifier,
    parts: Vec<Id>,
    later: Id,
}

// The truth that says nothing beside others.
fn unit(quantifier: Quantifier) -> bool
    ensures { result ≡ unit_of quantifier }
{
    match quantifier {
        Quantifier::All => true,
        Quantifier::Any => false,
    }
}

// Whether both of two nodes are true, or one of them.
fn pair(dag: &mut Dag, quantifier: Quantifier, a: Id, b: Id) -> Result<Id, AllocError>
    requires a { IsTruthValue dag.old a }
    requires b { IsTruthValue dag.old b }
    ensures extends { Extends dag.old dag.new }
    ensures made { IfOk result (λ i. IsTest dag.new i (λ v. joined quantifier (holds (value v dag.old a)) (holds (value v dag.old b)))) }
{
    match quantifier {
        Quantifier::All => both(dag, a, b),
        Quantifier::Any => either(dag, a, b),
    }
}

impl Chain {
    /// Behind the last event, where no check is broken.
    pub fn new(alloc: Global, dag: &mut Dag) -> Result<Chain, AllocError>
        ensures extends { Extends dag.old dag.new }
        ensures within { IfOk result (ChainIn dag.new) }
        ensures truth { IfOk result (λ c. (v : ℕ → ℕ) → chain_value v dag.new c ≡ false) }
    {
        let later = dag.make(Node::Constant(0, 1))?;
        Ok(Chain {
            quantifier: Quantifier::Any,
            parts: Vec::new(alloc),
            later,
        })
    }

    // One node for the nodes so far.
    fn settle(&mut self, dag: &mut Dag) -> Result<(), AllocError>
        requires { ChainIn dag.old self.old }
        ensures extends { Extends dag.old dag.new }
        ensures within { OnOk result (ChainIn dag.new self.new) }
        ensures settled { OnOk result (self.new.parts.items ≡ []) }
        ensures truth { OnOk result ((v : ℕ → ℕ) → chain_value v dag.new self.new ≡ chain_value v dag.old self.old) }
    {
        if self.parts.is_empty() {
            return Ok(());
        }
        if self.parts.len() == 1 {
            self.later = pair(dag, self.quantifier, self.parts[0], self.later)?;
        } else {
            self.parts.push(self.later)?;
            self.later = dag.quantify(self.quantifier, &self.parts)?;
        }
        self.parts.clear();
        Ok(())
    }

    // One node more of the kind of those so far.
    fn append(&mut self, dag: &Dag, id: Id) -> Result<(), AllocError>
        requires within { ChainIn dag.now self.old }
        requires id { IsTruthValue dag.now id }
        ensures within { OnOk result (ChainIn dag.now self.new) }
        ensures truth { OnOk result ((v : ℕ → ℕ) → chain_value v dag.now self.new ≡ joined self.old.quantifier (holds (value v dag.now id)) (chain_value v dag.now self.old)) }
    {
        let _ = dag;
        self.parts.push(id)?;
        Ok(())
    }

    // All so far, in a form behind which nodes of this kind come.
    fn turn(&mut self, dag: &mut Dag, quantifier: Quantifier) -> Result<(), AllocError>
        requires { ChainIn dag.old self.old }
        ensures extends { Extends dag.old dag.new }
        ensures within { OnOk result (ChainIn dag.new self.new) }
        ensures kind { OnOk result (self.new.quantifier ≡ quantifier) }
        ensures truth { OnOk result ((v : ℕ → ℕ) → chain_value v dag.new self.new ≡ chain_value v dag.old self.old) }
    {
        if self.quantifier == quantifier {
            return Ok(());
        }
        self.settle(dag)?;
        self.quantifier = quantifier;
        Ok(())
    }

    // One node more, whose truth isn't known.
    fn push(&mut self, dag: &mut Dag, quantifier: Quantifier, id: Id) -> Result<(), AllocError>
        requires within { ChainIn dag.old self.old }
        requires id { IsTruthValue dag.old id }
        ensures extends { Extends dag.old dag.new }
        ensures within { OnOk result (ChainIn dag.new self.new) }
        ensures truth { OnOk result ((v : ℕ → ℕ) → chain_value v dag.new self.new ≡ joined quantifier (holds (value v dag.old id)) (chain_value v dag.old self.old)) }
    {
        self.turn(dag, quantifier)?;
        self.append(dag, id)?;
        Ok(())
    }

    // Only this node.
    fn only(&mut self, dag: &Dag, id: Id)
        requires { IsTruthValue dag.now id }
        ensures within { ChainIn dag.now self.new }
        ensures truth { (v : ℕ → ℕ) → chain_value v dag.now self.new ≡ holds (value v dag.now id) }
    {
        let _ = dag;
        self.parts.clear();
        self.later = id;
    }

    // The truth of all so far, where it is known.
    fn known(&self, dag: &Dag) -> Option<bool>
        requires { ChainIn dag.now self.now }
        ensures { IfSome result (λ b. (v : ℕ → ℕ) → chain_value v dag.now self.now ≡ b) }
    {
        if !self.parts.is_empty() {
            return None;
        }
        truth(dag, self.later)
    }

    // One node more. One of known truth adds nothing, or decides.
    fn add(&mut self, dag: &mut Dag, quantifier: Quantifier, id: Id) -> Result<(), AllocError>
        requires within { ChainIn dag.old self.old }
        requires id { IsTruthValue dag.old id }
        ensures extends { Extends dag.old dag.new }
        ensures within { OnOk result (ChainIn dag.new self.new) }
        ensures truth { OnOk result ((v : ℕ → ℕ) → chain_value v dag.new self.new ≡ joined quantifier (holds (value v dag.old id)) (chain_value v dag.old self.old)) }
    {
        if let Some(known) = truth(dag, id) {
            if known != unit(quantifier) {
                self.only(dag, id);
            }
            return Ok(());
        }
        if let Some(known) = self.known(dag) {
            if known == unit(quantifier) {
                self.only(dag, id);
            }
            return Ok(());
        }
        self.push(dag, quantifier, id)?;
        Ok(())
    }

    /// The part of the event before those so far.
    pub fn take(&mut self, dag: &mut Dag, part: Part) -> Result<(), AllocError>
        requires within { ChainIn dag.old self.old }
        requires part { PartIn dag.old part }
        ensures extends { Extends dag.old dag.new }
        ensures within { OnOk result (ChainIn dag.new self.new) }
        ensures truth { OnOk result ((v : ℕ → ℕ) → chain_value v dag.new self.new ≡ with_part v dag.old part (chain_value v dag.old self.old)) }
    {
        match part {
            Part::Nothing => {}
            Part::Needs(id) => self.add(dag, Quantifier::All, id)?,
            Part::Breaks(id) => self.add(dag, Quantifier::Any, id)?,
        }
        Ok(())
    }

    /// The node of it all.
    pub fn finish(self, dag: &mut Dag) -> Result<Id, AllocError>
        requires { ChainIn dag.old self }
        ensures extends { Extends dag.old dag.new }
        ensures made { IfOk result (λ i. IsTest dag.new i (λ v. chain_value v dag.old self)) }
    {
        let mut chain = self;
        chain.settle(dag)?;
        let _ = dag.nodes();
        Ok(chain.later)
    }
}
