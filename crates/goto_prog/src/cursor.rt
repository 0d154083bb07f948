//! Where code of a function stands: the nodes that are left, and the loops around them.

ghost use Rattle.std.specs.Prelude.{◌≡◌, ◌+◌, ◌≤◌, ◌∷◌, [], IfOk, OnOk, OnErr};
ghost use Rattle.std.specs.Prelude.{option_map};
ghost use Rattle.goto_prog.specs.CursorViews.{level_of};
ghost use Rattle.goto_prog.specs.Nodes.{Nodes, with_node};
ghost use Rattle.goto_prog.specs.Kinds.{with_kind, IsFirst};
ghost use Rattle.goto_prog.specs.Walking.{first_level, next_place, landed, next_round, into_loop};

use crate::nodes::{Kind, Node, kind_of};
use std::alloc::{AllocError, Global};
use std::marker::Model;

/// A loop that code stands in: its line and function, how many rounds more it may have, its nodes, and the
/// nodes behind it.
#[derive(Clone, Copy)]
pub struct LoopLevel<'a> {
    pub line: u32,
    pub function: u32,
    pub left: u32,
    body: &'a [Node],
    behind: &'a [Node],
}

/// Where code stands: the nodes that are left, and the loops around them, the innermost last.
#[derive(Drop)]
pub struct Cursor<'a> {
    nodes: &'a [Node],
    levels: Vec<LoopLevel<'a>>,
}

impl<'a> Model for Cursor<'a> {
    ghost use Rattle.goto_prog.specs.CursorViews.{levels_of};
    ghost use Rattle.goto_prog.specs.Walking as walking;
    ghost use Rattle.std.specs.Coded.{codes};
    ghost use Rattle.goto_prog.specs.contracts.nodes.Node as node;

    ghost Value = { walking.Cursor };

    ghost coded = { Prim.hlevel (codes, node.the_row.coded) };

    ghost view = { λ p. record { nodes = p.nodes.now; levels = levels_of p.levels.items } };
}

impl<'a> Cursor<'a> {
    /// Before the first of these nodes.
    pub fn new(alloc: Global, nodes: &'a [Node]) -> Cursor<'a>
        ensures { result ≡ record { nodes = nodes.now; levels = [] } }
    {
        Cursor {
            nodes,
            levels: Vec::new(alloc),
        }
    }

    /// The node that is next, if one is.
    #[tactic(auto, using(crate::proofs::NodeViews::first_is))]
    pub fn first(&self) -> Option<Kind<'a>>
        ensures { IsFirst result self.now.nodes }
    {
        match self.nodes.split_first() {
            Some((node, _)) => Some(kind_of(node)),
            None => None,
        }
    }

    /// The innermost loop around the place, if there is one.
    #[tactic(auto, using(crate::proofs::Levels::levels_push))]
    pub fn level(&self) -> Option<LoopLevel<'a>>
        ensures { option_map level_of result ≡ first_level (self.now).levels }
    {
        match self.levels.as_slice().split_last() {
            Some((level, _)) => Some(*level),
            None => None,
        }
    }

    /// Goes to the first node of another round of the innermost loop.
    #[tactic(auto, using(crate::proofs::Levels::levels_push))]
    pub fn again(&mut self)
        ensures { self.new ≡ next_round self.old }
    {
        if let Some(level) = self.levels.pop() {
            self.nodes = level.body;
            let next = LoopLevel {
                left: level.left.saturating_sub(1),
                ..level
            };
            match self.levels.push(next) {
                Ok(()) => {}
                Err(_) => unreachable!(),
            }
        }
    }

    /// Goes to the end of a round of a loop that is next, and may have so many rounds.
    #[tactic(auto, using(crate::proofs::Levels::levels_push))]
    pub fn enter(
        &mut self,
        line: u32,
        function: u32,
        left: u32,
        body: &'a [Node],
    ) -> Result<(), AllocError>
        ensures ok { OnOk result (self.new ≡ into_loop line function left body.now self.old) }
        ensures err { OnErr result (self.new ≡ self.old) }
    {
        let behind = match self.nodes.split_first() {
            Some((_, rest)) => rest,
            None => &[],
        };
        self.levels.push(LoopLevel {
            line,
            function,
            left,
            body,
            behind,
        })?;
        self.nodes = &[];
        Ok(())
    }

    // Goes to the next place.
    #[tactic(auto, using(crate::proofs::Levels::levels_push))]
    fn pass(&mut self)
        ensures { self.new ≡ next_place self.old }
    {
        match self.nodes.split_first() {
            Some((_, rest)) => self.nodes = rest,
            None => match self.levels.pop() {
                Some(level) => self.nodes = level.behind,
                None => {}
            },
        }
    }

    // Goes to the place behind `count` others.
    fn jump(&mut self, count: usize)
        ensures { self.new ≡ landed count self.old }
    {
        for _ in 0..count {
            self.pass();
        }
    }

    /// Goes past the next place, and to the place behind `count` others.
    pub fn advance(&mut self, count: usize)
        ensures { self.new ≡ landed count (next_place self.old) }
    {
        self.pass();
        self.jump(count);
    }
}
