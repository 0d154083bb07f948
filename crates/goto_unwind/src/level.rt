//! Nodes that are being unrolled: of a function, or of a round of a loop.

ghost use Rattle.goto_prog.specs.Kinds.{with_kind};
ghost use Rattle.goto_prog.specs.Nodes.{done, nodes_of};
ghost use Rattle.std.specs.Prelude.{◌≡◌, MatchOption};
ghost use Rattle.goto_unwind.specs.Unroller.{followed};

use goto_prog::{Kind, Node, Procedure, kind_of};

/// Where a function that is called hands over: a block of so many bytes, and a register that tells whether
/// anything is handed over.
#[derive(Clone, Copy)]
pub(crate) struct Handing {
    pub block: usize,
    pub size: u32,
    pub register: usize,
}

/// An activation: its function with its first register and block, where it hands over, if its caller takes
/// anything, and how many places lie behind the one where it goes on at its end.
#[derive(Clone, Copy)]
pub(crate) struct Site<'a> {
    pub procedure: &'a Procedure,
    pub register: usize,
    pub block: usize,
    pub hands: Option<Handing>,
    pub back: usize,
}

/// A call: the number of the function, the first block with an argument, how many arguments there are, the
/// block that takes what is handed over, and the register that tells whether anything is.
#[derive(Clone, Copy)]
pub(crate) struct CallPlan {
    pub callee: u32,
    pub first: usize,
    pub count: usize,
    pub into: usize,
    pub returned: usize,
}

/// What is done where all nodes of a level stand in front: so many rounds of its loop are still to come; or
/// its function is called there, by an instruction, with so many arguments, from a block on, and so many
/// activations of it could be opened before.
#[derive(Clone, Copy)]
pub(crate) enum Turn {
    Rounds {
        count: u32,
    },
    Body {
        line: u32,
        function: u32,
        from: usize,
        count: usize,
        callee: u32,
        left: u32,
    },
}

/// The nodes of a function or a loop, of which those ahead, the first, are still to be put in front of the
/// code; how many places of theirs have marks, and how many others behind them in the same activation; and
/// the sizes of the caller's blocks from the first argument on.
#[derive(Clone, Copy)]
pub(crate) struct Level<'a> {
    pub site: Site<'a>,
    pub nodes: &'a [Node],
    pub ahead: &'a [Node],
    pub marked: usize,
    pub outer: usize,
    pub turn: Turn,
    pub arguments: &'a [u32],
}

/// The last of these nodes, and those before it.
#[tactic(auto, using(crate::proofs::Unrolls::last_is))]
pub(crate) fn last<'a>(nodes: &'a [Node]) -> Option<(Kind<'a>, &'a [Node])>
    ensures { MatchOption result (nodes_of nodes.now ≡ done) (λ r. nodes_of nodes.now ≡ followed (nodes_of r.1.now) (with_kind r.0 done)) }
{
    match nodes.split_last() {
        Some((node, rest)) => Some((kind_of(node), rest)),
        None => None,
    }
}
