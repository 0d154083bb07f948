//! The code of a function as nodes: instructions, and loops with nodes of their own.

ghost use Rattle.std.specs.Prelude.{◌≡◌};
ghost use Rattle.goto_prog.specs.Kinds.{with_kind};
ghost use Rattle.goto_prog.specs.Nodes.{Nodes, with_node};

use crate::code::Instruction;
use c_types::IntegerType;
use core_tree::Name;

/// A piece of the code of a function.
#[derive(Drop)]
pub enum Node {
    Plain {
        instruction: Instruction,
    },
    /// Code that is run again each time its end is reached: the loop with this number of a function, with
    /// the line of its keyword. As many rounds are run at an arrival as the loop's test may be evaluated,
    /// one fewer where the first test stands before the loop, which is then `rotated`.
    Loop {
        line: u32,
        function: u32,
        number: u32,
        rotated: bool,
        nodes: Vec<Node>,
    },
}

/// The code of a function: its name, the line of that, the types of its registers, the sizes of its blocks
/// in bytes, the first of which take the bytes of its arguments, and its nodes; and whether a thread can be
/// started in it. A jump counts the places behind it: the nodes behind it at its own level, then, for each
/// loop that it stands in from the innermost on, the loop's next round and the nodes behind the loop, and
/// last the end of the function.
#[derive(Drop)]
pub struct Procedure {
    pub name: Name,
    pub line: u32,
    pub registers: Vec<IntegerType>,
    pub blocks: Vec<u32>,
    pub nodes: Vec<Node>,
    pub startable: bool,
}

/// What a node is.
#[derive(Clone, Copy)]
pub enum Kind<'a> {
    Plain(Instruction),
    Loop {
        line: u32,
        function: u32,
        number: u32,
        rotated: bool,
        nodes: &'a [Node],
    },
}

/// What a node is, which is lent on.
pub fn kind_of<'a>(node: &'a Node) -> Kind<'a>
    ensures { (rest : Nodes) → with_node node.now rest ≡ with_kind result rest }
{
    match node {
        Node::Plain { instruction } => Kind::Plain(*instruction),
        Node::Loop {
            line,
            function,
            number,
            rotated,
            nodes,
        } => Kind::Loop {
            line: *line,
            function: *function,
            number: *number,
            rotated: *rotated,
            nodes: nodes.as_slice(),
        },
    }
}
