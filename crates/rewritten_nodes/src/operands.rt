//! A node over other operands.

ghost use Rattle.std.specs.Prelude.{◌≡◌};
ghost use Rattle.rewritten_nodes.specs.Images.{image, over};

use word_dag::{Id, Node};

/// The node that stands for a node, which is itself where the list doesn't reach it.
pub fn image(ids: &[Id], id: Id) -> Id
    ensures { result ≡ image ids.now id }
{
    if id.index < ids.len() {
        ids[id.index]
    } else {
        id
    }
}

/// The node over those that stand for its operands. A node over a list is left as it is: those that stand for
/// the nodes of the list need not stand one behind the other.
pub fn over(ids: &[Id], node: Node) -> Node
    ensures { result ≡ over ids.now node }
{
    match node {
        Node::Constant(_, _) | Node::Variable(_, _) => node,
        Node::Not(a) => Node::Not(image(ids, a)),
        Node::Negate(a) => Node::Negate(image(ids, a)),
        Node::Binary(operator, a, b) => Node::Binary(operator, image(ids, a), image(ids, b)),
        Node::Shift(kind, a, count) => Node::Shift(kind, image(ids, a), image(ids, count)),
        Node::Compare(comparison, a, b) => {
            Node::Compare(comparison, image(ids, a), image(ids, b))
        }
        Node::Fits(test, a, b) => Node::Fits(test, image(ids, a), image(ids, b)),
        Node::Choice(condition, a, b) => {
            Node::Choice(image(ids, condition), image(ids, a), image(ids, b))
        }
        Node::ZeroExtend(a, width) => Node::ZeroExtend(image(ids, a), width),
        Node::SignExtend(a, width) => Node::SignExtend(image(ids, a), width),
        Node::Cut(a, low, width) => Node::Cut(image(ids, a), low, width),
        Node::Join(high, low) => Node::Join(image(ids, high), image(ids, low)),
        Node::Quantify(_, _, _) => node,
    }
}
