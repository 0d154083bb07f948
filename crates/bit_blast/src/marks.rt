//! Which nodes a goal rests on.

ghost use Rattle.std.specs.Prelude.{◌≡◌, ◌<◌, length, IfOk};
ghost use Rattle.std.specs.List.{AllByRecursion};
ghost use Rattle.word_dag.specs.Growth.{Within};
ghost use Rattle.word_dag.specs.Meaning.{places};
ghost use Rattle.bit_blast.specs.Reach.{operands, AreMarks};
ghost use Rattle.bit_blast.specs.Marking.{with_marks};

use std::alloc::{AllocError, Global};
use word_dag::{Dag, Id, Node};

// Sets so many marks from a place on.
fn mark_places(marks: &mut Vec<bool>, first: usize, count: usize)
    requires { AllByRecursion (λ j. j < length marks.old.items) (places first count) }
    ensures { marks.new.items ≡ with_marks marks.old.items (places first count) }
{
    for at in 0..count {
        marks[first + at] = true;
    }
}

// Sets the marks of the nodes that this node reads.
fn mark_operands(marks: &mut Vec<bool>, node: Node)
    requires { AllByRecursion (λ j. j < length marks.old.items) (operands node) }
    ensures { marks.new.items ≡ with_marks marks.old.items (operands node) }
{
    match node {
        Node::Constant(_, _) | Node::Variable(_, _) => {}
        Node::Not(a)
        | Node::Negate(a)
        | Node::ZeroExtend(a, _)
        | Node::SignExtend(a, _)
        | Node::Cut(a, _, _) => marks[a.index] = true,
        Node::Binary(_, a, b)
        | Node::Shift(_, a, b)
        | Node::Compare(_, a, b)
        | Node::Fits(_, a, b)
        | Node::Join(a, b) => {
            marks[a.index] = true;
            marks[b.index] = true;
        }
        Node::Choice(condition, a, b) => {
            marks[condition.index] = true;
            marks[a.index] = true;
            marks[b.index] = true;
        }
        Node::Quantify(_, first, count) => mark_places(marks, first.index, count),
    }
}

/// A mark for each node, set where the goal leads to it.
pub fn marks_of(alloc: Global, dag: &Dag, goal: Id) -> Result<Vec<bool>, AllocError>
    requires { Within dag.now goal }
    ensures { IfOk result (λ marks. AreMarks dag.now goal.index marks.items) }
{
    let nodes = dag.nodes();
    let mut marks = vec![in alloc; false; nodes.len()]?;
    marks[goal.index] = true;
    for place in (0..nodes.len()).rev() {
        if marks[place] {
            mark_operands(&mut marks, nodes[place]);
        }
    }
    Ok(marks)
}
