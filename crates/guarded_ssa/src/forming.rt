//! The form of a thread out of unrolled code.

ghost use Rattle.std.specs.Prelude.{◌≡◌, ℕ, true, ◌∷◌, Some, None, length, replicate, IfOk};
ghost use Rattle.word_dag.specs.Growth.{Extends};
ghost use Rattle.goto_prog.specs.CodeThread.{first_memory};
ghost use Rattle.goto_prog.specs.Flat.{main_code, plain_thread};
ghost use Rattle.goto_prog.specs.Static.{is_static_code};
ghost use Rattle.guarded_ssa.specs.inner.Places.{told};
ghost use Rattle.event_forms.specs.Forms.{FormIn, AreForms, AreStatic, AreStaticForms, seen};

use crate::answers::variables_of;
use crate::liveness::Plan;
use crate::pass::Pass;
use event_forms::{Event, ThreadForm};
use goto_prog::{Code, Unrolled};
use std::alloc::{AllocError, Global};
use word_dag::Dag;

// The events of code, by one pass over it.
fn events_of(alloc: Global, dag: &mut Dag, code: &Code) -> Result<Vec<Event>, AllocError>
    ensures extends { Extends dag.old dag.new }
    ensures within { IfOk result (λ es. FormIn dag.new es.items) }
    ensures plain { is_static_code code.now.instructions ≡ true → IfOk result (λ es. AreStatic dag.new es.items) }
    ensures told { IfOk result (λ es. (v : ℕ → ℕ) → seen v dag.new es.items ≡ told v code.now.blocks 0 code.now.instructions (Some (first_memory code.now) ∷ replicate (length code.now.instructions) None)) }
{
    let instructions = code.instructions();
    if instructions.len() > u32::MAX as usize {
        return Err(AllocError);
    }
    let plan = Plan::new(alloc, code)?;
    let mut pass = Pass::start(dag, &plan)?;
    let mut variable = 0;
    for place in 0..instructions.len() {
        let i = instructions[place];
        let next = variable + variables_of(code.blocks(), i.operation) as usize;
        if next > 4_294_967_296 {
            return Err(AllocError);
        }
        pass.visit(dag, &plan, place, variable, i)?;
        variable = next;
    }
    Ok(pass.events)
}

/// The form of thread 0 of unrolled code, over nodes that are made in the graph, with the code's store at the
/// start. The answers to its actions are variables, numbered from 0 in the order of the code: one for a draw, for a look at
/// a size and for the number of an object, and one for each word of 8 bytes of a read and of a draw of several words. Where
/// there is no memory, or the number of a place or of a variable isn't below 2 ^ 32, the graph may have grown.
pub fn threads(
    alloc: Global,
    unrolled: &Unrolled,
    dag: &mut Dag,
) -> Result<Vec<ThreadForm>, AllocError>
    ensures extends { Extends dag.old dag.new }
    ensures forms { IfOk result (λ fs. AreForms (plain_thread unrolled.now).behaves unrolled.now.store dag.new fs.items) }
    ensures plain { is_static_code (main_code unrolled.now).instructions ≡ true → IfOk result (λ fs. AreStaticForms dag.new fs.items) }
{
    let code = unrolled.main();
    let _ = code.instructions();
    let events = events_of(alloc, dag, code)?;
    let mut forms = Vec::new(alloc);
    forms.push(ThreadForm::new(events, unrolled.store().clone()?))?;
    Ok(forms)
}
