//! The formula of one thread: its goal, and what each answer has to be.

ghost use Rattle.std.specs.Prelude.{◌≡◌, ◌+◌, ◌<◌, ◌^◌, ℕ, Bool, true, ◌&&◌, [], All, length, IfOk};
ghost use Rattle.actions.specs.Behaviour.{Thread};
ghost use Rattle.actions.specs.Objects.{Objects};
ghost use Rattle.event_forms.specs.Forms.{EventIn, event_seen, FormIn, IsForm, IsStaticKind, AreStatic};
ghost use Rattle.interleave.specs.World.{first_world};
ghost use Rattle.event_forms.specs.Goals.{IsGoal};
ghost use Rattle.event_forms.specs.Formulas.{told_by, IsFormula, FormulaIn};
ghost use Rattle.event_forms.specs.Forms.{run_read};
ghost use Rattle.event_forms.specs.Accesses.{AreFirst, checked, agrees};
ghost use Rattle.mem_seq.specs.Notes.{NoteIn, IsNote, AreNotes};
ghost use Rattle.event_forms.specs.Turns.{breaks};
ghost use Rattle.mem_seq.specs.Goals.{breaks_from};
ghost use Rattle.mem_seq.specs.Chains.{PartIn, with_part};
ghost use Rattle.value_nodes.specs.Values.{IsWord, IsTest};
ghost use Rattle.word_dag.specs.Growth.{Extends};
ghost use Rattle.word_dag.specs.Meaning.{value, holds};

use crate::chain::{Chain, Part};
use crate::memory::{Note, notes};
use actions::Store;
use event_forms::{Event, EventKind, Formula, ThreadForm};
use points_to::Sets;
use std::alloc::{AllocError, Global};
use value_nodes::{both, either, inverse};
use word_dag::{Dag, Id};

// Whether a test holds where the guard is true.
fn under(dag: &mut Dag, guard: Id, test: Id) -> Result<Id, AllocError>
    requires guard { IsWord dag.old guard 1 }
    requires test { IsWord dag.old test 1 }
    ensures extends { Extends dag.old dag.new }
    ensures made { IfOk result (λ i. IsTest dag.new i (λ v. holds (value v dag.old guard) && holds (value v dag.old test))) }
{
    let id = both(dag, guard, test)?;
    Ok(id)
}

// What an event adds in a run from a store without objects, in which each access breaks a check.
fn part_alone(dag: &mut Dag, event: &Event) -> Result<Part, AllocError>
    requires event { EventIn dag.old event.now }
    requires plain { IsStaticKind dag.old event.now.kind }
    ensures extends { Extends dag.old dag.new }
    ensures within { IfOk result (PartIn dag.new) }
    ensures made { IfOk result (λ p. (v : ℕ → ℕ) (later : Bool) → breaks_from [] (event_seen v dag.old event.now) later ≡ with_part v dag.new p later) }
{
    match &event.kind {
        EventKind::Draw { .. } => Ok(Part::Nothing),
        EventKind::Read { .. } => Ok(Part::Breaks(event.guard)),
        EventKind::Write { .. } => Ok(Part::Breaks(event.guard)),
        EventKind::Exit => {
            let goes_on = inverse(dag, event.guard)?;
            Ok(Part::Needs(goes_on))
        }
        EventKind::Check { failing, .. } => {
            let broken = under(dag, event.guard, *failing)?;
            Ok(Part::Breaks(broken))
        }
        EventKind::Assume { failing } => {
            let ends = under(dag, event.guard, *failing)?;
            let goes_on = inverse(dag, ends)?;
            Ok(Part::Needs(goes_on))
        }
        EventKind::Fill { .. }
        | EventKind::Look { .. }
        | EventKind::Alloc { .. }
        | EventKind::Die { .. }
        | EventKind::Free { .. } => unreachable!(),
    }
}

// What an event adds in a run from the stores of which the note tells.
fn part_at(dag: &mut Dag, event: &Event, note: Note) -> Result<Part, AllocError>
    requires event { EventIn dag.old event.now }
    requires plain { IsStaticKind dag.old event.now.kind }
    requires note { NoteIn dag.old note }
    ensures extends { Extends dag.old dag.new }
    ensures within { IfOk result (PartIn dag.new) }
    ensures made { IfOk result (λ p. (stores : (ℕ → ℕ) → Objects) → IsNote stores dag.old event.now note → (v : ℕ → ℕ) (later : Bool) → breaks_from (stores v) (event_seen v dag.old event.now) later ≡ with_part v dag.new p later) }
{
    match note {
        Note::Passes => Ok(Part::Nothing),
        Note::Breaks => Ok(Part::Breaks(event.guard)),
        Note::Gives(test) => {
            let other = inverse(dag, event.guard)?;
            let given = either(dag, other, test)?;
            Ok(Part::Needs(given))
        }
        Note::Alone => part_alone(dag, event),
    }
}

// Whether each read of the run that the events tell gives what the store holds, and the run breaks a check.
fn goal(
    alloc: Global,
    dag: &mut Dag,
    store: &Store,
    events: &[Event],
    notes: &[Note],
) -> Result<Id, AllocError>
    requires within { FormIn dag.old events.now }
    requires plain { AreStatic dag.old events.now }
    requires notes_within { All (NoteIn dag.old) notes.now }
    requires notes { AreNotes (λ v. store.now) dag.old events.now notes.now }
    ensures extends { Extends dag.old dag.new }
    ensures made { IfOk result (λ i. IsTest dag.new i (λ v. agrees store.now (checked store.now (run_read v dag.old events.now)) && breaks (checked store.now (run_read v dag.old events.now)))) }
{
    let _ = store;
    let mut chain = Chain::new(alloc, dag)?;
    let mut at = events.len().min(notes.len());
    'looking: while at > 0 {
        at -= 1;
        let part = part_at(dag, &events[at], notes[at])?;
        chain.take(dag, part)?;
    }
    let goal = chain.finish(dag)?;
    Ok(goal)
}

// Whether the number of each object that a run of the form makes is told by 32 bits.
fn has_room(form: &ThreadForm) -> bool
    ensures { result ≡ true → length form.now.store + length form.now.events < 2 ^ 32 }
{
    let objects = form.store().len();
    let events = form.events().len();
    objects < 4_294_967_296 && events < 4_294_967_296 - objects
}

/// The formula of the runs of one thread that break a check, over the form of the thread and from its store
/// on. It keeps the form, so that each run of the thread has a valuation that tells it. The only error is that there is no
/// memory, or that objects and events are 2 ^ 32 or more. It doesn't say yet what accesses by pointers do, and the form has
/// none.
pub fn sequential(
    alloc: Global,
    dag: &mut Dag,
    form: &ThreadForm,
    _sets: &Sets,
) -> Result<Formula, AllocError>
    requires within { FormIn dag.old form.now.events }
    requires plain { AreStatic dag.old form.now.events }
    ensures extends { Extends dag.old dag.new }
    ensures within { IfOk result (λ f. FormulaIn dag.new f) }
    ensures plain { IfOk result (λ f. AreStatic dag.new f.form.events) }
    ensures form { IfOk result (λ f. (t : Thread) → IsForm t.behaves dag.old form.now.events → IsForm t.behaves dag.new f.form.events) }
    ensures formula { IfOk result (λ f. (t : Thread) → AreFirst form.now.store → IsForm t.behaves dag.old form.now.events → IsFormula (first_world t form.now.store) dag.new f) }
    ensures runs { IfOk result (λ f. (t : Thread) → AreFirst form.now.store → IsForm t.behaves dag.old form.now.events → IsGoal (first_world t form.now.store) dag.new f.goal (told_by dag.new f.form)) }
{
    if !has_room(form) {
        return Err(AllocError);
    }
    let noted = notes(alloc, dag, form.store(), form.events())?;
    let goal = goal(alloc, dag, form.store(), &noted.events, &noted.notes)?;
    let _ = dag.nodes();
    Ok(Formula {
        goal,
        form: form.copied(alloc)?,
    })
}
