//! Events over the nodes that stand for theirs, where each read gave what the store held.

ghost use Rattle.std.specs.Prelude.{◌≡◌, ◌+◌, ◌*◌, ◌≤◌, ◌-◌, ℕ, true, All, length, map, take, drop, min, IfOk, OnOk};
ghost use Rattle.event_forms.specs.Runs.{bytes_of_words};
ghost use Rattle.event_forms.specs.Forms.{AreWords, KindIn, EventIn, IsStaticKind, kind_seen, event_seen};
ghost use Rattle.event_forms.specs.Accesses.{same_bytes};
ghost use Rattle.rewritten_nodes.specs.Images.{KnownIn, Agrees};
ghost use Rattle.value_nodes.specs.Values.{IsWord, AreBytes};
ghost use Rattle.word_dag.specs.Growth.{Within, Extends};
ghost use Rattle.word_dag.specs.Meaning.{width, value, holds};

use event_forms::{Event, EventKind, Nodes};
use rewritten_nodes::Known;
use std::alloc::{AllocError, Global};
use value_nodes::{chosen, word_of_bytes};
use word_dag::{Dag, Id, Node};

// The nodes that stand for bytes.
fn images(
    alloc: Global,
    dag: &mut Dag,
    known: &mut Known,
    ids: &[Id],
) -> Result<Vec<Id>, AllocError>
    requires known { KnownIn dag.old known.old }
    requires ids { AreBytes dag.old ids.now }
    ensures extends { Extends dag.old dag.new }
    ensures known { OnOk result (KnownIn dag.new known.new) }
    ensures bytes { IfOk result (λ r. AreBytes dag.new r.items) }
    ensures values { IfOk result (λ r. (v : ℕ → ℕ) → Agrees v dag.old known.old → map (value v dag.new) r.items ≡ map (value v dag.old) ids.now) }
    ensures agrees { OnOk result ((v : ℕ → ℕ) → Agrees v dag.old known.old → Agrees v dag.new known.new) }
{
    let mut images = Vec::with_capacity(alloc, ids.len())?;
    for i in 0..ids.len() {
        let image = known.image(dag, ids[i])?;
        images.push(image)?;
    }
    Ok(images)
}

// A kind over the nodes that stand for its own, but for answers and for pointers, which are constants.
fn replaced_kind(
    alloc: Global,
    dag: &mut Dag,
    known: &mut Known,
    kind: &EventKind,
) -> Result<EventKind, AllocError>
    requires known { KnownIn dag.old known.old }
    requires kind { KindIn dag.old kind.now }
    requires plain { IsStaticKind dag.old kind.now }
    ensures extends { Extends dag.old dag.new }
    ensures known { OnOk result (KnownIn dag.new known.new) }
    ensures kind { IfOk result (KindIn dag.new) }
    ensures plain { IfOk result (IsStaticKind dag.new) }
    ensures same { IfOk result (λ k. (v : ℕ → ℕ) (line f : ℕ) → Agrees v dag.old known.old → kind_seen v dag.new line f k ≡ kind_seen v dag.old line f kind.now) }
    ensures agrees { OnOk result ((v : ℕ → ℕ) → Agrees v dag.old known.old → Agrees v dag.new known.new) }
{
    match kind {
        EventKind::Write {
            pointer,
            bytes,
            first,
        } => {
            let images = images(alloc, dag, known, bytes.as_slice())?;
            Ok(EventKind::Write {
                pointer: *pointer,
                bytes: Nodes::new(images),
                first: *first,
            })
        }
        EventKind::Check { class, failing } => {
            let failing = known.image(dag, *failing)?;
            Ok(EventKind::Check {
                class: *class,
                failing,
            })
        }
        EventKind::Assume { failing } => {
            let failing = known.image(dag, *failing)?;
            Ok(EventKind::Assume { failing })
        }
        EventKind::Draw { .. } | EventKind::Read { .. } | EventKind::Exit => {
            let same = kind.copied(alloc)?;
            Ok(same)
        }
        EventKind::Fill { .. }
        | EventKind::Look { .. }
        | EventKind::Alloc { .. }
        | EventKind::Die { .. }
        | EventKind::Free { .. } => unreachable!(),
    }
}

/// The event over the nodes that stand for its own, but for answers and for pointers, which stay what they are. Where what
/// is known holds, it tells the same.
pub fn replaced(
    alloc: Global,
    dag: &mut Dag,
    known: &mut Known,
    event: &Event,
) -> Result<Event, AllocError>
    requires known { KnownIn dag.old known.old }
    requires event { EventIn dag.old event.now }
    requires plain { IsStaticKind dag.old event.now.kind }
    ensures extends { Extends dag.old dag.new }
    ensures known { OnOk result (KnownIn dag.new known.new) }
    ensures event { IfOk result (EventIn dag.new) }
    ensures plain { IfOk result (λ e. IsStaticKind dag.new e.kind) }
    ensures same { IfOk result (λ e. (v : ℕ → ℕ) → Agrees v dag.old known.old → event_seen v dag.new e ≡ event_seen v dag.old event.now) }
    ensures agrees { OnOk result ((v : ℕ → ℕ) → Agrees v dag.old known.old → Agrees v dag.new known.new) }
{
    let guard = known.image(dag, event.guard)?;
    let kind = replaced_kind(alloc, dag, known, &event.kind)?;
    Ok(Event {
        guard,
        line: event.line,
        function: event.function,
        kind,
    })
}

// From now on the variable that a word is, if it is one, has the value of the other word where the guard is true.
fn learn_word(
    dag: &mut Dag,
    known: &mut Known,
    guard: Id,
    word: Id,
    held: Id,
) -> Result<(), AllocError>
    requires known { KnownIn dag.old known.old }
    requires guard { IsWord dag.old guard 1 }
    requires word { Within dag.old word }
    requires held { IsWord dag.old held (width dag.old word) }
    ensures extends { Extends dag.old dag.new }
    ensures known { OnOk result (KnownIn dag.new known.new) }
    ensures agrees { OnOk result ((v : ℕ → ℕ) → (holds (value v dag.old guard) ≡ true → value v dag.old word ≡ value v dag.old held) → Agrees v dag.old known.old → Agrees v dag.new known.new) }
{
    let _ = dag.nodes();
    match dag.node(word) {
        Node::Variable(variable, _) => {
            let id = chosen(dag, guard, held, word)?;
            known.insert(dag, variable, id)?;
            Ok(())
        }
        _ => Ok(()),
    }
}

/// From now on words of 8 bytes each, the last of the bytes that are left, are these bytes where the guard is true.
pub fn learn_words(
    dag: &mut Dag,
    known: &mut Known,
    guard: Id,
    words: &[Id],
    bytes: &[Id],
) -> Result<(), AllocError>
    requires known { KnownIn dag.old known.old }
    requires guard { IsWord dag.old guard 1 }
    requires words { AreWords dag.old (length bytes.now) words.now }
    requires bytes { AreBytes dag.old bytes.now }
    ensures extends { Extends dag.old dag.new }
    ensures known { OnOk result (KnownIn dag.new known.new) }
    ensures agrees { OnOk result ((v : ℕ → ℕ) → (holds (value v dag.old guard) ≡ true → same_bytes (bytes_of_words (length bytes.now) (map (value v dag.old) words.now)) (map (value v dag.old) bytes.now) ≡ true) → Agrees v dag.old known.old → Agrees v dag.new known.new) }
{
    let _ = dag.nodes();
    let mut at: usize = 0;
    for word in words {
        let size = (bytes.len() - at).min(8);
        let held = word_of_bytes(dag, &bytes[at..at + size])?;
        learn_word(dag, known, guard, *word, held)?;
        at += size;
    }
    Ok(())
}
