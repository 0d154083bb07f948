//! What the events of a form do with the store, from the first to the last.

ghost use Rattle.std.specs.Prelude.{◌≡◌, ◌+◌, ◌≤◌, ◌^◌, ℕ, List, All, None, false, true, length, map, drop, IfOk, OnOk, if◌then◌else◌};
ghost use Rattle.std.specs.Ordering.{nat_cmp};
ghost use Rattle.std.specs.BTreeMap as tree;
ghost use Rattle.actions.specs.Pointer.{offset_of};
ghost use Rattle.actions.specs.Objects.{Objects, bytes_at, with_bytes, break_in};
ghost use Rattle.event_forms.specs.Runs.{bytes_of_words};
ghost use Rattle.event_forms.specs.Forms.{AreWords, IsBit, EventIn, FormIn, IsFixed, IsStaticKind, AreStatic, event_seen, seen};
ghost use Rattle.event_forms.specs.Accesses.{same_bytes, behind};
ghost use Rattle.mem_seq.specs.Goals.{breaks_from, gives};
ghost use Rattle.mem_seq.specs.Memories.{MemoryIn, StandsFor, value_or, put_from, written_in};
ghost use Rattle.mem_seq.specs.Notes.{NoteIn, IsNote, AreNotes};
ghost use Rattle.rewritten_nodes.specs.Images.{KnownIn, Agrees};
ghost use Rattle.value_nodes.specs.Values.{IsWord, IsValue, IsTest, AreBytes};
ghost use Rattle.word_dag.specs.Growth.{Extends};
ghost use Rattle.word_dag.specs.Meaning.{value, holds};
ghost use Rattle.word_dag.specs.declared.nodes.Node.{Node};

use crate::replacing::{learn_words, replaced};
use actions::{AccessError, Store};
use event_forms::{Event, EventKind};
use rewritten_nodes::{Known, side};
use std::alloc::{AllocError, Global};
use std::collections::BTreeMap;
use value_nodes::{both, chosen, equal, word_of_bytes};
use word_dag::{Dag, Id, Node};

/// What is noted of an event, where its guard is true: the run goes on; its access breaks a check; it goes
/// on where this node is true, since its read gives there what the store holds; or what it does is the same
/// whatever the store holds.
#[derive(Clone, Copy)]
pub enum Note {
    Passes,
    Breaks,
    Gives(Id),
    Alone,
}

// The bytes that were written so far, by the pointers to them, as nodes of 8 bits; the others are as in the
// store.
#[derive(Drop)]
struct Memory<'a> {
    alloc: Global,
    store: &'a Store,
    written: BTreeMap<u64, Id>,
}

// The bits of a pointer that is a constant.
fn fixed(dag: &Dag, pointer: Id) -> u64
    requires { IsFixed dag.now pointer }
    ensures { (v : ℕ → ℕ) → value v dag.now pointer ≡ result }
{
    let _ = dag.nodes();
    match dag.node(pointer) {
        Node::Constant(bits, _) => bits,
        _ => unreachable!(),
    }
}

// Whether words of 8 bytes each, the last of the bytes that are left, are these bytes.
fn are_words_of(dag: &mut Dag, words: &[Id], bytes: &[Id]) -> Result<Id, AllocError>
    requires words { AreWords dag.old (length bytes.now) words.now }
    requires bytes { AreBytes dag.old bytes.now }
    ensures extends { Extends dag.old dag.new }
    ensures made { IfOk result (λ i. IsTest dag.new i (λ v. same_bytes (bytes_of_words (length bytes.now) (map (value v dag.old) words.now)) (map (value v dag.old) bytes.now))) }
{
    let _ = dag.nodes();
    let mut all = dag.make(Node::Constant(1, 1))?;
    let mut at: usize = 0;
    for word in words {
        let size = (bytes.len() - at).min(8);
        let held = word_of_bytes(dag, &bytes[at..at + size])?;
        let same = equal(dag, *word, held, 8 * size as u32)?;
        all = both(dag, all, same)?;
        at += size;
    }
    Ok(all)
}

// The first bytes where the test is true, else the second.
fn chosen_bytes(
    alloc: Global,
    dag: &mut Dag,
    test: Id,
    first: &[Id],
    second: &[Id],
) -> Result<Vec<Id>, AllocError>
    requires test { IsWord dag.old test 1 }
    requires first { AreBytes dag.old first.now }
    requires second { AreBytes dag.old second.now }
    requires size { length first.now ≡ length second.now }
    ensures extends { Extends dag.old dag.new }
    ensures bytes { IfOk result (λ ids. AreBytes dag.new ids.items) }
    ensures size { IfOk result (λ ids. length ids.items ≡ length first.now) }
    ensures values { IfOk result (λ ids. (v : ℕ → ℕ) → map (value v dag.new) ids.items ≡ (if holds (value v dag.old test) then map (value v dag.old) first.now else map (value v dag.old) second.now)) }
{
    let mut ids = Vec::with_capacity(alloc, first.len())?;
    for i in 0..first.len() {
        let id = chosen(dag, test, first[i], second[i])?;
        ids.push(id)?;
    }
    Ok(ids)
}

// The bytes where the guard is true: choices that it decides are looked through.
fn decided(alloc: Global, dag: &Dag, guard: Id, ids: &[Id]) -> Result<Vec<Id>, AllocError>
    requires guard { IsWord dag.now guard 1 }
    requires ids { AreBytes dag.now ids.now }
    ensures bytes { IfOk result (λ r. AreBytes dag.now r.items) }
    ensures size { IfOk result (λ r. length r.items ≡ length ids.now) }
    ensures values { IfOk result (λ r. (v : ℕ → ℕ) → holds (value v dag.now guard) ≡ true → map (value v dag.now) r.items ≡ map (value v dag.now) ids.now) }
{
    let _ = dag.nodes();
    let mut sides = Vec::with_capacity(alloc, ids.len())?;
    for i in 0..ids.len() {
        let id = side(dag, guard, ids[i], true);
        sides.push(id)?;
    }
    Ok(sides)
}

impl<'a> Memory<'a> {
    // At the start.
    fn new(alloc: Global, store: &'a Store) -> Memory<'a>
        ensures within { (d : List Node) → MemoryIn d result }
        ensures store { result.store.now ≡ store.now }
        ensures start { (v : ℕ → ℕ) (d : List Node) → StandsFor v d result store.now }
    {
        Memory {
            alloc,
            store,
            written: BTreeMap::new(alloc),
        }
    }

    // The bytes of an access that breaks no check lie below 2 ^ 32 in their object.
    fn count_of(&self, writes: bool, p: u64, count: usize) -> u32
        requires { break_in self.now.store.now writes p count ≡ None }
        ensures same { result ≡ count }
        ensures inside { offset_of p + count ≤ 2 ^ 32 }
    {
        match self.store.look(p) {
            Ok(_size) => count as u32,
            Err(_) => unreachable!(),
        }
    }

    // The node of the byte that a pointer points to, which is `first` in the store.
    fn byte(&self, dag: &mut Dag, p: u64, first: u8) -> Result<Id, AllocError>
        requires { MemoryIn dag.old self.now }
        ensures extends { Extends dag.old dag.new }
        ensures made { IfOk result (λ i. IsValue dag.new i 8 (λ v. value_or v dag.old (written_in self.now p) first)) }
    {
        match self.written.get(&p) {
            Some(id) => Ok(*id),
            None => {
                let id = dag.make(Node::Constant(first as u64, 8))?;
                Ok(id)
            }
        }
    }

    // The bytes that an access finds, so many.
    fn bytes(&self, dag: &mut Dag, p: u64, count: u32) -> Result<Vec<Id>, AllocError>
        requires within { MemoryIn dag.old self.now }
        requires there { break_in self.now.store.now false p count ≡ None }
        requires inside { offset_of p + count ≤ 2 ^ 32 }
        ensures extends { Extends dag.old dag.new }
        ensures bytes { IfOk result (λ ids. AreBytes dag.new ids.items) }
        ensures size { IfOk result (λ ids. length ids.items ≡ count) }
        ensures held { IfOk result (λ ids. length (bytes_at self.now.store.now p count) ≡ count) }
        ensures values { IfOk result (λ ids. (v : ℕ → ℕ) (objects : Objects) → StandsFor v dag.old self.now objects → map (value v dag.new) ids.items ≡ bytes_at objects p count) }
    {
        let first = match self.store.read(p, count) {
            Ok(bytes) => bytes,
            Err(AccessError::Memory) => return Err(AllocError),
            Err(AccessError::Broken(_)) => unreachable!(),
        };
        let bytes = first.as_slice();
        let mut ids = Vec::with_capacity(self.alloc, bytes.len())?;
        for i in 0..bytes.len() {
            let id = self.byte(dag, p + i as u64, bytes[i])?;
            ids.push(id)?;
        }
        Ok(ids)
    }

    // The bytes that an access finds where its guard is true, so many.
    fn found(&self, dag: &mut Dag, guard: Id, p: u64, count: u32) -> Result<Vec<Id>, AllocError>
        requires within { MemoryIn dag.old self.now }
        requires guard { IsWord dag.old guard 1 }
        requires there { break_in self.now.store.now false p count ≡ None }
        requires inside { offset_of p + count ≤ 2 ^ 32 }
        ensures extends { Extends dag.old dag.new }
        ensures bytes { IfOk result (λ ids. AreBytes dag.new ids.items) }
        ensures size { IfOk result (λ ids. length ids.items ≡ count) }
        ensures values { IfOk result (λ ids. (v : ℕ → ℕ) (objects : Objects) → StandsFor v dag.old self.now objects → holds (value v dag.old guard) ≡ true → map (value v dag.new) ids.items ≡ bytes_at objects p count) }
    {
        let bytes = self.bytes(dag, p, count)?;
        let sides = decided(self.alloc, dag, guard, &bytes)?;
        Ok(sides)
    }

    // Whether the words are what an access that breaks no check finds, so many bytes, where its guard is true.
    fn gives(
        &self,
        dag: &mut Dag,
        guard: Id,
        p: u64,
        count: u32,
        words: &[Id],
    ) -> Result<Id, AllocError>
        requires within { MemoryIn dag.old self.now }
        requires guard { IsWord dag.old guard 1 }
        requires words { AreWords dag.old count words.now }
        requires there { break_in self.now.store.now false p count ≡ None }
        ensures extends { Extends dag.old dag.new }
        ensures bit { IfOk result (IsBit dag.new) }
        ensures given { IfOk result (λ i. (v : ℕ → ℕ) (objects : Objects) → StandsFor v dag.old self.now objects → holds (value v dag.old guard) ≡ true → holds (value v dag.new i) ≡ same_bytes (bytes_of_words count (map (value v dag.old) words.now)) (bytes_at objects p count)) }
    {
        let size = self.count_of(false, p, count as usize);
        let held = self.found(dag, guard, p, size)?;
        let same = are_words_of(dag, words, &held)?;
        Ok(same)
    }

    // These nodes stand for the bytes from a pointer on.
    fn put(&mut self, p: u64, bytes: &[Id]) -> Result<(), AllocError>
        requires { offset_of p + length bytes.now ≤ 2 ^ 32 }
        ensures store { self.new.store.now ≡ self.old.store.now }
        ensures put { IfOk result (λ done. (q : ℕ) → written_in self.new q ≡ put_from p bytes.now (written_in self.old) q) }
    {
        for i in 0..bytes.len() {
            self.written.insert(p + i as u64, bytes[i])?;
        }
        Ok(())
    }

    // Where the guard is true, bytes take the place of as many from a pointer on.
    fn write(&mut self, dag: &mut Dag, guard: Id, p: u64, new: &[Id]) -> Result<(), AllocError>
        requires within { MemoryIn dag.old self.old }
        requires guard { IsWord dag.old guard 1 }
        requires new { AreBytes dag.old new.now }
        requires there { break_in self.old.store.now true p (length new.now) ≡ None }
        ensures extends { Extends dag.old dag.new }
        ensures within { IfOk result (λ done. MemoryIn dag.new self.new) }
        ensures store { self.new.store.now ≡ self.old.store.now }
        ensures stands { IfOk result (λ done. (v : ℕ → ℕ) (objects : Objects) → StandsFor v dag.old self.old objects → StandsFor v dag.new self.new (if holds (value v dag.old guard) then with_bytes objects p (map (value v dag.old) new.now) else objects)) }
    {
        let count = self.count_of(true, p, new.len());
        let old = self.bytes(dag, p, count)?;
        let bytes = chosen_bytes(self.alloc, dag, guard, new, &old)?;
        self.put(p, &bytes)?;
        Ok(())
    }

    // From now on the words of a read's answer are what the store holds, where its guard is true and it breaks no
    // check.
    fn learn(&self, dag: &mut Dag, known: &mut Known, event: &Event) -> Result<(), AllocError>
        requires within { MemoryIn dag.old self.now }
        requires known { KnownIn dag.old known.old }
        requires event { EventIn dag.old event.now }
        requires plain { IsStaticKind dag.old event.now.kind }
        ensures extends { Extends dag.old dag.new }
        ensures known { OnOk result (KnownIn dag.new known.new) }
        ensures agrees { OnOk result ((v : ℕ → ℕ) (objects : Objects) → StandsFor v dag.old self.now objects → gives objects (event_seen v dag.old event.now) ≡ true → Agrees v dag.old known.old → Agrees v dag.new known.new) }
    {
        match &event.kind {
            EventKind::Read {
                pointer,
                count,
                answer,
            } => {
                let p = fixed(dag, *pointer);
                if self.store.break_of(false, p, *count as usize).is_some() {
                    return Ok(());
                }
                let size = self.count_of(false, p, *count as usize);
                let held = self.found(dag, event.guard, p, size)?;
                learn_words(dag, known, event.guard, answer.as_slice(), &held)?;
                Ok(())
            }
            _ => Ok(()),
        }
    }

    // What is noted of an event; then the memory is that behind it.
    fn note(&mut self, dag: &mut Dag, event: &Event) -> Result<Note, AllocError>
        requires within { MemoryIn dag.old self.old }
        requires event { EventIn dag.old event.now }
        requires plain { IsStaticKind dag.old event.now.kind }
        ensures extends { Extends dag.old dag.new }
        ensures within { IfOk result (λ note. MemoryIn dag.new self.new) }
        ensures store { self.new.store.now ≡ self.old.store.now }
        ensures note_within { IfOk result (λ note. NoteIn dag.new note) }
        ensures note { IfOk result (λ note. (stores : (ℕ → ℕ) → Objects) → ((v : ℕ → ℕ) → StandsFor v dag.old self.old (stores v)) → IsNote stores dag.new event.now note) }
        ensures behind { IfOk result (λ note. (v : ℕ → ℕ) (objects : Objects) → StandsFor v dag.old self.old objects → StandsFor v dag.new self.new (behind objects (event_seen v dag.old event.now))) }
    {
        match &event.kind {
            EventKind::Draw { .. } => Ok(Note::Passes),
            EventKind::Read {
                pointer,
                count,
                answer,
            } => {
                let p = fixed(dag, *pointer);
                if self.store.break_of(false, p, *count as usize).is_some() {
                    return Ok(Note::Breaks);
                }
                let test = self.gives(dag, event.guard, p, *count, answer.as_slice())?;
                Ok(Note::Gives(test))
            }
            EventKind::Write { pointer, bytes, .. } => {
                let p = fixed(dag, *pointer);
                let new = bytes.as_slice();
                if self.store.break_of(true, p, new.len()).is_some() {
                    return Ok(Note::Breaks);
                }
                self.write(dag, event.guard, p, new)?;
                Ok(Note::Passes)
            }
            EventKind::Exit => Ok(Note::Alone),
            EventKind::Check { .. } => Ok(Note::Alone),
            EventKind::Assume { .. } => Ok(Note::Alone),
            EventKind::Fill { .. }
            | EventKind::Look { .. }
            | EventKind::Alloc { .. }
            | EventKind::Die { .. }
            | EventKind::Free { .. } => unreachable!(),
        }
    }
}

// An event over the nodes that stand for its own, and what is noted of it; then the memory is that behind it, and
// where its read gives what the store holds, that is known.
fn follow(
    alloc: Global,
    dag: &mut Dag,
    memory: &mut Memory,
    known: &mut Known,
    event: &Event,
) -> Result<(Event, Note), AllocError>
    requires memory { MemoryIn dag.old memory.old }
    requires known { KnownIn dag.old known.old }
    requires event { EventIn dag.old event.now }
    requires plain { IsStaticKind dag.old event.now.kind }
    ensures extends { Extends dag.old dag.new }
    ensures memory { OnOk result (MemoryIn dag.new memory.new) }
    ensures known { OnOk result (KnownIn dag.new known.new) }
    ensures store { memory.new.store.now ≡ memory.old.store.now }
    ensures event { IfOk result (λ r. EventIn dag.new r.0) }
    ensures plain { IfOk result (λ r. IsStaticKind dag.new r.0.kind) }
    ensures note_within { IfOk result (λ r. NoteIn dag.new r.1) }
    ensures note { IfOk result (λ r. (stores : (ℕ → ℕ) → Objects) → ((v : ℕ → ℕ) → StandsFor v dag.old memory.old (stores v)) → IsNote stores dag.new r.0 r.1) }
    ensures behind { IfOk result (λ r. (v : ℕ → ℕ) (objects : Objects) → StandsFor v dag.old memory.old objects → StandsFor v dag.new memory.new (behind objects (event_seen v dag.new r.0))) }
    ensures same { IfOk result (λ r. (v : ℕ → ℕ) → Agrees v dag.old known.old → event_seen v dag.new r.0 ≡ event_seen v dag.old event.now) }
    ensures agrees { OnOk result ((v : ℕ → ℕ) (objects : Objects) → StandsFor v dag.old memory.old objects → gives objects (event_seen v dag.old event.now) ≡ true → Agrees v dag.old known.old → Agrees v dag.new known.new) }
{
    let other = replaced(alloc, dag, known, event)?;
    memory.learn(dag, known, &other)?;
    let note = memory.note(dag, &other)?;
    Ok((other, note))
}

/// Events that break a check in a run from the store where those that they stand for do, and what is noted of
/// each.
#[derive(Drop)]
pub struct Noted {
    pub events: Vec<Event>,
    pub notes: Vec<Note>,
}

/// Events over the nodes that stand for their own where reads give what the store holds, and what is noted of them,
/// from the store at the start on.
pub fn notes(
    alloc: Global,
    dag: &mut Dag,
    store: &Store,
    events: &[Event],
) -> Result<Noted, AllocError>
    requires within { FormIn dag.old events.now }
    requires plain { AreStatic dag.old events.now }
    ensures extends { Extends dag.old dag.new }
    ensures events { IfOk result (λ r. FormIn dag.new r.events.items) }
    ensures plain { IfOk result (λ r. AreStatic dag.new r.events.items) }
    ensures within { IfOk result (λ r. All (NoteIn dag.new) r.notes.items) }
    ensures notes { IfOk result (λ r. AreNotes (λ v. store.now) dag.new r.events.items r.notes.items) }
    ensures same { IfOk result (λ r. (v : ℕ → ℕ) → breaks_from store.now (seen v dag.new r.events.items) false ≡ breaks_from store.now (seen v dag.old events.now) false) }
{
    let mut memory = Memory::new(alloc, store);
    let mut known = Known::new(alloc);
    let mut others = Vec::with_capacity(alloc, events.len())?;
    let mut notes = Vec::with_capacity(alloc, events.len())?;
    for at in 0..events.len() {
        let (other, note) = follow(alloc, dag, &mut memory, &mut known, &events[at])?;
        notes.push(note)?;
        others.push(other)?;
    }
    Ok(Noted {
        events: others,
        notes,
    })
}
