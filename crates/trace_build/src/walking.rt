//! A walk over the events of a form: what is collected of their run, with the store that is there.

ghost use Rattle.std.specs.Prelude.{◌≡◌, ◌++◌, ◌∷◌, [], ℕ, suc, true, Option, length, replicate, map, take, option_map, IfOk, OnOk};
ghost use Rattle.word_dag.specs.Meaning.{value, valuation_of};
ghost use Rattle.actions.specs.declared.action.Action.TheVariants as actions;
ghost use Rattle.actions.specs.declared.action.Answer.{Answer};
ghost use Rattle.actions.specs.Objects.{with_new, result_of};
ghost use Rattle.c_values.specs.MadeObjects as objects;
ghost use Rattle.c_values.specs.Variables.{word_count};
ghost use Rattle.value_nodes.specs.Values.{AreBytes};
ghost use Rattle.interleave.specs.Turn.{check_of};
ghost use Rattle.words.specs.declared.check.Class.{Class as TheClass};
ghost use Rattle.event_forms.specs.Forms.{kind_seen, event_seen, KindIn, EventIn};
ghost use Rattle.event_forms.specs.Accesses.{access_class};
ghost use Rattle.trace_build.specs.Walking.{Steps, Accesses, is_access, cut_words, turns_for};

use crate::values::Values;
use actions::{Bytes, Object, Store};
use c_values::{made_of, object_of};
use event_forms::{Event, EventKind};
use std::alloc::{AllocError, Global};
use word_dag::Id;
use words::{Check, Class};

/// What is collected of a run: the words that it draws, and its turns; beside them the store that is there.
#[derive(Drop)]
pub struct Walk {
    alloc: Global,
    store: Store,
    pub words: Vec<u64>,
    pub turns: Vec<u32>,
}

// The check that an event breaks in thread 0.
fn check_of(class: Class, event: &Event) -> Check
    ensures { result ≡ check_of class event.now.line event.now.function 0 }
{
    Check {
        class,
        line: event.line,
        function: event.function,
        thread: 0,
    }
}

// The class that a call of the store breaks.
fn broken(answer: Result<(), Class>) -> Option<Class>
    ensures { (c : Option TheClass) → answer ≡ result_of c → result ≡ c }
{
    match answer {
        Ok(()) => None,
        Err(class) => Some(class),
    }
}

// More words.
fn push_words(into: &mut Vec<u64>, words: &[u64]) -> Result<(), AllocError>
    ensures { OnOk result (into.new.items ≡ into.old.items ++ words.now) }
{
    for word in words {
        into.push(*word)?;
    }
    Ok(())
}

// So many turns of thread 0.
fn push_turns(into: &mut Vec<u32>, count: usize) -> Result<(), AllocError>
    ensures { OnOk result (into.new.items ≡ into.old.items ++ replicate count 0) }
{
    for _ in 0..count {
        into.push(0)?;
    }
    Ok(())
}

impl Walk {
    /// At the start: nothing is collected.
    pub fn new(alloc: Global, store: &Store) -> Result<Walk, AllocError>
        ensures store { IfOk result (λ w. w.store ≡ store.now) }
        ensures words { IfOk result (λ w. w.words.items ≡ []) }
        ensures turns { IfOk result (λ w. w.turns.items ≡ []) }
    {
        Ok(Walk {
            alloc,
            store: store.clone()?,
            words: Vec::new(alloc),
            turns: Vec::new(alloc),
        })
    }

    // One turn more.
    fn turn(&mut self) -> Result<(), AllocError>
        ensures store { self.new.store ≡ self.old.store }
        ensures words { OnOk result (self.new.words.items ≡ self.old.words.items) }
        ensures turns { OnOk result (self.new.turns.items ≡ self.old.turns.items ++ 0 ∷ []) }
    {
        self.turns.push(0)?;
        Ok(())
    }

    // A turn that draws this word.
    fn draw(&mut self, word: u64) -> Result<(), AllocError>
        ensures store { self.new.store ≡ self.old.store }
        ensures words { OnOk result (self.new.words.items ≡ self.old.words.items ++ word ∷ []) }
        ensures turns { OnOk result (self.new.turns.items ≡ self.old.turns.items ++ 0 ∷ []) }
    {
        self.words.push(word)?;
        self.turn()
    }

    // Turns that draw these words.
    fn draw_all(&mut self, words: &[u64]) -> Result<(), AllocError>
        ensures store { self.new.store ≡ self.old.store }
        ensures words { OnOk result (self.new.words.items ≡ self.old.words.items ++ words.now) }
        ensures turns { OnOk result (self.new.turns.items ≡ self.old.turns.items ++ turns_for words.now) }
    {
        push_words(&mut self.words, words)?;
        push_turns(&mut self.turns, words.len())
    }

    // A turn in which an event may break a check, and that check.
    fn turn_at(&mut self, event: &Event, broken: Option<Class>) -> Result<Option<Check>, AllocError>
        ensures store { self.new.store ≡ self.old.store }
        ensures words { IfOk result (λ c. self.new.words.items ≡ self.old.words.items) }
        ensures turns { IfOk result (λ c. self.new.turns.items ≡ self.old.turns.items ++ 0 ∷ []) }
        ensures check { IfOk result (λ c. c ≡ option_map (λ class. check_of class event.now.line event.now.function 0) broken) }
    {
        self.turn()?;
        match broken {
            Some(class) => Ok(Some(check_of(class, event))),
            None => Ok(None),
        }
    }

    // The class that a look breaks.
    fn look(&self, pointer: u64, subscript: bool) -> Option<Class>
        ensures { (a : Answer) → result ≡ access_class self.now.store (actions.Look pointer subscript) a }
    {
        match self.store.look(pointer) {
            Ok(_) => None,
            Err(class) => Some(if subscript { class } else { Class::Pointer }),
        }
    }

    // Puts an object under the next number.
    fn add(&mut self, object: Object) -> Result<(), AllocError>
        ensures store { OnOk result (self.new.store ≡ with_new self.old.store (suc (length self.old.store)) object) }
        ensures words { self.new.words.items ≡ self.old.words.items }
        ensures turns { self.new.turns.items ≡ self.old.turns.items }
    {
        let count = self.store.len();
        if count >= u32::MAX as usize || self.store.contains(count as u32 + 1) {
            return Err(AllocError);
        }
        self.store.add(count as u32 + 1, object)
    }

    // Makes an object of the first of these bytes, so many.
    fn make(
        &mut self,
        values: Values,
        size: u64,
        bytes: &[Id],
        kind: (bool, bool),
    ) -> Result<(), AllocError>
        requires { AreBytes values.dag.now bytes.now }
        ensures store { OnOk result (self.new.store ≡ with_new self.old.store (suc (length self.old.store)) (objects.made_of kind.0 kind.1 (take size (map (value (valuation_of values.entry.valuation.now) values.entry.dag.now) bytes.now)))) }
        ensures words { self.new.words.items ≡ self.old.words.items }
        ensures turns { self.new.turns.items ≡ self.old.turns.items }
    {
        let count = size.min(bytes.len() as u64) as usize;
        let held = values.bytes(self.alloc, &bytes[..count])?;
        let object = made_of(self.alloc, kind.0, kind.1, Bytes::new(held))?;
        self.add(object)
    }

    // What an access does with the store, and the class that it breaks.
    fn access(&mut self, values: Values, kind: &EventKind) -> Result<Option<Class>, AllocError>
        requires within { KindIn values.dag.now kind.now }
        requires access { is_access kind.now ≡ true }
        ensures accesses { IfOk result (λ class. (line f : ℕ) → Accesses line f (kind_seen (valuation_of values.entry.valuation.now) values.entry.dag.now line f kind.now) self.old.store self.new.store class) }
        ensures words { self.new.words.items ≡ self.old.words.items }
        ensures turns { self.new.turns.items ≡ self.old.turns.items }
    {
        match kind {
            EventKind::Read { pointer, count, .. } => {
                let pointer = values.bits(*pointer);
                Ok(self.store.break_of(false, pointer, *count as usize))
            }
            EventKind::Write {
                pointer,
                bytes,
                first,
            } => {
                let pointer = values.bits(*pointer);
                let bytes = values.bytes(self.alloc, bytes.as_slice())?;
                Ok(broken(self.store.write(pointer, &bytes, *first)))
            }
            EventKind::Look {
                pointer,
                subscript,
                ..
            } => Ok(self.look(values.bits(*pointer), *subscript)),
            EventKind::Alloc {
                size,
                bytes,
                readonly,
                heap,
                ..
            } => {
                let size = values.bits(*size);
                self.make(values, size, bytes.as_slice(), (*readonly, *heap))?;
                Ok(None)
            }
            EventKind::Die { pointer } => {
                self.store.die(object_of(values.bits(*pointer)));
                Ok(None)
            }
            EventKind::Free { pointer } => Ok(broken(self.store.free(values.bits(*pointer)))),
            _ => unreachable!(),
        }
    }

    // Draws so many bytes, of whose words these are the nodes.
    fn fill(&mut self, values: Values, size: u32, words: &[Id]) -> Result<(), AllocError>
        ensures store { self.new.store ≡ self.old.store }
        ensures words { OnOk result (self.new.words.items ≡ self.old.words.items ++ cut_words (word_count size) size 0 (map (value (valuation_of values.entry.valuation.now) values.entry.dag.now) words.now)) }
        ensures turns { OnOk result (self.new.turns.items ≡ self.old.turns.items ++ turns_for (cut_words (word_count size) size 0 (map (value (valuation_of values.entry.valuation.now) values.entry.dag.now) words.now))) }
    {
        let drawn = values.drawn(self.alloc, size, words)?;
        self.draw_all(&drawn)
    }

    // What an event tells where its guard is true.
    fn tell(&mut self, values: Values, event: &Event) -> Result<Option<Check>, AllocError>
        requires within { EventIn values.dag.now event.now }
        ensures { IfOk result (λ found. Steps (kind_seen (valuation_of values.entry.valuation.now) values.entry.dag.now event.now.line event.now.function event.now.kind) found self.old self.new) }
    {
        match &event.kind {
            EventKind::Draw { answer, .. } => {
                self.draw(values.bits(*answer))?;
                Ok(None)
            }
            EventKind::Fill { count, most, words } => {
                let size = values.bits(*count).min(*most as u64) as u32;
                self.fill(values, size, words.as_slice())?;
                Ok(None)
            }
            EventKind::Exit => Ok(None),
            EventKind::Check { class, failing } => {
                if values.bits(*failing) == 0 {
                    return Ok(None);
                }
                self.turn_at(event, Some(*class))
            }
            EventKind::Assume { .. } => Ok(None),
            EventKind::Read { .. }
            | EventKind::Write { .. }
            | EventKind::Look { .. }
            | EventKind::Alloc { .. }
            | EventKind::Die { .. }
            | EventKind::Free { .. } => {
                let broken = self.access(values, &event.kind)?;
                let check = self.turn_at(event, broken)?;
                Ok(check)
            }
        }
    }

    /// An event of the run, and the check that it breaks.
    pub fn step(&mut self, values: Values, event: &Event) -> Result<Option<Check>, AllocError>
        requires within { EventIn values.dag.now event.now }
        ensures { IfOk result (λ found. Steps (event_seen (valuation_of values.entry.valuation.now) values.entry.dag.now event.now) found self.old self.new) }
    {
        if values.bits(event.guard) == 0 {
            return Ok(None);
        }
        self.tell(values, event)
    }
}
