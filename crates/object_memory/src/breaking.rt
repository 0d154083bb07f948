//! The classes that accesses break.

ghost use Rattle.std.specs.Prelude.{◌≡◌, ◌==◌, ◌<◌, ◌≤◌, ◌+◌, ◌-◌, ◌^◌, ℕ, List, true, false, All, IfOk, IfSome, OnOk, is_some, length, nat_lt, ◌&&◌, not, if◌then◌else◌};
ghost use Rattle.actions.specs.Access.{look};
ghost use Rattle.actions.specs.Objects.{Objects, break_in, free_break, state_at};
ghost use Rattle.actions.specs.Pointer as pointer;
ghost use Rattle.word_dag.specs.Growth.{Within, Extends};
ghost use Rattle.word_dag.specs.Meaning.{value, holds};
ghost use Rattle.word_dag.specs.declared.nodes.Node.{Node};
ghost use Rattle.value_nodes.specs.Values.{IsWord, IsValue, IsTest};
ghost use Rattle.object_memory.specs.Spots.{AreObjectsOf};
ghost use Rattle.object_memory.specs.Places.{PlaceIn, spots, place_object};
ghost use Rattle.object_memory.specs.Hits.{HitIn, truly, IsFound};
ghost use Rattle.object_memory.specs.Failings.{FailingIn, first_class, class_or, class_if, look_class};
ghost use Rattle.object_memory.specs.Questions.{asks, asks_none, answered, objects_of};

use crate::finding::is_never;
use crate::places::{Failing, Hit, Place};
use std::alloc::{AllocError, Global};
use value_nodes::{both, chosen, inverse, nonzero_test, object_of, zero_test};
use word_dag::{BinaryOperator, Comparison, Dag, Id, Node};
use words::Class;

/// What is asked of the object that a pointer points to: whether there is none; whether its lifetime has ended; whether so
/// many bytes from the offset on don't lie within it; whether it can't be written; whether it can't be freed.
#[derive(Clone, Copy)]
pub(crate) enum Question {
    Unknown,
    Ended,
    Outside(usize),
    Constant,
    Kept,
}

// A truth value that is a constant.
pub(crate) fn constant_test(dag: &mut Dag, holds: bool) -> Result<Id, AllocError>
    ensures extends { Extends dag.old dag.new }
    ensures made { IfOk result (λ i. IsTest dag.new i (λ v. holds)) }
{
    let bits = if holds { 1 } else { 0 };
    let id = dag.make(Node::Constant(bits, 1))?;
    Ok(id)
}

// The number of a node that is a constant.
fn constant_bits(dag: &Dag, id: Id) -> Option<u64>
    requires { Within dag.now id }
    ensures { IfSome result (λ b. (v : ℕ → ℕ) → value v dag.now id ≡ b) }
{
    let _ = dag.nodes();
    match dag.node(id) {
        Node::Constant(bits, _) => Some(bits),
        _ => None,
    }
}

// Whether an offset and so many bytes are more than a constant size.
fn beyond_size(dag: &mut Dag, offset: Id, count: usize, size: u64) -> Result<Id, AllocError>
    requires offset { IsWord dag.old offset 32 }
    requires size { size < 2 ^ 32 }
    ensures extends { Extends dag.old dag.new }
    ensures made { IfOk result (λ i. IsTest dag.new i (λ v. nat_lt size (value v dag.old offset + count))) }
{
    if count as u64 > size {
        let id = constant_test(dag, true)?;
        return Ok(id);
    }
    let limit = dag.make(Node::Constant(size - count as u64, 32))?;
    let id = dag.make(Node::Compare(Comparison::UnsignedLess, limit, offset))?;
    Ok(id)
}

// The end of so many bytes from an offset on.
fn end_of(dag: &mut Dag, offset: Id, count: usize) -> Result<Id, AllocError>
    requires offset { IsWord dag.old offset 32 }
    requires count { count < 2 ^ 32 }
    ensures extends { Extends dag.old dag.new }
    ensures made { IfOk result (λ i. IsValue dag.new i 34 (λ v. value v dag.old offset + count)) }
{
    let _ = dag.nodes();
    let start = dag.make(Node::ZeroExtend(offset, 34))?;
    let distance = dag.make(Node::Constant(count as u64, 34))?;
    let id = dag.make(Node::Binary(BinaryOperator::Add, start, distance))?;
    Ok(id)
}

// Whether an offset and so many bytes are more than a size.
fn beyond(dag: &mut Dag, offset: Id, count: usize, size: Id) -> Result<Id, AllocError>
    requires offset { IsWord dag.old offset 32 }
    requires size { IsWord dag.old size 32 }
    requires count { count < 2 ^ 32 }
    ensures extends { Extends dag.old dag.new }
    ensures made { IfOk result (λ i. IsTest dag.new i (λ v. nat_lt (value v dag.old size) (value v dag.old offset + count))) }
{
    let end = end_of(dag, offset, count)?;
    let wide = dag.make(Node::ZeroExtend(size, 34))?;
    let id = dag.make(Node::Compare(Comparison::UnsignedLess, wide, end))?;
    Ok(id)
}

// Whether so many bytes from an offset on don't lie within a size.
fn outside(dag: &mut Dag, offset: Id, count: usize, size: Id) -> Result<Id, AllocError>
    requires offset { IsWord dag.old offset 32 }
    requires size { IsWord dag.old size 32 }
    ensures extends { Extends dag.old dag.new }
    ensures made { IfOk result (λ i. IsTest dag.new i (λ v. nat_lt (value v dag.old size) (value v dag.old offset + count))) }
{
    let _ = dag.nodes();
    if count >= 1 << 32 {
        let id = constant_test(dag, true)?;
        return Ok(id);
    }
    match constant_bits(dag, size) {
        Some(bits) => {
            let id = beyond_size(dag, offset, count, bits)?;
            Ok(id)
        }
        None => beyond(dag, offset, count, size),
    }
}

// Whether a place of the heap isn't live, or the offset isn't its start.
fn kept(dag: &mut Dag, place: &Place, offset: Id) -> Result<Id, AllocError>
    requires place { PlaceIn dag.old place.now }
    requires offset { IsWord dag.old offset 32 }
    ensures extends { Extends dag.old dag.new }
    ensures made { IfOk result (λ i. IsTest dag.new i (λ v. not ((value v dag.old offset == 0) && (holds (value v dag.old place.now.live) && place.now.heap)))) }
{
    if !place.heap {
        let id = constant_test(dag, true)?;
        return Ok(id);
    }
    let start = zero_test(dag, offset)?;
    let free = both(dag, start, place.live)?;
    let id = inverse(dag, free)?;
    Ok(id)
}

// The answer of the object of a place.
fn asked(dag: &mut Dag, question: Question, place: &Place, offset: Id) -> Result<Id, AllocError>
    requires place { PlaceIn dag.old place.now }
    requires offset { IsWord dag.old offset 32 }
    ensures extends { Extends dag.old dag.new }
    ensures made { IfOk result (λ i. IsTest dag.new i (λ v. asks question (value v dag.old offset) (place_object v dag.old place.now))) }
{
    match question {
        Question::Unknown => constant_test(dag, false),
        Question::Ended => inverse(dag, place.live),
        Question::Outside(count) => outside(dag, offset, count, place.size),
        Question::Constant => constant_test(dag, place.readonly),
        Question::Kept => kept(dag, place, offset),
    }
}

// The answer where no place is hit.
fn no_answer(question: Question) -> bool
    ensures { result ≡ asks_none question }
{
    matches!(question, Question::Unknown | Question::Kept)
}

// The answer of the place that is hit, where one is.
fn answer(
    dag: &mut Dag,
    question: Question,
    places: &[Place],
    hits: &[Hit],
) -> Result<Id, AllocError>
    requires places { All (PlaceIn dag.old) places.now }
    requires hits { All (HitIn dag.old (length places.now)) hits.now }
    ensures extends { Extends dag.old dag.new }
    ensures made { IfOk result (λ i. IsTest dag.new i (λ v. answered question v dag.old (objects_of v dag.old places.now) (truly v dag.old hits.now))) }
{
    let mut id = constant_test(dag, no_answer(question))?;
    let mut left = hits.len();
    'asking: while left > 0 {
        left -= 1;
        let hit = hits[left];
        let here = asked(dag, question, &places[hit.place], hit.offset)?;
        id = chosen(dag, hit.test, here, id)?;
    }
    Ok(id)
}

// A class behind those told so far, where it isn't seen that its node is false.
fn note(dag: &Dag, breaks: &mut Vec<Failing>, class: Class, test: Id) -> Result<(), AllocError>
    requires test { IsWord dag.now test 1 }
    requires breaks { All (FailingIn dag.now) breaks.old.items }
    ensures within { OnOk result (All (FailingIn dag.now) breaks.new.items) }
    ensures first { OnOk result ((v : ℕ → ℕ) → first_class v dag.now breaks.new.items ≡ class_or (first_class v dag.now breaks.old.items) (class_if (holds (value v dag.now test)) class)) }
{
    if is_never(dag, test) {
        return Ok(());
    }
    breaks.push(Failing { class, test })?;
    Ok(())
}

// A class behind those told so far, where a question is answered with yes.
fn note_answer(
    dag: &mut Dag,
    breaks: &mut Vec<Failing>,
    class: Class,
    question: Question,
    places: &[Place],
    hits: &[Hit],
) -> Result<(), AllocError>
    requires places { All (PlaceIn dag.old) places.now }
    requires hits { All (HitIn dag.old (length places.now)) hits.now }
    requires breaks { All (FailingIn dag.old) breaks.old.items }
    ensures extends { Extends dag.old dag.new }
    ensures within { OnOk result (All (FailingIn dag.new) breaks.new.items) }
    ensures first { OnOk result ((v : ℕ → ℕ) → first_class v dag.new breaks.new.items ≡ class_or (first_class v dag.old breaks.old.items) (class_if (answered question v dag.old (objects_of v dag.old places.now) (truly v dag.old hits.now)) class)) }
{
    let test = answer(dag, question, places, hits)?;
    note(dag, breaks, class, test)?;
    Ok(())
}

// For a write, the class of objects that can't be written, behind those told so far.
fn note_constant(
    dag: &mut Dag,
    breaks: &mut Vec<Failing>,
    writes: bool,
    places: &[Place],
    hits: &[Hit],
) -> Result<(), AllocError>
    requires places { All (PlaceIn dag.old) places.now }
    requires hits { All (HitIn dag.old (length places.now)) hits.now }
    requires breaks { All (FailingIn dag.old) breaks.old.items }
    ensures extends { Extends dag.old dag.new }
    ensures within { OnOk result (All (FailingIn dag.new) breaks.new.items) }
    ensures first { OnOk result ((v : ℕ → ℕ) → first_class v dag.new breaks.new.items ≡ (if writes then class_or (first_class v dag.old breaks.old.items) (class_if (answered Question.Constant v dag.old (objects_of v dag.old places.now) (truly v dag.old hits.now)) Class.Readonly) else first_class v dag.old breaks.old.items)) }
{
    if !writes {
        return Ok(());
    }
    note_answer(
        dag,
        breaks,
        Class::Readonly,
        Question::Constant,
        places,
        hits,
    )?;
    Ok(())
}

// The class of a look that isn't for a subscript is that of a pointer sum.
fn told(class: Class, subscript: bool) -> Class
    ensures { result ≡ (if subscript then class else Class.Pointer) }
{
    if subscript { class } else { Class::Pointer }
}

/// The classes that a look at the size of a pointer's object may break (C11 6.5.6p8).
pub(crate) fn look_breaks(
    alloc: Global,
    dag: &mut Dag,
    places: &[Place],
    hits: &[Hit],
    p: Id,
    subscript: bool,
) -> Result<Vec<Failing>, AllocError>
    requires places { All (PlaceIn dag.old) places.now }
    requires hits { All (HitIn dag.old (length places.now)) hits.now }
    requires pointer { IsWord dag.old p 64 }
    ensures extends { Extends dag.old dag.new }
    ensures within { IfOk result (λ r. All (FailingIn dag.new) r.items) }
    ensures first { IfOk result (λ r. (v : ℕ → ℕ) (objects : Objects) → AreObjectsOf (spots v dag.old places.now) objects → IsFound v dag.old (spots v dag.old places.now) (value v dag.old p) (truly v dag.old hits.now)
        → first_class v dag.new r.items ≡ look_class subscript (look (value v dag.old p) (state_at objects (pointer.object_of (value v dag.old p))))) }
{
    let object = object_of(dag, p)?;
    let none = zero_test(dag, object)?;
    let mut breaks = Vec::new(alloc);
    note(dag, &mut breaks, told(Class::Null, subscript), none)?;
    let unknown = told(Class::InvalidPointer, subscript);
    note_answer(dag, &mut breaks, unknown, Question::Unknown, places, hits)?;
    let ended = told(Class::Lifetime, subscript);
    note_answer(dag, &mut breaks, ended, Question::Ended, places, hits)?;
    Ok(breaks)
}

/// The classes that an access of so many bytes may break (C11 6.5.3.2p4, 6.2.4p2).
pub(crate) fn access_breaks(
    alloc: Global,
    dag: &mut Dag,
    places: &[Place],
    hits: &[Hit],
    p: Id,
    writes: bool,
    count: usize,
) -> Result<Vec<Failing>, AllocError>
    requires places { All (PlaceIn dag.old) places.now }
    requires hits { All (HitIn dag.old (length places.now)) hits.now }
    requires pointer { IsWord dag.old p 64 }
    ensures extends { Extends dag.old dag.new }
    ensures within { IfOk result (λ r. All (FailingIn dag.new) r.items) }
    ensures first { IfOk result (λ r. (v : ℕ → ℕ) (objects : Objects) → AreObjectsOf (spots v dag.old places.now) objects → IsFound v dag.old (spots v dag.old places.now) (value v dag.old p) (truly v dag.old hits.now)
        → first_class v dag.new r.items ≡ break_in objects writes (value v dag.old p) count) }
{
    let mut breaks = look_breaks(alloc, dag, places, hits, p, true)?;
    let outside = Question::Outside(count);
    note_answer(dag, &mut breaks, Class::Bounds, outside, places, hits)?;
    note_constant(dag, &mut breaks, writes, places, hits)?;
    Ok(breaks)
}

/// The class that `free` may break (C11 7.22.3.3p2).
pub(crate) fn free_breaks(
    alloc: Global,
    dag: &mut Dag,
    places: &[Place],
    hits: &[Hit],
    p: Id,
) -> Result<Vec<Failing>, AllocError>
    requires places { All (PlaceIn dag.old) places.now }
    requires hits { All (HitIn dag.old (length places.now)) hits.now }
    requires pointer { IsWord dag.old p 64 }
    ensures extends { Extends dag.old dag.new }
    ensures within { IfOk result (λ r. All (FailingIn dag.new) r.items) }
    ensures first { IfOk result (λ r. (v : ℕ → ℕ) (objects : Objects) → AreObjectsOf (spots v dag.old places.now) objects → IsFound v dag.old (spots v dag.old places.now) (value v dag.old p) (truly v dag.old hits.now)
        → first_class v dag.new r.items ≡ free_break objects (value v dag.old p)) }
{
    let mut breaks = Vec::new(alloc);
    let given = nonzero_test(dag, p)?;
    let kept = answer(dag, Question::Kept, places, hits)?;
    let test = both(dag, given, kept)?;
    note(dag, &mut breaks, Class::Free, test)?;
    Ok(breaks)
}

/// Whether the guard is true and none of these classes is broken.
pub(crate) fn passes(dag: &mut Dag, guard: Id, breaks: &[Failing]) -> Result<Id, AllocError>
    requires guard { IsWord dag.old guard 1 }
    requires breaks { All (FailingIn dag.old) breaks.now }
    ensures extends { Extends dag.old dag.new }
    ensures made { IfOk result (λ i. IsTest dag.new i (λ v. holds (value v dag.old guard) && not (is_some (first_class v dag.old breaks.now)))) }
{
    let _ = dag.nodes();
    let mut id = guard;
    let mut left = breaks.len();
    'passing: while left > 0 {
        left -= 1;
        let fine = inverse(dag, breaks[left].test)?;
        id = both(dag, id, fine)?;
    }
    Ok(id)
}
