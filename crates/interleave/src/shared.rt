//! What threads share: the store, locks, sections, and which threads there are.

ghost use Rattle.std.specs.Prelude.{◌≡◌, ◌↔◌, IsTrue, ◌+◌, ◌<◌, ◌^◌, true, length, None, IfOk, OnOk};
ghost use Rattle.std.specs.Int.{w32, to_le_bytes};
ghost use Rattle.actions.specs.AccessRows.{read_row, write_row, look_row};
ghost use Rattle.actions.specs.ObjectRows.{alloc_row, die_row, free_row};
ghost use Rattle.actions.specs.MutexRows.{lock_row, unlock_row, init_row, destroy_row};
ghost use Rattle.actions.specs.ThreadRows.{create_row, join_row, end_row};
ghost use Rattle.actions.specs.Objects.{object_at};
ghost use Rattle.actions.specs.Memory.{thread_at};
ghost use Rattle.actions.specs.Row.{outcome_in};
ghost use Rattle.actions.specs.Table.{row};
ghost use Rattle.interleave.specs.Own.{object_number, thread_number};
ghost use Rattle.interleave.specs.Turn.{HasNumber};
ghost use Rattle.interleave.specs.World.{first_common, may_move, common_after};
ghost use Rattle.interleave.specs.Effect.{effect_in, after_row, EffectFits, OwnFits};

use crate::counts::Counts;
use crate::effect::Effect;
use actions::{AccessError, Action, Answer, Object, Store, ThreadState};
use std::alloc::{AllocError, Global};
use std::collections::BTreeMap;
use std::marker::Model;
use words::{Class, Word};

/// What the threads of a run share.
#[derive(Drop)]
pub(crate) struct Shared {
    store: Store,
    threads: BTreeMap<u64, ThreadState>,
    section: Option<u32>,
    ended: bool,
}

impl Model for Shared {
    ghost use Rattle.interleave.specs.World.{Common};

    ghost Value = { Common };

    ghost view = { λ s. record { memory = record { objects = s.store; threads = s.threads.entries }; section = s.section; ended = s.ended } };
}

impl Shared {
    /// Thread 0 alone runs, on this store.
    pub(crate) fn new(alloc: Global, store: Store) -> Result<Shared, AllocError>
        ensures { IfOk result (λ s. s ≡ first_common store) }
    {
        let mut threads = BTreeMap::new(alloc);
        threads.insert(0, ThreadState::Running)?;
        Ok(Shared {
            store,
            threads,
            section: None,
            ended: false,
        })
    }

    pub(crate) fn may_move(&self, t: u32) -> bool
        ensures { result ≡ may_move self.now t }
    {
        let free = match self.section {
            None => true,
            Some(owner) => owner == t,
        };
        let running = match self.threads.get(&(t as u64)) {
            Some(ThreadState::Running) => true,
            _ => false,
        };
        !self.ended && free && running
    }

    /// Whether the number that an action of thread t takes from its record is small and unused.
    pub(crate) fn has_number(&self, t: u32, counts: &Counts, action: &Action) -> bool
        ensures { IsTrue result ↔ HasNumber (self.now).memory t counts.now action.now }
    {
        match action {
            Action::Alloc(_) => self.has_object_number(t, counts.objects),
            Action::Create(_, _) => self.has_thread_number(t, counts.creations),
            _ => true,
        }
    }

    fn has_object_number(&self, t: u32, objects: u64) -> bool
        ensures { IsTrue result ↔ ((object_number t (objects + 1) < 2 ^ 32) × (object_at (self.now).memory.objects (object_number t (objects + 1)) ≡ None)) }
    {
        if objects >= 0xFFFF_FFFF {
            return false;
        }
        let number = t as u64 * 65536 + objects + 1;
        number < 0x1_0000_0000 && !self.store.contains(number as u32)
    }

    fn has_thread_number(&self, t: u32, creations: u64) -> bool
        ensures { IsTrue result ↔ ((thread_number t (creations + 1) < 65536) × (thread_at (self.now).memory.threads (thread_number t (creations + 1)) ≡ None)) }
    {
        if creations >= 65535 {
            return false;
        }
        let number = t as u64 * 256 + creations + 1;
        number < 65536 && !self.threads.contains_key(&number)
    }

    /// Makes an action of thread t. `own` is the part of it that comes from the thread's own record.
    pub(crate) fn act(&mut self, t: u32, own: u64, action: Action) -> Result<Effect, AllocError>
        requires { OwnFits (self.old).memory action own }
        ensures effect { IfOk result (λ e. e ≡ effect_in self.old (row t own action)) }
        ensures after { OnOk result (self.new ≡ common_after self.old t action (outcome_in (self.old).memory (row t own action))) }
        ensures fits { IfOk result (λ e. EffectFits action e) }
    {
        match action {
            Action::Read(p, n) => self.read(p, n),
            Action::Write(p, bytes, first) => Ok(self.write(p, bytes.as_slice(), first)),
            Action::Look(p, subscript) => Ok(self.look(p, subscript)),
            Action::Draw(bits) => Ok(Effect::Moves(Answer::Word(Word::new(own, bits.bits())))),
            Action::Alloc(object) => self.alloc(own as u32, object),
            Action::Die(number) => Ok(self.die(number)),
            Action::Free(p) => Ok(self.free(p)),
            Action::SectionBegin => Ok(self.set_section(Some(t))),
            Action::SectionEnd => Ok(self.set_section(None)),
            Action::Lock(p) => Ok(self.lock(t, p)),
            Action::Unlock(p) => Ok(self.unlock(t, p)),
            Action::MutexInit(p) => Ok(self.init(p)),
            Action::MutexDestroy(p) => Ok(self.destroy(p)),
            Action::Create(f, v) => self.create(own as u32, f, v),
            Action::Join(k) => Ok(self.join(t, k)),
            Action::End(v) => Ok(self.end(t, v)),
            Action::Exit => Ok(self.exit()),
        }
    }

    fn set_section(&mut self, section: Option<u32>) -> Effect
        ensures effect { result ≡ Effect.Moves Answer.Done }
        ensures after { self.new ≡ record self.old { section = section } }
    {
        self.section = section;
        Effect::Moves(Answer::Done)
    }

    fn exit(&mut self) -> Effect
        ensures effect { result ≡ Effect.Moves Answer.Done }
        ensures after { self.new ≡ record self.old { ended = true } }
    {
        self.ended = true;
        Effect::Moves(Answer::Done)
    }

    fn read(&self, p: u64, n: u32) -> Result<Effect, AllocError>
        ensures effect { IfOk result (λ e. e ≡ effect_in self.now (read_row p n)) }
        ensures fits { IfOk result (λ e. EffectFits (Action.Read p n) e) }
    {
        match self.store.read(p, n) {
            Ok(bytes) => Ok(Effect::Moves(Answer::Bytes(bytes))),
            Err(AccessError::Broken(class)) => Ok(Effect::Breaks(class)),
            Err(AccessError::Memory) => Err(AllocError),
        }
    }

    fn write(&mut self, p: u64, bytes: &[u8], first: bool) -> Effect
        ensures effect { result ≡ effect_in self.old (write_row p bytes.now first) }
        ensures after { self.new ≡ after_row self.old (write_row p bytes.now first) }
    {
        match self.store.write(p, bytes, first) {
            Ok(()) => Effect::Moves(Answer::Done),
            Err(class) => Effect::Breaks(class),
        }
    }

    fn look(&self, p: u64, subscript: bool) -> Effect
        ensures { result ≡ effect_in self.now (look_row p subscript) }
    {
        match self.store.look(p) {
            Ok(size) => Effect::Moves(Answer::Size(size)),
            Err(class) => Effect::Breaks(if subscript { class } else { Class::Pointer }),
        }
    }

    fn alloc(&mut self, number: u32, mut object: Object) -> Result<Effect, AllocError>
        requires { object_at (self.old).memory.objects number ≡ None }
        ensures effect { IfOk result (λ e. e ≡ effect_in self.old (alloc_row number object)) }
        ensures after { OnOk result (self.new ≡ after_row self.old (alloc_row number object)) }
    {
        object.live = true;
        self.store.add(number, object)?;
        Ok(Effect::Moves(Answer::Number(number)))
    }

    fn die(&mut self, number: u32) -> Effect
        ensures effect { result ≡ effect_in self.old (die_row number) }
        ensures after { self.new ≡ after_row self.old (die_row number) }
    {
        self.store.die(number);
        Effect::Moves(Answer::Done)
    }

    fn free(&mut self, p: u64) -> Effect
        ensures effect { result ≡ effect_in self.old (free_row p) }
        ensures after { self.new ≡ after_row self.old (free_row p) }
    {
        match self.store.free(p) {
            Ok(()) => Effect::Moves(Answer::Done),
            Err(class) => Effect::Breaks(class),
        }
    }

    fn lock(&mut self, t: u32, p: u64) -> Effect
        ensures effect { result ≡ effect_in self.old (lock_row t p) }
        ensures after { self.new ≡ after_row self.old (lock_row t p) }
    {
        match self.store.mutex(p) {
            Err(class) => Effect::Breaks(class),
            Ok(FREE) => self.write(p, &held_by(t), false),
            Ok(DESTROYED) => Effect::Breaks(Class::Mutex),
            Ok(_) => Effect::Waits,
        }
    }

    fn unlock(&mut self, t: u32, p: u64) -> Effect
        ensures effect { result ≡ effect_in self.old (unlock_row t p) }
        ensures after { self.new ≡ after_row self.old (unlock_row t p) }
    {
        match self.store.mutex(p) {
            Err(class) => Effect::Breaks(class),
            Ok(cell) if cell as u64 == t as u64 + 1 => { self.write(p, &FREE.to_le_bytes(), false) }
            Ok(_) => Effect::Breaks(Class::Mutex),
        }
    }

    fn init(&mut self, p: u64) -> Effect
        ensures effect { result ≡ effect_in self.old (init_row p) }
        ensures after { self.new ≡ after_row self.old (init_row p) }
    {
        self.write(p, &FREE.to_le_bytes(), false)
    }

    fn destroy(&mut self, p: u64) -> Effect
        ensures effect { result ≡ effect_in self.old (destroy_row p) }
        ensures after { self.new ≡ after_row self.old (destroy_row p) }
    {
        match self.store.mutex(p) {
            Err(class) => Effect::Breaks(class),
            Ok(FREE) => self.write(p, &DESTROYED.to_le_bytes(), false),
            Ok(_) => Effect::Breaks(Class::Mutex),
        }
    }

    fn create(&mut self, number: u32, f: u32, v: u64) -> Result<Effect, AllocError>
        ensures effect { IfOk result (λ e. e ≡ effect_in self.old (create_row number f v)) }
        ensures after { OnOk result (self.new ≡ after_row self.old (create_row number f v)) }
    {
        self.threads.insert(number as u64, ThreadState::Running)?;
        Ok(Effect::Starts(number, f, v))
    }

    fn join(&self, t: u32, k: u64) -> Effect
        ensures { result ≡ effect_in self.now (join_row t k) }
    {
        if k == t as u64 {
            return Effect::Breaks(Class::Join);
        }
        match self.threads.get(&k) {
            None => Effect::Breaks(Class::Join),
            Some(ThreadState::Running) => Effect::Waits,
            Some(ThreadState::Ended(v)) => Effect::Moves(Answer::Value(*v)),
        }
    }

    #[tactic(auto, using(crate::proofs::Entries::set_value_absent))]
    fn end(&mut self, t: u32, v: u64) -> Effect
        ensures effect { result ≡ effect_in self.old (end_row t v) }
        ensures after { self.new ≡ after_row self.old (end_row t v) }
    {
        if let Some(state) = self.threads.get_mut(&(t as u64)) {
            *state = ThreadState::Ended(v);
        }
        Effect::Moves(Answer::Done)
    }
}

// The numbers of a free and of a destroyed mutex.
const FREE: u32 = 0;

const DESTROYED: u32 = u32::MAX;

// The cell of a mutex that thread t holds.
fn held_by(t: u32) -> [u8; 4]
    ensures { result ≡ to_le_bytes w32 (t + 1) }
{
    t.wrapping_add(1).to_le_bytes()
}
