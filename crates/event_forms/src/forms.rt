//! The form of a thread: its guarded events, in order.

ghost use Rattle.std.specs.Prelude.{◌≡◌, IfOk};

use actions::Store;
use std::alloc::{AllocError, Global};
use std::marker::Model;
use word_dag::Id;
use words::Class;

/// Nodes of a graph, in order.
#[derive(Drop)]
pub struct Nodes {
    ids: Vec<Id>,
}

impl Model for Nodes {
    ghost use Rattle.std.specs.Prelude.{List};
    ghost use Rattle.word_dag.specs.declared.nodes.Id.{Id};

    ghost Value = { List Id };

    ghost view = { λ n. n.ids.items };
}

impl Nodes {
    /// These nodes. Takes no memory.
    pub fn new(ids: Vec<Id>) -> Nodes
        ensures { result ≡ ids.items }
    {
        Nodes { ids }
    }

    /// The events, in order.
    pub fn as_slice(&self) -> &[Id]
        ensures { result.now ≡ self.now }
    {
        &self.ids
    }

    /// The same nodes.
    pub fn copied(&self, alloc: Global) -> Result<Nodes, AllocError>
        ensures { IfOk result (λ nodes. nodes ≡ self.now) }
    {
        Ok(Nodes {
            ids: self.ids.to_vec(alloc)?,
        })
    }
}

/// What an event tells where its guard is true.
#[derive(Drop)]
pub enum EventKind {
    /// The thread draws this many bits; `answer` is the word that it is given.
    Draw {
        bits: u32,
        answer: Id,
    },
    /// The thread draws the first `count` bytes, at most `most` of them, in words of 8 bytes, the last of those that are
    /// left; of each word that it draws `words` has a node, which is cut to the bytes that are left. `count` is a node of 64
    /// bits.
    Fill {
        count: Id,
        most: u32,
        words: Nodes,
    },
    /// The thread reads so many bytes from a pointer on, a node of 64 bits; `answer` is the words that it is given, each of 8
    /// bytes, the last of those that are left.
    Read {
        pointer: Id,
        count: u32,
        answer: Nodes,
    },
    /// The thread writes these bytes, nodes of 8 bits, where a pointer points to; `first` where they initialize the object.
    Write {
        pointer: Id,
        bytes: Nodes,
        first: bool,
    },
    /// The thread looks at the size of a pointer's object; `answer` is that size, a node of 32 bits.
    Look {
        pointer: Id,
        subscript: bool,
        answer: Id,
    },
    /// The thread makes an object of the first `size` of these bytes; `answer` is the number that it is given, a node of 32
    /// bits.
    Alloc {
        size: Id,
        bytes: Nodes,
        readonly: bool,
        heap: bool,
        answer: Id,
    },
    /// The thread ends the lifetime of a pointer's object.
    Die {
        pointer: Id,
    },
    /// The thread frees the object that a pointer points to.
    Free {
        pointer: Id,
    },
    /// The thread ends the process.
    Exit,
    /// The thread breaks a check of this class where `failing` is true.
    Check {
        class: Class,
        failing: Id,
    },
    /// The thread is blocked for good where `failing` is true.
    Assume {
        failing: Id,
    },
}

impl EventKind {
    /// The same kind.
    pub fn copied(&self, alloc: Global) -> Result<EventKind, AllocError>
        ensures { IfOk result (λ kind. kind ≡ self.now) }
    {
        match self {
            EventKind::Draw { bits, answer } => Ok(EventKind::Draw {
                bits: *bits,
                answer: *answer,
            }),
            EventKind::Fill { count, most, words } => {
                let words = words.copied(alloc)?;
                Ok(EventKind::Fill {
                    count: *count,
                    most: *most,
                    words,
                })
            }
            EventKind::Read {
                pointer,
                count,
                answer,
            } => {
                let answer = answer.copied(alloc)?;
                Ok(EventKind::Read {
                    pointer: *pointer,
                    count: *count,
                    answer,
                })
            }
            EventKind::Write {
                pointer,
                bytes,
                first,
            } => {
                let bytes = bytes.copied(alloc)?;
                Ok(EventKind::Write {
                    pointer: *pointer,
                    bytes,
                    first: *first,
                })
            }
            EventKind::Look {
                pointer,
                subscript,
                answer,
            } => Ok(EventKind::Look {
                pointer: *pointer,
                subscript: *subscript,
                answer: *answer,
            }),
            EventKind::Alloc {
                size,
                bytes,
                readonly,
                heap,
                answer,
            } => {
                let bytes = bytes.copied(alloc)?;
                Ok(EventKind::Alloc {
                    size: *size,
                    bytes,
                    readonly: *readonly,
                    heap: *heap,
                    answer: *answer,
                })
            }
            EventKind::Die { pointer } => Ok(EventKind::Die { pointer: *pointer }),
            EventKind::Free { pointer } => Ok(EventKind::Free { pointer: *pointer }),
            EventKind::Exit => Ok(EventKind::Exit),
            EventKind::Check { class, failing } => Ok(EventKind::Check {
                class: *class,
                failing: *failing,
            }),
            EventKind::Assume { failing } => Ok(EventKind::Assume { failing: *failing }),
        }
    }
}

/// An event of a thread: it is there where its guard is true, and tells what its kind says, in the name
/// of a line of a function. `guard` and `failing` are nodes of 1 bit.
#[derive(Drop)]
pub struct Event {
    pub guard: Id,
    pub line: u32,
    pub function: u32,
    pub kind: EventKind,
}

impl Event {
    /// The same event.
    pub fn copied(&self, alloc: Global) -> Result<Event, AllocError>
        ensures { IfOk result (λ event. event ≡ self.now) }
    {
        let kind = self.kind.copied(alloc)?;
        Ok(Event {
            guard: self.guard,
            line: self.line,
            function: self.function,
            kind,
        })
    }
}

/// The place of an event among those of its form, from 0.
#[derive(Clone, Copy, PartialEq, Eq)]
pub struct EventId {
    pub index: usize,
}

/// The events of a thread, in the order of its code, and the store at the start of the program.
#[derive(Drop)]
pub struct ThreadForm {
    events: Vec<Event>,
    store: Store,
}

impl Model for ThreadForm {
    ghost use Rattle.event_forms.specs.Forms.{Form};

    ghost Value = { Form };

    ghost view = { λ f. record { events = f.events.items; store = f.store } };
}

impl ThreadForm {
    /// The form of these events, with this store at the start.
    pub fn new(events: Vec<Event>, store: Store) -> ThreadForm
        ensures { result ≡ record { events = events.items; store = store } }
    {
        ThreadForm { events, store }
    }

    /// The events, in the order of the code.
    pub fn events(&self) -> &[Event]
        ensures { result.now ≡ self.now.events }
    {
        &self.events
    }

    /// The store at the start.
    pub fn store(&self) -> &Store
        ensures { result.now ≡ self.now.store }
    {
        &self.store
    }

    /// The same form.
    pub fn copied(&self, alloc: Global) -> Result<ThreadForm, AllocError>
        ensures { IfOk result (λ form. form ≡ self.now) }
    {
        let mut events = Vec::with_capacity(alloc, self.events.len())?;
        for event in &self.events {
            events.push(event.copied(alloc)?)?;
        }
        Ok(ThreadForm {
            events,
            store: self.store.clone()?,
        })
    }
}
