//! Object places, and what is told of accesses.

use word_dag::Id;
use words::Class;

/// A place of the program that makes an object: a static object, a literal, or an allocation of the code. Its nodes
/// tell whether it is born (1 bit), under which number (32 bits), how many bytes it has (32 bits), whether its lifetime
/// goes on (1 bit), and its bytes (8 bits each), which may be more than its size.
#[derive(Drop)]
pub struct Place {
    pub born: Id,
    pub number: Id,
    pub size: Id,
    pub live: Id,
    pub readonly: bool,
    pub heap: bool,
    pub bytes: Vec<Id>,
}

/// A place that a pointer may point to, with a truth value of whether it does, and the offset, of 32 bits.
#[derive(Clone, Copy)]
pub struct Hit {
    pub test: Id,
    pub place: usize,
    pub offset: Id,
}

/// A class of checks, and a truth value of whether an access breaks one of it, where it breaks none of those told
/// before.
#[derive(Clone, Copy)]
pub struct Failing {
    pub class: Class,
    pub test: Id,
}

/// What a read tells: the classes that it may break, and the words that it finds.
#[derive(Drop)]
pub struct Found {
    pub breaks: Vec<Failing>,
    pub words: Vec<Id>,
}
