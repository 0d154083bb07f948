//! A text, by its bytes.

ghost use Rattle.std.specs.Prelude.{◌≡◌, ◌++◌, [], OnOk, OnErr, string_bytes};

use core_tree::Name;
use std::alloc::{AllocError, Global};
use std::marker::Model;

/// The text of an answer. A name stands in it as it is, whatever its bytes are.
#[derive(Drop)]
pub struct Text {
    written: Vec<u8>,
}

impl Model for Text {
    ghost use Rattle.std.specs.Prelude.{List, ℕ};

    ghost Value = { List ℕ };

    ghost view = { λ t. t.written.items };
}

impl Text {
    /// The text without bytes. Takes no memory.
    pub fn new(alloc: Global) -> Text
        ensures { result ≡ [] }
    {
        Text {
            written: Vec::new(alloc),
        }
    }

    /// The text that a string is. Takes no memory.
    pub fn from_string(string: String) -> Text
        ensures { result ≡ string_bytes string }
    {
        Text {
            written: string.into_bytes(),
        }
    }

    /// The bytes of the text.
    pub fn as_bytes(&self) -> &[u8]
        ensures value { result.now ≡ self.now }
    {
        self.written.as_slice()
    }

    /// Appends a piece.
    pub fn push(&mut self, piece: &str) -> Result<(), AllocError>
        ensures ok { OnOk result (self.new ≡ self.old ++ piece.now) }
        ensures err { OnErr result (self.new ≡ self.old) }
    {
        self.written.extend_from_slice(piece.as_bytes())
    }

    /// Appends a name.
    pub fn push_name(&mut self, name: &Name) -> Result<(), AllocError>
        ensures ok { OnOk result (self.new ≡ self.old ++ name.now.bytes.items) }
        ensures err { OnErr result (self.new ≡ self.old) }
    {
        self.written.extend_from_slice(&name.bytes)
    }
}
