//! The map from a name to whether its newest declaration is that of a type.

ghost use Rattle.std.specs.Prelude.{◌≡◌, ℕ, List, None, OnOk, OnErr, IfOk, if◌then◌else◌};
ghost use Rattle.std.specs.Str.{bytes_eq};
ghost use Rattle.c_parse_expr.specs.Flags.{flag_at};

use indexmap::IndexMap;
use std::alloc::AllocError;

/// A name whose declarations have all been left keeps its entry, without a flag.
pub type Flags = IndexMap<Vec<u8>, Option<bool>>;

/// What a map has for a name.
pub fn flag_of(flags: &Flags, name: &[u8]) -> Option<bool>
    ensures { result ≡ flag_at flags.now.entries name.now }
{
    match flags.get(name) {
        Some(flag) => *flag,
        None => None,
    }
}

/// Gives a name another flag, and tells the one that it had. Only a name without an entry can fail.
pub fn replace(
    flags: &mut Flags,
    name: Vec<u8>,
    flag: Option<bool>,
) -> Result<Option<bool>, AllocError>
    ensures old { IfOk result (λ old. old ≡ flag_at flags.old.entries name.items) }
    ensures new { OnOk result ((n : List ℕ) → flag_at flags.new.entries n ≡ (if bytes_eq n name.items then flag else flag_at flags.old.entries n)) }
    ensures same { OnErr result (flags.new.entries ≡ flags.old.entries) }
    ensures absent { OnErr result (flag_at flags.old.entries name.items ≡ None) }
{
    match flags.insert(name, flag)? {
        Some(old) => Ok(old),
        None => Ok(None),
    }
}
