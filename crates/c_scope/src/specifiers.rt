//! What specifiers say.

ghost use Rattle.std.specs.Prelude.{◌≡◌, ℕ, IfOk, OnOk, map, option_map, slice_get, Result, Ok, Err};
ghost use Rattle.c_tree.specs.Tree.{view_type_part};
ghost use Rattle.c_types.specs.Types.{view, views};
ghost use Rattle.c_types.specs.Layouts.{kind_at};
ghost use Rattle.c_scope.specs.Scopes.{Named, plain, view_named};
ghost use Rattle.c_scope.specs.Faults.{required, Gives, GivesNode, on_line};
ghost use Rattle.c_scope.specs.Types.{nothing_specified, view_specified, lower, lowest, with_word, with_const, with_storage, with_type, typedef_of, record_of, enumeration_of, tag_type, tagged_type, with_qualifier, with_part, with_parts, value_type, type_specified, stated_shape, said_by, specified_type, part_line, parts_line};

use crate::fault::{Broken, TypingError};
use crate::meaning::Meaning;
use crate::scope::{QualifiedType, Scope};
use crate::type_words::words_type;
use c_tree::{Qualifier, StorageClass, TagKind, TypeSpecifier, TypeWord};
use c_types::{IntegerType, Layouts, RecordKind, Ty, ValueType};
use std::alloc::{AllocError, Global};

/// What a list of specifiers says (C11 6.7): words and the types that are named otherwise in their order, whether `const` is
/// among them, storage words, and the lowest rule that a tag or braces break.
#[derive(Drop)]
pub struct Specified {
    pub words: Vec<TypeWord>,
    pub named: Vec<Ty>,
    pub constant: bool,
    pub storage: Vec<StorageClass>,
    pub broken: Option<u32>,
}

fn lower(a: u32, b: u32) -> u32
    ensures { result ≡ lower a b }
{
    if a < b { a } else { b }
}

fn lowest(broken: Option<u32>, rule: u32) -> u32
    ensures { result ≡ lowest broken rule }
{
    match broken {
        None => rule,
        Some(other) => lower(other, rule),
    }
}

impl Specified {
    /// Nothing is said.
    pub fn new(alloc: Global) -> Specified
        ensures { view_specified result ≡ nothing_specified }
    {
        Specified {
            words: Vec::new(alloc),
            named: Vec::new(alloc),
            constant: false,
            storage: Vec::new(alloc),
            broken: None,
        }
    }

    /// A word of a type.
    pub fn add_word(&mut self, word: TypeWord) -> Result<(), AllocError>
        ensures { OnOk result (view_specified self.new ≡ with_word (view_specified self.old) word) }
    {
        self.words.push(word)?;
        Ok(())
    }

    /// `const`.
    pub fn add_const(&mut self)
        ensures { view_specified self.new ≡ with_const (view_specified self.old) }
    {
        self.constant = true;
    }

    /// A storage word.
    pub fn add_storage(&mut self, class: StorageClass) -> Result<(), AllocError>
        ensures { OnOk result (view_specified self.new ≡ with_storage (view_specified self.old) class) }
    {
        self.storage.push(class)?;
        Ok(())
    }

    // A type that is named by a tag, a typedef's name or braces.
    fn add_named(&mut self, named: QualifiedType) -> Result<(), AllocError>
        ensures { OnOk result (view_specified self.new ≡ with_type (view_specified self.old) (Ok (view_named named))) }
    {
        self.named.push(named.type_)?;
        self.constant = self.constant || named.constant;
        Ok(())
    }

    // A rule that is broken there.
    fn add_broken(&mut self, rule: u32) -> Result<(), AllocError>
        ensures { OnOk result (view_specified self.new ≡ with_type (view_specified self.old) (Err rule)) }
    {
        self.named.push(Ty::Void)?;
        self.broken = Some(lowest(self.broken, rule));
        Ok(())
    }

    /// A type that is named by a tag, a typedef's name or braces, or the rule that is broken there.
    pub fn add_type(&mut self, named: Result<QualifiedType, Broken>) -> Result<(), AllocError>
        ensures { (r : Result Named ℕ) → GivesNode view_named named r → OnOk result (view_specified self.new ≡ with_type (view_specified self.old) r) }
    {
        match named {
            Ok(named) => self.add_named(named),
            Err(Broken::Rule { rule }) => self.add_broken(rule),
            Err(Broken::Memory) => Err(AllocError),
        }
    }

    fn add_qualifier(&mut self, qualifier: Qualifier)
        ensures { view_specified self.new ≡ with_qualifier (view_specified self.old) qualifier }
    {
        match qualifier {
            Qualifier::Const => self.add_const(),
            Qualifier::Volatile | Qualifier::Restrict => {}
        }
    }

    /// A part of a type name. A tag has to have a declaration in scope.
    pub fn add_part(&mut self, part: &TypeSpecifier, scope: &Scope) -> Result<(), AllocError>
        ensures { OnOk result (view_specified self.new ≡ with_part scope.now (view_specified self.old) (view_type_part part.now)) }
    {
        match part {
            TypeSpecifier::Qualifier { qualifier, .. } => {
                self.add_qualifier(*qualifier);
                Ok(())
            }
            TypeSpecifier::Word { word, .. } => self.add_word(*word),
            TypeSpecifier::Tagged { kind, name, .. } => self.add_type(tagged_type(
                *kind,
                &name.bytes,
                scope,
            )),
            TypeSpecifier::Named { name, .. } => {
                self.add_type(typedef_of(scope.meaning(&name.bytes), scope))
            }
        }
    }

    // The type by words and names, where they say one, and there is one storage word at most.
    fn shape(&self) -> Result<Option<Ty>, AllocError>
        ensures { IfOk result (λ o. option_map view o ≡ stated_shape (view_specified self.now)) }
    {
        if self.storage.len() <= 1 {
            type_specified(&self.named, &self.words)
        } else {
            Ok(None)
        }
    }

    // The type, or the lowest rule that is broken.
    fn node(&self) -> Result<QualifiedType, Broken>
        ensures { GivesNode view_named result (specified_type (view_specified self.now)) }
    {
        match self.shape()? {
            None => Err(Broken::Rule {
                rule: lowest(self.broken, 5),
            }),
            Some(type_) => match self.broken {
                None => Ok(QualifiedType {
                    type_,
                    constant: self.constant,
                }),
                Some(rule) => Err(Broken::Rule { rule }),
            },
        }
    }

    /// The type that specifiers say, with whether it is const, or the lowest rule that they break, on their line.
    pub fn type_on(&self, line: u32) -> Result<QualifiedType, TypingError>
        ensures { Gives view_named result (on_line line (specified_type (view_specified self.now))) }
    {
        match self.node() {
            Ok(type_) => Ok(type_),
            Err(Broken::Rule { rule }) => Err(TypingError::Typing { line, rule }),
            Err(Broken::Memory) => Err(TypingError::Memory),
        }
    }
}

fn value_type(type_: ValueType) -> Ty
    ensures { view result ≡ value_type type_ }
{
    match type_ {
        ValueType::Void => Ty::Void,
        ValueType::Integer(integer) => Ty::Integer(integer),
    }
}

// One named type and no words, or the words of a type alone.
fn type_specified(named: &[Ty], words: &[TypeWord]) -> Result<Option<Ty>, AllocError>
    ensures { IfOk result (λ o. option_map view o ≡ type_specified (views named.now) words.now) }
{
    if named.is_empty() {
        match words_type(words) {
            Some(type_) => Ok(Some(value_type(type_))),
            None => Ok(None),
        }
    } else if named.len() == 1 && words.is_empty() {
        Ok(Some(named[0].copied()?))
    } else {
        Ok(None)
    }
}

// What a typedef names, by its number.
fn named(number: u32, scope: &Scope) -> Result<QualifiedType, Broken>
    ensures { GivesNode view_named result (required 1 (slice_get scope.now.types number)) }
{
    match scope.named(number) {
        Some(named) => Ok(QualifiedType {
            type_: named.type_.copied()?,
            constant: named.constant,
        }),
        None => Err(Broken::Rule { rule: 1 }),
    }
}

/// What a typedef's name names, by what the name means.
pub fn typedef_of(meaning: Option<Meaning>, scope: &Scope) -> Result<QualifiedType, Broken>
    ensures { GivesNode view_named result (typedef_of scope.now meaning) }
{
    match meaning {
        Some(Meaning::Typedef { number }) => named(number, scope),
        _ => Err(Broken::Rule { rule: 1 }),
    }
}

// Whether the record at a place is a struct or a union.
fn kind_at(layouts: &Layouts, place: u32) -> RecordKind
    ensures { result ≡ kind_at layouts.now place }
{
    if (place as usize) < layouts.len() {
        layouts.kind(place)
    } else {
        RecordKind::Struct
    }
}

fn plain(type_: Ty) -> QualifiedType
    ensures { view_named result ≡ plain (view type_) }
{
    QualifiedType {
        type_,
        constant: false,
    }
}

fn record_of(own: RecordKind, kind: TagKind, place: u32) -> Result<QualifiedType, Broken>
    ensures { GivesNode view_named result (record_of own kind place) }
{
    match (own, kind) {
        (RecordKind::Struct, TagKind::Struct) => Ok(plain(Ty::Record(place))),
        (RecordKind::Union, TagKind::Union) => Ok(plain(Ty::Record(place))),
        _ => Err(Broken::Rule { rule: 18 }),
    }
}

fn enumeration_of(kind: TagKind) -> Result<QualifiedType, Broken>
    ensures { GivesNode view_named result (enumeration_of kind) }
{
    match kind {
        TagKind::Struct | TagKind::Union => Err(Broken::Rule { rule: 18 }),
        TagKind::Enum => Ok(plain(Ty::Integer(IntegerType::Int))),
    }
}

/// The type of a tag of this kind, by what it means; rule 18 where it is of another kind.
pub fn tag_type(kind: TagKind, meaning: Meaning, scope: &Scope) -> Result<QualifiedType, Broken>
    ensures { GivesNode view_named result (tag_type scope.now kind meaning) }
{
    match meaning {
        Meaning::Record { place } => record_of(kind_at(scope.layouts(), place), kind, place),
        Meaning::Enumeration => enumeration_of(kind),
        _ => Err(Broken::Rule { rule: 18 }),
    }
}

// The type of a tag in a type name, which has to have a declaration in scope.
fn tagged_type(kind: TagKind, name: &[u8], scope: &Scope) -> Result<QualifiedType, Broken>
    ensures { GivesNode view_named result (tagged_type scope.now kind name.now) }
{
    match scope.tag(name) {
        Some(meaning) => tag_type(kind, meaning, scope),
        None => Err(Broken::Rule { rule: 1 }),
    }
}

fn part_line(part: &TypeSpecifier) -> u32
    ensures { result ≡ part_line (view_type_part part.now) }
{
    match part {
        TypeSpecifier::Qualifier { line, .. } => *line,
        TypeSpecifier::Word { line, .. } => *line,
        TypeSpecifier::Tagged { line, .. } => *line,
        TypeSpecifier::Named { line, .. } => *line,
    }
}

// The line of the first token of a type name's specifiers.
fn parts_line(parts: &[TypeSpecifier]) -> u32
    ensures { result ≡ parts_line (map view_type_part parts.now) }
{
    match parts {
        [first, ..] => part_line(first),
        [] => 0,
    }
}

// What the specifiers of a type name say.
fn specified_parts(
    alloc: Global,
    parts: &[TypeSpecifier],
    scope: &Scope,
) -> Result<Specified, AllocError>
    ensures { IfOk result (λ s. view_specified s ≡ with_parts scope.now nothing_specified (map view_type_part parts.now)) }
{
    let mut said = Specified::new(alloc);
    for part in parts {
        said.add_part(part, scope)?;
    }
    Ok(said)
}

/// The type that the specifiers of a type name say, on their line.
pub fn parts_type(
    alloc: Global,
    parts: &[TypeSpecifier],
    scope: &Scope,
) -> Result<QualifiedType, TypingError>
    ensures { Gives view_named result (on_line (parts_line (map view_type_part parts.now)) (specified_type (with_parts scope.now nothing_specified (map view_type_part parts.now)))) }
{
    let said = specified_parts(alloc, parts, scope)?;
    said.type_on(parts_line(parts))
}
