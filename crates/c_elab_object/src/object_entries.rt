//! Objects that live as long as the program.

ghost use Rattle.std.specs.Prelude.{◌≡◌, ◌≤◌, ◌+◌, ◌&&◌, ◌||◌, ℕ, Bool, true, not, is_some, Result, None, length, option_map, IfOk, OnOk, IfSome};
ghost use Rattle.c_tree.specs.Declarations.{view_full, view_initializer, name_of};
ghost use Rattle.c_types.specs.Types.{CType, view as type_view};
ghost use Rattle.c_scope.specs.Scopes.{view_named, view_object_entry, linked_to, is_known};
ghost use Rattle.c_elab_base.specs.Derivations.{full_line};
ghost use Rattle.c_scope.specs.Faults.{Gives, GivesNode, on_line};
ghost use Rattle.c_elab_base.specs.Declarators.{is_open};
ghost use Rattle.c_elab_type.specs.Initializers.{view_value};
ghost use Rattle.c_elab_object.specs.ObjectEntries.{object_entry_type, made_type, stated_type, is_array_of, compatible, is_again, may_again, is_stated_again, is_linked_to, linked_object, object_entry_node, declared_again, counted_by, element_of, IsObjectThere, with_object, added_object, changed_object, declared_object, initialized_object, may_define, function_or, earlier_linked, typed_object};
ghost use Rattle.c_elab_object.specs.Settled.{is_settled};

use c_elab_base::{Region, complete_type, earlier, full_line, is_open, name_of, sized_type};
use c_elab_type::{Value, give_lengths, initial_bytes, initializer_of};
use c_scope::{
    Broken, Meaning, ObjectEntry, QualifiedType, Scope, TypingError, array_of, array_type,
    element_type, element_type_on, same_ctype, same_flag,
};
use c_tree::{FullDeclarator, InitDeclarator, Initializer};
use c_types::Ty;
use std::alloc::{AllocError, Global};

// More objects than this have no memory.
const OBJECTS: usize = 0x7fff_ffff;

// The type of an object, or that of its elements where no declaration says so far how many there are.
#[derive(Drop)]
struct Said {
    type_: Ty,
    unknown_length: bool,
}

// The type that a declarator with these lengths gives an object.
fn object_entry_type(
    alloc: Global,
    base: &Ty,
    is_extern: bool,
    initializer: &Option<Initializer>,
    mut lengths: Vec<Option<u64>>,
    scope: &Scope,
    line: u32,
) -> Result<Said, TypingError>
    ensures { Gives (λ t. (type_view t.type_, t.unknown_length)) result (on_line line (object_entry_type scope.now.records.done (type_view base.now) is_extern (option_map view_initializer initializer.now) lengths.items)) }
{
    let element = base.copied()?;
    if is_extern && initializer.is_none() {
        if is_open(&lengths) {
            let type_ = element_type_on(alloc, element, &lengths[1..], scope.layouts(), line)?;
            let type_ = complete_type(type_, scope.layouts(), line)?;
            return Ok(Said {
                type_,
                unknown_length: true,
            });
        }
        let type_ = array_type(alloc, element, &lengths, scope.layouts(), line)?;
        return Ok(Said {
            type_,
            unknown_length: false,
        });
    }
    give_lengths(alloc, initializer, &mut lengths)?;
    let type_ = array_type(alloc, element, &lengths, scope.layouts(), line)?;
    let _size = sized_type(&type_, scope.layouts(), line)?;
    Ok(Said {
        type_,
        unknown_length: false,
    })
}

// The type that a declarator says, where there is one.
fn made_type(unknown_length: bool, made: Result<Ty, Broken>) -> Result<Option<Said>, AllocError>
    ensures { (r : Result CType ℕ) → GivesNode type_view made r → IfOk result (λ o. option_map (λ t. (type_view t.type_, t.unknown_length)) o ≡ made_type unknown_length r) }
{
    match made {
        Ok(type_) => Ok(Some(Said {
            type_,
            unknown_length,
        })),
        Err(Broken::Rule { .. }) => Ok(None),
        Err(Broken::Memory) => Err(AllocError),
    }
}

// The type that a declarator with these lengths says, which may be incomplete, where there is one.
fn stated_type(
    alloc: Global,
    base: &Ty,
    lengths: &[Option<u64>],
    scope: &Scope,
) -> Result<Option<Said>, AllocError>
    ensures { IfOk result (λ o. option_map (λ t. (type_view t.type_, t.unknown_length)) o ≡ stated_type scope.now.records.done (type_view base.now) lengths.now) }
{
    let element = base.copied()?;
    if is_open(lengths) {
        let made = element_type(alloc, element, &lengths[1..], scope.layouts());
        return made_type(true, made);
    }
    let made = array_of(alloc, element, lengths, scope.layouts());
    made_type(false, made)
}

fn is_array_of(element: &Ty, type_: &Ty) -> bool
    ensures { result ≡ is_array_of (type_view element.now) (type_view type_.now) }
{
    match type_ {
        Ty::Array { element: own, .. } => same_ctype(element, own),
        _ => false,
    }
}

// One type, where a length may be said by one of the two alone.
fn compatible(a: &Ty, a_open: bool, b: &Ty, b_open: bool) -> bool
    ensures { result ≡ compatible (type_view a.now, a_open) (type_view b.now, b_open) }
{
    if a_open == b_open {
        same_ctype(a, b)
    } else if a_open {
        is_array_of(a, b)
    } else {
        is_array_of(b, a)
    }
}

// It can be declared once more so.
fn is_again(
    object: &ObjectEntry,
    constant: bool,
    said: &Said,
    initializer: &Option<Initializer>,
) -> bool
    ensures { result ≡ is_again (view_object_entry object.now) constant (type_view said.now.type_, said.now.unknown_length) (option_map view_initializer initializer.now) }
{
    same_flag(object.named.constant, constant)
        && compatible(
            &object.named.type_,
            object.unknown_length,
            &said.type_,
            said.unknown_length,
        )
        && !(object.bytes.is_some() && initializer.is_some())
}

// There is such an object, and it can be declared once more so.
fn may_again(
    object: Option<&ObjectEntry>,
    constant: bool,
    said: &Said,
    initializer: &Option<Initializer>,
) -> bool
    ensures { result ≡ may_again (option_map (λ o. view_object_entry o.now) object.entry) constant (type_view said.now.type_, said.now.unknown_length) (option_map view_initializer initializer.now) }
{
    match object {
        None => false,
        Some(object) => is_again(object, constant, said, initializer),
    }
}

// The same of the type that its declarator says, complete or not.
fn is_stated_again(
    object: Option<&ObjectEntry>,
    constant: bool,
    stated: &Option<Said>,
    initializer: &Option<Initializer>,
) -> bool
    ensures { result ≡ is_stated_again (option_map (λ o. view_object_entry o.now) object.entry) constant (option_map (λ t. (type_view t.type_, t.unknown_length)) stated.now) (option_map view_initializer initializer.now) }
{
    match stated {
        None => false,
        Some(said) => may_again(object, constant, said, initializer),
    }
}

// The name's object in this scope is the one that it is linked to.
fn is_linked_to(linked: Option<u32>, earlier: Option<Meaning>) -> bool
    ensures { result ≡ is_linked_to linked earlier }
{
    match (linked, earlier) {
        (_, None) => true,
        (Some(number), Some(Meaning::Object { object })) => number == object,
        (_, Some(_)) => false,
    }
}

// The type of an object that may be declared so where the name is declared as this already.
fn object_entry_node(
    made: Result<Said, TypingError>,
    stated: &Option<Said>,
    constant: bool,
    earlier: Option<Meaning>,
    linked: Option<u32>,
    initializer: &Option<Initializer>,
    line: u32,
    scope: &Scope,
) -> Result<Said, TypingError>
    ensures { (r : Result (CType × Bool) ℕ) → Gives (λ t. (type_view t.type_, t.unknown_length)) made (on_line line r)
        → Gives (λ t. (type_view t.type_, t.unknown_length)) result (on_line line (object_entry_node scope.now constant earlier linked r (option_map (λ t. (type_view t.type_, t.unknown_length)) stated.now) (option_map view_initializer initializer.now))) }
{
    let again = TypingError::Typing { line, rule: 2 };
    if !is_linked_to(linked, earlier) {
        return Err(again);
    }
    let Some(number) = linked else {
        return made;
    };
    match made {
        Ok(said) => {
            if may_again(scope.object(number), constant, &said, initializer) {
                Ok(said)
            } else {
                Err(again)
            }
        }
        Err(TypingError::Typing { line, rule }) => {
            if is_stated_again(scope.object(number), constant, stated, initializer) {
                Err(TypingError::Typing { line, rule })
            } else {
                Err(again)
            }
        }
        Err(TypingError::Memory) => Err(TypingError::Memory),
    }
}

// What is known of an object behind one more declarator of it.
fn declared_again(
    alloc: Global,
    object: &ObjectEntry,
    type_: &Ty,
    unknown_length: bool,
    defines: bool,
) -> Result<ObjectEntry, AllocError>
    ensures { IfOk result (λ o. view_object_entry o ≡ declared_again (view_object_entry object.now) (type_view type_.now, unknown_length) defines) }
{
    let type_ = if object.unknown_length {
        type_.copied()?
    } else {
        object.named.type_.copied()?
    };
    let bytes = match &object.bytes {
        Some(bytes) => Some(bytes.to_vec(alloc)?),
        None => None,
    };
    Ok(ObjectEntry {
        named: QualifiedType {
            type_,
            constant: object.named.constant,
        },
        unknown_length: object.unknown_length && unknown_length,
        bytes,
        defined: object.defined || defines,
        line: object.line,
    })
}

// Changes what is known of an object.
fn change_object(
    alloc: Global,
    number: u32,
    type_: &Ty,
    unknown_length: bool,
    defines: bool,
    scope: &mut Scope,
) -> Result<(), AllocError>
    ensures { OnOk result (scope.new ≡ changed_object scope.old number (λ o. declared_again o (type_view type_.now, unknown_length) defines)) }
{
    let changed = match scope.object(number) {
        Some(object) => declared_again(alloc, object, type_, unknown_length, defines)?,
        None => return Ok(()),
    };
    scope.set_object(number, changed);
    Ok(())
}

// One more declarator says nothing new of an object, or there is none.
fn is_settled(object: Option<&ObjectEntry>, defines: bool) -> bool
    ensures { result ≡ is_settled (option_map (λ o. view_object_entry o.now) object.entry) defines }
{
    match object {
        None => true,
        Some(object) => !object.unknown_length && (object.defined || !defines),
    }
}

// What is known of an object behind one more declarator, which often says nothing new.
fn declare_again(
    alloc: Global,
    number: u32,
    type_: &Ty,
    unknown_length: bool,
    defines: bool,
    scope: &mut Scope,
) -> Result<(), AllocError>
    ensures { OnOk result (scope.new ≡ changed_object scope.old number (λ o. declared_again o (type_view type_.now, unknown_length) defines)) }
{
    let settled = is_settled(scope.object(number), defines);
    if settled {
        return Ok(());
    }
    change_object(alloc, number, type_, unknown_length, defines, scope)
}

// One more object, with linkage or none, and its number.
fn add_object(
    alloc: Global,
    name: &[u8],
    has_linkage: bool,
    object: ObjectEntry,
    scope: &mut Scope,
) -> Result<u32, AllocError>
    requires { has_linkage ≡ true → linked_to scope.old.linked name.now ≡ None }
    ensures number { IfOk result (λ k. k ≡ length scope.old.objects + 1) }
    ensures added { OnOk result (scope.new ≡ added_object scope.old has_linkage name.now (view_object_entry object)) }
{
    if scope.object_count() >= OBJECTS {
        return Err(AllocError);
    }
    let number = scope.add_object(object)?;
    if has_linkage {
        scope.link(alloc, name, number)?;
    }
    Ok(number)
}

// The object of a declarator, whose name is declared next.
fn object_of(
    alloc: Global,
    name: &[u8],
    linked: Option<u32>,
    has_linkage: bool,
    named: QualifiedType,
    unknown_length: bool,
    defines: bool,
    line: u32,
    scope: &mut Scope,
) -> Result<u32, AllocError>
    requires there { IfSome linked (λ k. IsObjectThere scope.old k) }
    requires unlinked { has_linkage ≡ true → linked ≡ None → linked_to scope.old.linked name.now ≡ None }
    ensures number { IfOk result (λ k. k ≡ (declared_object scope.old has_linkage named.constant name.now linked (type_view named.type_, unknown_length) defines line).0) }
    ensures declared { IfOk result (λ k. with_object scope.new name.now k ≡ (declared_object scope.old has_linkage named.constant name.now linked (type_view named.type_, unknown_length) defines line).1) }
    ensures known { IfOk result (λ k. is_known scope.new (Meaning.Object k) ≡ true) }
    ensures same { OnOk result (scope.new.bindings ≡ scope.old.bindings) }
{
    match linked {
        Some(number) => {
            declare_again(alloc, number, &named.type_, unknown_length, defines, scope)?;
            Ok(number)
        }
        None => add_object(
            alloc,
            name,
            has_linkage,
            ObjectEntry {
                named,
                unknown_length,
                bytes: None,
                defined: defines,
                line,
            },
            scope,
        ),
    }
}

// Declares the object of a declarator, and gives its number.
fn declare_object(
    alloc: Global,
    name: &[u8],
    linked: Option<u32>,
    has_linkage: bool,
    named: QualifiedType,
    unknown_length: bool,
    defines: bool,
    line: u32,
    scope: &mut Scope,
) -> Result<u32, AllocError>
    requires there { IfSome linked (λ k. IsObjectThere scope.old k) }
    requires unlinked { has_linkage ≡ true → linked ≡ None → linked_to scope.old.linked name.now ≡ None }
    ensures { IfOk result (λ k. (k, scope.new) ≡ declared_object scope.old has_linkage named.constant name.now linked (type_view named.type_, unknown_length) defines line) }
{
    let object = object_of(
        alloc,
        name,
        linked,
        has_linkage,
        named,
        unknown_length,
        defines,
        line,
        scope,
    )?;
    scope.declare(alloc, name, Meaning::Object { object })?;
    Ok(object)
}

// Has the bytes that its initializer says.
fn initialize_object(
    alloc: Global,
    number: u32,
    value: Option<Value>,
    scope: &mut Scope,
) -> Result<(), AllocError>
    ensures { OnOk result (scope.new ≡ initialized_object scope.old number (option_map view_value value)) }
{
    let Some(value) = value else {
        return Ok(());
    };
    let changed = match scope.object(number) {
        Some(object) => ObjectEntry {
            named: QualifiedType {
                type_: object.named.type_.copied()?,
                constant: object.named.constant,
            },
            unknown_length: object.unknown_length,
            bytes: Some(initial_bytes(alloc, &value)?),
            defined: object.defined,
            line: object.line,
        },
        None => return Ok(()),
    };
    scope.set_object(number, changed);
    Ok(())
}

// The type of an object's elements within an initializer that says how many there are, else its own.
fn type_within(said: &Said, counted: bool) -> Result<Said, AllocError>
    ensures { IfOk result (λ t. (type_view t.type_, t.unknown_length) ≡ counted_by counted (type_view said.now.type_, said.now.unknown_length) (element_of (type_view said.now.type_))) }
{
    if counted {
        let type_ = match &said.type_ {
            Ty::Array { element, .. } => element.copied()?,
            other => other.copied()?,
        };
        return Ok(Said {
            type_,
            unknown_length: true,
        });
    }
    Ok(Said {
        type_: said.type_.copied()?,
        unknown_length: said.unknown_length,
    })
}

// The object that a name with linkage has already.
fn linked_object(region: Region, is_extern: bool, name: &[u8], scope: &Scope) -> Option<u32>
    ensures { result ≡ linked_object region is_extern scope.now name.now }
{
    if region.is_file || is_extern {
        scope.linked(name)
    } else {
        None
    }
}

// What a name is declared as in this scope already: one with linkage may be a function's in the whole file.
fn earlier_linked(name: &[u8], region: Region, is_extern: bool, scope: &Scope) -> Option<Meaning>
    requires { region.outer ≤ length scope.now.bindings }
    ensures { result ≡ earlier_linked region is_extern scope.now name.now }
{
    if has_linkage(region, is_extern) {
        match scope.functions().named(name) {
            Some(function) => return Some(Meaning::Function { function }),
            None => {}
        }
    }
    earlier(name, region, scope)
}

// The type of the object of a declarator.
fn object_type(
    alloc: Global,
    base: &QualifiedType,
    declared: &InitDeclarator,
    lengths: Vec<Option<u64>>,
    region: Region,
    is_extern: bool,
    scope: &Scope,
) -> Result<Said, TypingError>
    requires { region.outer ≤ length scope.now.bindings }
    ensures gives { Gives (λ t. (type_view t.type_, t.unknown_length)) result
        (on_line (full_line (view_full declared.now.declarator)) (object_entry_node scope.now base.now.constant (earlier_linked region is_extern scope.now (name_of (view_full declared.now.declarator)))
        (linked_object region is_extern scope.now (name_of (view_full declared.now.declarator))) (object_entry_type scope.now.records.done (type_view base.now.type_) is_extern (option_map view_initializer declared.now.initializer) lengths.items) (stated_type scope.now.records.done (type_view base.now.type_) lengths.items)
        (option_map view_initializer declared.now.initializer))) }
    ensures there { OnOk result (IfSome (linked_object region is_extern scope.now (name_of (view_full declared.now.declarator))) (λ k. IsObjectThere scope.now k)) }
{
    let declarator = &declared.declarator;
    let line = full_line(declarator);
    let name = name_of(declarator);
    let initializer = &declared.initializer;
    let earlier = earlier_linked(name, region, is_extern, scope);
    let linked = linked_object(region, is_extern, name, scope);
    let stated = stated_type(alloc, &base.type_, &lengths, scope)?;
    let made = object_entry_type(
        alloc,
        &base.type_,
        is_extern,
        initializer,
        lengths,
        scope,
        line,
    );
    object_entry_node(
        made,
        &stated,
        base.constant,
        earlier,
        linked,
        initializer,
        line,
        scope,
    )
}

// Its initializer says how many elements it has.
fn is_counted(initializer: &Option<Initializer>, lengths: &[Option<u64>]) -> bool
    ensures { result ≡ (is_some (option_map view_initializer initializer.now) && is_open lengths.now) }
{
    initializer.is_some() && is_open(lengths)
}

// It is a definition.
fn defines(is_extern: bool, initializer: &Option<Initializer>) -> bool
    ensures { result ≡ (not is_extern || is_some (option_map view_initializer initializer.now)) }
{
    !is_extern || initializer.is_some()
}

// Its name has linkage.
fn has_linkage(region: Region, is_extern: bool) -> bool
    ensures { result ≡ (region.is_file || is_extern) }
{
    region.is_file || is_extern
}

// Within a function `extern` defines nothing.
fn may_define(
    line: u32,
    region: Region,
    is_extern: bool,
    initializer: &Option<Initializer>,
) -> Result<(), TypingError>
    ensures { Gives (λ u. tt) result (may_define line region is_extern (option_map view_initializer initializer.now)) }
{
    match initializer {
        None => Ok(()),
        Some(_) => {
            if is_extern && !region.is_file {
                Err(TypingError::Typing { line, rule: 12 })
            } else {
                Ok(())
            }
        }
    }
}

/// An object that lives as long as the program, with these lengths.
pub fn typed_object(
    alloc: Global,
    base: &QualifiedType,
    declared: &InitDeclarator,
    lengths: Vec<Option<u64>>,
    region: Region,
    is_extern: bool,
    scope: &mut Scope,
) -> Result<(), TypingError>
    requires { region.outer ≤ length scope.old.bindings }
    ensures gives { Gives (λ u. scope.new) result (typed_object region is_extern scope.old (view_named base.now) (view_full declared.now.declarator) (option_map view_initializer declared.now.initializer) lengths.items) }
    ensures within { OnOk result (region.outer ≤ length scope.new.bindings) }
{
    let declarator: &FullDeclarator = &declared.declarator;
    let initializer = &declared.initializer;
    let line = full_line(declarator);
    let name = name_of(declarator);
    let counted = is_counted(initializer, &lengths);
    let said = object_type(alloc, base, declared, lengths, region, is_extern, scope)?;
    may_define(line, region, is_extern, initializer)?;
    let linked = linked_object(region, is_extern, name, scope);
    let defines = defines(is_extern, initializer);
    let has_linkage = has_linkage(region, is_extern);
    let within = type_within(&said, counted)?;
    let named = QualifiedType {
        type_: within.type_,
        constant: base.constant,
    };
    let number = declare_object(
        alloc,
        name,
        linked,
        has_linkage,
        named,
        within.unknown_length,
        defines,
        line,
        scope,
    )?;
    let value = initializer_of(alloc, true, line, &said.type_, initializer, scope)?;
    declare_again(
        alloc,
        number,
        &said.type_,
        said.unknown_length,
        defines,
        scope,
    )?;
    initialize_object(alloc, number, value, scope)?;
    Ok(())
}
