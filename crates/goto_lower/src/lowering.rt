//! The code of functions and of a file.

ghost use Rattle.std.specs.Prelude.{◌≡◌, ℕ, ◌<◌, ◌≤◌, ◌^◌, [], ◌∷◌, IfOk, OnOk, true, false, length};
ghost use Rattle.core_tree.specs.Ranges.{Limits};
ghost use Rattle.core_tree.specs.Trees.{view_statement, view_function, view_functions, view_core};
ghost use Rattle.core_tree.specs.Typed.{sizes_of_variables};
ghost use Rattle.c_meaning.specs.Source as source;
ghost use Rattle.c_meaning.specs.Source.{source_thread, first_objects};
ghost use Rattle.goto_prog.specs.Nodes.{plain, nodes_of, view_procedure, view_procedures};
ghost use Rattle.goto_prog.specs.GotoThreads.{strict_thread};
ghost use Rattle.goto_prog.specs.Same.{DoSame};
ghost use Rattle.goto_prog.specs.Static.{are_static};
ghost use Rattle.goto_prog.specs.declared.code.Operation.TheVariants as operations;
ghost use Rattle.lowered_code.specs.Lowering.{at_line, ends, body_code};
ghost use Rattle.lowered_code.specs.Lowered.{given_size, blocks_of, first_frame, undefined_code, defined_code, function_code, function_codes, view_goto, lowered};
ghost use Rattle.goto_lower.specs.Statements.{begun, body_types};

use crate::exits::of_function;
use crate::objects::{leave_before, live_parameters, make_parameters};
use crate::statements::lower_statement;
use actions::Store;
use c_meaning::{are_storable, first_store, number_of_main};
use c_profile::Admitted;
use c_temporaries::{Temporaries, statement_temporaries};
use c_types::IntegerType;
use code_draft::Draft;
use core_tree::{CoreStatement, Function, Name, PassedType, Variable};
use goto_prog::{Goto, Instruction, Node, Operation, Procedure};
use std::alloc::{AllocError, Global};

// A name.
fn copy_name(alloc: Global, name: &Name) -> Result<Name, AllocError>
    ensures { IfOk result (λ n. n.bytes.items ≡ name.now.bytes.items) }
{
    let bytes = Vec::from_slice(alloc, &name.bytes)?;
    Ok(Name { bytes })
}

// The registers of a function without those of its trees: one that stays 0.
fn one_register(alloc: Global) -> Result<Vec<IntegerType>, AllocError>
    ensures { IfOk result (λ v. v.items ≡ IntegerType.Int ∷ []) }
{
    let mut registers = Vec::new(alloc);
    registers.push(IntegerType::Int)?;
    Ok(registers)
}

// A place that breaks an assertion, by the register that stays 0.
fn breaking(alloc: Global, number: u32, line: u32) -> Result<Vec<Node>, AllocError>
    ensures { (literals : ℕ) → IfOk result (λ v. nodes_of v.items ≡ plain (at_line (first_frame literals number [] 0) line (operations.Assert 0)) ends) }
{
    let instruction = Instruction {
        line,
        function: number,
        operation: Operation::Assert { operand: 0 },
    };
    let mut nodes = Vec::new(alloc);
    nodes.push(Node::Plain { instruction })?;
    Ok(nodes)
}

// The code of a function that is only declared.
fn lower_declared(alloc: Global, number: u32, function: &Function) -> Result<Procedure, AllocError>
    ensures { (literals : ℕ) → IfOk result (λ p. view_procedure p ≡ undefined_code literals number (view_function function.now)) }
{
    Ok(Procedure {
        name: copy_name(alloc, &function.name)?,
        line: function.line,
        registers: one_register(alloc)?,
        blocks: Vec::new(alloc),
        nodes: breaking(alloc, number, function.line)?,
        startable: false,
    })
}

// How many bytes a function hands over.
fn given_size(gives: Option<PassedType>) -> u32
    ensures { result ≡ given_size gives }
{
    match gives {
        None => 0,
        Some(PassedType::Integer(type_)) => type_.size(),
        Some(PassedType::Structure(size)) => size,
    }
}

// How many bytes each variable has.
fn variable_sizes(alloc: Global, variables: &[Variable]) -> Result<Vec<u32>, AllocError>
    ensures { IfOk result (λ v. v.items ≡ sizes_of_variables variables.now) }
{
    let mut sizes = Vec::new(alloc);
    for variable in variables {
        sizes.push(variable.size)?;
    }
    Ok(sizes)
}

// How many parameters a function has. Code can't be had where that has no number.
fn parameter_number(parameters: &[PassedType]) -> Result<u32, AllocError>
    ensures { IfOk result (λ n. n ≡ length parameters.now) }
{
    let count = parameters.len();
    if count > u32::MAX as usize {
        return Err(AllocError);
    }
    Ok(count as u32)
}

// The blocks of a function with these variables.
fn lower_blocks(
    alloc: Global,
    variables: &[Variable],
    given: u32,
    temporaries: &Temporaries,
) -> Result<Vec<u32>, AllocError>
    ensures { IfOk result (λ v. v.items ≡ blocks_of (sizes_of_variables variables.now) given temporaries.now) }
{
    let mut blocks = variable_sizes(alloc, variables)?;
    blocks.push(temporaries.zeros())?;
    blocks.push(given)?;
    blocks.extend_from_slice(temporaries.sizes())?;
    blocks.push(temporaries.heap())?;
    Ok(blocks)
}

// A body, around which the objects of so many parameters live.
fn lower_body(
    draft: &mut Draft<'_>,
    alloc: Global,
    line: u32,
    count: u32,
    body: &CoreStatement,
) -> Result<Vec<Node>, AllocError>
    requires { draft.old ≡ begun draft.old.frame }
    ensures registers { OnOk result (draft.new.registers ≡ body_types draft.old.frame.variables count (view_statement body.now)) }
    ensures nodes { IfOk result (λ v. nodes_of v.items ≡ body_code draft.old.frame line count (view_statement body.now)) }
{
    let mut nodes = Vec::new(alloc);
    draft.put(line, Operation::Assert { operand: 0 }, &mut nodes)?;
    draft.put(line, Operation::Return { value: None }, &mut nodes)?;
    let _zero = draft.register(IntegerType::Int)?;
    let living = live_parameters(draft, line, count)?;
    leave_before(draft, living, &mut nodes)?;
    lower_statement(draft, alloc, body, of_function(living), &mut nodes)?;
    make_parameters(draft, line, count)?;
    draft.flush(&mut nodes)?;
    nodes.reverse();
    Ok(nodes)
}

// The code of a function with this body.
fn lower_defined(
    alloc: Global,
    literals: u32,
    number: u32,
    function: &Function,
    body: &CoreStatement,
) -> Result<Procedure, AllocError>
    ensures { IfOk result (λ p. view_procedure p ≡ defined_code literals number (view_function function.now) (view_statement body.now)) }
{
    let temporaries = statement_temporaries(alloc, &function.variables, body)?;
    let variables = &function.variables;
    let mut draft = Draft::new(
        alloc,
        number,
        variables,
        temporaries.sizes().len(),
        literals,
    )?;
    let count = parameter_number(&function.parameters)?;
    let nodes = lower_body(&mut draft, alloc, function.line, count, body)?;
    Ok(Procedure {
        name: copy_name(alloc, &function.name)?,
        line: function.line,
        registers: draft.into_registers(),
        blocks: lower_blocks(alloc, variables, given_size(function.gives), &temporaries)?,
        nodes,
        startable: false,
    })
}

// The code of a function.
fn lower_function(
    alloc: Global,
    literals: u32,
    number: u32,
    function: &Function,
) -> Result<Procedure, AllocError>
    ensures { IfOk result (λ p. view_procedure p ≡ function_code literals number (view_function function.now)) }
{
    match &function.body {
        Some(body) => lower_defined(alloc, literals, number, function, body),
        None => lower_declared(alloc, number, function),
    }
}

fn lower_functions(
    alloc: Global,
    literals: u32,
    functions: &[Function],
) -> Result<Vec<Procedure>, AllocError>
    requires { length functions.now < 2 ^ 31 }
    ensures { IfOk result (λ ps. view_procedures ps.items ≡ function_codes literals 0 (view_functions functions.now)) }
{
    let mut procedures = Vec::new(alloc);
    for (number, function) in functions.iter().enumerate() {
        let procedure = lower_function(alloc, literals, number as u32, function)?;
        procedures.push(procedure)?;
    }
    Ok(procedures)
}

// The store at the start; it is empty where the static objects and the literals alone pass a limit.
fn lower_objects(alloc: Global, file: &Admitted) -> Result<Store, AllocError>
    ensures { IfOk result (λ s. s ≡ (lowered (view_core file.now)).store) }
{
    if are_storable(file) {
        first_store(alloc, file)
    } else {
        Ok(Store::new(alloc))
    }
}

/// The code of a file, with loops and calls: what it does as strict code under the bounds of a command is
/// what the file means under them. Its store is the first store of the file, where the static objects and the
/// literals alone pass no limit. Where no forms over pointers may stand in the file, it has no operations on
/// pointers. Fails only for want of memory.
pub fn lower(alloc: Global, file: &Admitted) -> Result<Goto, AllocError>
    ensures code { IfOk result (λ g. view_goto g ≡ lowered (view_core file.now)) }
    ensures same { IfOk result (λ g. (bounds : Limits) → bounds.malloc_limit ≤ 4096 → DoSame (strict_thread g bounds) (source_thread (view_core file.now) bounds)) }
    ensures store { source.are_storable (view_core file.now) ≡ true → IfOk result (λ g. g.store ≡ first_objects (view_core file.now)) }
    ensures plain { file.now.pointers ≡ false → IfOk result (λ g. are_static (view_procedures g.functions) ≡ true) }
{
    let core = file.core();
    let functions = core.functions();
    let _literals = core.literals();
    let literals = core.objects().len() as u32 + 1;
    let procedures = lower_functions(alloc, literals, functions)?;
    let main = number_of_main(functions) as u32;
    let store = lower_objects(alloc, file)?;
    Ok(Goto::new(procedures, main, store))
}
