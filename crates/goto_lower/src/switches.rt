//! The code that leads to the cases of a `switch`.

ghost use Rattle.std.specs.Prelude.{◌≡◌, ℕ, ◌+◌, ◌*◌, [], ◌∷◌, ◌++◌, length, reverse, if◌then◌else◌, false, IfOk, OnOk};
ghost use Rattle.core_tree.specs.Trees.{Items, view, items_of, with_item};
ghost use Rattle.c_meaning.specs.Meaning.{number_type};
ghost use Rattle.goto_prog.specs.Nodes.{plain, nodes_of};
ghost use Rattle.goto_prog.specs.declared.code.Operation.TheVariants as operations;
ghost use Rattle.lowered_code.specs.Lowering.{at_line, top, plains, code, last_case, guarded, declares_none};
ghost use Rattle.lowered_code.specs.Registers.{types, case_types, entry_types};
ghost use Rattle.code_draft.specs.Drafts.{next, added};
ghost use Rattle.goto_lower.specs.Statements.{typed, jump_code, jumps_to, after_tests, case_code, way_code, entered_code};

use crate::exits::{CasePlace, Cases};
use crate::first_values::enter;
use c_temporaries::number_type;
use c_types::IntegerType;
use code_draft::{Draft, more};
use core_tree::{ArithmeticOperator, Comparison, CoreExpr, CoreItem};
use goto_prog::{Node, Operation};
use std::alloc::AllocError;

// The registers of a `switch`: one for whether a case before the first is met, which none is, that of its
// value, and the one that tells whether any of its cases is met.
#[derive(Clone, Copy)]
struct SwitchRegisters {
    before: usize,
    value: usize,
    last: usize,
}

// In front of the test of a case: the register that tells whether a case before it is met, and the first of
// its own.
#[derive(Clone, Copy)]
struct CaseTest {
    before: usize,
    into: usize,
}

// Whether an item declares a variable.
fn declares(item: &CoreItem) -> bool
    ensures { (rest : Items) → declares_none (with_item item.now rest) ≡ (if result then false else declares_none rest) }
{
    match item {
        CoreItem::Declare { .. } => true,
        CoreItem::Initialize { .. } => true,
        CoreItem::InitializeStructure { .. } => true,
        CoreItem::Statement { .. } => false,
        CoreItem::Label { .. } => false,
        CoreItem::Case { .. } => false,
        CoreItem::Default { .. } => false,
    }
}

// Whether no item declares a variable.
fn declares_none(items: &[CoreItem]) -> bool
    ensures { result ≡ declares_none (items_of items.now) }
{
    for item in items {
        if declares(item) {
            return false;
        }
    }
    true
}

// The registers for the test of a case, of which the last tells whether it or a case before it is met,
// and for that in front of its jump, if an item is one.
fn case_register(draft: &mut Draft<'_>, item: &CoreItem, before: usize) -> Result<usize, AllocError>
    ensures draft { (rest : Items) → OnOk result (typed draft.new (case_types rest) ≡ typed draft.old (case_types (with_item item.now rest))) }
    ensures last { (rest : Items) → IfOk result (λ r. last_case draft.new.frame r rest (next draft.new) ≡ last_case draft.old.frame before (with_item item.now rest) (next draft.old)) }
{
    match item {
        CoreItem::Case { type_, .. } => {
            let _value = draft.register(*type_)?;
            let _met = draft.register(IntegerType::Int)?;
            let any = draft.register(IntegerType::Int)?;
            let _again = draft.register(*type_)?;
            let _jumps = draft.register(IntegerType::Int)?;
            Ok(any)
        }
        _ => Ok(before),
    }
}

// The registers for the tests of the cases, and the last that tells whether one is met, or `before`
// where there is none.
fn case_registers(
    draft: &mut Draft<'_>,
    items: &[CoreItem],
    before: usize,
) -> Result<usize, AllocError>
    ensures draft { OnOk result (draft.new ≡ typed draft.old (case_types (items_of items.now))) }
    ensures last { IfOk result (λ r. r ≡ last_case draft.old.frame before (items_of items.now) (next draft.old)) }
{
    let mut last = before;
    for item in items {
        last = case_register(draft, item, last)?;
    }
    Ok(last)
}

// The tests of the cases for a value, each with the jump to it; the registers of the last end at `end`.
fn case_jumps(
    draft: &Draft<'_>,
    end: usize,
    value: usize,
    base: usize,
    places: &[CasePlace],
    made: &mut Vec<Node>,
) -> Result<(), AllocError>
    ensures { (first : ℕ) → end ≡ first + 5 * length places.now → OnOk result (nodes_of (reverse made.new.items) ≡ jumps_to draft.now.frame base value first (reverse places.now) (nodes_of (reverse made.old.items))) }
{
    let mut into = end;
    for case in places {
        into = into.saturating_sub(5);
        case_jump(draft, into, value, base, *case, made)?;
    }
    Ok(())
}

// One of them, over the registers from `into` on.
fn case_jump(
    draft: &Draft<'_>,
    into: usize,
    value: usize,
    base: usize,
    case: CasePlace,
    made: &mut Vec<Node>,
) -> Result<(), AllocError>
    ensures { OnOk result (nodes_of (reverse made.new.items) ≡ jump_code draft.now.frame base value into case (nodes_of (reverse made.old.items))) }
{
    let again = more(into, 3)?;
    let met = more(into, 4)?;
    draft.jump_to(case.line, base, case.place, made)?;
    let operation = Operation::SkipIfZero {
        operand: met,
        count: 1,
    };
    draft.put(case.line, operation, made)?;
    let operation = Operation::Compare {
        into: met,
        operator: Comparison::Equal,
        type_: case.type_,
        left: again,
        right: value,
    };
    draft.put(case.line, operation, made)?;
    let operation = Operation::Constant {
        into: again,
        bits: case.bits,
    };
    draft.put(case.line, operation, made)
}

// Passes over the code behind which so many nodes stand, where no case is met.
fn pass_unmet(
    draft: &mut Draft<'_>,
    line: u32,
    items: &[CoreItem],
    registers: SwitchRegisters,
    count: usize,
    made: &mut Vec<Node>,
) -> Result<(), AllocError>
    requires { draft.old.instructions ≡ [] }
    ensures draft { OnOk result (draft.new ≡ draft.old) }
    ensures code { registers.last ≡ last_case draft.old.frame registers.before (items_of items.now) (registers.value + 1) → OnOk result (nodes_of (reverse made.new.items) ≡ guarded draft.old.frame line registers.before registers.value (items_of items.now) (registers.value + 1) count (nodes_of (reverse made.old.items))) }
{
    let count = made.len().saturating_sub(count);
    let operand = registers.last;
    draft.put(line, Operation::SkipIfZero { operand, count }, made)?;
    let operation = Operation::Constant {
        into: registers.before,
        bits: 0,
    };
    draft.push(line, operation)?;
    case_tests(draft, items, registers.value, registers.before)?;
    draft.flush(made)
}

// The way from the value into the items.
fn enter_cases(
    draft: &mut Draft<'_>,
    value: &CoreExpr,
    items: &[CoreItem],
    cases: &Cases,
    base: usize,
    made: &mut Vec<Node>,
) -> Result<SwitchRegisters, AllocError>
    requires { draft.old.instructions ≡ [] }
    ensures draft { OnOk result (draft.new ≡ typed draft.old (IntegerType.Int ∷ number_type (view value.now) ∷ (case_types (items_of items.now) ++ entry_types draft.old.frame.variables (items_of items.now)))) }
    ensures code { 5 * length cases.now.places.items ≡ length (case_types (items_of items.now)) → OnOk result (nodes_of (reverse made.new.items) ≡ way_code draft.old.frame base (next draft.old + 1) (items_of items.now) cases.now.places.items (nodes_of (reverse made.old.items))) }
    ensures registers { IfOk result (λ r. r ≡ record { before = next draft.old; value = next draft.old + 1; last = last_case draft.old.frame (next draft.old) (items_of items.now) (next draft.old + 1 + 1) }) }
{
    let before = draft.register(IntegerType::Int)?;
    let value = draft.register(number_type(value))?;
    let last = case_registers(draft, items, before)?;
    case_jumps(draft, draft.next(), value, base, &cases.places, made)?;
    enter(draft, items)?;
    draft.flush(made)?;
    Ok(SwitchRegisters {
        before,
        value,
        last,
    })
}

/// The way into the items, behind whose code so many nodes stand. Gives the register of the value.
pub(crate) fn enter_switch(
    draft: &mut Draft<'_>,
    line: u32,
    value: &CoreExpr,
    items: &[CoreItem],
    cases: &Cases,
    base: usize,
    count: usize,
    made: &mut Vec<Node>,
) -> Result<usize, AllocError>
    requires { draft.old.instructions ≡ [] }
    ensures draft { OnOk result (draft.new ≡ typed draft.old (IntegerType.Int ∷ number_type (view value.now) ∷ (case_types (items_of items.now) ++ entry_types draft.old.frame.variables (items_of items.now)))) }
    ensures code { 5 * length cases.now.places.items ≡ length (case_types (items_of items.now)) → OnOk result (nodes_of (reverse made.new.items) ≡ entered_code draft.old.frame line base count (items_of items.now) (next draft.old) cases.now.places.items cases.now.otherwise (nodes_of (reverse made.old.items))) }
    ensures value { IfOk result (λ r. r ≡ next draft.old + 1) }
{
    let registers = enter_cases(draft, value, items, cases, base, made)?;
    if cases.otherwise.is_some() || declares_none(items) {
        return Ok(registers.value);
    }
    pass_unmet(draft, line, items, registers, count, made)?;
    Ok(registers.value)
}

// The test of a case, if an item is one.
fn case_test(
    draft: &mut Draft<'_>,
    item: &CoreItem,
    value: usize,
    at: CaseTest,
) -> Result<CaseTest, AllocError>
    ensures { (line : ℕ) (rest : Items) → IfOk result (λ t. after_tests draft.new line value t.before rest t.into ≡ after_tests draft.old line value at.before (with_item item.now rest) at.into) }
{
    match item {
        CoreItem::Case { line, type_, bits } => {
            compare_case(draft, *line, *type_, *bits, value, at)
        }
        _ => Ok(at),
    }
}

// The test of a case with this value.
fn compare_case(
    draft: &mut Draft<'_>,
    line: u32,
    type_: IntegerType,
    bits: u64,
    value: usize,
    at: CaseTest,
) -> Result<CaseTest, AllocError>
    ensures code { OnOk result (draft.new ≡ added draft.old (case_code draft.old.frame line type_ bits value at.before at.into) []) }
    ensures next { IfOk result (λ t. t ≡ record { before = at.into + 2; into = at.into + 5 }) }
{
    let into = at.into;
    let met = more(into, 1)?;
    let any = more(into, 2)?;
    let next = more(into, 5)?;
    draft.push(line, Operation::Constant { into, bits })?;
    let operation = Operation::Compare {
        into: met,
        operator: Comparison::Equal,
        type_,
        left: into,
        right: value,
    };
    draft.push(line, operation)?;
    let operation = Operation::Arithmetic {
        into: any,
        operator: ArithmeticOperator::Or,
        type_: IntegerType::Int,
        right_type: IntegerType::Int,
        left: at.before,
        right: met,
    };
    draft.push(line, operation)?;
    Ok(CaseTest {
        before: any,
        into: next,
    })
}

// The tests of the cases, with the value in a register; where one is met, or one before it, is in the
// last register of each, and in `before` for those before the first.
fn case_tests(
    draft: &mut Draft<'_>,
    items: &[CoreItem],
    value: usize,
    before: usize,
) -> Result<(), AllocError>
    ensures { (line : ℕ) → OnOk result (draft.new ≡ after_tests draft.old line value before (items_of items.now) (value + 1)) }
{
    let mut at = CaseTest {
        before,
        into: more(value, 1)?,
    };
    for item in items {
        at = case_test(draft, item, value, at)?;
    }
    Ok(())
}

/// The value of a `switch`, into a register.
pub(crate) fn choose(
    draft: &mut Draft<'_>,
    line: u32,
    value: &CoreExpr,
    register: usize,
    made: &mut Vec<Node>,
) -> Result<(), AllocError>
    requires { draft.old.instructions ≡ [] }
    ensures draft { OnOk result (draft.new ≡ typed draft.old (types draft.old.frame.variables (view value.now))) }
    ensures code { OnOk result (nodes_of (reverse made.new.items) ≡ plains (code draft.old.frame (view value.now) (next draft.old)) (plain (at_line draft.old.frame line (operations.Copy register (next draft.old + top draft.old.frame.variables (view value.now)))) (nodes_of (reverse made.old.items)))) }
{
    let value = draft.expression(value)?;
    let operation = Operation::Copy {
        into: register,
        operand: value.register,
    };
    draft.put(line, operation, made)?;
    draft.flush(made)
}
