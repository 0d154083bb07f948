//! How far a function is typed: its loops, its labels and the cases of its switches.

ghost use Rattle.std.specs.Prelude.{◌≡◌, ◌≤◌, ◌^◌, None, option_map, IfOk, OnOk, OnErr};
ghost use Rattle.c_types.specs.Types.{view as type_view};
ghost use Rattle.c_scope.specs.Scopes.{view_cases, view_flow, no_flow};
ghost use Rattle.c_scope.specs.Faults.{on_line};
ghost use Rattle.c_elab_flow.specs.Steps.{CaseAmong, CaseOf, CaseStep, DefaultOf, DefaultStep};
ghost use Rattle.c_operands.specs.Operands.{view_operand};
ghost use Rattle.c_elab_flow.specs.Nodes.{with_loop, with_label, with_switch, switch_type, case_in, case_of_switch, case_node, default_node};

use c_operands::{CoreOperand, constant_in};
use c_scope::{Cases, Flow, Scope, TypingError};
use c_types::{IntegerType, Ty, ValueType, promote};
use c_values::Number;
use core_tree::type_of;
use indexmap::IndexSet;
use std::alloc::{AllocError, Global};

// More loops or labels than this have no memory.
const MOST: u32 = 0x7fff_ffff;

fn no_flow() -> Flow
    ensures { view_flow result ≡ no_flow }
{
    Flow {
        gives: Ty::Void,
        loops: 0,
        labels: 0,
        switch: None,
    }
}

/// Begins a function that gives this type.
pub fn begin(gives: Ty, scope: &mut Scope)
    ensures { scope.new ≡ record scope.old { flow = record { gives = type_view gives; loops = 0; labels = 0; switch = None } } }
{
    let _outer = scope.set_flow(Flow {
        gives,
        loops: 0,
        labels: 0,
        switch: None,
    });
}

/// Ends a function.
pub fn end(scope: &mut Scope)
    ensures { scope.new ≡ record scope.old { flow = no_flow } }
{
    let _inner = scope.set_flow(no_flow());
}

/// One loop more, and its number. It takes no memory, and there is none for more than 2^31 loops.
pub fn next_loop(scope: &mut Scope) -> Result<u32, AllocError>
    ensures number { IfOk result (λ n. n ≡ scope.old.flow.loops) }
    ensures more { OnOk result (scope.new ≡ with_loop scope.old) }
    ensures full { OnErr result (2 ^ 31 ≤ scope.old.flow.loops) }
{
    let number = scope.flow().loops;
    if number > MOST {
        return Err(AllocError);
    }
    let mut flow = scope.set_flow(no_flow());
    flow.loops = number + 1;
    let _none = scope.set_flow(flow);
    Ok(number)
}

/// One label more, and its number. It takes no memory, and there is none for more than 2^31 labels.
pub fn next_label(scope: &mut Scope) -> Result<u32, AllocError>
    ensures number { IfOk result (λ n. n ≡ scope.old.flow.labels) }
    ensures more { OnOk result (scope.new ≡ with_label scope.old) }
    ensures full { OnErr result (2 ^ 31 ≤ scope.old.flow.labels) }
{
    let number = scope.flow().labels;
    if number > MOST {
        return Err(AllocError);
    }
    let mut flow = scope.set_flow(no_flow());
    flow.labels = number + 1;
    let _none = scope.set_flow(flow);
    Ok(number)
}

/// The type of a switch on an operand.
pub fn switch_type(operand: &CoreOperand) -> IntegerType
    ensures { result ≡ switch_type (view_operand operand.now) }
{
    match operand {
        CoreOperand::Value { value, .. } => match type_of(value) {
            ValueType::Integer(type_) => promote(type_),
            ValueType::Void => IntegerType::Int,
        },
        CoreOperand::Object { .. } => IntegerType::Int,
        CoreOperand::Structure { .. } => IntegerType::Int,
    }
}

// The cases of the innermost switch, which the scope hasn't until it gets others.
fn take_switch(scope: &mut Scope) -> Option<Cases>
    ensures is { option_map view_cases result ≡ scope.old.flow.switch }
    ensures taken { scope.new ≡ record scope.old { flow = record scope.old.flow { switch = None } } }
{
    let mut flow = scope.set_flow(no_flow());
    let mut switch = None;
    std::mem::swap(&mut switch, &mut flow.switch);
    let _none = scope.set_flow(flow);
    switch
}

fn put_switch(switch: Option<Cases>, scope: &mut Scope)
    ensures { scope.new ≡ record scope.old { flow = record scope.old.flow { switch = option_map view_cases switch } } }
{
    let mut flow = scope.set_flow(no_flow());
    flow.switch = switch;
    let _none = scope.set_flow(flow);
}

/// Begins a switch whose value has this type, and gives the cases of the one around it.
pub fn open_switch(alloc: Global, type_: IntegerType, scope: &mut Scope) -> Option<Cases>
    ensures outer { option_map view_cases result ≡ scope.old.flow.switch }
    ensures opened { scope.new ≡ with_switch scope.old type_ }
{
    let outer = take_switch(scope);
    put_switch(
        Some(Cases {
            type_,
            values: IndexSet::new(alloc),
            has_default: false,
        }),
        scope,
    );
    outer
}

/// Ends a switch within the one with these cases.
pub fn close_switch(outer: Option<Cases>, scope: &mut Scope)
    ensures { scope.new ≡ record scope.old { flow = record scope.old.flow { switch = option_map view_cases outer } } }
{
    put_switch(outer, scope);
}

// A case of this value among others: its type and its bits, or the rule.
fn add_value(
    cases: &mut Cases,
    number: Number,
) -> Result<Result<(IntegerType, u64), u32>, AllocError>
    ensures { IfOk result (λ r. CaseAmong r (view_cases cases.new) (case_in (view_cases cases.old) number)) }
{
    let bits = number.converted(cases.type_).bits();
    if cases.values.contains(&bits) {
        return Ok(Err(14));
    }
    cases.values.insert(bits)?;
    Ok(Ok((cases.type_, bits)))
}

// A case of this value in a switch, if there is one: the cases behind it, and its type and its bits, or the rule.
fn case_of_switch(
    switch: Option<Cases>,
    number: Number,
) -> Result<(Option<Cases>, Result<(IntegerType, u64), u32>), AllocError>
    ensures { IfOk result (λ x. CaseOf x.1 (option_map view_cases x.0) (case_of_switch (option_map view_cases switch) number)) }
{
    match switch {
        None => Ok((None, Err(14))),
        Some(cases) => {
            let mut behind = cases;
            let made = add_value(&mut behind, number)?;
            Ok((Some(behind), made))
        }
    }
}

/// A case with this operand, whose rules are broken on the line: the type and the bits of its value.
pub fn add_case(
    operand: &CoreOperand,
    line: u32,
    scope: &mut Scope,
) -> Result<(IntegerType, u64), TypingError>
    ensures { CaseStep result scope.old scope.new (on_line line (case_node scope.old.flow.switch (view_operand operand.now))) }
{
    let Some(number) = constant_in(operand) else {
        return Err(TypingError::Typing { line, rule: 13 });
    };
    let switch = take_switch(scope);
    let (behind, made) = case_of_switch(switch, number)?;
    put_switch(behind, scope);
    match made {
        Ok(case) => Ok(case),
        Err(rule) => Err(TypingError::Typing { line, rule }),
    }
}

// A `default` in a switch, if there is one: the cases behind it, and whether it is the first.
fn default_of_switch(switch: Option<Cases>) -> (Option<Cases>, bool)
    ensures { DefaultOf result.1 (option_map view_cases result.0) (default_node (option_map view_cases switch)) }
{
    match switch {
        None => (None, false),
        Some(cases) => {
            let first = !cases.has_default;
            let mut behind = cases;
            behind.has_default = true;
            (Some(behind), first)
        }
    }
}

/// A `default`, whose rule is broken on the line.
pub fn add_default(line: u32, scope: &mut Scope) -> Result<(), TypingError>
    ensures { DefaultStep result scope.old scope.new (on_line line (default_node scope.old.flow.switch)) }
{
    let switch = take_switch(scope);
    let (behind, first) = default_of_switch(switch);
    put_switch(behind, scope);
    if first {
        Ok(())
    } else {
        Err(TypingError::Typing { line, rule: 14 })
    }
}
