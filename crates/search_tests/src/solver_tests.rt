//! Tests of the search for a model.

// Forms of clauses that are solved, and logs that are checked.

ghost use Rattle.std.specs.Prelude.{◌≡◌, ◌≤◌, length};
ghost use Rattle.sat_form.specs.Satisfaction.{IsWithin};

use cdcl_core::{Answer, solve};
use gate_arith::{
    Shift, adder, choice, conjunction, difference, difference_fits, disjunction, divider, equal,
    exclusive, left_shift_fits, less, multiplier, negation, product_fits, shifter, sum_fits,
};
use gate_bits::Lits;
use gate_bits::bits::complement;
use refutation_check::Checker;
use sat_form::{Assignment, Clause, Cnf, Entry, Hints, Lit, Log, is_model, is_within};
use std::alloc::{AllocError, Global};
use std::test::Fail;

// Adds the clause of these literals, where the form has their variables.
fn add(alloc: Global, cnf: &mut Cnf, literals: &[Lit]) -> Result<(), Fail> {
    if is_within(literals, cnf.variables()) {
        cnf.add(alloc, literals)?;
    }
    Ok(())
}

// Adds that each of the pigeons sits in one of the holes, unless one of these literals is true, and no two in the same. The variables are
// those from `first` on.
fn add_pigeons(
    alloc: Global,
    cnf: &mut Cnf,
    first: u32,
    pigeons: u32,
    holes: u32,
    others: &[Lit],
) -> Result<(), Fail>
    requires { first ≤ 1000 }
{
    for pigeon in 0..pigeons % 10 {
        let mut clause = Clause::from_slice(alloc, others)?;
        for hole in 0..holes % 10 {
            clause.push(Lit::new(first + pigeon * 10 + hole, false))?;
        }
        add(alloc, cnf, clause.literals())?;
        for other in 0..pigeon {
            for hole in 0..holes % 10 {
                add(
                    alloc,
                    cnf,
                    &[
                        Lit::new(first + pigeon * 10 + hole, true),
                        Lit::new(first + other * 10 + hole, true),
                    ],
                )?;
            }
        }
    }
    Ok(())
}

// The form of so many variables without clauses.
fn form_without_clauses(alloc: Global, variables: u32) -> Result<Cnf, Fail> {
    let mut cnf = Cnf::new(alloc);
    for _ in 0..variables {
        let _ = cnf.fresh()?;
    }
    Ok(cnf)
}

// Each of the pigeons sits in one of the holes, and no two in the same.
fn pigeons(alloc: Global, pigeons: u32, holes: u32) -> Result<Cnf, Fail> {
    let mut cnf = form_without_clauses(alloc, 100)?;
    add_pigeons(alloc, &mut cnf, 0, pigeons, holes, &[])?;
    Ok(cnf)
}

// Ten times that seven pigeons sit in six holes or a variable is true, and that not all ten variables are.
fn ten_times_pigeons(alloc: Global) -> Result<Cnf, Fail> {
    let mut cnf = form_without_clauses(alloc, 1_000)?;
    let mut last = Clause::new(alloc);
    for copy in 0..10 {
        let other = Lit::new(copy * 100 + 99, false);
        add_pigeons(alloc, &mut cnf, copy * 100, 7, 6, &[other])?;
        last.push(other.inverse())?;
    }
    add(alloc, &mut cnf, last.literals())?;
    Ok(cnf)
}

// The form of these clauses over three variables, each literal by its variable and its sign.
fn form_of(alloc: Global, clauses: &[Vec<(u32, bool)>]) -> Result<Cnf, Fail> {
    let mut cnf = form_without_clauses(alloc, 3)?;
    for literals in clauses {
        let mut clause = Clause::new(alloc);
        for (variable, negated) in literals {
            clause.push(Lit::new(*variable % 3, *negated))?;
        }
        add(alloc, &mut cnf, clause.literals())?;
    }
    Ok(cnf)
}

// More units than the forms of these tests take.
const AMPLE: u64 = 1_000_000;

// Whether the form has a model, by both searches.
fn fits(alloc: Global, cnf: &Cnf) -> Result<bool, Fail> {
    let first = is_model_found(alloc, cnf, &solve(alloc, cnf, AMPLE)?)?;
    let second = is_model_found(alloc, cnf, &cdcl_search::solve(alloc, cnf, AMPLE)?)?;
    if first != second {
        return Err("two answers")?;
    }
    Ok(first)
}

// Whether the answer is a model; where it is none, the checker accepts the log, and not without its last entry.
fn is_model_found(alloc: Global, cnf: &Cnf, answer: &Answer) -> Result<bool, Fail> {
    match answer {
        Answer::Sat(model) => Ok(
            model.values().len() == cnf.variables() as usize && is_model(cnf, model),
        ),
        Answer::Unsat(log) => {
            if !accepts(alloc, cnf, log)? {
                return Err("a log that is no refutation")?;
            }
            if accepts(alloc, cnf, &without_last(alloc, log)?)? {
                return Err("a log without the empty clause that is accepted")?;
            }
            Ok(false)
        }
        Answer::Spent(_) => Err("a budget that is spent")?,
    }
}

// Whether the checker accepts the log.
fn accepts(alloc: Global, cnf: &Cnf, log: &Log) -> Result<bool, Fail> {
    let mut checker = Checker::new(alloc, cnf.variables(), cnf.variables() as usize)?;
    if cnf.variables() <= checker.variables() && log.is_within(checker.variables()) {
        return Ok(checker.check(cnf, log));
    }
    Err("a log of other variables")?
}

// The log without its last entry.
fn without_last(alloc: Global, log: &Log) -> Result<Log, Fail> {
    let mut shorter = Log::new(alloc);
    for entry in log
        .entries()
        .iter()
        .take(log.entries().len().saturating_sub(1))
    {
        match entry {
            Entry::Added(clause, hints) => {
                let mut numbers = Vec::new(alloc);
                numbers.extend_from_slice(hints.numbers())?;
                shorter.add(
                    Clause::from_slice(alloc, clause.literals())?,
                    Hints::from_numbers(numbers),
                )?;
            }
            Entry::Deleted(number) => shorter.delete(*number)?,
        }
    }
    Ok(shorter)
}

#[test]
fn five_pigeons_in_four_holes(rt: HostRuntime) -> Result<(), Fail> {
    let alloc = rt.alloc();
    let cnf = pigeons(alloc, 5, 4)?;
    match solve(alloc, &cnf, 1)? {
        Answer::Spent(log) => match log.entries() {
            [Entry::Added(clause, hints)] => {
                assert!(rt; !clause.literals().is_empty() && !hints.numbers().is_empty())
            }
            _ => assert!(rt; false, "a log of another length"),
        },
        _ => assert!(rt; false, "a budget that is not spent"),
    }
    assert_eq!(rt; fits(alloc, &cnf)?, false);
    Ok(())
}

// Whether an entry of the log deletes a clause.
fn has_deletion(log: &Log) -> bool {
    for entry in log.entries() {
        if let Entry::Deleted(_) = entry {
            return true;
        }
    }
    false
}

// How many entries of the log add a clause.
fn units(log: &Log) -> u64 {
    let mut count: u64 = 0;
    for entry in log.entries() {
        if let Entry::Added(_, _) = entry {
            count = count.saturating_add(1);
        }
    }
    count
}

// Whether the first answer is a refutation and the second a budget that is spent, both with deletions.
fn deletes(alloc: Global, cnf: &Cnf, refuted: &Answer, spent: &Answer) -> Result<bool, Fail> {
    if is_model_found(alloc, cnf, refuted)? {
        return Ok(false);
    }
    match (refuted, spent) {
        (Answer::Unsat(log), Answer::Spent(cut)) => {
            Ok(has_deletion(log) && has_deletion(cut) && units(cut) == FEW)
        }
        _ => Ok(false),
    }
}

// Fewer units than ten times seven pigeons take, and more than are learned before clauses are deleted.
const FEW: u64 = 7_000;

#[test]
fn learned_clauses_are_deleted(rt: HostRuntime) -> Result<(), Fail> {
    let alloc = rt.alloc();
    let cnf = ten_times_pigeons(alloc)?;
    let (refuted, spent) = (solve(alloc, &cnf, AMPLE)?, solve(alloc, &cnf, FEW)?);
    assert!(rt; deletes(alloc, &cnf, &refuted, &spent)?);
    let refuted = cdcl_search::solve(alloc, &cnf, AMPLE)?;
    let spent = cdcl_search::solve(alloc, &cnf, FEW)?;
    assert!(rt; deletes(alloc, &cnf, &refuted, &spent)?);
    Ok(())
}

// The next of a row of numbers that look random.
fn next_random(state: u32) -> u32 {
    let a = state ^ (state << 13);
    let b = a ^ (a >> 17);
    b ^ (b << 5)
}

// Whether one of the assignments to three variables satisfies the form.
fn has_model(alloc: Global, cnf: &Cnf) -> Result<bool, Fail> {
    for bits in 0u32..8 {
        let values = vec![in alloc; bits & 1 == 1, bits & 2 == 2, bits & 4 == 4]?;
        if is_model(cnf, &Assignment::from_values(values)) {
            return Ok(true);
        }
    }
    Ok(false)
}

#[test]
fn random_small_forms(rt: HostRuntime) -> Result<(), Fail> {
    let alloc = rt.alloc();
    let mut state = 2_463_534_242;
    for _ in 0..2_000 {
        let mut clauses = Vec::new(alloc);
        for _ in 0..3 + state % 7 {
            let mut clause = Vec::new(alloc);
            state = next_random(state);
            for _ in 0..1 + state % 3 {
                state = next_random(state);
                clause.push((state >> 7, state >> 29 & 1 == 1))?;
            }
            clauses.push(clause)?;
        }
        let cnf = form_of(alloc, &clauses)?;
        assert_eq!(rt; fits(alloc, &cnf)?, has_model(alloc, &cnf)?);
    }
    Ok(())
}

// Pigeons and holes, and whether each pigeon can have one of its own.
static HOLES: [(u32, u32, bool); 4] = [(5, 4, false), (4, 4, true), (0, 0, true), (1, 0, false)];

const A: (u32, bool) = (0, false);

const B: (u32, bool) = (1, false);

const C: (u32, bool) = (2, false);

const NOT_A: (u32, bool) = (0, true);

const NOT_B: (u32, bool) = (1, true);

const NOT_C: (u32, bool) = (2, true);

// Clauses, and whether they have a model.
type Form<'a> = (&'a [&'a [(u32, bool)]], bool);

static FORMS: [Form<'static>; 5] = [
    (&[&[A, NOT_A]], true),
    (&[&[A], &[NOT_A]], false),
    (&[&[A, B], &[NOT_A, B], &[A, NOT_B]], true),
    (&[&[A, A], &[NOT_A, B], &[NOT_B, C], &[NOT_C]], false),
    (&[&[A, B], &[NOT_A, B], &[A, NOT_B], &[NOT_A, NOT_B]], false),
];

// The form of these clauses.
fn form_of_rows(alloc: Global, rows: &[&[(u32, bool)]]) -> Result<Cnf, Fail> {
    let mut clauses = Vec::new(alloc);
    for row in rows {
        clauses.push(Vec::from_slice(alloc, row)?)?;
    }
    form_of(alloc, &clauses)
}

// The first row whose form is answered otherwise.
fn wrong_form(alloc: Global, rows: &[Form<'_>]) -> Result<Option<usize>, Fail> {
    for (i, (clauses, expected)) in rows.iter().enumerate() {
        let cnf = form_of_rows(alloc, clauses)?;
        if fits(alloc, &cnf)? != *expected {
            return Ok(Some(i));
        }
    }
    Ok(None)
}

#[test]
fn pigeons_and_small_forms(rt: HostRuntime) -> Result<(), Fail> {
    let alloc = rt.alloc();
    for (count, holes, expected) in HOLES {
        let cnf = pigeons(alloc, count, holes)?;
        assert_eq!(rt; fits(alloc, &cnf)?, expected, "{count} {holes}");
    }
    assert_eq!(rt; wrong_form(alloc, &FORMS)?, None);
    Ok(())
}

#[derive(Clone, Copy)]
enum Operation {
    Sum,
    SumAndOne,
    Product,
    Quotient,
    Remainder,
    SignedQuotient,
    SignedRemainder,
    Left,
    Logical,
    Arithmetic,
    Less,
    SignedLess,
    Equal,
    Complement,
    Negation,
    Difference,
    Conjunction,
    Disjunction,
    Exclusive,
    Choice,
    SumFits,
    DifferenceFits,
    ProductFits,
    LeftFits,
}

const OPERATIONS: [Operation; 24] = [
    Operation::Sum,
    Operation::SumAndOne,
    Operation::Product,
    Operation::Quotient,
    Operation::Remainder,
    Operation::SignedQuotient,
    Operation::SignedRemainder,
    Operation::Left,
    Operation::Logical,
    Operation::Arithmetic,
    Operation::Less,
    Operation::SignedLess,
    Operation::Equal,
    Operation::Complement,
    Operation::Negation,
    Operation::Difference,
    Operation::Conjunction,
    Operation::Disjunction,
    Operation::Exclusive,
    Operation::Choice,
    Operation::SumFits,
    Operation::DifferenceFits,
    Operation::ProductFits,
    Operation::LeftFits,
];

// What two's complement reads in the bits at the width whose greatest number is `mask`.
fn signed(mask: u32, a: u32) -> i32 {
    if a > mask / 2 {
        a.wrapping_sub(mask).wrapping_sub(1).cast_signed()
    } else {
        a.cast_signed()
    }
}

// Whether a number has the width whose greatest number is `mask`, in two's complement.
fn is_in_range(mask: u32, number: i32) -> bool {
    number == signed(mask, number.cast_unsigned() & mask)
}

fn signed_quotient(a: i32, b: i32) -> i32 {
    match b {
        0 => 0,
        -1 => a.wrapping_neg(),
        _ => a / b,
    }
}

fn signed_remainder(a: i32, b: i32) -> i32 {
    match b {
        0 | -1 => 0,
        _ => a % b,
    }
}

fn arithmetic_shift(width: u32, a: i32, count: u32) -> i32 {
    if count < width && count < 32 {
        a >> count
    } else {
        0
    }
}

fn expected(operation: Operation, width: u32, mask: u32, a: u32, b: u32) -> u32 {
    let (x, y) = (signed(mask, a), signed(mask, b));
    let number = match operation {
        Operation::Sum => a.wrapping_add(b),
        Operation::SumAndOne => a.wrapping_add(b).wrapping_add(1),
        Operation::Product => a.wrapping_mul(b),
        Operation::Quotient => if b == 0 { 0 } else { a / b },
        Operation::Remainder => if b == 0 { 0 } else { a % b },
        Operation::SignedQuotient => signed_quotient(x, y).cast_unsigned(),
        Operation::SignedRemainder => signed_remainder(x, y).cast_unsigned(),
        Operation::Left => if b < 32 { a << b } else { 0 },
        Operation::Logical => if b < 32 { a >> b } else { 0 },
        Operation::Arithmetic => arithmetic_shift(width, x, b).cast_unsigned(),
        Operation::Less => (a < b) as u32,
        Operation::SignedLess => (x < y) as u32,
        Operation::Equal => (a == b) as u32,
        Operation::Complement => !a,
        Operation::Negation => 0u32.wrapping_sub(a),
        Operation::Difference => a.wrapping_sub(b),
        Operation::Conjunction => a & b,
        Operation::Disjunction => a | b,
        Operation::Exclusive => a ^ b,
        Operation::Choice => if a % 2 == 1 { a } else { b },
        Operation::SumFits => is_in_range(mask, x.wrapping_add(y)) as u32,
        Operation::DifferenceFits => is_in_range(mask, x.wrapping_sub(y)) as u32,
        Operation::ProductFits => is_in_range(mask, x.wrapping_mul(y)) as u32,
        Operation::LeftFits => (x >= 0 && b < 32 && is_in_range(mask, x << b)) as u32,
    };
    number & mask
}

// The literal of an operation whose result is one bit; of any other, whether the operands are equal.
fn built_bit(
    alloc: Global,
    cnf: &mut Cnf,
    operation: Operation,
    a: &[Lit],
    b: &[Lit],
) -> Result<Lit, AllocError>
    requires same_width { length a.now ≡ length b.now }
    requires positive { 1 ≤ length a.now }
    requires at_most_64 { length a.now ≤ 64 }
    requires a { IsWithin cnf.old.variables a.now }
    requires b { IsWithin cnf.old.variables b.now }
{
    match operation {
        Operation::Less => less(alloc, cnf, a, b, false),
        Operation::SignedLess => less(alloc, cnf, a, b, true),
        Operation::SumFits => sum_fits(alloc, cnf, a, b),
        Operation::DifferenceFits => difference_fits(alloc, cnf, a, b),
        Operation::ProductFits => product_fits(alloc, cnf, a, b),
        Operation::LeftFits => left_shift_fits(alloc, cnf, a, b),
        _ => equal(alloc, cnf, a, b),
    }
}

// The literals of an operation whose result is a word; of any other, those of its bit.
fn built_word(
    alloc: Global,
    cnf: &mut Cnf,
    operation: Operation,
    a: &[Lit],
    b: &[Lit],
) -> Result<Lits, AllocError>
    requires same_width { length a.now ≡ length b.now }
    requires positive { 1 ≤ length a.now }
    requires at_most_64 { length a.now ≤ 64 }
    requires a { IsWithin cnf.old.variables a.now }
    requires b { IsWithin cnf.old.variables b.now }
{
    match operation {
        Operation::Sum => adder(alloc, cnf, a, b, false),
        Operation::SumAndOne => adder(alloc, cnf, a, b, true),
        Operation::Product => multiplier(alloc, cnf, a, b),
        Operation::Left => shifter(alloc, cnf, Shift::Left, a, b),
        Operation::Logical => shifter(alloc, cnf, Shift::Logical, a, b),
        Operation::Arithmetic => shifter(alloc, cnf, Shift::Arithmetic, a, b),
        Operation::Complement => complement(alloc, a),
        Operation::Negation => negation(alloc, cnf, a),
        Operation::Difference => difference(alloc, cnf, a, b),
        Operation::Conjunction => conjunction(alloc, cnf, a, b),
        Operation::Disjunction => disjunction(alloc, cnf, a, b),
        Operation::Exclusive => exclusive(alloc, cnf, a, b),
        Operation::Choice => choice(alloc, cnf, a[0], a, b),
        _ => Ok(Lits::new(vec![in alloc; built_bit(alloc, cnf, operation, a, b)?]?)),
    }
}

// The literals of the operation's result.
fn built(
    alloc: Global,
    cnf: &mut Cnf,
    operation: Operation,
    a: &[Lit],
    b: &[Lit],
) -> Result<Vec<Lit>, AllocError>
    requires same_width { length a.now ≡ length b.now }
    requires positive { 1 ≤ length a.now }
    requires at_most_64 { length a.now ≤ 64 }
    requires a { IsWithin cnf.old.variables a.now }
    requires b { IsWithin cnf.old.variables b.now }
{
    let lits = match operation {
        Operation::Quotient => divider(alloc, cnf, a, b, false)?.0,
        Operation::Remainder => divider(alloc, cnf, a, b, false)?.1,
        Operation::SignedQuotient => divider(alloc, cnf, a, b, true)?.0,
        Operation::SignedRemainder => divider(alloc, cnf, a, b, true)?.1,
        _ => built_word(alloc, cnf, operation, a, b)?,
    };
    Ok(lits.into_vec())
}

// New variables, as literals.
fn variables(alloc: Global, cnf: &mut Cnf, count: u32) -> Result<Vec<Lit>, AllocError> {
    let mut literals = Vec::new(alloc);
    for _ in 0..count {
        literals.push(cnf.fresh()?)?;
    }
    Ok(literals)
}

fn number_of(assignment: &Assignment, literals: &[Lit]) -> u32 {
    let mut number: u32 = 0;
    for literal in literals.iter().rev() {
        number = number
            .wrapping_mul(2)
            .wrapping_add(assignment.value(*literal) as u32);
    }
    number
}

const WIDTHS: [(u32, u32); 4] = [(1, 1), (2, 3), (3, 7), (4, 15)];

// Adds that the literals give the number.
fn fix(alloc: Global, cnf: &mut Cnf, literals: &[Lit], number: u32) -> Result<(), Fail> {
    let mut rest = number;
    for literal in literals {
        let one = if rest % 2 == 1 {
            *literal
        } else {
            literal.inverse()
        };
        add(alloc, cnf, &[one])?;
        rest /= 2;
    }
    Ok(())
}

// Adds that the literals do not give the number.
fn exclude(alloc: Global, cnf: &mut Cnf, literals: &[Lit], number: u32) -> Result<(), Fail> {
    let mut clause = Vec::new(alloc);
    let mut rest = number;
    for literal in literals {
        clause.push(if rest % 2 == 1 {
            literal.inverse()
        } else {
            *literal
        })?;
        rest /= 2;
    }
    add(alloc, cnf, &clause)
}

// The number that the operation gives of these operands, where it can give no other.
fn only_number(
    alloc: Global,
    cnf: &mut Cnf,
    operation: Operation,
    (a, x): (&[Lit], u32),
    (b, y): (&[Lit], u32),
) -> Result<Option<u32>, Fail> {
    if a.len() != b.len()
        || !(1..=64).contains(&a.len())
        || !is_within(a, cnf.variables())
        || !is_within(b, cnf.variables())
    {
        return Ok(None);
    }
    let result = built(alloc, cnf, operation, a, b)?;
    fix(alloc, cnf, a, x)?;
    fix(alloc, cnf, b, y)?;
    let Answer::Sat(model) = solve(alloc, cnf, AMPLE)? else {
        return Ok(None);
    };
    let number = number_of(&model, &result);
    exclude(alloc, cnf, &result, number)?;
    match solve(alloc, cnf, AMPLE)? {
        Answer::Unsat(_) => Ok(Some(number)),
        _ => Ok(None),
    }
}

// The number that the operation on new variables of this width gives where they have these numbers.
fn number_given(
    alloc: Global,
    operation: Operation,
    width: u32,
    x: u32,
    y: u32,
) -> Result<Option<u32>, Fail> {
    let mut cnf = Cnf::new(alloc);
    let a = variables(alloc, &mut cnf, width)?;
    let b = variables(alloc, &mut cnf, width)?;
    only_number(alloc, &mut cnf, operation, (&a, x), (&b, y))
}

#[test]
fn gates_of_small_words(rt: HostRuntime) -> Result<(), Fail> {
    let alloc = rt.alloc();
    for (width, mask) in WIDTHS {
        for (i, operation) in OPERATIONS.into_iter().enumerate() {
            for x in 0..=mask {
                for y in 0..=mask {
                    let number = number_given(alloc, operation, width, x, y)?;
                    assert_eq!(rt;
                        number,
                        Some(expected(operation, width, mask, x, y)),
                        "operation {i} {width} {x} {y}"
                    );
                }
            }
        }
    }
    Ok(())
}

// Copies of a literal and its inverse that give the number where the literal is true.
fn constants(alloc: Global, one: Lit, count: u32, number: u32) -> Result<Vec<Lit>, AllocError> {
    let mut literals = Vec::new(alloc);
    let mut rest = number;
    for _ in 0..count {
        literals.push(if rest % 2 == 1 { one } else { one.inverse() })?;
        rest /= 2;
    }
    Ok(literals)
}

// The operations that cost no variable where their second operand is this constant.
fn is_free(operation: Operation, y: u32) -> bool {
    match operation {
        Operation::Left => true,
        Operation::Product => y.is_power_of_two(),
        _ => false,
    }
}

// The number that the operation gives of variables that have a number and a constant, and how many variables the form then has.
fn number_with_constant(
    alloc: Global,
    operation: Operation,
    width: u32,
    x: u32,
    y: u32,
) -> Result<(Option<u32>, u32), Fail> {
    let mut cnf = Cnf::new(alloc);
    let one = cnf.fresh()?;
    add(alloc, &mut cnf, &[one])?;
    let a = variables(alloc, &mut cnf, width)?;
    let b = constants(alloc, one, width, y)?;
    let number = only_number(alloc, &mut cnf, operation, (&a, x), (&b, y))?;
    Ok((number, cnf.variables()))
}

#[test]
fn gates_with_a_constant(rt: HostRuntime) -> Result<(), Fail> {
    let (width, mask) = (3, 7);
    for (i, operation) in OPERATIONS.into_iter().enumerate() {
        for (x, y) in [(5, 0), (3, 1), (7, 2), (6, 3), (1, 4), (2, 7)] {
            let (number, variables) = number_with_constant(rt.alloc(), operation, width, x, y)?;
            let wanted = Some(expected(operation, width, mask, x, y));
            assert_eq!(rt; number, wanted, "operation {i} {x} {y}");
            assert!(rt;
                !is_free(operation, y) || variables == 4,
                "operation {i} {y}"
            );
        }
    }
    Ok(())
}
