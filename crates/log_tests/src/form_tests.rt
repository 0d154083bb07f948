//! Tests of clauses, forms, assignments and logs.

// Forms, models and logs.

use sat_form::{
    Assignment, Clause, Cnf, Entry, Hints, Lit, Log, is_model, is_within, no_model, units_differ,
    units_follow,
};
use std::alloc::{AllocError, Global};
use std::test::Fail;

fn clause_of(alloc: Global, literals: [(u32, bool); 2]) -> Result<Clause, Fail> {
    let mut clause = Clause::new(alloc);
    for (variable, negated) in literals {
        clause.push(Lit::new(variable % 4, negated))?;
    }
    Ok(clause)
}

// The form (x0 or not x1) and (x1 or x2) and (not x0 or not x2), over three variables.
fn small_form(alloc: Global) -> Result<Cnf, Fail> {
    let mut cnf = Cnf::new(alloc);
    let x0 = cnf.fresh()?;
    let x1 = cnf.fresh()?;
    let x2 = cnf.fresh()?;
    cnf.add(alloc, &[x0, x1.inverse()])?;
    cnf.add(alloc, &[x1, x2])?;
    let last = clause_of(alloc, [(0, true), (2, true)])?;
    if is_within(last.literals(), cnf.variables()) {
        cnf.push(last)?;
    }
    Ok(cnf)
}

// The values of three variables, and whether they are a model of the form.
static VALUES: [([bool; 3], bool); 6] = [
    ([false, false, false], false),
    ([false, false, true], true),
    ([false, true, false], false),
    ([true, false, false], false),
    ([true, true, false], true),
    ([true, true, true], false),
];

// The first row that is answered otherwise, or whose assignment doesn't give its values back.
fn wrong_model(
    alloc: Global,
    cnf: &Cnf,
    rows: &[([bool; 3], bool)],
) -> Result<Option<usize>, AllocError> {
    for (i, (values, expected)) in rows.iter().enumerate() {
        let assignment = Assignment::from_values(Vec::from_slice(alloc, values)?);
        if is_model(cnf, &assignment) != *expected
            || assignment.into_values().as_slice() != values.as_slice()
        {
            return Ok(Some(i));
        }
    }
    Ok(None)
}

#[test]
fn models_of_a_small_form(rt: HostRuntime) -> Result<(), Fail> {
    let alloc = rt.alloc();
    let cnf = small_form(alloc)?;
    assert_eq!(rt; (cnf.variables(), cnf.clauses().len()), (3, 3));
    assert_eq!(rt; wrong_model(alloc, &cnf, &VALUES)?, None);
    Ok(())
}

#[test]
fn literals_have_their_parts(rt: HostRuntime) {
    let negated = Lit::new(7, true);
    assert_eq!(rt;
        (negated.variable(), negated.is_negated(), negated.index()),
        (7, true, 15)
    );
    assert_eq!(rt; negated.inverse(), Lit::new(7, false));
}

#[test]
fn other_variables_are_false(rt: HostRuntime) -> Result<(), Fail> {
    let alloc = rt.alloc();
    let negated = Lit::new(7, true);
    let none = Assignment::from_values(Vec::new(alloc));
    let pair = Clause::from_slice(alloc, &[negated, negated.inverse()])?;
    assert!(rt; none.value(negated) && none.values().is_empty());
    assert!(rt; none.satisfies(&pair) && !is_within(pair.literals(), 7));
    Ok(())
}

#[test]
fn forms_are_appended(rt: HostRuntime) -> Result<(), Fail> {
    let alloc = rt.alloc();
    let mut whole = Cnf::new(alloc);
    whole.append(small_form(alloc)?)?;
    assert!(rt; whole.variables() == 3 && whole.clauses().len() == 3);
    Ok(())
}

#[test]
fn a_form_without_clauses_is_satisfied(rt: HostRuntime) -> Result<(), Fail> {
    let alloc = rt.alloc();
    let cnf = small_form(alloc)?;
    let none = Assignment::from_values(Vec::new(alloc));
    let form = Cnf::from_parts(0, Vec::new(alloc));
    assert!(rt;
        is_model(&form, &none) && none.satisfies_all(cnf.clauses()) == is_model(&cnf, &none)
    );
    Ok(())
}

// Where the clause of a number is deleted first.
static DELETIONS: [(usize, Option<usize>); 6] = [
    (0, Some(1)),
    (1, None),
    (2, Some(3)),
    (3, None),
    (4, None),
    (70, Some(5)),
];

// The first row whose clause is deleted elsewhere.
fn wrong_deletion(log: &Log, rows: &[(usize, Option<usize>)]) -> Option<usize> {
    for (i, (number, expected)) in rows.iter().enumerate() {
        if log.deletion_of(*number) != *expected {
            return Some(i);
        }
    }
    None
}

// Adds a clause of two literals with these hints.
fn add(
    alloc: Global,
    log: &mut Log,
    literals: [(u32, bool); 2],
    hints: &[usize],
) -> Result<(), Fail> {
    let hints = Hints::from_numbers(Vec::from_slice(alloc, hints)?);
    let clause = clause_of(alloc, literals)?;
    log.add(clause, hints)?;
    Ok(())
}

// Two added clauses, the first of which is deleted between them, the second at once behind it, and two more deletions.
fn small_log(alloc: Global) -> Result<Log, Fail> {
    let mut log = Log::new(alloc);
    add(alloc, &mut log, [(0, false), (1, true)], &[0, 2])?;
    log.delete(0)?;
    add(alloc, &mut log, [(3, false), (3, false)], &[])?;
    for number in [2, 0, 70] {
        log.delete(number)?;
    }
    Ok(log)
}

// Whether the first entries are those of the small log.
fn are_first(entries: &[Entry]) -> bool {
    match entries {
        [
            Entry::Added(clause, hints),
            Entry::Deleted(0),
            Entry::Added(_, none),
            Entry::Deleted(2),
            ..
        ] => {
            hints.numbers() == [0, 2].as_slice()
                && clause.literals().len() == 2
                && none.numbers().is_empty()
        }
        _ => false,
    }
}

#[test]
fn entries_of_a_log(rt: HostRuntime) -> Result<(), Fail> {
    let log = small_log(rt.alloc())?;
    assert_eq!(rt; wrong_deletion(&log, &DELETIONS), None);
    assert!(rt; !log.is_within(3) && log.is_within(4));
    let second = log.added(1).map(|clause| clause.literals().len());
    assert!(rt; second == Some(2) && log.added(2).is_none());
    assert!(rt; are_first(log.entries()), "the entries are others");
    Ok(())
}

#[test]
fn an_empty_log_and_hints(rt: HostRuntime) -> Result<(), Fail> {
    let alloc = rt.alloc();
    let log = Log::new(alloc);
    assert!(rt; log.entries().is_empty() && log.added(0).is_none() && log.is_within(0));
    let numbers = Hints::from_numbers(vec![in alloc; 7]?).into_numbers();
    assert_eq!(rt; numbers.as_slice(), [7].as_slice());
    no_model();
    units_differ();
    units_follow();
    Ok(())
}
