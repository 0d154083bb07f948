//! Tests of the check of refutations.

// Logs that refute a form and logs that do not.

ghost use Rattle.std.specs.Prelude.{◌≡◌, ◌<◌};

use refutation_check::Checker;
use sat_form::{Clause, Cnf, Hints, Lit, Log, is_within};
use std::alloc::Global;
use std::test::Fail;

const VARIABLES: u32 = 10;

const CASES: usize = 12000;

const CHAIN: u32 = 100000;

// A step of a log: a clause that is added, with hints, or the number of one that is deleted.
#[derive(Drop)]
enum Step {
    Add(Vec<Lit>, Vec<usize>),
    Delete(usize),
}

// A form and the steps of a log.
#[derive(Drop)]
struct Case {
    form: Vec<Vec<Lit>>,
    steps: Vec<Step>,
}

// The literal that is written as its variable's number, from 1 on, with a minus if it is negated.
fn literal_of(code: i32) -> Lit {
    Lit::new((code.unsigned_abs() + 9) % VARIABLES, code < 0)
}

fn literals_of(alloc: Global, text: &str) -> Result<Vec<Lit>, Fail> {
    let mut literals = Vec::new(alloc);
    for word in text.split_whitespace() {
        literals.push(literal_of(word.parse::<i32>().unwrap_or(0)))?;
    }
    Ok(literals)
}

fn numbers_of(alloc: Global, text: &str) -> Result<Vec<usize>, Fail> {
    let mut numbers = Vec::new(alloc);
    for word in text.split_whitespace() {
        numbers.push(word.parse::<usize>().unwrap_or(0))?;
    }
    Ok(numbers)
}

// A step is written as 'd' and a number, or as the clause's literals, and then its hints behind ':'.
fn step_of(alloc: Global, text: &str) -> Result<Step, Fail> {
    if let Some(number) = text.strip_prefix("d ") {
        return Ok(Step::Delete(number.parse::<usize>().unwrap_or(0)));
    }
    match text.split_once(':') {
        Some((literals, hints)) => {
            let literals = literals_of(alloc, literals)?;
            Ok(Step::Add(literals, numbers_of(alloc, hints)?))
        }
        None => Ok(Step::Add(literals_of(alloc, text)?, Vec::new(alloc))),
    }
}

fn case_of(alloc: Global, form: &str, log: &str) -> Result<Case, Fail> {
    let mut case = Case {
        form: Vec::new(alloc),
        steps: Vec::new(alloc),
    };
    for clause in form.split(',') {
        case.form.push(literals_of(alloc, clause)?)?;
    }
    for step in log.split(';') {
        case.steps.push(step_of(alloc, step)?)?;
    }
    Ok(case)
}

fn cnf_of(alloc: Global, clauses: &[Vec<Lit>]) -> Result<Cnf, Fail> {
    let mut cnf = Cnf::new(alloc);
    for _ in 0..VARIABLES {
        let _ = cnf.fresh()?;
    }
    for clause in clauses {
        if is_within(clause, cnf.variables()) {
            cnf.add(alloc, clause)?;
        }
    }
    Ok(cnf)
}

fn log_of(alloc: Global, steps: &[Step]) -> Result<Log, Fail> {
    let mut log = Log::new(alloc);
    for step in steps {
        match step {
            Step::Add(literals, hints) => {
                let clause = Clause::from_slice(alloc, literals)?;
                let hints = Hints::from_numbers(Vec::from_slice(alloc, hints)?);
                log.add(clause, hints)?;
            }
            Step::Delete(number) => log.delete(*number)?,
        }
    }
    Ok(log)
}

// Numbers that look drawn by chance.
#[derive(Drop)]
struct Draws {
    state: u64,
}

impl Draws {
    // A number below the limit, or 0 where the limit is 0.
    fn below(&mut self, limit: usize) -> usize {
        self.state = self
            .state
            .wrapping_mul(6364136223846793005)
            .wrapping_add(1442695040888963407);
        match limit {
            0 => 0,
            _ => (self.state >> 33) as usize % limit,
        }
    }

    fn literals(&mut self, alloc: Global, count: usize) -> Result<Vec<Lit>, Fail> {
        let mut literals = Vec::new(alloc);
        for _ in 0..count {
            let variable = (self.below(3) % 3) as u32;
            literals.push(Lit::new(variable, self.below(2) == 0))?;
        }
        Ok(literals)
    }
}

// The literals of the clause that aren't false: none, one and the same, or several.
fn left(known: &[Lit], clause: &[Lit]) -> (usize, Lit) {
    let mut count = 0;
    let mut last = Lit::new(0, false);
    for literal in clause {
        if !known.contains(&literal.inverse()) && (count == 0 || *literal != last) {
            count = if count == 0 { 1 } else { 2 };
            last = *literal;
        }
    }
    (count, last)
}

// Whether the clauses that aren't deleted come to a conflict where the clause is false.
fn is_implied(alloc: Global, clauses: &[Option<Vec<Lit>>], clause: &[Lit]) -> Result<bool, Fail> {
    let mut known = Vec::new(alloc);
    for literal in clause {
        if known.contains(literal) {
            return Ok(true);
        }
        known.push(literal.inverse())?;
    }
    for _ in 0..10 {
        for live in clauses.iter().flatten() {
            match left(&known, live) {
                (0, _) => return Ok(true),
                (1, last) if !known.contains(&last) => known.push(last)?,
                _ => {}
            }
        }
    }
    Ok(false)
}

// What the definition of a refutation says of the case.
fn is_refuted(alloc: Global, case: &Case) -> Result<bool, Fail> {
    let mut clauses = Vec::new(alloc);
    for clause in &case.form {
        clauses.push(Some(Vec::from_slice(alloc, clause)?))?;
    }
    let mut ends_empty = false;
    for step in &case.steps {
        match step {
            Step::Add(clause, _) => {
                if !is_implied(alloc, &clauses, clause)? {
                    return Ok(false);
                }
                ends_empty = clause.is_empty();
                clauses.push(Some(Vec::from_slice(alloc, clause)?))?;
            }
            Step::Delete(number) => {
                ends_empty = false;
                match clauses.get_mut(*number) {
                    Some(clause) if clause.is_some() => *clause = None,
                    _ => return Ok(false),
                }
            }
        }
    }
    Ok(ends_empty)
}

// Draws the clauses of a form over three variables, and notes them as live.
fn draw_form(
    alloc: Global,
    draws: &mut Draws,
    form: &mut Vec<Vec<Lit>>,
    clauses: &mut Vec<Option<Vec<Lit>>>,
) -> Result<(), Fail> {
    for _ in 0..6 + draws.below(5) % 5 {
        let count = 1 + draws.below(3) % 3;
        let clause = draws.literals(alloc, count)?;
        clauses.push(Some(Vec::from_slice(alloc, &clause)?))?;
        form.push(clause)?;
    }
    Ok(())
}

// Draws whether a clause is deleted.
fn draw_deletion(
    draws: &mut Draws,
    number: usize,
    steps: &mut Vec<Step>,
    clauses: &mut Vec<Option<Vec<Lit>>>,
) -> Result<(), Fail> {
    if draws.below(6) == 0 {
        steps.push(Step::Delete(number))?;
        if let Some(clause) = clauses.get_mut(number) {
            *clause = None;
        }
    }
    Ok(())
}

// Draws a clause, and adds it where it follows.
fn draw_addition(
    alloc: Global,
    draws: &mut Draws,
    number: usize,
    steps: &mut Vec<Step>,
    clauses: &mut Vec<Option<Vec<Lit>>>,
) -> Result<(), Fail> {
    let count = draws.below(3);
    let clause = draws.literals(alloc, count)?;
    if is_implied(alloc, clauses, &clause)? {
        clauses.push(Some(Vec::from_slice(alloc, &clause)?))?;
        let hints = vec![in alloc; number, draws.below(9), draws.below(12)]?;
        steps.push(Step::Add(clause, hints))?;
    }
    Ok(())
}

// Draws steps of which each clause follows and most numbers are live.
fn draw_steps(
    alloc: Global,
    draws: &mut Draws,
    steps: &mut Vec<Step>,
    clauses: &mut Vec<Option<Vec<Lit>>>,
) -> Result<(), Fail> {
    for _ in 0..8 {
        let number = draws.below(clauses.len());
        draw_deletion(draws, number, steps, clauses)?;
        draw_addition(alloc, draws, number, steps, clauses)?;
    }
    steps.push(Step::Add(Vec::new(alloc), Vec::new(alloc)))?;
    Ok(())
}

// A form over three variables, and steps behind it.
fn drawn_case(alloc: Global, draws: &mut Draws) -> Result<Case, Fail> {
    let mut case = Case {
        form: Vec::new(alloc),
        steps: Vec::new(alloc),
    };
    let mut clauses = Vec::new(alloc);
    draw_form(alloc, draws, &mut case.form, &mut clauses)?;
    draw_steps(alloc, draws, &mut case.steps, &mut clauses)?;
    Ok(case)
}

// Turns a literal or a number, leaves a step out, or puts two steps in the other order.
fn spoil(draws: &mut Draws, steps: &mut Vec<Step>) {
    let place = draws.below(steps.len());
    match draws.below(4) {
        0 if place < steps.len() => {
            let _ = steps.remove(place);
        }
        1 if place < steps.len().saturating_sub(1) => steps.swap(place, place + 1),
        2 if place < steps.len() => match &mut steps[place] {
            Step::Add(literals, _) => {
                let at = draws.below(literals.len());
                if at < literals.len() {
                    literals[at] = literals[at].inverse();
                }
            }
            Step::Delete(number) => *number = draws.below(12),
        },
        _ => {}
    }
}

// What a checker says of a form and a log; false where they are too large for it.
fn check(checker: &mut Checker, cnf: &Cnf, log: &Log) -> bool {
    if cnf.variables() > checker.variables() || !log.is_within(checker.variables()) {
        return false;
    }
    checker.check(cnf, log)
}

fn is_accepted(alloc: Global, case: &Case) -> Result<bool, Fail> {
    let mut checker = Checker::new(alloc, VARIABLES, 4)?;
    let cnf = cnf_of(alloc, &case.form)?;
    let log = log_of(alloc, &case.steps)?;
    Ok(check(&mut checker, &cnf, &log))
}

const FOUR: &str = "1 2,1 -2,-1 2,-1 -2";

// Three pigeons in two holes: variable 2p - 1 says that pigeon p sits in the first, 2p in the second.
const PIGEONS: &str = "1 2,3 4,5 6,-1 -3,-1 -5,-3 -5,-2 -4,-2 -6,-4 -6";

// A form, a log, and whether the log refutes the form.
static LOGS: [(&str, &str, bool); 30] = [
    (PIGEONS, "1:0 6 7 1 2 5;:9 3 4 1 2 8", true),
    (PIGEONS, "1:0 6;:9 3", true),
    (PIGEONS, "-1;", true),
    (PIGEONS, "", false),
    (PIGEONS, "-1", false),
    (PIGEONS, "", false),
    (FOUR, "1;", true),
    (FOUR, "1:0 1;:2 3", true),
    (FOUR, "1:0 1;:2 3 4", true),
    (FOUR, "1:0 1;:4 2 3", true),
    (FOUR, "1:7 99;:98", true),
    (FOUR, "1", false),
    (FOUR, "", false),
    (FOUR, ";1", false),
    // The first clause is needed after it is deleted.
    (FOUR, "d 0;1;", false),
    (FOUR, "d 0;1:0 1;:2 3", false),
    (FOUR, "1;d 0;", true),
    (FOUR, "1;d 0;d 1;", true),
    (FOUR, "1;d 4;", false),
    (FOUR, "1;d 4;:4 2 3", false),
    (FOUR, "1;d 5;", false),
    (FOUR, "1;d 0;d 0;", false),
    (FOUR, "1;;d 0", false),
    // A clause with a literal and its inverse follows from any clauses.
    (FOUR, "3 -3;1;", true),
    (FOUR, "3 3;1;", false),
    ("1,-1", "", true),
    ("1 1,-1 -1", "", true),
    ("1,2", "", false),
    ("1,-1 2,-2 3,-3 4,-4 5,-5 6,-6 7,-7", "", true),
    ("-7,-6 7,-5 6,-4 5,-3 4,-2 3,-1 2,1", "", true),
];

// The first row whose log is answered otherwise.
fn wrong_log(alloc: Global, rows: &[(&str, &str, bool)]) -> Result<Option<usize>, Fail> {
    for (i, (form, log, expected)) in rows.iter().enumerate() {
        let case = case_of(alloc, form, log)?;
        if is_accepted(alloc, &case)? != *expected {
            return Ok(Some(i));
        }
    }
    Ok(None)
}

#[test]
fn logs_of_small_forms(rt: HostRuntime) -> Result<(), Fail> {
    assert_eq!(rt; wrong_log(rt.alloc(), &LOGS)?, None);
    Ok(())
}

#[test]
fn drawn_and_spoilt_logs(rt: HostRuntime) -> Result<(), Fail> {
    let alloc = rt.alloc();
    let mut draws = Draws { state: 7 };
    let mut accepted: usize = 0;
    let mut checker = Checker::new(alloc, VARIABLES, 4)?;
    for round in 0..CASES {
        let mut case = drawn_case(alloc, &mut draws)?;
        for _ in 0..draws.below(3) {
            spoil(&mut draws, &mut case.steps);
        }
        let cnf = cnf_of(alloc, &case.form)?;
        let log = log_of(alloc, &case.steps)?;
        let answer = check(&mut checker, &cnf, &log);
        assert_eq!(rt; answer, is_refuted(alloc, &case)?, "round {round}");
        accepted = accepted.saturating_add(answer as usize);
    }
    assert!(rt;
        accepted > CASES / 8 && accepted < CASES * 7 / 8,
        "{accepted}"
    );
    Ok(())
}

// The form x0, not x0 or x1, not x1 or x2, .., and the last variable negated; and the log of the units
// x1, x2, .., each with its two hints, and of the empty clause.
fn chain(alloc: Global, count: u32) -> Result<(Cnf, Log), Fail> {
    let mut cnf = Cnf::new(alloc);
    let mut log = Log::new(alloc);
    let mut last = cnf.fresh()?;
    let mut unit = 0;
    cnf.add(alloc, &[last])?;
    for number in 1..count {
        let next = cnf.fresh()?;
        let clause = [last.inverse(), next];
        if is_within(&clause, cnf.variables()) {
            cnf.add(alloc, &clause)?;
        }
        let hints = vec![in alloc; unit, number as usize]?;
        log.add(
            Clause::from_slice(alloc, &[next])?,
            Hints::from_numbers(hints),
        )?;
        unit = count as usize + number as usize;
        last = next;
    }
    let clause = [last.inverse()];
    if is_within(&clause, cnf.variables()) {
        cnf.add(alloc, &clause)?;
    }
    let hints = vec![in alloc; unit, count as usize]?;
    log.add(Clause::new(alloc), Hints::from_numbers(hints))?;
    Ok((cnf, log))
}

#[test]
fn chain_with_hints(rt: HostRuntime) -> Result<(), Fail> {
    let alloc = rt.alloc();
    let (cnf, log) = chain(alloc, CHAIN)?;
    let mut checker = Checker::new(alloc, CHAIN, 2)?;
    assert!(rt; check(&mut checker, &cnf, &log));
    assert!(rt; check(&mut checker, &cnf, &log));
    assert!(rt; !check(&mut checker, &cnf, &Log::new(alloc)));
    Ok(())
}
