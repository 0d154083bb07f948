//! The top call: words of the command line in, the answer and its status out.

ghost use Rattle.std.specs.Prelude.{◌≡◌, ◌≢◌, ℕ, List, [], ◌∷◌, ◌<◌, ◌≤◌, length, map, string_bytes, Some, None, IfOk, IsSome, OnOk, OnErr, ◌↔◌};
ghost use Rattle.outside.specs.Count.{Rose};
ghost use Rattle.outside.specs.Sink.{appended};
ghost use Rattle.c_tree.specs.Statements.{Externals};
ghost use Rattle.core_tree.specs.Trees.{TypedFile};
ghost use Rattle.core_tree.specs.Ranges.{Cause};
ghost use Rattle.core_tree.specs.declared.refusal.Limit.{Limit};
ghost use Rattle.options.specs.declared.options.Job.TheVariants as jobs;
ghost use Rattle.options.specs.Command.{Asked, IsCommand, asked_of};
ghost use Rattle.properties.specs.Properties.{properties_of};
ghost use Rattle.report.specs.Properties.{properties_text};
ghost use Rattle.report.specs.Report.{Failure, IsHead, success_text, failure_text, refusal_text, limit_text, budget_text};
ghost use Rattle.run_search.specs.Executions.{IsVerified};
ghost use Rattle.run_search.specs.Clauses.{IsRefuted, IsUsedUp};
ghost use Rattle.run_search.specs.Answers.{Answer, limited, refused};
ghost use Rattle.cbmc_top.specs.Programs.{IsFileOf, IsAccepted, IsCheckable};
ghost use Rattle.cbmc_top.specs.Command.{purpose_of, head_asked, file_read, bytes_told, IsUnread};
ghost use Rattle.cbmc_top.specs.Answers.{Answered, Decides, HasNoFault, IsFailure, IsOneOf, IsReportOn, IsSearched, IsUnreadBy, Reported, TookPart, spent_of, status_of, usage_text};

use crate::laws::{listing_answers, one_answer, runs_answer};
use crate::reading::bytes_of;
use crate::reporting::{Report, plain, report_bytes};
use options::{CommandError, Options, one_command, read_words};
use outside::{Failed, ReadError, Sink, Source};
use report::Text;
use run_search::Used;
use std::alloc::{AllocError, Global};

/// How a call ended: its exit status, and where the status is 5, or 0 of a check, the clauses that were searched with their log.
#[derive(Drop)]
pub struct Done {
    pub status: u8,
    pub spent: Option<Used>,
}

/// Writes a whole text, piece by piece.
fn write_all<K: Sink>(out: &mut K, text: &[u8]) -> Result<(), Failed>
    ensures later { K.faults out.old ≤ K.faults out.new }
    ensures whole { OnOk result (K.taken out.new ≡ appended (K.taken out.old) text.now) }
    ensures part { OnErr result (TookPart (K.taken out.old) (K.taken out.new) text.now) }
    ensures fault { OnErr result (Rose (K.faults out.old) (K.faults out.new)) }
    ensures uncounted { OnOk result (K.faults out.new ≡ K.faults out.old) }
{
    let mut rest = text;
    'writing: while !rest.is_empty() {
        let count = out.write(rest)?;
        if count == 0 {
            return Err(Failed);
        }
        let (_, left) = rest.split_at(count);
        rest = left;
    }
    Ok(())
}

/// The answer to a command.
fn answer_command<S: Source>(
    alloc: Global,
    options: &Options,
    files: &mut S,
) -> Result<Report, AllocError>
    ensures held { (other : List ℕ) → S.holds files.new other ≡ S.holds files.old other }
    ensures later { (other : List ℕ) → S.faults files.old other ≤ S.faults files.new other }
    ensures others { (other : List ℕ) → IsUnread (asked_of options.now) other → S.faults files.new other ≡ S.faults files.old other }
    ensures answered { IfOk result (λ r. IsReportOn (asked_of options.now) (S.holds files.old) (λ n. Rose (S.faults files.old n) (S.faults files.new n)) r.status r.text r.spent) }
    ensures read_first { IfOk result (λ r. (name : List ℕ) → file_read (asked_of options.now) ≡ Some name → S.faults files.new name ≢ S.faults files.old name → r.status ≡ 8) }
{
    match bytes_of(alloc, options, files) {
        Ok(bytes) => report_bytes(alloc, options, &bytes),
        Err(ReadError::Failed) => {
            let text = String::from_str(alloc, "read fault\n")?;
            Ok(plain(8, Text::from_string(text)))
        }
        Err(ReadError::Memory) => Err(AllocError),
    }
}

/// The answer to words that are no command.
fn usage(alloc: Global) -> Result<Report, AllocError>
    ensures { IfOk result (λ r. (r.status ≡ 1) × (r.text ≡ usage_text) × (r.spent ≡ None)) }
{
    let text = String::from_str(alloc, "usage: cbmc FILE [OPTIONS]\n")?;
    Ok(plain(1, Text::from_string(text)))
}

/// The answer to the words of a command line.
fn answer_words<S: Source>(
    alloc: Global,
    words: &[String],
    files: &mut S,
) -> Result<Report, AllocError>
    ensures held { (other : List ℕ) → S.holds files.new other ≡ S.holds files.old other }
    ensures later { (other : List ℕ) → S.faults files.old other ≤ S.faults files.new other }
    ensures others { (other : List ℕ) → IsUnreadBy (map string_bytes words.now) other → S.faults files.new other ≡ S.faults files.old other }
    ensures answered { IfOk result (λ r. Reported (map string_bytes words.now) (S.holds files.old) (λ n. Rose (S.faults files.old n) (S.faults files.new n)) r.status r.text r.spent) }
    ensures read_first { IfOk result (λ r. (asked : Asked) (name : List ℕ) → IsCommand (map string_bytes words.now) asked → file_read asked ≡ Some name → S.faults files.new name ≢ S.faults files.old name → r.status ≡ 8) }
{
    one_command();
    match read_words(alloc, words) {
        Ok(options) => answer_command(alloc, &options, files),
        Err(CommandError::Usage) => usage(alloc),
        Err(CommandError::Memory) => Err(AllocError),
    }
}

/// The end of a call that gave no answer.
fn without_log(status: u8) -> Done
    ensures { result ≡ record { status = status; spent = None } }
{
    Done {
        status,
        spent: None,
    }
}

/// Checks the file that the words of a command line name, and writes the answer.
///
/// `words` begins with the program's name. The status is 0 where no run breaks a check, 10 where the text tells a run
/// that breaks one, 5 where the budget was used up, 1 where the words are no command, 6 where the file is refused, 7 where a limit is passed, 8 where
/// reading the file failed, 9 where writing failed, and 12 where there was no memory.
pub fn top<S: Source, K: Sink>(alloc: Global, words: &[String], files: &mut S, out: &mut K) -> Done
    // A success is sound: no inputs and no schedule break a check of the file's program within the unwinding, and with
    // unwinding assertions none at all. It comes with a refutation of the file's clauses within the budget.
    ensures success { result.status ≡ 0 → (asked : Asked) (bytes : List ℕ) → IsCommand (map string_bytes words.now) asked → asked.job ≡ jobs.Check → bytes_told asked (S.holds files.old) ≡ Some bytes
        → (core : TypedFile) × (used : Used) × IsFileOf bytes core × IsVerified asked.limits core × (result.spent ≡ Some used) × IsRefuted asked.limits asked.budget core used
        × (K.taken out.new ≡ appended (K.taken out.old) (success_text (head_asked asked))) }

    // A failure replays: its text tells inputs and a schedule on which the run breaks exactly the check that it tells, and
    // the text is one that can be read back.
    ensures failure { result.status ≡ 10 → (asked : Asked) (bytes : List ℕ) → IsCommand (map string_bytes words.now) asked → bytes_told asked (S.holds files.old) ≡ Some bytes
        → (core : TypedFile) × (f : Failure) × IsFileOf bytes core × IsFailure asked.limits core f × IsHead (head_asked asked) × (K.taken out.new ≡ appended (K.taken out.old) (failure_text (head_asked asked) f)) }

    // It is complete: a file in the profile of which no count passes its limit gets one of the two, where no fault was counted
    // and the budget wasn't used up.
    ensures complete { (asked : Asked) (bytes : List ℕ) (core : TypedFile) → IsCommand (map string_bytes words.now) asked → asked.job ≡ jobs.Check → bytes_told asked (S.holds files.old) ≡ Some bytes
        → IsCheckable asked.limits bytes core
        → HasNoFault asked (λ n. Rose (S.faults files.old n) (S.faults files.new n)) → (Rose (K.faults out.old) (K.faults out.new) → ⊥)
        → IsOneOf (0 ∷ 5 ∷ 10 ∷ 12 ∷ []) result.status }

    // Where the properties are asked for, the loops and assertions of the file's tree are told, of each file in the profile,
    // whatever its counts.
    ensures properties { result.status ≡ 0 → (asked : Asked) (bytes : List ℕ) → IsCommand (map string_bytes words.now) asked → asked.job ≡ jobs.Properties → bytes_told asked (S.holds files.old) ≡ Some bytes
        → (core : TypedFile) × (file : IsFileOf bytes core) × (result.spent ≡ None) × (K.taken out.new ≡ appended (K.taken out.old) (properties_text (properties_of file.tree))) }
    ensures listed { (asked : Asked) (bytes : List ℕ) (core : TypedFile) → IsCommand (map string_bytes words.now) asked → asked.job ≡ jobs.Properties → bytes_told asked (S.holds files.old) ≡ Some bytes
        → IsAccepted bytes core
        → HasNoFault asked (λ n. Rose (S.faults files.old n) (S.faults files.new n)) → (Rose (K.faults out.old) (K.faults out.new) → ⊥)
        → IsOneOf (0 ∷ 12 ∷ []) result.status }

    // The budget is used up exactly where `spent` holds the file's clauses and a log that has spent it, beside faults and want of
    // memory.
    ensures budget_used { result.status ≡ 5 → (asked : Asked) (bytes : List ℕ) → IsCommand (map string_bytes words.now) asked → bytes_told asked (S.holds files.old) ≡ Some bytes
        → (core : TypedFile) × (used : Used) × IsFileOf bytes core × (result.spent ≡ Some used) × IsUsedUp asked.limits asked.budget core used × (K.taken out.new ≡ appended (K.taken out.old) (budget_text asked.budget)) }
    ensures budget_only { (asked : Asked) (core : TypedFile) (used : Used) → IsCommand (map string_bytes words.now) asked → result.spent ≡ Some used → IsUsedUp asked.limits asked.budget core used → result.status ≡ 5 }

    // Clauses and a log are given exactly with a success and where the budget is used up.
    ensures spent { IsSome result.spent ↔ IsSearched (map string_bytes words.now) result.status }

    // A usage error comes exactly where the words are no command, beside a write fault and want of memory.
    ensures usage { result.status ≡ 1 → (asked : Asked) → IsCommand (map string_bytes words.now) asked → ⊥ }
    ensures usage_only { ((asked : Asked) → IsCommand (map string_bytes words.now) asked → ⊥) → IsOneOf (1 ∷ 9 ∷ 12 ∷ []) result.status }

    // A passed limit comes exactly where a count of the file that is asked about passes its limit and no refusal precedes it,
    // beside faults and want of memory.
    ensures limited { result.status ≡ 7 → (asked : Asked) (bytes : List ℕ) → IsCommand (map string_bytes words.now) asked → bytes_told asked (S.holds files.old) ≡ Some bytes
        → (limit : Limit) × Decides (purpose_of asked) bytes (limited limit) × (K.taken out.new ≡ appended (K.taken out.old) (limit_text limit)) }
    ensures limited_only { (asked : Asked) (bytes : List ℕ) (limit : Limit) → IsCommand (map string_bytes words.now) asked → bytes_told asked (S.holds files.old) ≡ Some bytes
        → Decides (purpose_of asked) bytes (limited limit) → HasNoFault asked (λ n. Rose (S.faults files.old n) (S.faults files.new n)) → IsOneOf (7 ∷ 9 ∷ 12 ∷ []) result.status }

    // A refusal comes exactly where it holds of the file and nothing precedes it, beside faults and want of memory.
    ensures refused { result.status ≡ 6 → (asked : Asked) (bytes : List ℕ) → IsCommand (map string_bytes words.now) asked → bytes_told asked (S.holds files.old) ≡ Some bytes
        → (cause : Cause) × Decides (purpose_of asked) bytes (refused cause) × (K.taken out.new ≡ appended (K.taken out.old) (refusal_text cause.number cause.line cause.rule)) }
    ensures refused_only { (asked : Asked) (bytes : List ℕ) (cause : Cause) → IsCommand (map string_bytes words.now) asked → bytes_told asked (S.holds files.old) ≡ Some bytes
        → Decides (purpose_of asked) bytes (refused cause) → HasNoFault asked (λ n. Rose (S.faults files.old n) (S.faults files.new n)) → IsOneOf (6 ∷ 9 ∷ 12 ∷ []) result.status }

    // A read fault comes only for a FILE, and only where its count rose; where it changed, no other answer comes, beside a write
    // fault and want of memory.
    ensures read_fault { result.status ≡ 8 → (asked : Asked) × (name : List ℕ) × IsCommand (map string_bytes words.now) asked × (file_read asked ≡ Some name) × Rose (S.faults files.old name) (S.faults files.new name) }
    ensures read_first { (asked : Asked) (name : List ℕ) → IsCommand (map string_bytes words.now) asked → file_read asked ≡ Some name → S.faults files.new name ≢ S.faults files.old name → IsOneOf (8 ∷ 9 ∷ 12 ∷ []) result.status }

    // Each answer is one that is allowed for the words and the bytes, and its whole text was taken.
    ensures whole { result.status ≢ 9 → result.status ≢ 12 → (a : Answer) × (text : List ℕ) × Answered (map string_bytes words.now) (S.holds files.old) (λ n. Rose (S.faults files.old n) (S.faults files.new n)) a text
        × (result.status ≡ status_of a) × (result.spent ≡ spent_of a) × (K.taken out.new ≡ appended (K.taken out.old) text) }
    ensures write_fault { result.status ≡ 9 → Rose (K.faults out.old) (K.faults out.new) × ((a : Answer) × (text : List ℕ) × Answered (map string_bytes words.now) (S.holds files.old) (λ n. Rose (S.faults files.old n) (S.faults files.new n)) a text
        × TookPart (K.taken out.old) (K.taken out.new) text) }
    // A counted write fault is told by 9 alone, so nothing is answered as if the text had been taken.
    ensures write_first { K.faults out.new ≢ K.faults out.old → result.status ≡ 9 }
    ensures memory { result.status ≡ 12 → K.taken out.new ≡ K.taken out.old }

    // What the source and the sink keep.
    ensures held { (other : List ℕ) → S.holds files.new other ≡ S.holds files.old other }
    ensures later { (other : List ℕ) → S.faults files.old other ≤ S.faults files.new other }
    ensures others { (other : List ℕ) → IsUnreadBy (map string_bytes words.now) other → S.faults files.new other ≡ S.faults files.old other }
    ensures sink_later { K.faults out.old ≤ K.faults out.new }
{
    one_answer();
    runs_answer();
    listing_answers();
    one_command();
    let report = match answer_words(alloc, words, files) {
        Ok(report) => report,
        Err(_) => return without_log(12),
    };
    match write_all(out, report.text.as_bytes()) {
        Ok(()) => Done {
            status: report.status,
            spent: report.spent,
        },
        Err(_) => without_log(9),
    }
}
