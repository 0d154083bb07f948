//! The answers to actions: variables with numbers one behind the other, and for a read one for each word of 8 bytes, the last
//! of the bytes that are left.

ghost use Rattle.std.specs.Prelude.{◌≡◌, ℕ, ◌+◌, ◌≤◌, ◌^◌, IfOk, length, map};
ghost use Rattle.c_values.specs.Variables.{word_count};
ghost use Rattle.word_dag.specs.Growth.{Extends};
ghost use Rattle.word_dag.specs.Meaning.{value};
ghost use Rattle.value_nodes.specs.Bytes.{AreBytesOf};
ghost use Rattle.event_forms.specs.Runs.{bytes_of_words};
ghost use Rattle.guarded_ssa.specs.inner.Answers.{words_by, variables_of};
ghost use Rattle.event_forms.specs.Forms.{AreWords};

use c_values::word_count;
use goto_prog::Operation;
use std::alloc::{AllocError, Global};
use value_nodes::bytes_of_word;
use word_dag::{Dag, Id, Node};

/// How many variables an operation takes, in code whose blocks have these sizes.
pub fn variables_of(blocks: &[u32], operation: Operation) -> u32
    ensures { result ≡ variables_of blocks.now operation }
{
    match operation {
        Operation::Draw { .. } | Operation::Look { .. } | Operation::Alloc { .. } => 1,
        Operation::ReadObject { count, .. } => word_count(count),
        Operation::Read { count, .. } => word_count(count),
        Operation::Fill { block, .. } => {
            match blocks.get(block) {
                Some(size) => word_count(*size),
                None => 0,
            }
        }
        _ => 0,
    }
}

/// The words that answer a read of so many bytes, the first of them a variable with this number, and the others those with
/// the numbers behind it.
pub fn answer_words(
    alloc: Global,
    dag: &mut Dag,
    variable: usize,
    count: u32,
) -> Result<Vec<Id>, AllocError>
    requires { variable + word_count count ≤ 2 ^ 32 }
    ensures extends { Extends dag.old dag.new }
    ensures words { IfOk result (λ ids. AreWords dag.new count ids.items) }
    ensures values { IfOk result (λ ids. (v : ℕ → ℕ) → map (value v dag.new) ids.items ≡ words_by v (word_count count) variable count) }
{
    let mut words = Vec::new(alloc);
    let mut next = variable;
    let mut left = count;
    'words: for _ in 0..word_count(count) {
        words.push(dag.make(Node::Variable(next as u32, 8 * left.min(8)))?)?;
        next += 1;
        left = left.saturating_sub(8);
    }
    Ok(words)
}

/// So many bytes of words of 8 bytes each, the last of the bytes that are left.
pub fn bytes_of_words(
    alloc: Global,
    dag: &mut Dag,
    words: &[Id],
    count: u32,
) -> Result<Vec<Id>, AllocError>
    requires { AreWords dag.old count words.now }
    ensures extends { Extends dag.old dag.new }
    ensures made { IfOk result (λ ids. AreBytesOf dag.new ids.items (λ v. bytes_of_words count (map (value v dag.old) words.now))) }
    ensures size { IfOk result (λ ids. length ids.items ≡ count) }
{
    let mut bytes = Vec::with_capacity(alloc, count as usize)?;
    let mut left = count;
    for word in words {
        let size = left.min(8);
        let more = bytes_of_word(alloc, dag, *word, 8 * size, size as usize)?;
        bytes.extend_from_slice(&more)?;
        left = left.saturating_sub(8);
    }
    Ok(bytes)
}
