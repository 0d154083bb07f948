//! From the bytes of a file to its program.

ghost use Rattle.std.specs.Prelude.{◌≡◌, ℕ, ◌≤◌, ◌<◌, ◌++◌, length, Ok, Some, None, IsSome, IfOk, IfErr, map};
ghost use Rattle.c_lexer.specs.Cutting.{IsCutInto, bytes_of, last_line_of};
ghost use Rattle.c_pre.specs.Calls.{IsExpansion};
ghost use Rattle.c_pre.specs.Headers as headers;
ghost use Rattle.c_tree.specs.Statements.{view_file};
ghost use Rattle.c_tree.specs.Files.{IsFile};
ghost use Rattle.core_tree.specs.Trees.{view_core};
ghost use Rattle.c_elab_decl.specs.Files.{elaborated};
ghost use Rattle.c_profile.specs.Rules.{first_breach};
ghost use Rattle.cbmc_top.specs.Command.{Purpose, listing};
ghost use Rattle.cbmc_top.specs.Programs.{text_behind, IsTreeOf, IsAccepted};
ghost use Rattle.cbmc_top.specs.Spelled.{HasSpelling, IsTypedOf};
ghost use Rattle.cbmc_top.specs.Answers.{Decides, HasNoTree, expansion_answer, lexing_answer, typing_cause};
ghost use Rattle.run_search.specs.Answers.{listed};
ghost use Rattle.report.specs.Properties.{told_of};
ghost use Rattle.run_search.specs.Stops.{StopsWith};
ghost use Rattle.cbmc_top.specs.Stops.{IsKnown, IsUncut, IsUnexpanded, HasNoTyping, IsOutside, IsRefused};

use c_elab_decl::elaborate;
use c_lexer::{LexError, Tokens, lex};
use c_parse_decl::{ParseError, parse};
use c_pre::{PreError, expand};
use c_profile::{Admitted, admit};
use c_scope::TypingError;
use c_tree::File;
use core_tree::{Core, Limit, Refusal};
use properties::properties;
use report::Property;
use run_search::Stop;
use std::alloc::Global;

/// The greatest size of a file in bytes.
const FILE_BYTES: usize = 1_048_576;

/// The refusal of a text that has no tokens. A fault that is known is never told as want of memory.
fn lexing_stop(error: LexError) -> Stop
    ensures stop { StopsWith result (λ a. lexing_answer error ≡ Some a) }
    ensures known { IsSome (lexing_answer error) → IsKnown result }
{
    match error {
        LexError::BadByte { line } => Stop::Refused(Refusal::new(1, line, None)),
        LexError::Unclosed { line } => Stop::Refused(Refusal::new(2, line, None)),
        LexError::BadConstant { line } => Stop::Refused(Refusal::new(3, line, None)),
        LexError::Foreign { line } => Stop::Refused(Refusal::new(4, line, None)),
        LexError::Memory => Stop::Memory,
    }
}

/// The refusal of a text whose directives can't be carried out, or that has too many tokens. A fault that is known is never
/// told as want of memory.
fn expansion_stop(error: PreError) -> Stop
    ensures stop { StopsWith result (λ a. expansion_answer error ≡ Some a) }
    ensures known { IsSome (expansion_answer error) → IsKnown result }
{
    match error {
        PreError::Directive { line } => Stop::Refused(Refusal::new(5, line, None)),
        PreError::Include { line } => Stop::Refused(Refusal::new(6, line, None)),
        PreError::Conditional { line } => Stop::Refused(Refusal::new(7, line, None)),
        PreError::TooMany => Stop::Limited(Limit::Tokens),
        PreError::Memory => Stop::Memory,
    }
}

/// The tokens into which a file is cut.
fn cutting_of(alloc: Global, file: &[u8]) -> Result<Tokens, Stop>
    requires { length file.now ≤ 1048576 }
    ensures cut { IfOk result (λ t. IsCutInto file.now (Ok t.tokens.items)) }
    ensures bytes { IfOk result (λ t. t.bytes.items ≡ bytes_of file.now) }
    ensures last_line { IfOk result (λ t. t.last_line ≡ last_line_of file.now) }
    ensures stop { IfErr result (λ s. StopsWith s (IsUncut file.now)) }
{
    match lex(alloc, file) {
        Ok(tokens) => Ok(tokens),
        Err(error) => Err(lexing_stop(error)),
    }
}

/// The tokens of a file, behind whose bytes the text of the headers' macros stands.
fn expanded(alloc: Global, cutting: Tokens) -> Result<Tokens, Stop>
    ensures bytes { IfOk result (λ t. t.bytes.items ≡ cutting.bytes.items ++ headers.text) }
    ensures last_line { IfOk result (λ t. t.last_line ≡ cutting.last_line) }
    ensures expanded { IfOk result (λ t. IsExpansion cutting.bytes.items cutting.tokens.items (Ok t.tokens.items)) }
    ensures stop { IfErr result (λ s. StopsWith s (IsUnexpanded cutting.bytes.items cutting.tokens.items)) }
{
    match expand(alloc, cutting) {
        Ok(tokens) => Ok(tokens),
        Err(error) => Err(expansion_stop(error)),
    }
}

/// The tree of tokens.
fn parsed(alloc: Global, tokens: &Tokens) -> Result<File, Stop>
    ensures found { IfOk result (λ f. IsFile tokens.now.bytes.items tokens.now.tokens.items (view_file f)) }
    ensures stop { IfErr result (λ s. StopsWith s (HasNoTree tokens.now.bytes.items tokens.now.last_line tokens.now.tokens.items)) }
{
    match parse(alloc, tokens) {
        Ok(file) => Ok(file),
        Err(ParseError::Syntax { line }) => Err(Stop::Refused(Refusal::new(10, line, None))),
        Err(ParseError::Memory) => Err(Stop::Memory),
    }
}

/// The tree of a file, or the first thing that stops it: its size, its tokens, its directives and their number, its tree.
fn tree_of(alloc: Global, file: &[u8]) -> Result<File, Stop>
    ensures short { IfOk result (λ f. length file.now ≤ 1048576) }
    ensures found { IfOk result (λ f. IsTreeOf file.now (view_file f)) }
    ensures spelled { IfOk result (λ f. HasSpelling (text_behind file.now) (view_file f)) }
    ensures stop { IfErr result (λ s. (purpose : Purpose) → StopsWith s (Decides purpose file.now)) }
{
    if file.len() > FILE_BYTES {
        return Err(Stop::Limited(Limit::FileBytes));
    }
    let cutting = cutting_of(alloc, file)?;
    let tokens = expanded(alloc, cutting)?;
    parsed(alloc, &tokens)
}

/// The refusal of a file without a typing.
fn typing_refusal(line: u32, rule: u32) -> Refusal
    ensures { result ≡ typing_cause (record { line = line; rule = rule }) }
{
    Refusal::new(11, line, Some(rule))
}

/// The typed tree of a file.
fn typed_file(alloc: Global, file: &File) -> Result<Core, Stop>
    ensures found { IfOk result (λ c. elaborated (view_file file.now) ≡ Ok (view_core c)) }
    ensures stop { IfErr result (λ s. StopsWith s (HasNoTyping (view_file file.now))) }
{
    match elaborate(alloc, file) {
        Ok(core) => Ok(core),
        Err(TypingError::Typing { line, rule }) => {
            Err(Stop::Refused(typing_refusal(line, rule)))
        }
        Err(TypingError::Memory) => Err(Stop::Memory),
    }
}

/// The typed file, if it is in the profile.
fn in_profile(alloc: Global, core: Core) -> Result<Admitted, Stop>
    ensures found { IfOk result (λ f. (f ≡ core) × (first_breach (view_core core) ≡ None)) }
    ensures stop { IfErr result (λ s. StopsWith s (IsOutside (view_core core))) }
{
    match admit(alloc, core) {
        Ok(file) => Ok(file),
        Err(c_profile::Refusal::Outside { line, rule, .. }) => {
            Err(Stop::Refused(Refusal::new(12, line, Some(rule))))
        }
        Err(c_profile::Refusal::Memory { .. }) => Err(Stop::Memory),
    }
}

/// The program of a tree, or the rule of typing or of the profile that it breaks.
fn admitted(alloc: Global, tree: &File) -> Result<Admitted, Stop>
    ensures typed { IfOk result (λ f. elaborated (view_file tree.now) ≡ Ok (view_core f)) }
    ensures in_profile { IfOk result (λ f. first_breach (view_core f) ≡ None) }
    ensures stop { IfErr result (λ s. StopsWith s (IsRefused (view_file tree.now))) }
{
    let core = typed_file(alloc, tree)?;
    in_profile(alloc, core)
}

/// The program of a file, or the first thing that stops it: its size, its tokens, its directives, its tree, its typing, the
/// profile.
pub fn accept(alloc: Global, file: &[u8]) -> Result<Admitted, Stop>
    ensures found { IfOk result (λ f. IsAccepted file.now (view_core f)) }
    ensures typed { IfOk result (λ f. IsTypedOf (text_behind file.now) (view_core f)) }
    ensures stop { IfErr result (λ s. (purpose : Purpose) → StopsWith s (Decides purpose file.now)) }
{
    let tree = tree_of(alloc, file)?;
    admitted(alloc, &tree)
}

/// The loops and assertions of a file in the profile, or the first thing that stops it.
pub fn list(alloc: Global, file: &[u8]) -> Result<Vec<Property>, Stop>
    ensures found { IfOk result (λ ps. Decides listing file.now (listed (map told_of ps.items))) }
    ensures stop { IfErr result (λ s. StopsWith s (Decides listing file.now)) }
{
    let tree = tree_of(alloc, file)?;
    let _program = admitted(alloc, &tree)?;
    let properties = properties(alloc, &tree)?;
    Ok(properties)
}
