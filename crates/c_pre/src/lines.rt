//! The lines of a file's tokens.

ghost use Rattle.std.specs.Prelude.{◌≡◌, ◌<◌, ◌≤◌, ◌∷◌, map, take, drop, length, IfOk};
ghost use Rattle.c_pre.specs.Lines.{lines};
ghost use Rattle.c_pre.specs.Views.{tokens_of, end_flags};
ghost use Rattle.c_pre.specs.Conditionals.{ends, ends_with};

use crate::directive::{Directive, directive_of};
use c_token::Token;
use std::alloc::{AllocError, Global};

/// Some tokens of a file or of the headers: a line, or the part of it that replaces a macro.
#[derive(Clone, Copy)]
pub struct Line<'a> {
    pub tokens: &'a [Token],
}

/// Where the first line ends.
fn line_end(tokens: &[Token]) -> usize
    requires { 0 < length tokens.now }
    ensures within { (0 < result) × (result ≤ length tokens.now) }
    ensures line { lines tokens.now ≡ take result tokens.now ∷ lines (drop result tokens.now) }
{
    let mut end = 1;
    while end < tokens.len() {
        if tokens[end].first {
            return end;
        }
        end += 1;
    }
    end
}

/// The lines of tokens.
pub fn lines<'a>(alloc: Global, tokens: &'a [Token]) -> Result<Vec<Line<'a>>, AllocError>
    ensures { IfOk result (λ v. map tokens_of v.items ≡ lines tokens.now) }
{
    let mut lines = Vec::new(alloc);
    let mut rest = tokens;
    while !rest.is_empty() {
        let (line, behind) = rest.split_at(line_end(rest));
        lines.push(Line { tokens: line })?;
        rest = behind;
    }
    Ok(lines)
}

/// How many `#endif` remain for the lines before a line, of those that remain behind it.
fn ends_with(directive: Directive, ends: u64) -> u64
    requires { ends < 18446744073709551615 }
    ensures { result ≡ ends_with directive ends }
{
    match directive {
        Directive::Text => ends,
        Directive::Nothing => ends,
        Directive::Define => ends,
        Directive::Undefine => ends,
        Directive::Ifdef => ends.saturating_sub(1),
        Directive::Ifndef => ends.saturating_sub(1),
        Directive::Else => ends,
        Directive::Endif => ends + 1,
        Directive::Include => ends,
        Directive::Other => ends,
    }
}

/// For each line, whether a conditional that begins on it ends.
pub fn end_flags(alloc: Global, bytes: &[u8], lines: &[Line]) -> Result<Vec<bool>, AllocError>
    ensures { IfOk result (λ v. v.items ≡ end_flags bytes.now (map tokens_of lines.now)) }
{
    let mut flags = Vec::new(alloc);
    let mut ends: u64 = 0;
    let mut at = lines.len();
    while 0 < at {
        at -= 1;
        flags.push(0 < ends)?;
        ends = ends_with(directive_of(bytes, lines[at].tokens), ends);
    }
    flags.reverse();
    Ok(flags)
}
