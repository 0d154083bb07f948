//! Carrying out the directives of a file, line by line (C11 6.10).

ghost use Rattle.std.specs.Prelude.{◌≡◌, ◌≢◌, ◌≤◌, [], true, false, ℕ, List, Option, Some, None, Ok, Err, map, length, reverse, IfOk, IfErr, OnOk};
ghost use Rattle.c_token.specs.declared.token.Token.{Token};
ghost use Rattle.c_pre.specs.Lines.{lines, directive_of, arguments, number_of};
ghost use Rattle.c_pre.specs.Macros.{name_alone};
ghost use Rattle.c_pre.specs.Headers.{header_of};
ghost use Rattle.c_pre.specs.Conditionals.{skips};
ghost use Rattle.c_pre.specs.Carrying.{Setting, opens, tests, alternates, closes, includes, effect, leaves, stops, start, Carries, IsExpandedInto};
ghost use Rattle.c_pre.specs.Known.{findings_of, Keeps, Recalls};
ghost use Rattle.c_pre.specs.Views.{tokens_of, end_flags, state_at, setting_in, IsDone, IsStopped};
ghost use Rattle.c_pre.specs.declared.directive.Directive.TheVariants.{Text};
ghost use Rattle.c_pre.specs.declared.error.PreError.TheVariants.{Memory};

use crate::conditional::{Part, Taking, is_hidden, other, skips};
use crate::directive::{Directive, arguments, directive_of, number_of};
use crate::error::PreError;
use crate::header::{header_of, rows_of};
use crate::known::{Known, nothing};
use crate::lines::{Line, end_flags, lines};
use crate::macros::{Macros, body_of, define, define_all, name_alone, undefine};
use crate::replacing::replace;
use c_token::Token;
use indexmap::IndexMap;
use std::alloc::Global;

/// What stays the same for all lines: the bytes that the tokens lie in, and the lines of the headers' macros.
#[derive(Clone, Copy)]
pub struct Frame<'a> {
    pub alloc: Global,
    pub bytes: &'a [u8],
    pub rows: &'a [Line<'a>],
}

/// The macros, and the open conditionals, the innermost last.
#[derive(Drop)]
pub struct Place<'a> {
    pub macros: Macros<'a>,
    pub parts: Vec<Part>,
    /// What macros became, and become still.
    pub known: Known,
}

/// A directive of a line, with what stands behind its word.
#[derive(Clone, Copy)]
pub struct Order<'a> {
    pub directive: Directive,
    pub args: &'a [Token],
    pub line: u32,
    /// Whether a conditional that begins here ends.
    pub ended: bool,
}

/// A directive that changed the macros, or isn't of its form.
fn changed(done: bool, line: u32) -> Result<(), PreError>
    ensures done { OnOk result (done ≡ true) }
    ensures stop { IfErr result (λ e. (done ≡ false) × (e ≡ PreError.Directive line)) }
{
    if done {
        Ok(())
    } else {
        Err(PreError::Directive { line })
    }
}

impl<'a> Place<'a> {
    fn open(&mut self, order: Order<'a>, taking: Taking) -> Result<(), PreError>
        ensures done { OnOk result (opens (state_at self.old) order.entry.ended order.entry.line taking ≡ leaves (state_at self.new)) }
        ensures stop { IfErr result (λ e. e ≢ Memory → opens (state_at self.old) order.entry.ended order.entry.line taking ≡ stops e) }
        ensures macros { OnOk result (self.new.macros.entries ≡ self.old.macros.entries) }
        ensures known { OnOk result (findings_of self.new.known ≡ findings_of self.old.known) }
    {
        if !order.ended {
            return Err(PreError::Conditional { line: order.line });
        }
        self.parts.push(Part {
            taking,
            behind_else: false,
        })?;
        Ok(())
    }

    fn test(&mut self, bytes: &[u8], order: Order<'a>, wanted: bool) -> Result<(), PreError>
        ensures done { OnOk result (tests (state_at self.old) order.entry.ended order.entry.line wanted (name_alone bytes.now order.entry.args.now) ≡ leaves (state_at self.new)) }
        ensures stop { IfErr result (λ e. e ≢ Memory → tests (state_at self.old) order.entry.ended order.entry.line wanted (name_alone bytes.now order.entry.args.now) ≡ stops e) }
        ensures macros { OnOk result (self.new.macros.entries ≡ self.old.macros.entries) }
        ensures known { OnOk result (findings_of self.new.known ≡ findings_of self.old.known) }
    {
        match name_alone(bytes, order.args) {
            None => Err(PreError::Directive { line: order.line }),
            Some(name) => {
                let is_macro = body_of(&self.macros, name).is_some();
                let taking = if is_macro == wanted {
                    Taking::Read
                } else {
                    Taking::Passed
                };
                self.open(order, taking)
            }
        }
    }

    fn alternate(&mut self, order: Order<'a>) -> Result<(), PreError>
        ensures done { OnOk result (alternates (state_at self.old) order.entry.line order.entry.args.now (state_at self.old).parts ≡ leaves (state_at self.new)) }
        ensures stop { IfErr result (λ e. e ≢ Memory → alternates (state_at self.old) order.entry.line order.entry.args.now (state_at self.old).parts ≡ stops e) }
        ensures macros { OnOk result (self.new.macros.entries ≡ self.old.macros.entries) }
        ensures known { OnOk result (findings_of self.new.known ≡ findings_of self.old.known) }
    {
        let line = order.line;
        match self.parts.pop() {
            None => {
                if order.args.is_empty() {
                    Err(PreError::Conditional { line })
                } else {
                    Err(PreError::Directive { line })
                }
            }
            Some(part) => {
                if !order.args.is_empty() && !is_hidden(part.taking) {
                    return Err(PreError::Directive { line });
                }
                if part.behind_else {
                    return Err(PreError::Conditional { line });
                }
                self.parts.push(Part {
                    taking: other(part.taking),
                    behind_else: true,
                })?;
                Ok(())
            }
        }
    }

    fn close(&mut self, order: Order<'a>) -> Result<(), PreError>
        ensures done { OnOk result (closes (state_at self.old) order.entry.line order.entry.args.now (state_at self.old).parts ≡ leaves (state_at self.new)) }
        ensures stop { IfErr result (λ e. e ≢ Memory → closes (state_at self.old) order.entry.line order.entry.args.now (state_at self.old).parts ≡ stops e) }
        ensures macros { OnOk result (self.new.macros.entries ≡ self.old.macros.entries) }
        ensures known { OnOk result (findings_of self.new.known ≡ findings_of self.old.known) }
    {
        let line = order.line;
        match self.parts.pop() {
            None => {
                if order.args.is_empty() {
                    Err(PreError::Conditional { line })
                } else {
                    Err(PreError::Directive { line })
                }
            }
            Some(part) => {
                if !order.args.is_empty() && !is_hidden(part.taking) {
                    return Err(PreError::Directive { line });
                }
                Ok(())
            }
        }
    }

    fn include(&mut self, frame: Frame<'a>, order: Order<'a>) -> Result<(), PreError>
        ensures done { OnOk result (includes (setting_in frame.entry) (state_at self.old) order.entry.line (header_of frame.entry.bytes.now order.entry.args.now) ≡ leaves (state_at self.new)) }
        ensures stop { IfErr result (λ e. e ≢ Memory → includes (setting_in frame.entry) (state_at self.old) order.entry.line (header_of frame.entry.bytes.now order.entry.args.now) ≡ stops e) }
        ensures keeps { OnOk result (Keeps frame.entry.bytes.now self.old.macros.entries (findings_of self.old.known) self.new.macros.entries (findings_of self.new.known)) }
    {
        match header_of(frame.bytes, order.args) {
            None => Err(PreError::Include { line: order.line }),
            Some(header) => {
                let done = define_all(
                    frame.alloc,
                    frame.bytes,
                    &mut self.macros,
                    &mut self.known,
                    rows_of(header, frame.rows),
                )?;
                changed(done, order.line)
            }
        }
    }

    /// Carries out a directive of a part that is read.
    fn obey(&mut self, frame: Frame<'a>, order: Order<'a>) -> Result<(), PreError>
        requires read { skips (state_at self.old).parts ≡ false }
        requires directive { order.directive ≢ Text }
        ensures done { OnOk result (effect (setting_in frame.entry) (state_at self.old) order.entry.ended order.entry.line order.entry.args.now order.entry.directive ≡ leaves (state_at self.new)) }
        ensures stop { IfErr result (λ e. e ≢ Memory → effect (setting_in frame.entry) (state_at self.old) order.entry.ended order.entry.line order.entry.args.now order.entry.directive ≡ stops e) }
        ensures keeps { OnOk result (Keeps frame.entry.bytes.now self.old.macros.entries (findings_of self.old.known) self.new.macros.entries (findings_of self.new.known)) }
    {
        match order.directive {
            Directive::Text => Ok(()),
            Directive::Nothing => Ok(()),
            Directive::Define => {
                let done = define(
                    frame.alloc,
                    frame.bytes,
                    &mut self.macros,
                    &mut self.known,
                    order.args,
                )?;
                changed(done, order.line)
            }
            Directive::Undefine => {
                let done = undefine(
                    frame.alloc,
                    frame.bytes,
                    &mut self.macros,
                    &mut self.known,
                    order.args,
                )?;
                changed(done, order.line)
            }
            Directive::Ifdef => self.test(frame.bytes, order, true),
            Directive::Ifndef => self.test(frame.bytes, order, false),
            Directive::Else => self.alternate(order),
            Directive::Endif => self.close(order),
            Directive::Include => self.include(frame, order),
            Directive::Other => Err(PreError::Directive { line: order.line }),
        }
    }

    /// Carries out a directive of a part that is skipped.
    fn pass(&mut self, frame: Frame<'a>, order: Order<'a>) -> Result<(), PreError>
        requires skipped { skips (state_at self.old).parts ≡ true }
        ensures done { OnOk result (effect (setting_in frame.entry) (state_at self.old) order.entry.ended order.entry.line order.entry.args.now order.entry.directive ≡ leaves (state_at self.new)) }
        ensures stop { IfErr result (λ e. e ≢ Memory → effect (setting_in frame.entry) (state_at self.old) order.entry.ended order.entry.line order.entry.args.now order.entry.directive ≡ stops e) }
        ensures keeps { OnOk result (Keeps frame.entry.bytes.now self.old.macros.entries (findings_of self.old.known) self.new.macros.entries (findings_of self.new.known)) }
    {
        match order.directive {
            Directive::Text => Ok(()),
            Directive::Nothing => Ok(()),
            Directive::Define => Ok(()),
            Directive::Undefine => Ok(()),
            Directive::Ifdef => self.open(order, Taking::Hidden),
            Directive::Ifndef => self.open(order, Taking::Hidden),
            Directive::Else => self.alternate(order),
            Directive::Endif => self.close(order),
            Directive::Include => Ok(()),
            Directive::Other => Err(PreError::Directive { line: order.line }),
        }
    }

    /// Carries out a directive.
    fn follow(&mut self, frame: Frame<'a>, order: Order<'a>) -> Result<(), PreError>
        requires directive { skips (state_at self.old).parts ≡ false → order.directive ≢ Text }
        ensures done { OnOk result (effect (setting_in frame.entry) (state_at self.old) order.entry.ended order.entry.line order.entry.args.now order.entry.directive ≡ leaves (state_at self.new)) }
        ensures stop { IfErr result (λ e. e ≢ Memory → effect (setting_in frame.entry) (state_at self.old) order.entry.ended order.entry.line order.entry.args.now order.entry.directive ≡ stops e) }
        ensures keeps { OnOk result (Keeps frame.entry.bytes.now self.old.macros.entries (findings_of self.old.known) self.new.macros.entries (findings_of self.new.known)) }
    {
        if skips(&self.parts) {
            self.pass(frame, order)
        } else {
            self.obey(frame, order)
        }
    }

    /// Whether a line gives what its tokens become.
    fn is_given(&self, directive: Directive) -> bool
        ensures given { result ≡ true → (directive ≡ Text) × (skips (state_at self.now).parts ≡ false) }
        ensures not_given { result ≡ false → skips (state_at self.now).parts ≡ false → directive ≢ Text }
    {
        match directive {
            Directive::Text => !skips(&self.parts),
            _ => false,
        }
    }

    /// Carries out a line: a directive changes the place, and text gives what it becomes.
    fn carry(
        &mut self,
        frame: Frame<'a>,
        line: &'a [Token],
        ended: bool,
        out: &mut Vec<Token>,
    ) -> Result<(), PreError>
        requires recalls { Recalls frame.bytes.now self.old }
        requires few { length out.old.items ≤ 200000 }
        ensures done { OnOk result (IsDone (setting_in frame.entry) (state_at self.old) line.now
            (effect (setting_in frame.entry) (state_at self.old) ended (number_of line.now) (arguments line.now) (directive_of frame.entry.bytes.now line.now))
            (state_at self.new) out.old.items out.new.items) }
        ensures recalls { OnOk result (Recalls frame.entry.bytes.now self.new) }
        ensures few { OnOk result (length out.new.items ≤ 200000) }
        ensures stop { IfErr result (λ e. e ≢ Memory → IsStopped (setting_in frame.entry) (state_at self.old) line.now
            (effect (setting_in frame.entry) (state_at self.old) ended (number_of line.now) (arguments line.now) (directive_of frame.entry.bytes.now line.now)) e out.old.items) }
    {
        let order = Order {
            directive: directive_of(frame.bytes, line),
            args: arguments(line),
            line: number_of(line),
            ended,
        };
        if self.is_given(order.directive) {
            match replace(
                frame.alloc,
                frame.bytes,
                &self.macros,
                &mut self.known,
                line,
                out,
            ) {
                Ok(()) => Ok(()),
                Err(error) => Err(error),
            }
        } else {
            match self.follow(frame, order) {
                Ok(()) => Ok(()),
                Err(error) => Err(error),
            }
        }
    }
}

/// The tokens that lines are expanded into.
fn carry_all<'a>(
    frame: Frame<'a>,
    lines: &'a [Line<'a>],
    flags: &[bool],
) -> Result<Vec<Token>, PreError>
    requires { flags.now ≡ end_flags frame.bytes.now (map tokens_of lines.now) }
    ensures tokens { IfOk result (λ v. Carries (setting_in frame.entry) (map tokens_of lines.now) start 0 v.items None) }
    ensures stop { IfErr result (λ e. e ≢ Memory → (given : List Token) × Carries (setting_in frame.entry) (map tokens_of lines.now) start 0 given (Some e)) }
{
    let mut out = Vec::new(frame.alloc);
    let mut place = Place {
        macros: IndexMap::new(frame.alloc),
        parts: Vec::new(frame.alloc),
        known: nothing(frame.alloc),
    };
    for (i, line) in lines.iter().enumerate() {
        match place.carry(frame, line.tokens, flags[i], &mut out) {
            Ok(()) => {}
            Err(error) => return Err(error),
        }
    }
    Ok(out)
}

/// The tokens that tokens are expanded into, where own are those of the headers' text.
pub fn carried(
    alloc: Global,
    bytes: &[u8],
    own: &[Token],
    tokens: &[Token],
) -> Result<Vec<Token>, PreError>
    ensures tokens { IfOk result (λ v. Carries (record { bytes = bytes.now; rows = lines own.now }) (lines tokens.now) start 0 v.items None) }
    ensures stop { IfErr result (λ e. e ≢ Memory → (given : List Token) × Carries (record { bytes = bytes.now; rows = lines own.now }) (lines tokens.now) start 0 given (Some e)) }
{
    let rows = lines(alloc, own)?;
    let text = lines(alloc, tokens)?;
    let flags = end_flags(alloc, bytes, &text)?;
    let frame = Frame {
        alloc,
        bytes,
        rows: &rows,
    };
    carry_all(frame, &text, &flags)
}
