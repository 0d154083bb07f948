//! Finding out what becomes of macros. No promise rests on the order, since each is tested before it is noted, and what was
//! left out is noted at the end.

ghost use Rattle.std.specs.Prelude.{◌≡◌, false, OnOk};
ghost use Rattle.c_pre.specs.Views.{macros_in};
ghost use Rattle.c_pre.specs.Known.{fates_in, findings_of, Knows, IsTold, AreTold, ToldBelow, Suffices, Learns};

use crate::directive::{split, text_at};
use crate::known::{Fates, Known, fate_of, met_at};
use crate::macros::{Macros, body_of};
use crate::noting::{note_lasting, note_vanishing, vanishes};
use c_token::Token;
use indexmap::IndexSet;
use std::alloc::{AllocError, Global};

/// Macros of which nothing is known yet.
type Names = IndexSet<Vec<u8>>;

/// Whether a name is a macro's of which nothing is known.
fn is_unknown<'a>(macros: &Macros<'a>, fates: &Fates, name: &[u8]) -> bool
    ensures { result ≡ false → IsTold (macros_in macros.now.entries) (fates_in fates.now.entries) name.now }
{
    fate_of(fates, name).is_none() && body_of(macros, name).is_some()
}

/// Takes a name among others, if it is a macro's of which nothing is known.
fn take<'a>(
    alloc: Global,
    macros: &Macros<'a>,
    fates: &Fates,
    names: &mut Names,
    name: &[u8],
) -> Result<(), AllocError> {
    if !is_unknown(macros, fates, name) || names.contains(name) {
        return Ok(());
    }
    let key = name.to_vec(alloc)?;
    names.insert(key)?;
    Ok(())
}

/// Takes the names in a body.
fn take_all<'a>(
    alloc: Global,
    bytes: &[u8],
    macros: &Macros<'a>,
    fates: &Fates,
    names: &mut Names,
    body: &[Token],
) -> Result<(), AllocError> {
    let mut rest = body;
    while let Some((token, behind)) = split(rest) {
        take(alloc, macros, fates, names, text_at(bytes, token))?;
        rest = behind;
    }
    Ok(())
}

/// The tokens that replace a name; none where it is no macro's.
fn tokens_of<'a>(macros: &Macros<'a>, name: &[u8]) -> &'a [Token] {
    match body_of(macros, name) {
        None => &[],
        Some(body) => body.tokens,
    }
}

/// The name at an index, and what replaces it.
fn name_at<'n, 'a>(
    macros: &Macros<'a>,
    names: &'n Names,
    index: usize,
) -> Option<(&'n [u8], &'a [Token])> {
    let name = names.get_index(index)?;
    Some((name, tokens_of(macros, name)))
}

/// The macros that one leads to, itself the first, of which nothing is known.
fn reached<'a>(
    alloc: Global,
    bytes: &[u8],
    macros: &Macros<'a>,
    fates: &Fates,
    name: &[u8],
) -> Result<Names, AllocError> {
    let mut names = IndexSet::new(alloc);
    take(alloc, macros, fates, &mut names, name)?;
    for index in 0..usize::MAX {
        let body = match name_at(macros, &names, index) {
            None => return Ok(names),
            Some((_, body)) => body,
        };
        take_all(alloc, bytes, macros, fates, &mut names, body)?;
    }
    Ok(names)
}

/// For macros that wait for others to vanish: how many tokens of their bodies do, and who waits for them.
#[derive(Drop)]
struct Queue {
    /// The macros that are to be looked at.
    ready: Vec<usize>,
    /// How many tokens of each one's body are known to vanish.
    places: Vec<usize>,
    /// For each, the last that waits for it.
    last: Vec<Option<usize>>,
    /// For each that waits, the one that waits for the same before it.
    before: Vec<Option<usize>>,
}

/// Each of so many macros is to be looked at.
fn all_ready(alloc: Global, size: usize) -> Result<Queue, AllocError> {
    let mut queue = Queue {
        ready: Vec::new(alloc),
        places: Vec::new(alloc),
        last: Vec::new(alloc),
        before: Vec::new(alloc),
    };
    for index in 0..size {
        queue.ready.push(index)?;
        queue.places.push(0)?;
        queue.last.push(None)?;
        queue.before.push(None)?;
    }
    Ok(queue)
}

/// How many tokens vanish at the front of a body, where some are known to.
fn front(bytes: &[u8], fates: &Fates, body: &[Token], known: usize) -> usize {
    let mut place = known;
    let mut rest = body.split_at(body.len().min(known)).1;
    while let Some((token, behind)) = split(rest) {
        if !vanishes(bytes, fates, token) {
            return place;
        }
        place = place.saturating_add(1);
        rest = behind;
    }
    place
}

/// What is written at an index, if there is one.
fn write<T: Copy>(all: &mut [T], index: usize, value: T) {
    if let Some(place) = all.get_mut(index) {
        *place = value;
    }
}

impl Queue {
    /// A macro waits for another one.
    fn wait(&mut self, index: usize, other: usize) {
        let before = self.last.get(other).copied().flatten();
        write(&mut self.before, index, before);
        write(&mut self.last, other, Some(index));
    }

    /// A macro vanishes: those that wait for it are to be looked at.
    fn wake(&mut self, index: usize) -> Result<(), AllocError> {
        let mut waiting = self.last.get(index).copied().flatten();
        for _ in 0..self.places.len() {
            match waiting {
                None => return Ok(()),
                Some(other) => {
                    self.ready.push(other)?;
                    waiting = self.before.get(other).copied().flatten();
                }
            }
        }
        Ok(())
    }

    /// Looks at a macro: it vanishes, or waits for the first name in its body that doesn't.
    fn look<'a>(
        &mut self,
        alloc: Global,
        bytes: &[u8],
        macros: &Macros<'a>,
        known: &mut Known,
        names: &Names,
        index: usize,
    ) -> Result<(), AllocError>
        requires knows { Knows bytes.now (macros_in macros.now.entries) (findings_of known.old) }
        ensures learns { OnOk result (Learns bytes.now (macros_in macros.now.entries) known.old known.new) }
    {
        let (name, body) = match name_at(macros, names, index) {
            None => return Ok(()),
            Some(found) => found,
        };
        let done = self.places.get(index).copied().unwrap_or(0);
        let place = front(bytes, &known.fates, body, done);
        write(&mut self.places, index, place);
        match body.get(place) {
            None => {
                if note_vanishing(alloc, bytes, macros, known, name)? {
                    self.wake(index)?;
                }
            }
            Some(token) => {
                if let Some(other) = names.get_index_of(text_at(bytes, *token)) {
                    self.wait(index, other);
                }
            }
        }
        Ok(())
    }
}

/// Notes which of these macros vanish.
fn vanish<'a>(
    alloc: Global,
    bytes: &[u8],
    macros: &Macros<'a>,
    known: &mut Known,
    names: &Names,
) -> Result<(), AllocError>
    requires knows { Knows bytes.now (macros_in macros.now.entries) (findings_of known.old) }
    ensures learns { OnOk result (Learns bytes.now (macros_in macros.now.entries) known.old known.new) }
{
    let mut queue = all_ready(alloc, names.len())?;
    for _ in 0..u64::MAX {
        match queue.ready.pop() {
            None => return Ok(()),
            Some(index) => queue.look(alloc, bytes, macros, known, names, index)?,
        }
    }
    Ok(())
}

/// The only token of a body that doesn't vanish, if there is one.
fn only_lasting(bytes: &[u8], fates: &Fates, body: &[Token]) -> Option<Token> {
    let mut found = None;
    let mut rest = body;
    while let Some((token, behind)) = split(rest) {
        if !vanishes(bytes, fates, token) {
            if found.is_some() {
                return None;
            }
            found = Some(token);
        }
        rest = behind;
    }
    found
}

/// The macros behind one, each the only one that lasts of the body before it, of which nothing is known: itself the first.
fn walk<'a>(
    alloc: Global,
    bytes: &[u8],
    macros: &Macros<'a>,
    fates: &Fates,
    name: &[u8],
) -> Result<Names, AllocError> {
    let mut names = IndexSet::new(alloc);
    take(alloc, macros, fates, &mut names, name)?;
    for index in 0..usize::MAX {
        let token = match name_at(macros, &names, index) {
            None => return Ok(names),
            Some((_, body)) => only_lasting(bytes, fates, body),
        };
        match token {
            None => return Ok(names),
            Some(token) => take(alloc, macros, fates, &mut names, text_at(bytes, token))?,
        }
    }
    Ok(names)
}

/// Notes that a macro lasts, and before it those that it leads to alone.
fn settle<'a>(
    alloc: Global,
    bytes: &[u8],
    macros: &Macros<'a>,
    known: &mut Known,
    name: &[u8],
) -> Result<(), AllocError>
    requires knows { Knows bytes.now (macros_in macros.now.entries) (findings_of known.old) }
    ensures learns { OnOk result (Learns bytes.now (macros_in macros.now.entries) known.old known.new) }
{
    let mut names = walk(alloc, bytes, macros, &known.fates, name)?;
    while let Some(last) = names.pop() {
        note_lasting(alloc, bytes, macros, known, &last)?;
    }
    Ok(())
}

/// Notes what becomes of a name, if it is a macro's, and of those that it leads to.
fn plan<'a>(
    alloc: Global,
    bytes: &[u8],
    macros: &Macros<'a>,
    known: &mut Known,
    name: &[u8],
) -> Result<(), AllocError>
    requires knows { Knows bytes.now (macros_in macros.now.entries) (findings_of known.old) }
    ensures learns { OnOk result (Learns bytes.now (macros_in macros.now.entries) known.old known.new) }
    ensures told { OnOk result (IsTold (macros_in macros.now.entries) (fates_in known.new.fates.entries) name.now) }
{
    if !is_unknown(macros, &known.fates, name) {
        return Ok(());
    }
    let mut names = reached(alloc, bytes, macros, &known.fates, name)?;
    vanish(alloc, bytes, macros, known, &names)?;
    while let Some(last) = names.pop() {
        settle(alloc, bytes, macros, known, &last)?;
    }
    note_lasting(alloc, bytes, macros, known, name)?;
    Ok(())
}

/// Notes what becomes of the macros in a text, and of those that they lead to.
fn plan_text<'a>(
    alloc: Global,
    bytes: &[u8],
    macros: &Macros<'a>,
    known: &mut Known,
    text: &[Token],
) -> Result<(), AllocError>
    requires knows { Knows bytes.now (macros_in macros.now.entries) (findings_of known.old) }
    ensures learns { OnOk result (Learns bytes.now (macros_in macros.now.entries) known.old known.new) }
    ensures told { OnOk result (AreTold bytes.now (macros_in macros.now.entries) (fates_in known.new.fates.entries) text.now) }
{
    let mut rest = text;
    while let Some((token, behind)) = split(rest) {
        plan(alloc, bytes, macros, known, text_at(bytes, token))?;
        rest = behind;
    }
    Ok(())
}

/// Notes of each macro whose name was met, from an index on, that it lasts, if nothing is known of it yet.
fn finish<'a>(
    alloc: Global,
    bytes: &[u8],
    macros: &Macros<'a>,
    known: &mut Known,
    met: usize,
) -> Result<(), AllocError>
    requires knows { Knows bytes.now (macros_in macros.now.entries) (findings_of known.old) }
    requires told { ToldBelow (macros_in macros.now.entries) (fates_in known.old.fates.entries) known.old.used.keys met }
    ensures learns { OnOk result (Learns bytes.now (macros_in macros.now.entries) known.old known.new) }
    ensures suffices { OnOk result (Suffices bytes.now (macros_in macros.now.entries) (findings_of known.new)) }
{
    for index in met..usize::MAX {
        match met_at(alloc, &known.used, index)? {
            None => return Ok(()),
            Some(name) => note_lasting(alloc, bytes, macros, known, &name)?,
        }
    }
    Err(AllocError)
}

/// Notes what becomes of the macros in a text, and of those whose names stand in the bodies of macros of which it is known.
pub fn plan_all<'a>(
    alloc: Global,
    bytes: &[u8],
    macros: &Macros<'a>,
    known: &mut Known,
    text: &[Token],
) -> Result<(), AllocError>
    requires suffices { Suffices bytes.now (macros_in macros.now.entries) (findings_of known.old) }
    ensures suffices { OnOk result (Suffices bytes.now (macros_in macros.now.entries) (findings_of known.new)) }
    ensures told { OnOk result (AreTold bytes.now (macros_in macros.now.entries) (fates_in known.new.fates.entries) text.now) }
{
    let met = known.used.len();
    plan_text(alloc, bytes, macros, known, text)?;
    finish(alloc, bytes, macros, known, met)?;
    Ok(())
}
