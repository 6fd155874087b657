//! The reader: one pass over the text. The open brackets are kept in the cells themselves.

ghost use Rattle.std.specs.Prelude.{◌≡◌, ◌+◌, ◌-◌, ◌<◌, ◌≤◌, length, IfOk, IfErr, MatchResult};
ghost use Rattle.plain_types.specs.Limits.{IsInText, IsReadable};
ghost use Rattle.json_exact.specs.JsonRefusals.{IsRefused};
ghost use Rattle.json_exact.specs.JsonRests.{EndsLeaf, StopsLeaf, ReadsValue, ReadsValueHere, ReadsName, ReadsNameHere, ReadsColon, ReadsFirst, ReadsBehind, Reads, Puts, Opens, Closes, HasOpen, finished, closing_of, with_kind, IsRead};

use crate::cells::{Cell, Kind};
use crate::error::JsonError;
use crate::{scan, strings};
use std::alloc::Global;

/// How deep brackets may nest.
const DEPTH_LIMIT: usize = 64;

/// What comes next.
#[derive(Clone, Copy, Drop, PartialEq, Eq)]
enum Next {
    /// A value.
    Value,
    /// What may stand behind an opening bracket.
    First,
    /// What may stand behind a value.
    After,
}

/// What was read so far.
#[derive(Drop)]
struct Reader {
    cells: Vec<Cell>,
    /// The place of the next byte.
    at: usize,
    /// The cell of the innermost open bracket. Until it closes, its end is the cell of the bracket around it.
    top: usize,
    /// How many brackets are open.
    depth: usize,
}

/// The kind and the end of the word, number or string at `at`, or the place that its fault counts at.
fn leaf_end(text: &[u8], at: usize) -> Result<(Kind, usize), usize>
    requires { at < length text.now }
    ensures leaf { MatchResult result (λ x. EndsLeaf text.now at x.0 x.1) (StopsLeaf text.now at) }
    ensures bound { IfErr result (λ k. k ≤ length text.now) }
{
    let b = text[at];
    if b == b'"' {
        with_kind(Kind::String, strings::string_end(text, at + 1))
    } else if b == b'-' || scan::is_digit(b) {
        with_kind(Kind::Number, scan::number_end(text, at))
    } else if b == b'n' {
        with_kind(Kind::Null, scan::word_end(text, at, &[110, 117, 108, 108]))
    } else if b == b't' {
        with_kind(Kind::True, scan::word_end(text, at, &[116, 114, 117, 101]))
    } else if b == b'f' {
        with_kind(
            Kind::False,
            scan::word_end(text, at, &[102, 97, 108, 115, 101]),
        )
    } else {
        Err(at)
    }
}

/// The kind, and where it ends.
fn with_kind(kind: Kind, end: Result<usize, usize>) -> Result<(Kind, usize), usize>
    ensures { result ≡ with_kind kind end }
{
    match end {
        Ok(end) => Ok((kind, end)),
        Err(stop) => Err(stop),
    }
}

/// The fault that counts at this byte.
fn bad(at: usize) -> JsonError
    requires { IsInText at }
    ensures { result ≡ JsonError.Bad at }
{
    JsonError::Bad { at: at as u32 }
}

/// The bracket that closes a list or an object.
fn closing(kind: Kind) -> u8
    ensures { result ≡ closing_of kind }
{
    if kind == Kind::Object { b'}' } else { b']' }
}

impl Reader {
    /// What stands where a value has to be, behind blanks.
    fn value(&mut self, text: &[u8]) -> Result<Next, JsonError>
        requires small { IsReadable text.now }
        requires reads { ReadsValue text.now self.old }
        ensures next { MatchResult result (Reads text.now self.new) (IsRefused text.now) }
        ensures progress { IfOk result
            (λ _. (self.old.at < self.new.at) × (self.new.at ≤ length text.now)) }
    {
        let at = scan::blanks_end(text, self.at);
        if at == text.len() {
            return Err(bad(at));
        }
        self.at = at;
        self.value_here(text)
    }

    /// The value that begins here.
    fn value_here(&mut self, text: &[u8]) -> Result<Next, JsonError>
        requires small { IsReadable text.now }
        requires reads { ReadsValueHere text.now self.old }
        ensures next { MatchResult result (Reads text.now self.new) (IsRefused text.now) }
        ensures progress { IfOk result
            (λ _. (self.old.at < self.new.at) × (self.new.at ≤ length text.now)) }
    {
        let b = text[self.at];
        if b == b'[' {
            self.open(text, Kind::List)
        } else if b == b'{' {
            self.open(text, Kind::Object)
        } else {
            match leaf_end(text, self.at) {
                Ok((kind, end)) => {
                    self.put(text, kind, end)?;
                    Ok(Next::After)
                }
                Err(stop) => Err(bad(stop)),
            }
        }
    }

    /// Puts the cell of a leaf from here to `end`.
    fn put(&mut self, text: &[u8], kind: Kind, end: usize) -> Result<(), JsonError>
        requires small { IsReadable text.now }
        requires order { self.old.at ≤ end }
        requires in_text { end ≤ length text.now }
        ensures { Puts self.old kind end self.new result }
    {
        self.cells.push(Cell {
            kind,
            at: self.at as u32,
            end: end as u32,
            inside: 0,
        })?;
        self.at = end;
        Ok(())
    }

    /// Puts the cell of the bracket that opens here.
    fn open(&mut self, text: &[u8], kind: Kind) -> Result<Next, JsonError>
        requires small { IsReadable text.now }
        requires here { self.old.at < length text.now }
        requires top { self.old.top ≤ length self.old.cells.items }
        requires few { length self.old.cells.items ≤ self.old.at }
        requires shallow { self.old.depth ≤ 64 }
        ensures { Opens self.old kind self.new result }
    {
        if self.depth == DEPTH_LIMIT {
            return Err(JsonError::TooDeep { at: self.at as u32 });
        }
        let cell = self.cells.len();
        self.cells.push(Cell {
            kind,
            at: self.at as u32,
            end: self.top as u32,
            inside: 0,
        })?;
        self.top = cell;
        self.depth += 1;
        self.at += 1;
        Ok(Next::First)
    }

    /// Closes the innermost bracket here.
    fn close(&mut self, text: &[u8])
        requires small { IsReadable text.now }
        requires here { self.old.at < length text.now }
        requires has { HasOpen self.old }
        requires few { length self.old.cells.items ≤ self.old.at }
        ensures { Closes self.old self.new }
    {
        let open = self.cells[self.top];
        self.at += 1;
        self.cells[self.top] = Cell {
            kind: open.kind,
            at: open.at,
            end: self.at as u32,
            inside: (self.cells.len() - self.top - 1) as u32,
        };
        self.top = open.end as usize;
        self.depth -= 1;
    }

    /// What may stand behind an opening bracket.
    fn first(&mut self, text: &[u8]) -> Result<Next, JsonError>
        requires small { IsReadable text.now }
        requires reads { ReadsFirst text.now self.old }
        ensures next { MatchResult result (Reads text.now self.new) (IsRefused text.now) }
        ensures progress { IfOk result
            (λ _. (self.old.at < self.new.at) × (self.new.at ≤ length text.now)) }
    {
        let at = scan::blanks_end(text, self.at);
        if at == text.len() {
            return Err(bad(at));
        }
        self.at = at;
        let kind = self.cells[self.top].kind;
        if text[at] == closing(kind) {
            self.close(text);
            Ok(Next::After)
        } else if kind == Kind::Object {
            self.name_here(text)
        } else {
            self.value_here(text)
        }
    }

    /// What stands where a name has to be, behind blanks.
    fn name(&mut self, text: &[u8]) -> Result<Next, JsonError>
        requires small { IsReadable text.now }
        requires reads { ReadsName text.now self.old }
        ensures next { MatchResult result (Reads text.now self.new) (IsRefused text.now) }
        ensures progress { IfOk result
            (λ _. (self.old.at < self.new.at) × (self.new.at ≤ length text.now)) }
    {
        let at = scan::blanks_end(text, self.at);
        if at == text.len() {
            return Err(bad(at));
        }
        self.at = at;
        self.name_here(text)
    }

    /// The name that begins here, and the colon behind it.
    fn name_here(&mut self, text: &[u8]) -> Result<Next, JsonError>
        requires small { IsReadable text.now }
        requires reads { ReadsNameHere text.now self.old }
        ensures next { MatchResult result (Reads text.now self.new) (IsRefused text.now) }
        ensures progress { IfOk result
            (λ _. (self.old.at < self.new.at) × (self.new.at ≤ length text.now)) }
    {
        let at = self.at;
        if text[at] != b'"' {
            return Err(bad(at));
        }
        match strings::string_end(text, at + 1) {
            Ok(end) => {
                self.put(text, Kind::String, end)?;
                self.colon(text)
            }
            Err(stop) => Err(bad(stop)),
        }
    }

    /// What stands where a colon has to be, behind blanks.
    fn colon(&mut self, text: &[u8]) -> Result<Next, JsonError>
        requires small { IsReadable text.now }
        requires reads { ReadsColon text.now self.old }
        ensures next { MatchResult result (Reads text.now self.new) (IsRefused text.now) }
        ensures progress { IfOk result
            (λ _. (self.old.at < self.new.at) × (self.new.at ≤ length text.now)) }
    {
        let at = scan::blanks_end(text, self.at);
        if at == text.len() {
            return Err(bad(at));
        }
        if text[at] != b':' {
            return Err(bad(at));
        }
        self.at = at + 1;
        Ok(Next::Value)
    }

    /// What may stand behind a value in brackets.
    fn after(&mut self, text: &[u8]) -> Result<Next, JsonError>
        requires small { IsReadable text.now }
        requires reads { ReadsBehind text.now self.old }
        requires level { 0 < self.old.depth }
        ensures next { MatchResult result (Reads text.now self.new) (IsRefused text.now) }
        ensures progress { IfOk result
            (λ _. (self.old.at < self.new.at) × (self.new.at ≤ length text.now)) }
    {
        let at = scan::blanks_end(text, self.at);
        if at == text.len() {
            return Err(bad(at));
        }
        let kind = self.cells[self.top].kind;
        if text[at] == closing(kind) {
            self.at = at;
            self.close(text);
            return Ok(Next::After);
        }
        if text[at] != b',' {
            return Err(bad(at));
        }
        self.at = at + 1;
        if kind == Kind::Object {
            self.name(text)
        } else {
            self.value(text)
        }
    }

    /// Whether the value of the whole text was read.
    fn is_done(&self, next: Next) -> bool
        ensures { result ≡ finished next self.now.depth }
    {
        match next {
            Next::After => self.depth == 0,
            _ => false,
        }
    }
}

/// The cells of the text's value.
pub(crate) fn read(alloc: Global, text: &[u8]) -> Result<Vec<Cell>, JsonError>
    requires { IsReadable text.now }
    ensures { MatchResult result (λ cells. IsRead text.now cells.items) (IsRefused text.now) }
{
    let mut reader = Reader {
        cells: Vec::new(alloc),
        at: 0,
        top: 0,
        depth: 0,
    };
    let mut next = Next::Value;
    'reading: while !reader.is_done(next) {
        next = match next {
            Next::Value => reader.value(text)?,
            Next::First => reader.first(text)?,
            Next::After => reader.after(text)?,
        };
    }
    let end = scan::blanks_end(text, reader.at);
    if end != text.len() {
        return Err(bad(end));
    }
    let Reader { cells, .. } = reader;
    Ok(cells)
}
