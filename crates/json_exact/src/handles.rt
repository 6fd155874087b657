//! A text that was read, and handles on its values.

ghost use Rattle.std.specs.Prelude.{ℕ, List, ◌≡◌, ◌+◌, ◌-◌, ◌≤◌, length, drop, slice_range};
ghost use Rattle.json_exact.specs.JsonCells.{first_kind, first_inside, own_cells, other_cells};
ghost use Rattle.json_exact.specs.CellTexts.{AreTexts, AreTexts-prop};

use crate::cells::{Cell, Kind};
use crate::decode;
use std::alloc::AllocError;

/// A text that was read: a cell for each value and each name, beside the text itself.
#[derive(Drop)]
pub struct Json<'t> {
    pub(crate) text: &'t [u8],
    pub(crate) cells: Vec<Cell>,
    ghost texts: { AreTexts text.now cells.items } by { AreTexts-prop text.now cells.items },
}

/// A value of a text that was read. It borrows the text and what was read of it, and is copied freely.
#[derive(Clone, Copy, Drop)]
pub struct Value<'j, 't> {
    cells: &'j [Cell],
    text: &'t [u8],
    ghost texts: { AreTexts text.now cells.now } by { AreTexts-prop text.now cells.now },
}

/// The values in a list, in the order of the text.
#[derive(Drop)]
pub struct Items<'j, 't> {
    cells: &'j [Cell],
    text: &'t [u8],
    ghost texts: { AreTexts text.now cells.now } by { AreTexts-prop text.now cells.now },
}

/// Where a value begins, and where the text goes on behind it.
#[derive(Clone, Copy, Debug, Drop, PartialEq, Eq)]
pub struct Span {
    pub at: u32,
    pub end: u32,
}

/// The bytes from one place to another, as far as the text has them.
fn part(text: &[u8], from: usize, to: usize) -> &[u8]
    ensures { result.now ≡ slice_range text.now from to }
{
    let end = to.min(text.len());
    let begin = from.min(end);
    &text[begin..end]
}

/// What stands between the quotes of a string or a name.
fn characters(text: &[u8], cell: Cell) -> &[u8]
    ensures { result.now ≡ slice_range text.now (cell.at + 1) (cell.end - 1) }
{
    part(
        text,
        cell.at as usize + 1,
        (cell.end as usize).saturating_sub(1),
    )
}

impl<'t> Json<'t> {
    ghost use Rattle.json_exact.specs.Handles.{json_of, value_of};

    /// The value of the whole text.
    pub fn root(&self) -> Value<'_, 't>
        ensures { json_of result ≡ value_of self.now }
    {
        Value {
            cells: self.cells.as_slice(),
            text: self.text,
        }
    }
}

impl<'j, 't> Value<'j, 't> {
    ghost use Rattle.std.specs.Prelude.{◌++◌, [], true, false, None, Some, IfOk, OnErr, MatchOption, unwrap_or, IsUtf8};
    ghost use Rattle.std.specs.Option.{option_map};
    ghost use Rattle.json_exact.specs.Json.{begins_at, ends_at, items, member, number_of, text_of, is_null, is_list, is_object};
    ghost use Rattle.json_exact.specs.ByteComparisons.{same_bytes};
    ghost use Rattle.json_exact.specs.Handles.{json_of, items_left};

    /// What kind of value it is.
    fn kind(self) -> Kind
        ensures { result ≡ first_kind self.entry.cells.now }
    {
        match self.cells.first() {
            Some(cell) => cell.kind,
            None => Kind::Null,
        }
    }

    /// The cells of what the brackets hold.
    fn inside(self) -> &'j [Cell]
        ensures is { result.now ≡ first_inside self.entry.cells.now }
        ensures texts { AreTexts self.entry.text.now result.now }
    {
        if self.cells.is_empty() {
            return self.cells;
        }
        let n = self.cells[0].inside as usize;
        let end = n.min(self.cells.len() - 1);
        &self.cells[1..1 + end]
    }

    /// Whether the value is the word `null`.
    pub fn is_null(self) -> bool
        ensures { result ≡ is_null (json_of self.entry) }
    {
        self.kind() == Kind::Null
    }

    /// Whether the value is a list, in square brackets.
    pub fn is_list(self) -> bool
        ensures { result ≡ is_list (json_of self.entry) }
    {
        self.kind() == Kind::List
    }

    /// Whether the value is an object, in curly brackets.
    pub fn is_object(self) -> bool
        ensures { result ≡ is_object (json_of self.entry) }
    {
        self.kind() == Kind::Object
    }

    /// Where the value begins and ends. The span of a string has its quotes, that of a list or an
    /// object its brackets.
    pub fn span(self) -> Span
        ensures at { result.at ≡ begins_at (json_of self.entry) }
        ensures end { result.end ≡ ends_at (json_of self.entry) }
    {
        match self.cells.first() {
            Some(cell) => Span {
                at: cell.at,
                end: cell.end,
            },
            None => Span { at: 0, end: 0 },
        }
    }

    /// The digits of a number, as they are written. None of any other value.
    pub fn number(self) -> Option<&'t [u8]>
        ensures { MatchOption result (number_of (json_of self.entry) ≡ None)
            (λ digits. number_of (json_of self.entry) ≡ Some digits.now) }
    {
        if self.kind() != Kind::Number {
            return None;
        }
        match self.cells.first() {
            Some(cell) => Some(part(self.text, cell.at as usize, cell.end as usize)),
            None => None,
        }
    }

    /// The values in a list. None in any other value.
    pub fn items(self) -> Items<'j, 't>
        ensures { items_left result ≡ items (json_of self.entry) }
    {
        if self.kind() != Kind::List {
            return Items {
                cells: &[],
                text: self.text,
            };
        }
        Items {
            cells: self.inside(),
            text: self.text,
        }
    }

    /// The first member of an object that has this name. None where there is none, and in any other value.
    pub fn get(self, name: &[u8]) -> Option<Value<'j, 't>>
        ensures { option_map json_of result
            ≡ member (λ text. same_bytes text name.now) (json_of self.entry) }
    {
        if self.kind() != Kind::Object {
            return None;
        }
        let mut rest = self.inside();
        'members: while rest.len() >= 2 {
            let values = behind_first(rest);
            if decode::spells(characters(self.text, rest[0]), name) {
                return Some(Value {
                    cells: own(values),
                    text: self.text,
                });
            }
            rest = others(values);
        }
        None
    }

    /// Appends the characters of a string, in UTF-8, and answers true. For any other value it answers
    /// false. After false, and where memory runs out, nothing was appended. What is appended is UTF-8.
    pub fn text(self, out: &mut Vec<u8>) -> Result<bool, AllocError>
        ensures ok { IfOk result (λ said. MatchOption (text_of (json_of self.entry))
            ((said ≡ false) × (out.new.items ≡ out.old.items))
            (λ text. (said ≡ true) × (out.new.items ≡ out.old.items ++ text))) }
        ensures err { OnErr result (out.new.items ≡ out.old.items) }
        ensures utf8 { IsUtf8 (unwrap_or (text_of (json_of self.entry)) []) }
    {
        if self.kind() != Kind::String {
            return Ok(false);
        }
        let cell = self.cells[0];
        let before = out.len();
        match decode::append(characters(self.text, cell), out) {
            Ok(()) => Ok(true),
            Err(refused) => {
                out.truncate(before);
                Err(refused)
            }
        }
    }
}

/// The cells behind the first.
#[tactic(auto, using(crate::proofs::TextCells::texts_behind))]
fn behind_first(cells: &[Cell]) -> &[Cell]
    requires { 1 ≤ length cells.now }
    ensures is { result.now ≡ drop 1 cells.now }
    ensures texts { (text : List ℕ) → AreTexts text cells.now → AreTexts text result.now }
{
    &cells[1..]
}

/// The first cell and those within it.
fn own(cells: &[Cell]) -> &[Cell]
    ensures is { result.now ≡ own_cells cells.now }
    ensures texts { (text : List ℕ) → AreTexts text cells.now → AreTexts text result.now }
{
    if cells.is_empty() {
        return cells;
    }
    let n = (cells[0].inside as usize).min(cells.len() - 1);
    &cells[..1 + n]
}

/// The cells behind them.
fn others(cells: &[Cell]) -> &[Cell]
    ensures is { result.now ≡ other_cells cells.now }
    ensures texts { (text : List ℕ) → AreTexts text cells.now → AreTexts text result.now }
{
    if cells.is_empty() {
        return cells;
    }
    let n = (cells[0].inside as usize).min(cells.len() - 1);
    &cells[1 + n..]
}

impl<'j, 't> Iterator for Items<'j, 't> {
    type Item = Value<'j, 't>;

    ghost use Rattle.std.specs.Iterator.{YieldsFirstBy, item_count};
    ghost use Rattle.json_exact.specs.Handles.{json_of, items_left};

    ghost next_gives = { YieldsFirstBy json_of items_left };

    ghost remaining = { item_count items_left };

    fn next(&mut self) -> Option<Value<'j, 't>> {
        if self.cells.is_empty() {
            return None;
        }
        let value = Value {
            cells: own(self.cells),
            text: self.text,
        };
        self.cells = others(self.cells);
        Some(value)
    }
}
