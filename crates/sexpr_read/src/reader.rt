//! Reads a text into a row of cells, or tells the first fault in it.

ghost use Rattle.std.specs.Prelude.{◌≡◌, ◌≤◌, ◌<◌, ◌^◌, ◌⊎◌, length, true, false, [], None, Some, IsUtf8, MatchResult, IfOk, IfErr};
ghost use Rattle.plain_types.specs.Limits.{IsReadable};
ghost use Rattle.simdutf8.specs.Error.{valid_up_to};
ghost use Rattle.sexpr_read.specs.Tree.{Tree, levels};
ghost use Rattle.sexpr_read.specs.declared.bytes.ByteClass.TheVariants.{Open};
ghost use Rattle.sexpr_read.specs.ByteClasses.{sign_of};
ghost use Rattle.sexpr_read.specs.Comments.{shown, signs};
ghost use Rattle.sexpr_read.specs.Spelling.{IsSpaceBetween, Spells, SpellsAll};
ghost use Rattle.sexpr_read.specs.TreeRefusals.{outside, is_blank_before, whole_fault, refusal_of_one, refusal_of_all, IsOfForms};
ghost use Rattle.sexpr_read.specs.ReaderProgress.{Stands, outer_levels, IsInLine, TreesAreRead};
ghost use Rattle.sexpr_read.specs.TreeViews.{root_of};

use crate::arena::Arena;
use crate::bytes::{ByteClass, sign_at};
use crate::cell_estimate::about_cells;
use crate::comments::{skip, skip_space};
use crate::place::{Span, TextError};
use crate::runs::{gap_end, string_end, word_end};
use crate::view::Doc;
use simdutf8::compat::{Utf8Error, from_utf8};
use std::alloc::Global;

/// So many lists may stand in one another.
const MOST_LEVELS: u32 = 64;

/// Reads trees from `from` on into an arena, up to a `)` of no list that opens here, or to the end of the text.
fn read_forest(text: &[u8], from: usize, one: bool, arena: &mut Arena) -> Result<usize, TextError>
    requires fits { IsReadable text.now }
    requires within { from ≤ length text.now }
    requires line { IsInLine one text.now from true }
    requires stands { Stands one (signs one text.now) from (outside (outer_levels one)) }
    requires empty { arena.old.cells.items ≡ [] }
    requires closed { arena.old.innermost ≡ 0 }
    ensures ok { IfOk result (λ stop. TreesAreRead one text.now from stop arena.new.cells.items) }
    ensures err { IfErr result (λ e. (e ≡ TextError.OutOfMemory)
        ⊎ (whole_fault one (signs one text.now) (length text.now) ≡ Some e)) }
{
    let mut at = skip(text, from, one, true);
    let mut depth: u32 = if one { 1 } else { 0 };
    'trees: while at < text.len() {
        match sign_at(text, at) {
            ByteClass::Space => at = skip_space(text, at, one),
            ByteClass::Open => {
                if depth == MOST_LEVELS {
                    return Err(TextError::TooDeep { at: at as u32 });
                }
                arena.open_list(at)?;
                depth += 1;
                at += 1;
            }
            ByteClass::Close => {
                if arena.is_closed() {
                    return Ok(at);
                }
                arena.close_list(at + 1);
                depth -= 1;
                at += 1;
            }
            ByteClass::Quote => {
                let Some(close) = string_end(text, at + 1) else {
                    return Err(TextError::EndInside {
                        at: text.len() as u32,
                    });
                };
                arena.add_atom(at, close + 1)?;
                at = close + 1;
            }
            ByteClass::Backslash | ByteClass::Plain => {
                let end = word_end(text, at);
                arena.add_atom(at, end)?;
                at = end;
            }
        }
    }
    if arena.is_closed() {
        Ok(at)
    } else {
        Err(TextError::EndInside {
            at: text.len() as u32,
        })
    }
}

/// Where the one list of a text begins.
fn list_start(text: &[u8]) -> Result<usize, TextError>
    requires { IsReadable text.now }
    ensures gap { IfOk result (λ at. IsSpaceBetween (sign_of text.now) 0 at) }
    ensures bracket { IfOk result (λ at. sign_of text.now at ≡ Open) }
    ensures within { IfOk result (λ at. at < length text.now) }
    ensures err { IfErr result
        (λ e. whole_fault true (sign_of text.now) (length text.now) ≡ Some e) }
{
    let at = gap_end(text, 0);
    if at == text.len() {
        return Err(TextError::EmptyText);
    }
    match sign_at(text, at) {
        ByteClass::Open => Ok(at),
        ByteClass::Close => Err(TextError::CloseWithoutOpen { at: at as u32 }),
        _ => Err(TextError::ExtraText { at: at as u32 }),
    }
}

/// That only space follows the one list of a text.
fn check_rest(text: &[u8], end: usize) -> Result<(), TextError>
    requires fits { IsReadable text.now }
    requires within { end ≤ length text.now }
    requires stands { Stands true (sign_of text.now) end (outside 0) }
    requires seen { is_blank_before (sign_of text.now) end ≡ false }
    ensures ok { IfOk result (λ _. IsSpaceBetween (sign_of text.now) end (length text.now)) }
    ensures err { IfErr result
        (λ e. whole_fault true (sign_of text.now) (length text.now) ≡ Some e) }
{
    let at = gap_end(text, end);
    if at == text.len() {
        return Ok(());
    }
    match sign_at(text, at) {
        ByteClass::Close => Err(TextError::CloseWithoutOpen { at: at as u32 }),
        _ => Err(TextError::ExtraText { at: at as u32 }),
    }
}

/// The refusal of bytes that are no UTF-8.
fn not_utf8(e: &Utf8Error) -> TextError
    requires { valid_up_to e.now < 2 ^ 32 }
    ensures { result ≡ TextError.NotUtf8 (valid_up_to e.now) }
{
    TextError::NotUtf8 {
        at: e.valid_up_to() as u32,
    }
}

/// Reads a text of one list that is UTF-8.
fn read_one<'t>(alloc: Global, text: &'t [u8]) -> Result<Doc<'t>, TextError>
    requires fits { IsReadable text.now }
    requires utf8 { IsUtf8 text.now }
    ensures spelled { IfOk result (λ doc. Spells text.now (root_of doc)) }
    ensures levels { IfOk result (λ doc. levels (root_of doc) ≤ 64) }
    ensures err { IfErr result (λ e. (e ≡ TextError.OutOfMemory)
        ⊎ (whole_fault true (sign_of text.now) (length text.now) ≡ Some e)) }
{
    let start = list_start(text)?;
    let mut arena = Arena::with_reserved(alloc, about_cells(text))?;
    let close = read_forest(text, start + 1, true, &mut arena)?;
    if close == text.len() {
        return Err(TextError::EndInside { at: close as u32 });
    }
    check_rest(text, close + 1)?;
    Ok(Doc {
        text,
        span: Span {
            at: start as u32,
            end: close as u32 + 1,
        },
        cells: arena.cells,
    })
}

/// Reads a text of one list, with only space around it.
pub fn parse_one<'t>(alloc: Global, text: &'t [u8]) -> Result<Doc<'t>, TextError>
    requires { IsReadable text.now }
    // What is read is what the text spells, and nothing else is spelled.
    ensures spelled { IfOk result (λ doc. Spells text.now (root_of doc)) }
    ensures levels { IfOk result (λ doc. levels (root_of doc) ≤ 64) }
    ensures only { IfOk result (λ doc. (tree : Tree) → Spells text.now tree → tree ≡ root_of doc) }
    // A text that is refused spells no tree of at most 64 levels.
    ensures unspelled { IfErr result (λ e. (e ≡ TextError.OutOfMemory)
        ⊎ ((tree : Tree) → Spells text.now tree → levels tree ≤ 64 → ⊥)) }
    // Unless memory runs out, which refusal it is, if it is one, and its place.
    ensures exact { MatchResult result (λ _. refusal_of_one text.now ≡ None)
        (λ e. (e ≡ TextError.OutOfMemory) ⊎ (refusal_of_one text.now ≡ Some e)) }
{
    match from_utf8(text) {
        Ok(_) => read_one(alloc, text),
        Err(e) => Err(not_utf8(&e)),
    }
}

/// Reads a text of any number of forms that is UTF-8.
fn read_all<'t>(alloc: Global, text: &'t [u8]) -> Result<Doc<'t>, TextError>
    requires fits { IsReadable text.now }
    requires utf8 { IsUtf8 text.now }
    ensures spelled { IfOk result (λ doc. SpellsAll text.now (root_of doc)) }
    ensures levels { IfOk result (λ doc. levels (root_of doc) ≤ 65) }
    ensures err { IfErr result (λ e. (e ≡ TextError.OutOfMemory)
        ⊎ (whole_fault false (shown text.now) (length text.now) ≡ Some e)) }
{
    let mut arena = Arena::with_reserved(alloc, about_cells(text))?;
    let stop = read_forest(text, 0, false, &mut arena)?;
    if stop != text.len() {
        return Err(TextError::CloseWithoutOpen { at: stop as u32 });
    }
    Ok(Doc {
        text,
        span: Span {
            at: 0,
            end: stop as u32,
        },
        cells: arena.cells,
    })
}

/// Reads a text of any number of forms, with comment lines among them. The root is the list of all forms. It never
/// answers `ExtraText` or `EmptyText`.
pub fn parse_all<'t>(alloc: Global, text: &'t [u8]) -> Result<Doc<'t>, TextError>
    requires { IsReadable text.now }
    // What is read is what the text spells, and nothing else is spelled.
    ensures spelled { IfOk result (λ doc. SpellsAll text.now (root_of doc)) }
    ensures levels { IfOk result (λ doc. levels (root_of doc) ≤ 65) }
    ensures only { IfOk result
        (λ doc. (tree : Tree) → SpellsAll text.now tree → tree ≡ root_of doc) }
    // A text that is refused spells no forms of at most 64 levels.
    ensures unspelled { IfErr result (λ e. (e ≡ TextError.OutOfMemory)
        ⊎ ((tree : Tree) → SpellsAll text.now tree → levels tree ≤ 65 → ⊥)) }
    // Unless memory runs out, which refusal it is, if it is one, and its place.
    ensures exact { MatchResult result (λ _. refusal_of_all text.now ≡ None)
        (λ e. (e ≡ TextError.OutOfMemory) ⊎ (refusal_of_all text.now ≡ Some e)) }
    ensures of_forms { IfErr result IsOfForms }
{
    match from_utf8(text) {
        Ok(_) => read_all(alloc, text),
        Err(e) => Err(not_utf8(&e)),
    }
}
