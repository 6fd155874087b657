//! The lines of notes: what is read but not checked.

ghost use Rattle.std.specs.Prelude.{◌≡◌, ◌++◌, []};
ghost use Rattle.std.specs.Option.{option_copied};
ghost use Rattle.drc_io.specs.Sinks.{Wrote};
ghost use Rattle.rule_text.specs.RuleValues.{plain_note, plain_rules};
ghost use Rattle.drc_rows.specs.Buffer.{Buffered, named};
ghost use Rattle.drc_rows.specs.NoteLines.{about_text, told_text, note_text, note_line, reference_in, reference_of, item_lines};
ghost use Rattle.drc_rows.specs.NoteLines.{rule_name, constraint_line, constraint_lines, note_lines, note_count};

use crate::buffer::ReportBuffer;
use crate::pieces::push_quoted;
use board_items::{About, Board, Item, What};
use drc_io::{Failed, Sink};
use rule_text::{RuleNote, Rules};

/// The reference that a footprint has.
fn reference_in(item: &Item) -> &[u8]
    ensures { result.now ≡ reference_in item.now.what }
{
    match &item.what {
        What::Body { reference, .. } => reference.get().bytes(),
        _ => b"",
    }
}

/// The reference of the footprint, or the empty text where there is no footprint.
fn reference_of(body: Option<&Item>) -> &[u8]
    ensures { result.now ≡ reference_of (option_copied body.entry) }
{
    match body {
        Some(body) => reference_in(body),
        None => b"",
    }
}

/// Puts a text, and then a word and a name, into the buffer.
fn push_words<W: Sink>(
    buffer: &mut ReportBuffer,
    out: &mut W,
    before: &[u8],
    word: &[u8],
    name: &[u8],
) -> Result<(), Failed>
    ensures { Buffered W.written W.faults out.old out.new buffer.old
        (before.now ++ named word.now name.now) buffer.new result }
{
    buffer.push(out, before)?;
    push_quoted(buffer, out, word, name)
}

/// Puts into the buffer whose courtyard is not checked, and on which layer.
fn push_courtyard<W: Sink>(
    buffer: &mut ReportBuffer,
    out: &mut W,
    layer: &[u8],
    reference: &[u8],
) -> Result<(), Failed>
    ensures { Buffered W.written W.faults out.old out.new buffer.old
        (about_text About.Courtyard layer.now [] reference.now) buffer.new result }
{
    buffer.push(out, b"courtyard ")?;
    push_words(buffer, out, layer, b" of", reference)
}

/// What a note speaks of, with the names that its line may need.
#[derive(Clone, Copy)]
struct Told<'a> {
    about: About,
    layer: &'a [u8],
    name: &'a [u8],
    reference: &'a [u8],
}

/// Puts into the buffer what is not checked.
fn push_about<W: Sink>(buffer: &mut ReportBuffer, out: &mut W, told: Told<'_>) -> Result<(), Failed>
    ensures { Buffered W.written W.faults out.old out.new buffer.old
        (about_text told.entry.about told.entry.layer.now told.entry.name.now
        told.entry.reference.now)
        buffer.new result }
{
    match told.about {
        About::Text => push_words(buffer, out, b"text on ", told.layer, told.name),
        About::Dimension => push_words(buffer, out, b"dimension on ", told.layer, told.name),
        About::Courtyard => push_courtyard(buffer, out, told.layer, told.reference),
        About::FootZone => push_quoted(buffer, out, b"zone of", told.reference),
    }
}

/// Puts the line of a note into the buffer.
fn push_note<W: Sink>(buffer: &mut ReportBuffer, out: &mut W, told: Told<'_>) -> Result<(), Failed>
    ensures { Buffered W.written W.faults out.old out.new buffer.old
        (told_text told.entry.about told.entry.layer.now told.entry.name.now
        told.entry.reference.now)
        buffer.new result }
{
    buffer.push(out, b"not checked: ")?;
    push_about(buffer, out, told)?;
    buffer.push(out, b"\n")
}

/// Puts the line of an item into the buffer, which it has where it is a note, with the reference of its footprint.
fn push_note_of<W: Sink>(
    buffer: &mut ReportBuffer,
    out: &mut W,
    item: &Item,
    reference: &[u8],
) -> Result<(), Failed>
    ensures { Buffered W.written W.faults out.old out.new buffer.old
        (note_text item.now.name item.now.what reference.now) buffer.new result }
{
    match &item.what {
        What::Note { about, layer } => push_note(
            buffer,
            out,
            Told {
                about: *about,
                layer: layer.get().bytes(),
                name: item.name.bytes(),
                reference,
            },
        ),
        _ => Ok(()),
    }
}

/// Puts the line of the note of an id into the buffer.
fn push_note_at<W: Sink>(
    buffer: &mut ReportBuffer,
    out: &mut W,
    board: &Board,
    id: u32,
) -> Result<(), Failed>
    ensures { Buffered W.written W.faults out.old out.new buffer.old
        (note_line board.now id) buffer.new result }
{
    let reference = reference_of(board.body_of(id));
    match board.get(id) {
        Some(item) => push_note_of(buffer, out, item, reference),
        None => Ok(()),
    }
}

/// Puts the lines of all notes of a board into the buffer, by id.
#[tactic(auto, unfolding(crate::specs::NoteLines::item_lines))]
fn push_items<W: Sink>(buffer: &mut ReportBuffer, out: &mut W, board: &Board) -> Result<(), Failed>
    ensures { Buffered W.written W.faults out.old out.new buffer.old
        (item_lines board.now) buffer.new result }
{
    let notes = board.notes();
    for note in notes {
        push_note_at(buffer, out, board, *note)?;
    }
    Ok(())
}

/// The name of a rule, by its number.
fn rule_name(rules: &Rules, number: u32) -> &[u8]
    ensures { result.now ≡ rule_name (plain_rules rules.now) number }
{
    match rules.rules.as_slice().get(number as usize) {
        Some(rule) => rule.name.bytes(),
        None => b"",
    }
}

/// Puts the line of a constraint into the buffer.
fn push_constraint<W: Sink>(
    buffer: &mut ReportBuffer,
    out: &mut W,
    rules: &Rules,
    note: &RuleNote,
) -> Result<(), Failed>
    ensures { Buffered W.written W.faults out.old out.new buffer.old
        (constraint_line (plain_rules rules.now) (plain_note note.now)) buffer.new result }
{
    let rule = rule_name(rules, note.rule);
    buffer.push(out, b"not checked: constraint ")?;
    push_words(buffer, out, note.constraint.bytes(), b" of rule", rule)?;
    buffer.push(out, b"\n")
}

/// Puts the lines of all constraints whose name is that of no kind into the buffer.
fn push_constraints<W: Sink>(
    buffer: &mut ReportBuffer,
    out: &mut W,
    rules: &Rules,
) -> Result<(), Failed>
    ensures { Buffered W.written W.faults out.old out.new buffer.old
        (constraint_lines (plain_rules rules.now)) buffer.new result }
{
    let notes = rules.notes.as_slice();
    for note in notes {
        push_constraint(buffer, out, rules, note)?;
    }
    Ok(())
}

/// Puts the lines of all notes into the buffer: those of the board, by id, and then those of its rules, in their
/// order. `Failed` comes only where the sink's count of faults rose, and then a prefix of what the buffer held
/// and of these lines was written. It takes no memory.
pub fn push_notes<W: Sink>(
    buffer: &mut ReportBuffer,
    out: &mut W,
    board: &Board,
    rules: &Rules,
) -> Result<(), Failed>
    ensures { Buffered W.written W.faults out.old out.new buffer.old
        (note_lines board.now (plain_rules rules.now)) buffer.new result }
{
    push_items(buffer, out, board)?;
    push_constraints(buffer, out, rules)
}

/// Writes the lines of all notes: those of the board, by id, and then those of its rules, in their order. `Failed`
/// comes only where the sink's count of faults rose, and then a prefix of the lines was written. It takes no
/// memory.
pub fn write_notes<W: Sink>(board: &Board, rules: &Rules, out: &mut W) -> Result<(), Failed>
    ensures { Wrote W.written W.faults out.old out.new
        (note_lines board.now (plain_rules rules.now)) result }
{
    let mut buffer = ReportBuffer::new();
    push_notes(&mut buffer, out, board, rules)?;
    buffer.end(out)
}

/// How many notes there are: as many as `write_notes` writes lines.
#[tactic(auto, unfolding(crate::specs::NoteLines::item_count))]
pub fn count_notes(board: &Board, rules: &Rules) -> u64
    ensures { result ≡ note_count board.now (plain_rules rules.now) }
{
    board.notes().len() as u64 + rules.notes.as_slice().len() as u64
}
