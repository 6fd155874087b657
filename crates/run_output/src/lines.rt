//! Lines that stand in the place of reports.

ghost use Rattle.std.specs.Prelude.{◌≡◌, ◌++◌};
ghost use Rattle.drc_io.specs.Sinks.{Wrote};
ghost use Rattle.run_texts.specs.NamedTexts.{reason_text};
ghost use Rattle.run_texts.specs.RunFindings.{plus_text, digits_text, reason_in, why_of};
ghost use Rattle.run_output.specs.Output.{refusal, cannot_read};
ghost use Rattle.run_output.specs.Reports.{why_edit, why_step, step_told};
ghost use Rattle.run_output.specs.Reports.{refused_behind, refused_line, refused_trial};
ghost use Rattle.run_output.specs.Lines.{at_text, inner_behind, point_text, name_text, number_text};
ghost use Rattle.run_output.specs.Lines.{reason_told, reason_line};

use drc_io::{Failed, Sink};
use drc_rows::write_pieces;
use drc_state::EditError;
use itoa::Buffer;
use plain_types::{Cause, Causes, HasReason};
use run_texts::{Refusal, Which};
use undo_log::HistoryError;

/// Why something is refused, and where: for the line that tells it.
#[derive(Clone, Copy)]
struct Told {
    causes: Causes,
    place: Option<u32>,
    inner: Option<u32>,
}

/// Why something is refused, as its error has it.
fn told_of<E: HasReason>(error: &E) -> Told
    ensures { reason_told result ≡ E.reason_of error.now }
{
    let why = error.reason();
    Told {
        causes: why.causes(),
        place: why.place(),
        inner: why.inner_place(),
    }
}

/// Why a text is refused.
fn told_in(why: Refusal) -> Told
    ensures { reason_told result ≡ reason_in why }
{
    Told {
        causes: why.causes,
        place: Some(why.at),
        inner: why.inner,
    }
}

/// Why a step is refused: one that is a refused command is told as that command.
fn step_told(why: &HistoryError) -> Told
    ensures { reason_told result ≡ step_told why.now }
{
    match why {
        HistoryError::Edit(edit) => told_of(edit),
        _ => told_of(why),
    }
}

/// What stands before a cause that is behind another.
fn point(cause: Option<Cause>) -> &'static [u8]
    ensures { result.now ≡ point_text cause }
{
    match cause {
        Some(_) => b".",
        None => b"",
    }
}

/// The name of a cause.
fn name(cause: Option<Cause>) -> &'static [u8]
    ensures { result.now ≡ name_text cause }
{
    match cause {
        Some(cause) => cause.name.as_bytes(),
        None => b"",
    }
}

/// The digits of a cause's number.
fn number_digits(cause: Option<Cause>, digits: &mut Buffer) -> &[u8]
    ensures { result.now ≡ number_text cause }
{
    match cause {
        Some(cause) => digits.format(cause.number).as_bytes(),
        None => b"",
    }
}

/// What stands between a place and the place in a condition.
fn plus(inner: Option<u32>) -> &'static [u8]
    ensures { result.now ≡ plus_text inner }
{
    match inner {
        Some(_) => b" + ",
        None => b"",
    }
}

/// The digits of a place.
fn place_digits(place: Option<u32>, digits: &mut Buffer) -> &[u8]
    ensures { result.now ≡ digits_text place }
{
    match place {
        Some(place) => digits.format(place).as_bytes(),
        None => b"",
    }
}

/// The digits of a number.
fn digits_of(number: Option<u64>, digits: &mut Buffer) -> &[u8]
    ensures { result.now ≡ digits_text number }
{
    match number {
        Some(number) => digits.format(number).as_bytes(),
        None => b"",
    }
}

/// What stands before a place.
fn at(place: Option<u32>) -> &'static [u8]
    ensures { result.now ≡ at_text place }
{
    match place {
        Some(_) => b" at ",
        None => b"",
    }
}

/// The place in a condition of a rule, which a refusal has only where it has a place in the text.
fn inner_behind(place: Option<u32>, inner: Option<u32>) -> Option<u32>
    ensures { result ≡ inner_behind place inner }
{
    match place {
        Some(_) => inner,
        None => None,
    }
}

/// Writes a line: a text, a word, a number where there is one, a text, and why something is refused, as `NAME (NUMBER)`, behind that ` at PLACE` where there is
/// a place, and for a condition ` + PLACE`. The names have points between them, and so have the numbers.
fn write_reason<W: Sink>(
    prefix: &'static [u8],
    word: &'static [u8],
    number: Option<u64>,
    behind: &'static [u8],
    told: Told,
    out: &mut W,
) -> Result<(), Failed>
    ensures { Wrote W.written W.faults out.old out.new
        (reason_line prefix.now (word.now
        ++ digits_text number) behind.now (reason_told told)) result }
{
    let causes = told.causes;
    let inner = inner_behind(told.place, told.inner);
    let mut digits_of_number = Buffer::new();
    let mut digits = Buffer::new();
    let mut second_digits = Buffer::new();
    let mut third_digits = Buffer::new();
    let mut fourth_digits = Buffer::new();
    let mut digits_of_place = Buffer::new();
    let mut digits_of_inner = Buffer::new();
    write_pieces(
        &[
            prefix,
            word,
            digits_of(number, &mut digits_of_number),
            behind,
            causes.first.name.as_bytes(),
            point(causes.second),
            name(causes.second),
            point(causes.third),
            name(causes.third),
            point(causes.fourth),
            name(causes.fourth),
            b" (",
            digits.format(causes.first.number).as_bytes(),
            point(causes.second),
            number_digits(causes.second, &mut second_digits),
            point(causes.third),
            number_digits(causes.third, &mut third_digits),
            point(causes.fourth),
            number_digits(causes.fourth, &mut fourth_digits),
            b")",
            at(told.place),
            place_digits(told.place, &mut digits_of_place),
            plus(inner),
            place_digits(inner, &mut digits_of_inner),
            b"\n",
        ],
        out,
    )
}

/// Writes the line of a text that is refused: `refused WHICH: `, and why.
pub(crate) fn write_refusal<W: Sink>(why: Refusal, out: &mut W) -> Result<(), Failed>
    ensures { Wrote W.written W.faults out.old out.new
        (refusal why.which (why_of why)).text result }
{
    write_reason(
        b"refused ",
        why.which.word(),
        None,
        b": ",
        told_in(why),
        out,
    )
}

/// Writes `cannot read WHICH`.
pub(crate) fn write_unread<W: Sink>(which: Which, out: &mut W) -> Result<(), Failed>
    ensures { Wrote W.written W.faults out.old out.new (cannot_read which) result }
{
    write_pieces(&[b"cannot read ", which.word(), b"\n"], out)
}

/// Writes a line of a text, of `NUMBER refused: `, and of why something is refused.
fn write_refused_behind<W: Sink>(
    before: &'static [u8],
    number: u64,
    told: Told,
    out: &mut W,
) -> Result<(), Failed>
    ensures { Wrote W.written W.faults out.old out.new
        (refused_behind before.now number (reason_text (reason_told told))) result }
{
    write_reason(before, b"", Some(number), b" refused: ", told, out)
}

/// Writes the line of the command of this number, which is refused: `command NUMBER refused: `, and why.
pub fn write_refused<W: Sink>(number: u64, why: &EditError, out: &mut W) -> Result<(), Failed>
    ensures { Wrote W.written W.faults out.old out.new
        (refused_line number (why_edit why.now)) result }
{
    write_refused_behind(b"command ", number, told_of(why), out)
}

/// Writes the line of the command of this number, which is tried and refused: `trial NUMBER refused: `, and why.
pub fn write_refused_trial<W: Sink>(number: u64, why: &EditError, out: &mut W) -> Result<(), Failed>
    ensures { Wrote W.written W.faults out.old out.new
        (refused_trial number (why_edit why.now)) result }
{
    write_refused_behind(b"trial ", number, told_of(why), out)
}

/// Writes the line of the step of this number, which is refused: `command NUMBER refused: `, and why. A step that is a
/// refused command is told as that command.
pub fn write_refused_step<W: Sink>(
    number: u64,
    why: &HistoryError,
    out: &mut W,
) -> Result<(), Failed>
    ensures { Wrote W.written W.faults out.old out.new
        (refused_line number (why_step why.now)) result }
{
    write_refused_behind(b"command ", number, step_told(why), out)
}
