//! The buffer of a report: its lines are put together on the stack, and go out in as few writes as their
//! length asks for.

ghost use Rattle.std.specs.Prelude.{◌≡◌, ◌≤◌, ◌+◌, ◌++◌, ℕ, List, [], length, take, unsigned_abs, IfOk};
ghost use Rattle.exact_dec.specs.MillimetreText.{mm_text};
ghost use Rattle.drc_io.specs.Sinks.{Wrote};
ghost use Rattle.drc_rows.specs.Buffer.{Buffered};

use crate::digits::{SHORT, place, place_short};
use crate::millimetres::Millimetres;
use drc_io::{Failed, Sink, put_all};
use exact_dec::Nm;
use std::marker::Model;

/// How many bytes there is room for. What is longer goes out in several writes.
const ROOM: usize = 8192;

/// What was put together of a report and has not gone out yet, at most 8,192 bytes. Contracts see it as the
/// list of these bytes; `Puts` of `specs/Buffer` says what goes out and what stays where more is put in. A report
/// is put into one buffer, which `end` lets go out.
#[derive(Drop)]
pub struct ReportBuffer {
    bytes: [u8; ROOM],
    len: usize,
}

impl Model for ReportBuffer {
    ghost Value = { List ℕ };

    ghost view = { λ l. take l.len l.bytes };

    ghost invariant = { λ l. l.len ≤ 8192 };
}

impl ReportBuffer {
    /// An empty buffer.
    pub fn new() -> ReportBuffer
        ensures { result ≡ [] }
    {
        ReportBuffer {
            bytes: [0; ROOM],
            len: 0,
        }
    }

    /// Lets all that is pending go out.
    #[cold]
    #[inline(never)]
    fn flush<W: Sink>(&mut self, out: &mut W) -> Result<(), Failed>
        ensures puts { Buffered W.written W.faults out.old out.new self.old [] self.new result }
        ensures empty { IfOk result (λ _. self.new ≡ []) }
    {
        put_all(out, &self.bytes[..self.len])?;
        self.len = 0;
        Ok(())
    }

    /// Makes room for so many bytes: where there is none, what is pending goes out.
    #[inline(always)]
    pub(crate) fn reserve_bytes<W: Sink>(&mut self, out: &mut W, count: usize) -> Result<(), Failed>
        requires { count ≤ 8192 }
        ensures puts { Buffered W.written W.faults out.old out.new self.old [] self.new result }
        ensures capacity { IfOk result (λ _. length self.new + count ≤ 8192) }
    {
        if count > ROOM - self.len {
            self.flush(out)?;
        }
        Ok(())
    }

    /// Puts a piece at the end, where there is room for it.
    #[inline(always)]
    pub(crate) fn append(&mut self, piece: &[u8])
        requires { length self.old + length piece.now ≤ 8192 }
        ensures { self.new ≡ self.old ++ piece.now }
    {
        self.len = place(&mut self.bytes, self.len, piece);
    }

    /// Puts a length in millimetres at the end, where there is room for 16 bytes.
    pub(crate) fn append_length(&mut self, nm: Nm)
        requires far { unsigned_abs nm ≤ 1000000000000 }
        requires capacity { length self.old + 16 ≤ 8192 }
        ensures text { self.new ≡ self.old ++ mm_text nm }
        ensures len { length self.new ≤ length self.old + 16 }
    {
        if nm.unsigned_abs() < SHORT {
            self.len = place_short(&mut self.bytes, self.len, nm);
        } else {
            self.append_long(nm);
        }
    }

    /// Puts a length of 1000 mm or more in millimetres at the end, where there is room for 16 bytes. Boards have
    /// no such length.
    #[cold]
    #[inline(never)]
    fn append_long(&mut self, nm: Nm)
        requires far { unsigned_abs nm ≤ 1000000000000 }
        requires capacity { length self.old + 16 ≤ 8192 }
        ensures text { self.new ≡ self.old ++ mm_text nm }
        ensures len { length self.new ≤ length self.old + 16 }
    {
        self.append(Millimetres::of(nm).as_bytes());
    }

    /// Puts a piece at the end. Where there is no room, what came before it goes out first. `Failed` comes only where
    /// the sink's count of faults rose, and then a prefix of what the buffer held and of the piece was written.
    #[inline(always)]
    pub fn push<W: Sink>(&mut self, out: &mut W, piece: &[u8]) -> Result<(), Failed>
        ensures { Buffered W.written W.faults out.old out.new self.old piece.now self.new result }
    {
        if piece.len() > ROOM - self.len {
            return self.push_over(out, piece);
        }
        self.append(piece);
        Ok(())
    }

    /// Puts a piece for which there is no room: what is pending goes out, and of the piece as many bytes as fill
    /// the room some times over. The rest of it is kept.
    #[cold]
    #[inline(never)]
    fn push_over<W: Sink>(&mut self, out: &mut W, piece: &[u8]) -> Result<(), Failed>
        ensures { Buffered W.written W.faults out.old out.new self.old piece.now self.new result }
    {
        self.flush(out)?;
        let (rooms, rest) = piece.split_at(piece.len() - piece.len() % ROOM);
        put_all(out, rooms)?;
        self.append(rest);
        Ok(())
    }

    /// Lets all that is left go out. `Failed` comes only where the sink's count of faults rose, and then a prefix of it was written.
    pub fn end<W: Sink>(self, out: &mut W) -> Result<(), Failed>
        ensures { Wrote W.written W.faults out.old out.new self result }
    {
        put_all(out, &self.bytes[..self.len])
    }
}
