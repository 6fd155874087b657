//! Texts that are read, and boards that are taken through the phases of a run.

use crate::phases::{Phase, found};
use sexpr_read::parse_one;
use std::alloc::Global;
use std::fs;
use std::io::Print;
use std::rt::Runtime;

/// The most bytes of a text.
pub(crate) const LIMIT: usize = 33_554_432;

/// The bytes, each added to the sum so far times 31.
fn checksum(text: &[u8]) -> u64 {
    let mut sum = 0u64;
    for byte in text {
        sum = sum.wrapping_mul(31).wrapping_add(u64::from(*byte));
    }
    sum
}

/// How many parts the one list of the text has.
fn parts(alloc: Global, text: &[u8]) -> Option<u64> {
    if text.len() > LIMIT {
        return None;
    }
    let doc = parse_one(alloc, text).ok()?;
    let mut count = 0u64;
    for _ in doc.root().children() {
        count = count.wrapping_add(1);
    }
    Some(count)
}

/// How many items the list of the JSON text has.
fn items(alloc: Global, text: &[u8]) -> Option<u64> {
    if text.len() > LIMIT {
        return None;
    }
    let json = json_exact::parse(alloc, text).ok()?;
    let mut count = 0u64;
    for _ in json.root().items() {
        count = count.wrapping_add(1);
    }
    Some(count)
}

fn show(rt: &impl Print, kind: &str, bytes: usize, number: Option<u64>) -> anyhow::Result<()> {
    match number {
        Some(number) => println!(rt; "{kind} {bytes}: {number}")?,
        None => println!(rt; "{kind} {bytes}: refused")?,
    }
    Ok(())
}

/// The phases of a run behind that of facts.
fn show_phases<R: Print + AllocGlobal>(rt: &R, text: &[u8]) -> anyhow::Result<()> {
    for name in ["index", "rows", "groups", "links"] {
        if let Some(phase) = Phase::named(name) {
            show(rt, name, text.len(), found(rt.alloc(), text, phase))?;
        }
    }
    Ok(())
}

/// Reads small texts of its own a few times.
pub(crate) fn stored<R: Print + AllocGlobal>(rt: &R) -> anyhow::Result<()> {
    let text = b"(kicad_pcb (version 20221018) (net 0 \"\") (net 1 \"N1\"))";
    show(rt, "plain", text.len(), Some(checksum(text)))?;
    for _ in 0..3 {
        show(rt, "sexpr", text.len(), parts(rt.alloc(), text))?;
    }
    show(rt, "sexpr", 4, parts(rt.alloc(), b"(()x"))?;
    let track =
        b"(kicad_pcb (version 20221018) (layers (0 F.Cu signal)) (segment (start 1 2) (end 3 4) (width 0.2) (layer F.Cu)))";
    show(
        rt,
        "board",
        track.len(),
        found(rt.alloc(), track, Phase::Board),
    )?;
    show(
        rt,
        "board",
        text.len(),
        found(rt.alloc(), text, Phase::Board),
    )?;
    show(
        rt,
        "facts",
        track.len(),
        found(rt.alloc(), track, Phase::Facts),
    )?;
    let pieces =
        b"(kicad_pcb (version 20221018) (layers (0 F.Cu signal)) (net 0 \"\") (net 1 A) (segment (start 1 2) (end 3 2) (width 0.2) (layer F.Cu) (net 1)) (segment (start 6 2) (end 7 2) (width 0.2) (layer F.Cu) (net 1)))";
    show_phases(rt, pieces)?;
    show(rt, "json", 15, items(rt.alloc(), b"[1, {}, \"a\", 2]"))?;
    show(rt, "json", 3, items(rt.alloc(), b"[1,"))
}

/// Reads the file of this path as what this kind says, where there is such a kind.
pub(crate) fn read<R: Runtime + Print + AllocGlobal>(
    rt: &R,
    kind: &str,
    path: &str,
) -> anyhow::Result<bool> {
    let phase = Phase::named(kind);
    if phase.is_none() && kind != "plain" && kind != "sexpr" && kind != "json" {
        return Ok(false);
    }
    let text = fs::read(rt, path)?;
    let number = match phase {
        Some(phase) => found(rt.alloc(), &text, phase),
        None => match kind {
            "sexpr" => parts(rt.alloc(), &text),
            "json" => items(rt.alloc(), &text),
            _ => Some(checksum(&text)),
        },
    };
    show(rt, kind, text.len(), number)?;
    Ok(true)
}
