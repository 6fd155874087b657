//! Calls on decimals.

use case_lines::{Fault, first_word, number, text_of, told};
use exact_dec::{DecError, count_of, mm_cut, mm_near, ratio_near, with_unit, write_mm};
use std::alloc::Global;

/// What a call answers: the number, or why there is none, by its name and its number.
fn shown(alloc: Global, answer: Result<i64, DecError>) -> Result<Vec<u8>, Fault> {
    match answer {
        Ok(number) => told(alloc, &number),
        Err(error) => {
            let number = error as u8;
            Ok(format!(in alloc; "{error:?} ({number})")?.into_bytes())
        }
    }
}

/// The ratio in a text times a length in nanometres, where both are written.
fn ratio(alloc: Global, written: &str) -> Result<Vec<u8>, Fault> {
    let (of, text) = first_word(written);
    let of = number(of)?;
    if of < 0 || 500_000_000 < of {
        return Err(Fault::BadNumber);
    }
    shown(alloc, ratio_near(&text_of(alloc, text)?, of))
}

/// A number of nanometres as it is written.
fn written_out(alloc: Global, length: &str) -> Result<Vec<u8>, Fault> {
    let length = number(length)?;
    if length.unsigned_abs() > 1_000_000_000_000 {
        return Err(Fault::BadNumber);
    }
    let mut out = [0u8; 16];
    let end = write_mm(length, &mut out);
    Ok(out[..end].to_vec(alloc)?)
}

/// The answer of the call of this name.
pub fn answer(alloc: Global, name: &str, written: &str) -> Result<Vec<u8>, Fault> {
    if name == "ratio_near" {
        return ratio(alloc, written);
    }
    if name == "write_mm" {
        return written_out(alloc, written);
    }
    let text = text_of(alloc, written)?;
    match name {
        "mm_cut" => shown(alloc, mm_cut(&text)),
        "mm_near" => shown(alloc, mm_near(&text)),
        "with_unit" => shown(alloc, with_unit(&text)),
        "count_of" => shown(alloc, count_of(&text).map(i64::from)),
        _ => Err(Fault::UnknownCall),
    }
}
