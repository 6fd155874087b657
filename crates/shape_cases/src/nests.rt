//! Calls on anchors and links, in nanometres.
//!
//! `|` stands between the parts of a call, and spaces between the numbers of a part. An anchor has five: its id, its number,
//! its group, x and y. A link has three: the places of its two anchors in the list, from 0, and the square of its length.

ghost use Rattle.std.specs.Prelude.{◌<◌, ◌^◌, length, IsTrue};
ghost use Rattle.ratsnest.specs.NestOf.{AnchorsRise, GroupsOccur};

use case_lines::{Fault, add, parts_of, small, told};
use ratsnest::{Anchor, Link, Links, Nest, check_nest, have_nest, nest};
use std::alloc::Global;

/// The anchors and links that are written.
#[derive(Drop)]
struct Given {
    anchors: Vec<Anchor>,
    links: Vec<Link>,
}

fn anchor(part: &[i64]) -> Result<Anchor, Fault> {
    let [id, number, group, x, y] = part else {
        return Err(Fault::BadNumber);
    };
    let (x, y) = (*x, *y);
    if x.unsigned_abs() > 500_000_000 || y.unsigned_abs() > 500_000_000 {
        return Err(Fault::BadNumber);
    }
    Ok(Anchor {
        id: small(*id)?,
        number: small(*number)?,
        group: small(*group)?,
        x,
        y,
    })
}

fn link(part: &[i64]) -> Result<Link, Fault> {
    let [first, second, square] = part else {
        return Err(Fault::BadNumber);
    };
    Ok(Link {
        first: small(*first)?,
        second: small(*second)?,
        square: square.unsigned_abs(),
    })
}

impl Given {
    /// Adds the anchor or the link of a part.
    fn add(&mut self, part: &[i64]) -> Result<(), Fault> {
        if part.is_empty() {
            return Ok(());
        }
        if part.len() == 3 {
            self.links.push(link(part)?)?;
        } else {
            self.anchors.push(anchor(part)?)?;
        }
        Ok(())
    }
}

fn all_given(alloc: Global, written: &str) -> Result<Given, Fault> {
    let mut given = Given {
        anchors: Vec::new(alloc),
        links: Vec::new(alloc),
    };
    for part in &parts_of(alloc, written)? {
        given.add(part)?;
    }
    Ok(given)
}

/// The links as they are written in a call.
fn shown(alloc: Global, links: &[Link]) -> Result<Vec<u8>, Fault> {
    if links.is_empty() {
        return Ok(b"none".to_vec(alloc)?);
    }
    let mut out = Vec::new(alloc);
    let mut between: &[u8] = b"";
    for link in links {
        let Link {
            first,
            second,
            square,
        } = *link;
        add(&mut out, between)?;
        add(
            &mut out,
            format!(in alloc; "{first} {second} {square}")?.as_bytes(),
        )?;
        between = b" | ";
    }
    Ok(out)
}

fn is_list(anchors: &[Anchor]) -> bool
    ensures rise { IsTrue result → AnchorsRise anchors.now }
    ensures occur { IsTrue result → GroupsOccur anchors.now }
    ensures few { IsTrue result → length anchors.now < 2 ^ 32 }
{
    anchors.len() <= 1_000_000 && have_nest(anchors)
}

/// What the call of this name answers.
fn asked(
    alloc: Global,
    name: &str,
    anchors: &[Anchor],
    links: Vec<Link>,
) -> Result<Vec<u8>, Fault> {
    if !is_list(anchors) {
        return Err(Fault::NotTaken);
    }
    if name == "nest" {
        return shown(alloc, nest(alloc, anchors)?.links.as_slice());
    }
    let links = Nest {
        links: Links::of(links),
    };
    told(alloc, &check_nest(alloc, anchors, &links)?)
}

/// The nest of the anchors, or whether the links are those of their nest.
pub fn answer(alloc: Global, name: &str, written: &str) -> Result<Vec<u8>, Fault> {
    let Given { anchors, links } = all_given(alloc, written)?;
    asked(alloc, name, &anchors, links)
}
