// Times what the program does, part by part.
//
// It asks of segments and of fills of copper whether they are apart, and whether they are within a
// distance: pairs of segments that lie far from each other, side by side, and across each other; a
// fill, and vias and tracks in and about it; a fill, and many vias in it; and two fills. With a kind
// and a number it makes so many rounds of the pairs, or a fill of so many corners. Each line ends with
// how many of the answers were yes, where those to the second question count twice; of gaps it ends
// with their sum.
//
// It also reads a file, and prints how many bytes it has and how many parts its root. With `plain FILE`
// it adds the file's bytes up, with `sexpr FILE` it reads the file as one S-expression, and with
// `json FILE` as JSON. With `board FILE` it reads the file as a board, whose items it counts; with
// `facts`, `index`, `rows`, `groups` and `links` it goes on to that phase of a run.
//
// Without words it does a little of each.
#![tactic(auto)]

mod fills;
mod pads;
mod pairs;
mod phases;
mod plane;
mod texts;

use pairs::PairKind;
use std::alloc::Global;
use std::env;
use std::io::Print;

/// None where no kind is called so.
fn count(alloc: Global, name: &str, number: u32) -> anyhow::Result<Option<u64>> {
    if let Some(kind) = PairKind::named(name) {
        return Ok(Some(pairs::count(alloc, kind, number)?));
    }
    match name {
        "pads" => Ok(Some(pads::count(alloc, number)?)),
        "fill" => Ok(Some(fills::fill(alloc, number)?)),
        "fills" => Ok(Some(fills::fills(alloc, number)?)),
        "vias" => Ok(Some(fills::vias(alloc, number)?)),
        "gaps" => Ok(Some(fills::gaps(alloc, number)?)),
        "combs" => Ok(Some(fills::combs(alloc, number)?)),
        _ => Ok(None),
    }
}

fn run(rt: &impl Print, alloc: Global, name: &str, number: u32) -> anyhow::Result<()> {
    match count(alloc, name, number)? {
        Some(count) => println!(rt; "{name} {number}: {count}")?,
        None => println!(rt;
            "far, near, crossing or pads, and a number of rounds; fill, vias, gaps, fills or combs, and of corners"
        )?,
    }
    Ok(())
}

/// A little of each kind.
fn stored<R: Print + AllocGlobal>(rt: &R) -> anyhow::Result<()> {
    let alloc = rt.alloc();
    run(rt, alloc, "far", 3)?;
    run(rt, alloc, "near", 3)?;
    run(rt, alloc, "crossing", 3)?;
    run(rt, alloc, "pads", 3)?;
    run(rt, alloc, "fill", 1600)?;
    run(rt, alloc, "fills", 1600)?;
    run(rt, alloc, "vias", 1600)?;
    run(rt, alloc, "gaps", 1600)?;
    run(rt, alloc, "combs", 1600)?;
    texts::stored(rt)
}

fn main(rt: HostRuntime) -> anyhow::Result<()> {
    let mut words = env::args(&rt)?.skip(1);
    let (Some(name), Some(number)) = (words.next(), words.next()) else {
        return stored(&rt);
    };
    if texts::read(&rt, name.as_str(), number.as_str())? {
        return Ok(());
    }
    run(&rt, rt.alloc(), &name, number.parse()?)
}
