//! Makes single calls, to measure them beside the plain programs of `bench/` or to attack them. The
//! first word names what is called; `README.md` says what each takes and prints.
#![tactic(auto)]

mod again;
mod draws;
mod keys;
mod lengths;
mod rows;
mod widest;

use anyhow::{Context, Result, bail};
use olr_map::{In, read_map, read_map_with_bans};
use olr_road::Map;
use std::{env, fs};

/// What the words may be.
const USAGE: &str =
    "lengths NODES LINES LIMIT [BANS], rows, keys DEPTH ROUNDS, or again NODES LINES REFERENCE";

/// Why a call gave nothing.
const NO_MEMORY: &str = "no memory is left";

/// Why the key after another one isn't asked for.
const NO_MATCHING: &str = "not the key of a matching";

/// Reads the map of two files, or of three.
fn read_files(rt: &HostRuntime, nodes: &str, lines: &str, bans: Option<&String>) -> Result<Map> {
    let mut nodes = In::new(fs::open(rt, nodes).context("NODES")?);
    let mut lines = In::new(fs::open(rt, lines).context("LINES")?);
    let Some(bans) = bans else {
        return Ok(read_map(rt.alloc(), &mut nodes, &mut lines)?);
    };
    let mut bans = In::new(fs::open(rt, bans).context("BANS")?);
    Ok(read_map_with_bans(rt.alloc(), &mut nodes, &mut lines, &mut bans)?)
}

fn main(rt: HostRuntime) -> Result<()> {
    let words = env::args(&rt)?.skip(1).collect::<Vec<String>>(rt.alloc())?;
    let Some((call, words)) = words.split_first() else {
        bail!("{USAGE}");
    };
    match (call.as_str(), words) {
        ("lengths", [nodes, lines, limit, bans @ ..]) if bans.len() <= 1 => {
            let map = read_files(&rt, nodes, lines, bans.first())?;
            lengths::print(&rt, &map, limit.parse::<u64>()?)
        }
        ("rows", []) => rows::print(&rt),
        ("keys", [depth, rounds]) => keys::print(
            &rt,
            depth.parse::<u32>()?,
            rounds.parse::<u32>()?,
        ),
        ("again", [nodes, lines, reference]) => {
            again::print(&rt, &read_files(&rt, nodes, lines, None)?, reference)
        }
        _ => bail!("{USAGE}"),
    }
}
