//! The reference of the workload language: its blocks, as the page itself says how they are to be read.

use crate::blocks::{Block, blocks};
use crate::compared::Compared;
use crate::counts::Counts;
use crate::trial::{Wanted, refuses, words_of, writes};
use anyhow::{Context, Result};
use std::alloc::{AllocError, Global};
use std::collections::BTreeMap;
use std::sync::Wait;
use std::thread::Threads;

/// The last word of a block that has only some of the lines that are written.
const HAS: &str = "has";

/// The workloads of a page so far, by name.
type Workloads = BTreeMap<String, String>;

/// The text, with its last line standing so many times.
fn repeated(alloc: Global, text: &str, times: u32) -> Result<String, AllocError> {
    let mut whole = String::from_str(alloc, text)?;
    let last = text.lines().last().unwrap_or("");
    for _ in 1..times {
        whole.push_str(last)?;
        whole.push('\n')?;
    }
    Ok(whole)
}

/// Adds the workload of a block whose words are `workload`, its name, and maybe `times` and a number.
fn add_workload(alloc: Global, block: &Block, workloads: &mut Workloads) -> Result<()> {
    let mut words = block.info.split_whitespace().skip(1);
    let name = words.next().context("a workload has no name")?;
    let times = match words.nth(1) {
        Some(times) => times.parse::<u32>()?,
        None => 1,
    };
    let text = repeated(alloc, block.text.as_str(), times)?;
    workloads.insert(String::from_str(alloc, name)?, text)?;
    Ok(())
}

/// Whether the program writes what the block says: at the block's words, but for the name of a workload, which it then
/// reads, and for `has`.
fn check_output<R: Threads + Wait + Sync + Eprint + AllocGlobal>(
    rt: &R,
    page: &str,
    block: &Block,
    workloads: &Workloads,
) -> Result<bool> {
    let mut words = words_of(rt.alloc(), block.info.as_str())?;
    let compared = match words.last() {
        Some(word) if word.as_str() == HAS => Compared::InOrder,
        _ => Compared::Whole,
    };
    let input = words.iter().find_map(|word| workloads.get(word));
    let input = input.map_or("", |text| text.as_str());
    words.retain(|word| word.as_str() != HAS && !workloads.contains_key(word));
    let wanted = Wanted {
        page,
        line: block.line.saturating_add(1),
        text: block.text.as_str(),
        compared,
    };
    writes(rt, &words, input, wanted)
}

/// Whether each line of the block has words that are none of the program's.
fn check_usage<R: Threads + Wait + Sync + Eprint + AllocGlobal>(
    rt: &R,
    page: &str,
    block: &Block,
) -> Result<bool> {
    let mut all = true;
    for (line, text) in (block.line..).skip(1).zip(block.text.lines()) {
        let words = words_of(rt.alloc(), text)?;
        all &= refuses(rt, &words, page, line)?;
    }
    Ok(all)
}

/// Compares each block of the page, drawings apart, with what the program writes, and prints where they differ.
pub fn check_page<R: Threads + Wait + Sync + Eprint + AllocGlobal>(
    rt: &R,
    name: &str,
    page: &str,
) -> Result<Counts> {
    let mut counts = Counts::new();
    let mut workloads = BTreeMap::new(rt.alloc());
    for block in blocks(rt.alloc(), page)? {
        match block.info.split_whitespace().next() {
            Some("workload") => add_workload(rt.alloc(), &block, &mut workloads)?,
            Some("text") => {}
            Some("usage") => counts.add(check_usage(rt, name, &block)?),
            _ => counts.add(check_output(rt, name, &block, &workloads)?),
        }
    }
    Ok(counts)
}
