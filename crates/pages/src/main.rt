//! `pages` checks each example of the reference of the workload language, and each file of the examples, against the
//! program.
#![tactic(auto)]

mod blocks;
mod compared;
mod counts;
mod examples;
mod reference;
#[cfg(test)]
mod tests;
mod trial;

use anyhow::{Context, Result, ensure};
use examples::check_examples;
use reference::check_page;
use std::fs;

fn main(rt: HostRuntime) -> Result<()> {
    let alloc = rt.alloc();
    let mut words = std::env::args(&rt)?.skip(1);
    let folder = words.next().context("name the folder of the pages")?;
    let page = fs::read_to_string(&rt, format!(in alloc; "{folder}/LANGUAGE.md")?)?;
    let blocks = check_page(&rt, "LANGUAGE.md", page.as_str())?;
    let folder = format!(in alloc; "{folder}/examples")?;
    let files = check_examples(&rt, folder.as_str())?;
    ensure!(
        blocks.differ == 0 && files.differ == 0,
        "{} of {} blocks and {} of {} examples differ",
        blocks.differ,
        blocks.compared,
        files.differ,
        files.compared
    );
    println!(rt;
        "{} blocks of LANGUAGE.md and {} examples are as the program writes them",
        blocks.compared, files.compared
    )?;
    Ok(())
}
