//! The folder of examples: its page has a table of commands, each beside the file with what it writes.

use crate::compared::Compared;
use crate::counts::Counts;
use crate::trial::{Wanted, words_of, writes};
use anyhow::Result;
use std::alloc::{AllocError, Global};
use std::collections::BTreeSet;
use std::fs;
use std::rt::Files;
use std::sync::Wait;
use std::thread::Threads;

/// The page of the folder.
const PAGE: &str = "README.md";

/// A row of the table.
#[derive(Clone, Copy)]
struct Row<'a> {
    /// The words of the program.
    words: &'a str,
    /// The file that it reads, if it reads one.
    input: Option<&'a str>,
    /// The file with what it writes.
    output: &'a str,
    /// How much of that is the same at every run.
    compared: Compared,
}

/// The row of a line of the page, if it is one.
fn read_row(line: &str) -> Option<Row<'_>> {
    let rest = line.strip_prefix("| `portable ")?;
    let (command, rest) = rest.split_once("` | `")?;
    let (output, rest) = rest.split_once('`')?;
    let (words, input) = match command.split_once(" < ") {
        Some((words, input)) => (words, Some(input)),
        None => (command, None),
    };
    let compared = if rest.starts_with(", replies aside") {
        Compared::ButReplies
    } else {
        Compared::Whole
    };
    Some(Row {
        words,
        input,
        output,
        compared,
    })
}

/// The path of a file of the folder.
fn path(alloc: Global, folder: &str, name: &str) -> Result<String, AllocError> {
    format!(in alloc; "{folder}/{name}")
}

/// Whether the program writes what the row says.
fn check_row<R: Threads + Wait + Sync + Eprint + Files + AllocGlobal>(
    rt: &R,
    folder: &str,
    row: Row,
) -> Result<bool> {
    let alloc = rt.alloc();
    let words = words_of(alloc, row.words)?;
    let input = match row.input {
        Some(name) => fs::read_to_string(rt, path(alloc, folder, name)?)?,
        None => String::new(alloc),
    };
    let text = fs::read_to_string(rt, path(alloc, folder, row.output)?)?;
    let wanted = Wanted {
        page: row.output,
        line: 1,
        text: text.as_str(),
        compared: row.compared,
    };
    writes(rt, &words, input.as_str(), wanted)
}

/// Prints each file of the folder that no row names, and answers how many there are.
fn strangers<R: Eprint + Files + AllocGlobal + Clone + Drop>(
    rt: &R,
    folder: &str,
    named: &BTreeSet<String>,
) -> Result<u64> {
    let mut strangers = 0u64;
    for entry in fs::read_dir(rt, folder)? {
        let entry = entry?;
        let name = entry.file_name();
        if name != PAGE && !named.contains(name) {
            eprintln!(rt; "{folder}/{name}: no row of {PAGE} names it")?;
            strangers = strangers.saturating_add(1);
        }
    }
    Ok(strangers)
}

/// Compares each file that a row names with what the program writes, and prints where they differ, and which files no
/// row names.
pub fn check_examples<R: Threads + Wait + Sync + Eprint + Files + AllocGlobal + Clone + Drop>(
    rt: &R,
    folder: &str,
) -> Result<Counts> {
    let alloc = rt.alloc();
    let page = fs::read_to_string(rt, path(alloc, folder, PAGE)?)?;
    let mut named = BTreeSet::new(alloc);
    let mut counts = Counts::new();
    for row in page.lines().filter_map(read_row) {
        counts.add(check_row(rt, folder, row)?);
        named.insert(String::from_str(alloc, row.output)?)?;
        if let Some(name) = row.input {
            named.insert(String::from_str(alloc, name)?)?;
        }
    }
    counts.differ = counts.differ.saturating_add(strangers(rt, folder, &named)?);
    Ok(counts)
}
