//! The fenced blocks of a page.

use std::alloc::{AllocError, Global};

/// What a block begins and ends with, in a line of its own.
const FENCE: &str = "```";

/// A fenced block of a page.
#[derive(Drop)]
pub struct Block {
    /// The page's line with the block's opening fence, counted from 1.
    pub line: usize,
    /// What stands behind that fence.
    pub info: String,
    /// The block's lines, each with its line feed.
    pub text: String,
}

impl Block {
    /// A block without lines.
    fn new(alloc: Global, line: usize, info: &str) -> Result<Block, AllocError> {
        Ok(Block {
            line,
            info: String::from_str(alloc, info)?,
            text: String::new(alloc),
        })
    }

    /// Adds a line at the end.
    fn push_line(&mut self, line: &str) -> Result<(), AllocError> {
        self.text.push_str(line)?;
        self.text.push('\n')
    }
}

/// The fenced blocks of a page, in order. A block that the page leaves open is left out.
pub fn blocks(alloc: Global, page: &str) -> Result<Vec<Block>, AllocError> {
    let mut closed = Vec::new(alloc);
    let mut open: Option<Block> = None;
    for (before, line) in page.lines().enumerate() {
        match open.take() {
            Some(block) if line == FENCE => closed.push(block)?,
            Some(mut block) => {
                block.push_line(line)?;
                open = Some(block);
            }
            None => {
                if let Some(info) = line.strip_prefix(FENCE) {
                    open = Some(Block::new(alloc, before.saturating_add(1), info)?);
                }
            }
        }
    }
    Ok(closed)
}
