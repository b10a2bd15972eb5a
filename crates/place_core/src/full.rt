//! What a root answers when it can give no number.

use thiserror::Error;

/// The refusal of a root that has given every number that it may give.
#[derive(Clone, Copy, Debug, PartialEq, Eq, Error)]
#[error("every number was given")]
pub struct Full;
