//! Laws of histories of blocks. The functions do nothing: each has a law as its clause.

ghost use Rattle.any_size.specs.Laws.{ValueIsWhole, ReplyIsWhole};

/// An object's value is, all of it, its start or what one entry wrote.
pub fn value_is_whole()
    ensures { ValueIsWhole }
{}

/// A reply's bytes are, all of them, those of the object's start or of one writing entry before it, so no reply is torn.
pub fn reply_is_whole()
    ensures { ReplyIsWhole }
{}
