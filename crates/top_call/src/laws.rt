//! Laws of the command line. The functions do nothing: their contracts are the laws.

ghost use Rattle.top_call.specs.Forms.{EachFormAsks, OthersAskNothing};

/// Each form of the table of commands asks for its command.
pub fn each_form_asks()
    ensures { EachFormAsks }
{}

/// Other words that look like a form ask for nothing.
pub fn others_ask_nothing()
    ensures { OthersAskNothing }
{}
