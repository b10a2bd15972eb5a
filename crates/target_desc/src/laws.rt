//! Laws of targets and their texts, for callers to cite.

ghost use Rattle.target_desc.specs.Laws.{PrintedIsRead, ReadIsTarget, ReadingIsSpelling, SpellsOne, BuiltinIsName, NamedIsTarget, NamedIsOfVersion, NameIsPrinted, DescriptionIsPrinted, TextIsShort, TextIsPrintable, WordsArePlain, TextHasWords};

/// What `push_target` prints of a target is read again as that target, in a version that the target is of.
pub fn printed_is_read()
    ensures { PrintedIsRead }
{}

/// What is read is a target, and of the version that it was read in.
pub fn read_is_target()
    ensures { ReadIsTarget }
{}

/// Words are read as a target exactly where they are a name of it, or its description.
pub fn reading_is_spelling()
    ensures { ReadingIsSpelling }
{}

/// Words say one target at most, whatever the version.
pub fn spells_one()
    ensures { SpellsOne }
{}

/// `builtin` knows the names of the built-in targets and no other.
pub fn builtin_is_name()
    ensures { BuiltinIsName }
{}

/// The built-in targets are targets.
pub fn named_is_target()
    ensures { NamedIsTarget }
{}

/// The built-in targets are of each version.
pub fn named_is_of_version()
    ensures { NamedIsOfVersion }
{}

/// A target that has a name is printed as its name.
pub fn name_is_printed()
    ensures { NameIsPrinted }
{}

/// A target that has no name is printed as its description.
pub fn description_is_printed()
    ensures { DescriptionIsPrinted }
{}

/// The text of a target has at most 44 bytes.
pub fn text_is_short()
    ensures { TextIsShort }
{}

/// The bytes of a target's text are 32 to 126.
pub fn text_is_printable()
    ensures { TextIsPrintable }
{}

/// The words of a target's text have 1 to 19 bytes, and none of them is a space or a control.
pub fn words_are_plain()
    ensures { WordsArePlain }
{}

/// The words of a target's text are its name, or the words of its description.
pub fn text_has_words()
    ensures { TextHasWords }
{}
