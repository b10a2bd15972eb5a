//! What texts are read as, by example. The functions do nothing: their contracts are the facts.

ghost use Rattle.std.specs.Prelude.{[], ◌∷◌, codes};
ghost use Rattle.work_lang.specs.declared.fault.Cause.TheVariants as causes;
ghost use Rattle.work_lang.specs.Vectors.{HasFault, NoObjectsIsRead, OneThreadIsRead, CommentsAndSpacesIsRead, LanesIsRead, InASectionIsRead, KindsOfValuesIsRead, BoolsAndPointersIsRead, ABlockIsRead, ANewValueIsRead, ABigTargetIsRead, TwoThreadsIsRead, WeakExchangeIsRead, EightBytesIsRead, ALeastValueIsRead, ANandIsRead, AMinimumIsRead, PositionsIsRead, FourWordsIsRead, NoThreadsIsRead, EqualLinesIsRead, AUsualWorkloadIsRead};

/// An empty text has no line.
pub fn empty_text()
    ensures { HasFault [] 0 0 causes.Missing }
{}

/// A line feed alone is a line.
pub fn empty_line()
    ensures { HasFault ([] ∷ []) 1 0 causes.Missing }
{}

/// A text that ends after its version.
pub fn version_alone()
    ensures { HasFault (codes "work 1" ∷ []) 1 0 causes.Missing }
{}

/// There is no version 3.
pub fn version_three()
    ensures { HasFault (codes "work 3" ∷ []) 1 2 causes.Version }
{}

/// The version is wanting.
pub fn version_missing()
    ensures { HasFault (codes "work" ∷ []) 1 2 causes.Missing }
{}

/// The first word is `work`.
pub fn version_word_wrong()
    ensures { HasFault (codes "works 1" ∷ []) 1 1 causes.Version }
{}

/// Nothing stands after the version.
pub fn version_with_more()
    ensures { HasFault (codes "work 1 1" ∷ []) 1 3 causes.Extra }
{}

/// Bytes are looked at first, in comments too.
pub fn not_ascii_in_comment()
    ensures { HasFault ((35 ∷ 32 ∷ 233 ∷ []) ∷ []) 1 0 causes.NotAscii }
{}

/// A tab is no space.
pub fn tab_in_line()
    ensures { HasFault ((119 ∷ 111 ∷ 114 ∷ 107 ∷ 9 ∷ 49 ∷ []) ∷ []) 1 0 causes.NotAscii }
{}

/// The target is wanting.
pub fn target_missing()
    ensures { HasFault (codes "work 1" ∷ codes "target" ∷ []) 2 2 causes.Missing }
{}

/// No built-in target has the name.
pub fn target_unknown()
    ensures { HasFault (codes "work 1" ∷ codes "target full" ∷ []) 2 2 causes.BadTarget }
{}

/// A word of a description that isn't one.
pub fn target_steps_bad()
    ensures { HasFault (codes "work 1" ∷ codes "target 64 packed x" ∷ []) 2 4 causes.BadTarget }
{}

/// A section is apart.
pub fn target_section_bad()
    ensures { HasFault (codes "work 1" ∷ codes "target 64 packed none 1 section x" ∷ []) 2 6 causes.BadTarget }
{}

/// Version 1 has no word `big`.
pub fn target_big_in_version_1()
    ensures { HasFault (codes "work 1" ∷ codes "target 32 apart none 67 locks big" ∷ []) 2 7 causes.Extra }
{}

/// Only a packed target is big.
pub fn target_big_apart()
    ensures { HasFault (codes "work 2" ∷ codes "target 32 apart none 67 locks big" ∷ []) 2 7 causes.BadTarget }
{}

/// 256 is no u8.
pub fn object_too_great()
    ensures { HasFault (codes "work 1" ∷ codes "target full64" ∷ codes "object a u8 256" ∷ []) 3 4 causes.OutOfRange }
{}

/// A u8 isn't negative.
pub fn object_negative()
    ensures { HasFault (codes "work 1" ∷ codes "target full64" ∷ codes "object a u8 -1" ∷ []) 3 4 causes.OutOfRange }
{}

/// A number is digits alone.
pub fn object_no_number()
    ensures { HasFault (codes "work 1" ∷ codes "target full64" ∷ codes "object a u8 12x" ∷ []) 3 4 causes.BadNumber }
{}

/// Zero has one text.
pub fn object_minus_zero()
    ensures { HasFault (codes "work 1" ∷ codes "target full64" ∷ codes "object a u8 -0" ∷ []) 3 4 causes.BadNumber }
{}

/// A name is declared once.
pub fn object_twice()
    ensures { HasFault (codes "work 1" ∷ codes "target full64" ∷ codes "object n u64 0" ∷ codes "object n u8 0" ∷ []) 4 2 causes.Twice }
{}

/// `end` is no name.
pub fn object_name_end()
    ensures { HasFault (codes "work 1" ∷ codes "target full64" ∷ codes "object end u64 0" ∷ []) 3 2 causes.UnknownWord }
{}

/// The kind is wanting.
pub fn object_kind_missing()
    ensures { HasFault (codes "work 1" ∷ codes "target full64" ∷ codes "object n" ∷ []) 3 3 causes.Missing }
{}

/// There is no such kind.
pub fn object_kind_unknown()
    ensures { HasFault (codes "work 1" ∷ codes "target full64" ∷ codes "object n i256 0" ∷ []) 3 3 causes.UnknownWord }
{}

/// Nothing stands after the start.
pub fn object_with_more()
    ensures { HasFault (codes "work 1" ∷ codes "target full64" ∷ codes "object n u64 0 0" ∷ []) 3 5 causes.Extra }
{}

/// A thread has no number.
pub fn thread_with_more()
    ensures { HasFault (codes "work 1" ∷ codes "target full64" ∷ codes "thread 1" ∷ []) 3 2 causes.Extra }
{}

/// Objects stand before threads.
pub fn object_after_thread()
    ensures { HasFault (codes "work 1" ∷ codes "target full64" ∷ codes "object n u64 0" ∷ codes "thread" ∷ codes "end" ∷ codes "object m u8 0" ∷ []) 6 1 causes.UnknownWord }
{}

/// A block stands in a thread.
pub fn repeat_between_threads()
    ensures { HasFault (codes "work 2" ∷ codes "target full64" ∷ codes "object n u8 0" ∷ codes "thread" ∷ codes "end" ∷ codes "repeat: 2" ∷ []) 6 1 causes.UnknownWord }
{}

/// The object isn't declared.
pub fn call_of_unknown_name()
    ensures { HasFault (codes "work 1" ∷ codes "target full64" ∷ codes "object n u64 0" ∷ codes "thread" ∷ codes "m load" ∷ []) 5 1 causes.UnknownName }
{}

/// The call's word is wanting.
pub fn call_without_word()
    ensures { HasFault (codes "work 1" ∷ codes "target full64" ∷ codes "object n u64 0" ∷ codes "thread" ∷ codes "n" ∷ []) 5 2 causes.Missing }
{}

/// There is no such call.
pub fn call_of_unknown_word()
    ensures { HasFault (codes "work 1" ∷ codes "target full64" ∷ codes "object n u64 0" ∷ codes "thread" ∷ codes "n nosuch 1" ∷ []) 5 2 causes.UnknownWord }
{}

/// The operand is wanting.
pub fn call_without_operand()
    ensures { HasFault (codes "work 1" ∷ codes "target full64" ∷ codes "object n u64 0" ∷ codes "thread" ∷ codes "n store" ∷ []) 5 3 causes.Missing }
{}

/// A bool isn't added to.
pub fn call_not_for_kind()
    ensures { HasFault (codes "work 1" ∷ codes "target word64" ∷ codes "object f bool false" ∷ codes "thread" ∷ codes "f fetch_add 1" ∷ []) 5 2 causes.NotForKind }
{}

/// A load has no release.
pub fn call_with_bad_order()
    ensures { HasFault (codes "work 1" ∷ codes "target word64" ∷ codes "object a u8 0" ∷ codes "thread" ∷ codes "a load release" ∷ []) 5 3 causes.BadOrder }
{}

/// A word in an order's place that is none.
pub fn exchange_with_no_order()
    ensures { HasFault (codes "work 1" ∷ codes "target full64" ∷ codes "object n u64 0" ∷ codes "thread" ∷ codes "n compare_exchange 3 4 x" ∷ []) 5 5 causes.Extra }
{}

/// An exchange has two orders or none.
pub fn exchange_with_one_order()
    ensures { HasFault (codes "work 1" ∷ codes "target full64" ∷ codes "object n u64 0" ∷ codes "thread" ∷ codes "n compare_exchange 3 4 relaxed" ∷ []) 5 6 causes.Missing }
{}

/// Version 1 has no call that answers the new value.
pub fn new_value_in_version_1()
    ensures { HasFault (codes "work 1" ∷ codes "target full64" ∷ codes "object n u64 0" ∷ codes "thread" ∷ codes "n add_fetch 1" ∷ []) 5 2 causes.UnknownWord }
{}

/// Nothing stands after `end`.
pub fn end_with_more()
    ensures { HasFault (codes "work 1" ∷ codes "target full64" ∷ codes "object n u64 0" ∷ codes "thread" ∷ codes "end x" ∷ []) 5 2 causes.Extra }
{}

/// A thread is closed.
pub fn thread_left_open()
    ensures { HasFault (codes "work 1" ∷ codes "target full64" ∷ codes "object n u64 0" ∷ codes "thread" ∷ codes "n load" ∷ []) 5 0 causes.Unclosed }
{}

/// Version 1 has no blocks.
pub fn block_in_version_1()
    ensures { HasFault (codes "work 1" ∷ codes "target full64" ∷ codes "object n u8 0" ∷ codes "thread" ∷ codes "repeat: 300" ∷ codes "n fetch_add 1" ∷ codes "end" ∷ codes "n load" ∷ codes "end" ∷ []) 5 1 causes.UnknownName }
{}

/// A block is made at least once.
pub fn block_of_no_times()
    ensures { HasFault (codes "work 2" ∷ codes "target full64" ∷ codes "object n u8 0" ∷ codes "thread" ∷ codes "repeat: 0" ∷ []) 5 2 causes.OutOfRange }
{}

/// Its number is looked at first.
pub fn block_of_no_times_with_more()
    ensures { HasFault (codes "work 2" ∷ codes "target full64" ∷ codes "object n u8 0" ∷ codes "thread" ∷ codes "repeat: 0 x" ∷ []) 5 2 causes.OutOfRange }
{}

/// A block stands in no block.
pub fn block_in_block()
    ensures { HasFault (codes "work 2" ∷ codes "target full64" ∷ codes "object n u8 0" ∷ codes "thread" ∷ codes "repeat: 300" ∷ codes "repeat: 2" ∷ []) 6 1 causes.UnknownWord }
{}

/// And that is looked at first.
pub fn bad_block_in_block()
    ensures { HasFault (codes "work 2" ∷ codes "target full64" ∷ codes "object n u8 0" ∷ codes "thread" ∷ codes "repeat: 300" ∷ codes "repeat: x" ∷ []) 6 1 causes.UnknownWord }
{}

/// The word is `repeat:`.
pub fn block_without_space()
    ensures { HasFault (codes "work 2" ∷ codes "target full64" ∷ codes "object n u8 0" ∷ codes "thread" ∷ codes "repeat:2" ∷ []) 5 1 causes.UnknownName }
{}

/// A target alone is a workload.
pub fn no_objects()
    ensures { NoObjectsIsRead }
{}

/// Two calls of a thread.
pub fn one_thread()
    ensures { OneThreadIsRead }
{}

/// Comments, empty lines and spare spaces say nothing, and orders may be left out.
pub fn comments_and_spaces()
    ensures { CommentsAndSpacesIsRead }
{}

/// Objects of a byte.
pub fn lanes()
    ensures { LanesIsRead }
{}

/// A target whose calls are sections.
pub fn in_a_section()
    ensures { InASectionIsRead }
{}

/// A negative number is a pattern of its width, and 128 bits are read whole.
pub fn kinds_of_values()
    ensures { KindsOfValuesIsRead }
{}

/// Bools, pointers and orders.
pub fn bools_and_pointers()
    ensures { BoolsAndPointersIsRead }
{}

/// A block of version 2.
pub fn a_block()
    ensures { ABlockIsRead }
{}

/// A call that answers the new value.
pub fn a_new_value()
    ensures { ANewValueIsRead }
{}

/// A target that begins with the most significant byte.
pub fn a_big_target()
    ensures { ABigTargetIsRead }
{}

/// A thread for each script.
pub fn two_threads()
    ensures { TwoThreadsIsRead }
{}

/// Both exchanges.
pub fn weak_exchange()
    ensures { WeakExchangeIsRead }
{}

/// Lanes that fill a word.
pub fn eight_bytes()
    ensures { EightBytesIsRead }
{}

/// The least value of a signed kind.
pub fn a_least_value()
    ensures { ALeastValueIsRead }
{}

/// A call of one operand.
pub fn a_nand()
    ensures { ANandIsRead }
{}

/// Operands of a signed kind.
pub fn a_minimum()
    ensures { AMinimumIsRead }
{}

/// A position of a bit counts modulo the width only when the call is made.
pub fn positions()
    ensures { PositionsIsRead }
{}

/// An object of four words.
pub fn four_words()
    ensures { FourWordsIsRead }
{}

/// Objects alone are a workload.
pub fn no_threads()
    ensures { NoThreadsIsRead }
{}

/// An order that is left out is the strongest.
pub fn equal_lines()
    ensures { EqualLinesIsRead }
{}

/// Three threads on objects of four kinds.
pub fn a_usual_workload()
    ensures { AUsualWorkloadIsRead }
{}
