//! Laws of texts, words and the table of operations, for callers to cite.

ghost use Rattle.op_table.specs.Laws.{PrintedIsRead, ValueHasOneText, ReadIsValue, ValueTextIsShort, AfterFits, AnswerFits, LoadKeepsValue, OnlyExchangesFail, UnwrittenKeepsValue, OperationWordIsRead, OperationHasOneWord, CallHasOperation, OrderWordIsRead, OrderHasOneWord, KindWordIsRead, KindHasItsWords, KindWordIsShort, OperationWordIsShort, OrderWordIsShort};

/// What `push_value` prints of a value is read again as that value.
pub fn printed_is_read()
    ensures { PrintedIsRead }
{}

/// No other text than the one that is printed is read as a value.
pub fn value_has_one_text()
    ensures { ValueHasOneText }
{}

/// What is read is a value of the kind.
pub fn read_is_value()
    ensures { ReadIsValue }
{}

/// The text of a value has 1 to 40 bytes, and none of them is a space or a control.
pub fn value_text_is_short()
    ensures { ValueTextIsShort }
{}

/// A call that a kind has leaves a value of the kind.
pub fn after_fits()
    ensures { AfterFits }
{}

/// A call that a kind has replies with a value of the kind, where it replies with one.
pub fn answer_fits()
    ensures { AnswerFits }
{}

/// A load keeps the value.
pub fn load_keeps_value()
    ensures { LoadKeepsValue }
{}

/// By the table only an exchange that expects another value fails.
pub fn only_exchanges_fail()
    ensures { OnlyExchangesFail }
{}

/// A call that stores nothing, by its kind and its reply, keeps the value.
pub fn unwritten_keeps_value()
    ensures { UnwrittenKeepsValue }
{}

/// The word of an operation is read as that operation.
pub fn operation_word_is_read()
    ensures { OperationWordIsRead }
{}

/// An operation has no other word than the one that is printed.
pub fn operation_has_one_word()
    ensures { OperationHasOneWord }
{}

/// A call that a kind has is an operation of the kind's class.
pub fn call_has_operation()
    ensures { CallHasOperation }
{}

/// The word of an order is read as that order.
pub fn order_word_is_read()
    ensures { OrderWordIsRead }
{}

/// An order has no other word than the one that is printed.
pub fn order_has_one_word()
    ensures { OrderHasOneWord }
{}

/// The word of a kind is read as that kind.
pub fn kind_word_is_read()
    ensures { KindWordIsRead }
{}

/// What is read is a kind, and its word is the one that is printed, or `isize` or `usize`.
pub fn kind_has_its_words()
    ensures { KindHasItsWords }
{}

/// The word of a kind has 1 to 4 bytes, and none of them is a space or a control.
pub fn kind_word_is_short()
    ensures { KindWordIsShort }
{}

/// The word of an operation has 1 to 21 bytes, and none of them is a space or a control.
pub fn operation_word_is_short()
    ensures { OperationWordIsShort }
{}

/// The word of an order has 1 to 7 bytes, and none of them is a space or a control.
pub fn order_word_is_short()
    ensures { OrderWordIsShort }
{}
