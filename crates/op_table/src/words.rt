//! The words of kinds and operations.

ghost use Rattle.std.specs.Prelude.{◌≡◌};
ghost use Rattle.op_table.specs.Kind.{IsKind};
ghost use Rattle.op_table.specs.Words.{among, of_lengths, loud_or_quiet, sum_operation, operations_of, kind_word, kind_of_word, operation_word, operation_rows, operation_of_word, has_operation, operation_of, call_word};

use crate::call::Call;
use crate::kind::{Class, Kind, Width};

/// What a call word stands for. A word that begins with `fetch_` replies the value before, and its short form is quiet;
/// one that ends with `_fetch` replies the value after. The bytewise ones are the sums of a pointer.
#[derive(Clone, Copy, Debug, PartialEq, Eq)]
pub enum Operation {
    Load,
    Store,
    Swap,
    CompareExchange,
    CompareExchangeWeak,
    FetchAdd,
    Add,
    FetchSub,
    Sub,
    FetchAnd,
    And,
    FetchNand,
    FetchOr,
    Or,
    FetchXor,
    Xor,
    FetchMax,
    FetchMin,
    FetchNot,
    Not,
    FetchNeg,
    Neg,
    BitSet,
    BitClear,
    BitToggle,
    AddFetch,
    SubFetch,
    AndFetch,
    NandFetch,
    OrFetch,
    XorFetch,
    FetchByteAdd,
    FetchByteSub,
}

/// The word that is printed of a kind.
pub fn kind_word(kind: Kind) -> &'static str
    requires { IsKind kind }
    ensures { result.now ≡ kind_word kind }
{
    match kind.class {
        Class::Bool => "bool",
        Class::Ptr => "ptr",
        Class::Int => match (kind.signed, kind.width) {
            (true, Width::W8) => "i8",
            (true, Width::W16) => "i16",
            (true, Width::W32) => "i32",
            (true, Width::W64) => "i64",
            (true, Width::W128) => "i128",
            (false, Width::W8) => "u8",
            (false, Width::W16) => "u16",
            (false, Width::W32) => "u32",
            (false, Width::W64) => "u64",
            (false, Width::W128) => "u128",
            (_, Width::W1) => unreachable!(),
        },
    }
}

fn of_parts(class: Class, signed: bool, width: Width) -> Kind
    ensures { result ≡ record { width = width; signed = signed; class = class } }
{
    Kind {
        width,
        signed,
        class,
    }
}

/// The kind that a word stands for; `isize` and `usize` are `i64` and `u64`. None: it is the word of none.
#[tactic(auto, unfolding(crate::specs::Words::kind_of_word))]
pub fn kind_of_word(word: &[u8]) -> Option<Kind>
    ensures { result ≡ kind_of_word word.now }
{
    if word == b"bool".as_slice() {
        Some(of_parts(Class::Bool, false, Width::W1))
    } else if word == b"i8".as_slice() {
        Some(of_parts(Class::Int, true, Width::W8))
    } else if word == b"i16".as_slice() {
        Some(of_parts(Class::Int, true, Width::W16))
    } else if word == b"i32".as_slice() {
        Some(of_parts(Class::Int, true, Width::W32))
    } else if word == b"i64".as_slice() {
        Some(of_parts(Class::Int, true, Width::W64))
    } else if word == b"i128".as_slice() {
        Some(of_parts(Class::Int, true, Width::W128))
    } else if word == b"u8".as_slice() {
        Some(of_parts(Class::Int, false, Width::W8))
    } else if word == b"u16".as_slice() {
        Some(of_parts(Class::Int, false, Width::W16))
    } else if word == b"u32".as_slice() {
        Some(of_parts(Class::Int, false, Width::W32))
    } else if word == b"u64".as_slice() {
        Some(of_parts(Class::Int, false, Width::W64))
    } else if word == b"u128".as_slice() {
        Some(of_parts(Class::Int, false, Width::W128))
    } else if word == b"ptr".as_slice() {
        Some(of_parts(Class::Ptr, false, Width::W64))
    } else if word == b"isize".as_slice() {
        Some(of_parts(Class::Int, true, Width::W64))
    } else if word == b"usize".as_slice() {
        Some(of_parts(Class::Int, false, Width::W64))
    } else {
        None
    }
}

/// The word of an operation.
pub fn operation_word(operation: Operation) -> &'static str
    ensures { result.now ≡ operation_word operation }
{
    match operation {
        Operation::Load => "load",
        Operation::Store => "store",
        Operation::Swap => "swap",
        Operation::CompareExchange => "compare_exchange",
        Operation::CompareExchangeWeak => "compare_exchange_weak",
        Operation::FetchAdd => "fetch_add",
        Operation::Add => "add",
        Operation::FetchSub => "fetch_sub",
        Operation::Sub => "sub",
        Operation::FetchAnd => "fetch_and",
        Operation::And => "and",
        Operation::FetchNand => "fetch_nand",
        Operation::FetchOr => "fetch_or",
        Operation::Or => "or",
        Operation::FetchXor => "fetch_xor",
        Operation::Xor => "xor",
        Operation::FetchMax => "fetch_max",
        Operation::FetchMin => "fetch_min",
        Operation::FetchNot => "fetch_not",
        Operation::Not => "not",
        Operation::FetchNeg => "fetch_neg",
        Operation::Neg => "neg",
        Operation::BitSet => "bit_set",
        Operation::BitClear => "bit_clear",
        Operation::BitToggle => "bit_toggle",
        Operation::AddFetch => "add_fetch",
        Operation::SubFetch => "sub_fetch",
        Operation::AndFetch => "and_fetch",
        Operation::NandFetch => "nand_fetch",
        Operation::OrFetch => "or_fetch",
        Operation::XorFetch => "xor_fetch",
        Operation::FetchByteAdd => "fetch_byte_add",
        Operation::FetchByteSub => "fetch_byte_sub",
    }
}

fn of_three(word: &[u8]) -> Option<Operation>
    ensures { result ≡ among (of_lengths 0 3 operation_rows) word.now }
{
    if word == b"add".as_slice() {
        Some(Operation::Add)
    } else if word == b"sub".as_slice() {
        Some(Operation::Sub)
    } else if word == b"and".as_slice() {
        Some(Operation::And)
    } else if word == b"or".as_slice() {
        Some(Operation::Or)
    } else if word == b"xor".as_slice() {
        Some(Operation::Xor)
    } else if word == b"not".as_slice() {
        Some(Operation::Not)
    } else if word == b"neg".as_slice() {
        Some(Operation::Neg)
    } else {
        None
    }
}

fn of_eight(word: &[u8]) -> Option<Operation>
    ensures { result ≡ among (of_lengths 4 8 operation_rows) word.now }
{
    if word == b"load".as_slice() {
        Some(Operation::Load)
    } else if word == b"store".as_slice() {
        Some(Operation::Store)
    } else if word == b"swap".as_slice() {
        Some(Operation::Swap)
    } else if word == b"fetch_or".as_slice() {
        Some(Operation::FetchOr)
    } else if word == b"bit_set".as_slice() {
        Some(Operation::BitSet)
    } else if word == b"or_fetch".as_slice() {
        Some(Operation::OrFetch)
    } else {
        None
    }
}

fn of_nine(word: &[u8]) -> Option<Operation>
    ensures { result ≡ among (of_lengths 9 9 operation_rows) word.now }
{
    if word == b"fetch_add".as_slice() {
        Some(Operation::FetchAdd)
    } else if word == b"fetch_sub".as_slice() {
        Some(Operation::FetchSub)
    } else if word == b"fetch_and".as_slice() {
        Some(Operation::FetchAnd)
    } else if word == b"fetch_xor".as_slice() {
        Some(Operation::FetchXor)
    } else if word == b"fetch_max".as_slice() {
        Some(Operation::FetchMax)
    } else if word == b"fetch_min".as_slice() {
        Some(Operation::FetchMin)
    } else if word == b"fetch_not".as_slice() {
        Some(Operation::FetchNot)
    } else if word == b"fetch_neg".as_slice() {
        Some(Operation::FetchNeg)
    } else if word == b"bit_clear".as_slice() {
        Some(Operation::BitClear)
    } else if word == b"add_fetch".as_slice() {
        Some(Operation::AddFetch)
    } else if word == b"sub_fetch".as_slice() {
        Some(Operation::SubFetch)
    } else if word == b"and_fetch".as_slice() {
        Some(Operation::AndFetch)
    } else if word == b"xor_fetch".as_slice() {
        Some(Operation::XorFetch)
    } else {
        None
    }
}

fn of_more(word: &[u8]) -> Option<Operation>
    ensures { result ≡ among (of_lengths 10 21 operation_rows) word.now }
{
    if word == b"compare_exchange".as_slice() {
        Some(Operation::CompareExchange)
    } else if word == b"compare_exchange_weak".as_slice() {
        Some(Operation::CompareExchangeWeak)
    } else if word == b"fetch_nand".as_slice() {
        Some(Operation::FetchNand)
    } else if word == b"bit_toggle".as_slice() {
        Some(Operation::BitToggle)
    } else if word == b"nand_fetch".as_slice() {
        Some(Operation::NandFetch)
    } else if word == b"fetch_byte_add".as_slice() {
        Some(Operation::FetchByteAdd)
    } else if word == b"fetch_byte_sub".as_slice() {
        Some(Operation::FetchByteSub)
    } else {
        None
    }
}

/// The operation that a word stands for. None: it is the word of none.
pub fn operation_of_word(word: &[u8]) -> Option<Operation>
    ensures { result ≡ operation_of_word word.now }
{
    // A word is compared with those of about its length only.
    let len = word.len();
    if len <= 3 {
        of_three(word)
    } else if len <= 8 {
        of_eight(word)
    } else if len <= 9 {
        of_nine(word)
    } else if len <= 21 {
        of_more(word)
    } else {
        None
    }
}

/// Whether objects of a class have an operation.
pub fn has_operation(class: Class, operation: Operation) -> bool
    ensures { result ≡ has_operation class operation }
{
    match operation {
        Operation::Load
        | Operation::Store
        | Operation::Swap
        | Operation::CompareExchange
        | Operation::CompareExchangeWeak => true,
        Operation::FetchAnd | Operation::FetchOr | Operation::FetchXor => true,
        Operation::And
        | Operation::FetchNand
        | Operation::Or
        | Operation::Xor
        | Operation::FetchNot
        | Operation::Not
        | Operation::AndFetch
        | Operation::NandFetch
        | Operation::OrFetch
        | Operation::XorFetch => class != Class::Ptr,
        Operation::BitSet | Operation::BitClear | Operation::BitToggle => class != Class::Bool,
        Operation::FetchByteAdd | Operation::FetchByteSub => class == Class::Ptr,
        _ => class == Class::Int,
    }
}

fn loud_or_quiet(quiet: bool, replying: Operation, silent: Operation) -> Operation
    ensures { result ≡ loud_or_quiet quiet replying silent }
{
    if quiet { silent } else { replying }
}

/// The operation of a sum on an object of a class: a pointer's counts bytes.
fn sum(
    class: Class,
    quiet: bool,
    replying: Operation,
    silent: Operation,
    bytewise: Operation,
) -> Operation
    ensures { result ≡ sum_operation class quiet replying silent bytewise }
{
    match class {
        Class::Ptr => bytewise,
        Class::Int | Class::Bool => loud_or_quiet(quiet, replying, silent),
    }
}

/// The operation that a call of a kind is.
pub fn operation_of(kind: Kind, call: &Call) -> Operation
    ensures { result ≡ operation_of kind call.now }
{
    use Operation as Op;
    match call {
        Call::Load => Op::Load,
        Call::Store(_) => Op::Store,
        Call::Swap(_) => Op::Swap,
        Call::Cas(_, _) => Op::CompareExchange,
        Call::CasWeak(_, _) => Op::CompareExchangeWeak,
        Call::Add(_, quiet) => sum(kind.class, *quiet, Op::FetchAdd, Op::Add, Op::FetchByteAdd),
        Call::Sub(_, quiet) => sum(kind.class, *quiet, Op::FetchSub, Op::Sub, Op::FetchByteSub),
        Call::And(_, quiet) => loud_or_quiet(*quiet, Op::FetchAnd, Op::And),
        Call::Nand(_) => Op::FetchNand,
        Call::Or(_, quiet) => loud_or_quiet(*quiet, Op::FetchOr, Op::Or),
        Call::Xor(_, quiet) => loud_or_quiet(*quiet, Op::FetchXor, Op::Xor),
        Call::Max(_) => Op::FetchMax,
        Call::Min(_) => Op::FetchMin,
        Call::Not(quiet) => loud_or_quiet(*quiet, Op::FetchNot, Op::Not),
        Call::Neg(quiet) => loud_or_quiet(*quiet, Op::FetchNeg, Op::Neg),
        Call::BitSet(_) => Op::BitSet,
        Call::BitClear(_) => Op::BitClear,
        Call::BitToggle(_) => Op::BitToggle,
        Call::AddFetch(_) => Op::AddFetch,
        Call::SubFetch(_) => Op::SubFetch,
        Call::AndFetch(_) => Op::AndFetch,
        Call::NandFetch(_) => Op::NandFetch,
        Call::OrFetch(_) => Op::OrFetch,
        Call::XorFetch(_) => Op::XorFetch,
    }
}

/// The word of a call of a kind. A pointer's sums are `fetch_byte_add` and `fetch_byte_sub`.
pub fn call_word(kind: Kind, call: &Call) -> &'static str
    ensures { result.now ≡ call_word kind call.now }
{
    operation_word(operation_of(kind, call))
}

const OF_NUMBERS: [Operation; 31] = [
    Operation::Load,
    Operation::Store,
    Operation::Swap,
    Operation::CompareExchange,
    Operation::CompareExchangeWeak,
    Operation::FetchAdd,
    Operation::Add,
    Operation::FetchSub,
    Operation::Sub,
    Operation::FetchAnd,
    Operation::And,
    Operation::FetchNand,
    Operation::FetchOr,
    Operation::Or,
    Operation::FetchXor,
    Operation::Xor,
    Operation::FetchMax,
    Operation::FetchMin,
    Operation::FetchNot,
    Operation::Not,
    Operation::FetchNeg,
    Operation::Neg,
    Operation::BitSet,
    Operation::BitClear,
    Operation::BitToggle,
    Operation::AddFetch,
    Operation::SubFetch,
    Operation::AndFetch,
    Operation::NandFetch,
    Operation::OrFetch,
    Operation::XorFetch,
];

const OF_BOOLS: [Operation; 18] = [
    Operation::Load,
    Operation::Store,
    Operation::Swap,
    Operation::CompareExchange,
    Operation::CompareExchangeWeak,
    Operation::FetchAnd,
    Operation::And,
    Operation::FetchNand,
    Operation::FetchOr,
    Operation::Or,
    Operation::FetchXor,
    Operation::Xor,
    Operation::FetchNot,
    Operation::Not,
    Operation::AndFetch,
    Operation::NandFetch,
    Operation::OrFetch,
    Operation::XorFetch,
];

const OF_POINTERS: [Operation; 13] = [
    Operation::Load,
    Operation::Store,
    Operation::Swap,
    Operation::CompareExchange,
    Operation::CompareExchangeWeak,
    Operation::FetchByteAdd,
    Operation::FetchByteSub,
    Operation::FetchAnd,
    Operation::FetchOr,
    Operation::FetchXor,
    Operation::BitSet,
    Operation::BitClear,
    Operation::BitToggle,
];

/// The operations of a class, in the order in which plans list them.
pub fn operations_of(class: Class) -> &'static [Operation]
    ensures { result.now ≡ operations_of class }
{
    match class {
        Class::Int => &OF_NUMBERS,
        Class::Bool => &OF_BOOLS,
        Class::Ptr => &OF_POINTERS,
    }
}
