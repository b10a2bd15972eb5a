//! The names of the functions.

ghost use Rattle.std.specs.Prelude.{◌≡◌, ◌↔◌, ℕ, Some, None, MatchOption};
ghost use Rattle.sized_calls.specs.declared.operation.SizedOp.{SizedOp};
ghost use Rattle.sized_calls.specs.Names.{IsSizedName, operation_of_words, split_size, reading_of};

use crate::operation::SizedOp;

/// The operation that the words in a name stand for. None: they stand for none.
#[tactic(auto, unfolding(crate::specs::Names::operation_of_words))]
fn operation_of_words(words: &[u8]) -> Option<SizedOp>
    ensures { result ≡ operation_of_words words.now }
{
    if words == b"load".as_slice() {
        Some(SizedOp::Load)
    } else if words == b"store".as_slice() {
        Some(SizedOp::Store)
    } else if words == b"exchange".as_slice() {
        Some(SizedOp::Exchange)
    } else if words == b"compare_exchange".as_slice() {
        Some(SizedOp::CompareExchange)
    } else if words == b"fetch_add".as_slice() {
        Some(SizedOp::FetchAdd)
    } else if words == b"fetch_sub".as_slice() {
        Some(SizedOp::FetchSub)
    } else if words == b"fetch_and".as_slice() {
        Some(SizedOp::FetchAnd)
    } else if words == b"fetch_or".as_slice() {
        Some(SizedOp::FetchOr)
    } else if words == b"fetch_xor".as_slice() {
        Some(SizedOp::FetchXor)
    } else if words == b"fetch_nand".as_slice() {
        Some(SizedOp::FetchNand)
    } else if words == b"add_fetch".as_slice() {
        Some(SizedOp::AddFetch)
    } else if words == b"sub_fetch".as_slice() {
        Some(SizedOp::SubFetch)
    } else if words == b"and_fetch".as_slice() {
        Some(SizedOp::AndFetch)
    } else if words == b"or_fetch".as_slice() {
        Some(SizedOp::OrFetch)
    } else if words == b"xor_fetch".as_slice() {
        Some(SizedOp::XorFetch)
    } else if words == b"nand_fetch".as_slice() {
        Some(SizedOp::NandFetch)
    } else {
        None
    }
}

/// The words before a size, and the size. None: the text doesn't end with one.
#[tactic(auto, using(crate::proofs::NameReading::goes_on), unfolding(crate::specs::Names::split_size))]
fn split_size(text: &[u8]) -> Option<(&[u8], u32)>
    ensures { MatchOption result (split_size text.now ≡ None) (λ r. split_size text.now ≡ Some (r.0.now, r.1)) }
{
    if let Some(words) = text.strip_suffix(b"_1") {
        return Some((words, 1));
    }
    if let Some(words) = text.strip_suffix(b"_2") {
        return Some((words, 2));
    }
    if let Some(words) = text.strip_suffix(b"_4") {
        return Some((words, 4));
    }
    if let Some(words) = text.strip_suffix(b"_8") {
        return Some((words, 8));
    }
    let words = text.strip_suffix(b"_16")?;
    Some((words, 16))
}

/// The operation and the size in bytes of one of GCC's sized functions, such as `__atomic_fetch_nand_8`. None exactly
/// where the text isn't the name of one: `__atomic_`, the operation's words, `_`, and 1, 2, 4, 8 or 16.
#[tactic(auto, using(crate::proofs::NameReading::exactly))]
pub fn read_name(text: &[u8]) -> Option<(SizedOp, u32)>
    ensures value { result ≡ reading_of text.now }
    ensures exact { (op : SizedOp) (size : ℕ) → (result ≡ Some (op, size)) ↔ IsSizedName text.now op size }
{
    let rest = text.strip_prefix(b"__atomic_")?;
    let (words, size) = split_size(rest)?;
    let operation = operation_of_words(words)?;
    Some((operation, size))
}
