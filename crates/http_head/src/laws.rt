//! Laws of heads. Each is the contract of a function that does nothing: call it, or cite the lemma
//! of the same name, to know its clauses.

ghost use Rattle.std.specs.Prelude.{◌≡◌, ◌<◌, ◌≤◌, ◌++◌, ℕ, List, length, take};
ghost use Rattle.http_head.specs.declared.head_ends.HeadEnd.TheVariants.{Whole, NotYet, TooLong};
ghost use Rattle.http_head.specs.declared.request_head.RequestHead.{RequestHead};
ghost use Rattle.http_head.specs.HeadEnds.{blank_length, head_end};
ghost use Rattle.http_head.specs.Heads.{HasTooManyLines, IsMalformedHead, LacksHost, ParsesTo};

use crate::head_ends::HEAD_LIMIT;

/// A complete head stays complete whatever follows, with the same empty lines before it. It lies in
/// the text, and its own bytes alone are complete.
pub fn complete_head_stays()
    ensures stays { (text more : List ℕ) (n : ℕ) → head_end text ≡ Whole n
        → head_end (text ++ more) ≡ Whole n }
    ensures blank { (text more : List ℕ) (n : ℕ) → head_end text ≡ Whole n
        → blank_length (text ++ more) ≡ blank_length text }
    ensures within { (text : List ℕ) (n : ℕ) → head_end text ≡ Whole n → n ≤ length text }
    ensures alone { (text : List ℕ) (n : ℕ) → head_end text ≡ Whole n
        → head_end (take n text) ≡ Whole n }
{}

/// A head that is too long stays so, whatever follows.
pub fn too_long_head_stays()
    ensures { (text more : List ℕ) → head_end text ≡ TooLong → head_end (text ++ more) ≡ TooLong }
{}

/// An unfinished head is short, none of its prefixes is complete or too long, and where bytes that
/// follow complete it, it ends among them.
pub fn unfinished_head_is_open()
    ensures short { (text : List ℕ) → head_end text ≡ NotYet → length text < HEAD_LIMIT }
    ensures prefix { (text more : List ℕ) → head_end (text ++ more) ≡ NotYet
        → head_end text ≡ NotYet }
    ensures ends_later { (text more : List ℕ) (n : ℕ) → head_end text ≡ NotYet
        → head_end (text ++ more) ≡ Whole n → length text < n }
{}

/// A text parses to one head at most, and to none where it has a fault. It has one fault at most.
pub fn one_head()
    ensures head { (head : List ℕ) (one other : RequestHead) → ParsesTo head one
        → ParsesTo head other → one ≡ other }
    ensures too_many { (head : List ℕ) (one : RequestHead) → HasTooManyLines head
        → ParsesTo head one → ⊥ }
    ensures malformed { (head : List ℕ) (one : RequestHead) → IsMalformedHead head
        → ParsesTo head one → ⊥ }
    ensures host { (head : List ℕ) (one : RequestHead) → LacksHost head → ParsesTo head one → ⊥ }
    ensures malformed_lines { (head : List ℕ) → HasTooManyLines head → IsMalformedHead head → ⊥ }
    ensures host_lines { (head : List ℕ) → HasTooManyLines head → LacksHost head → ⊥ }
    ensures malformed_host { (head : List ℕ) → IsMalformedHead head → LacksHost head → ⊥ }
{}

/// No text lacks both a head and a fault: it parses to a head, or it has one of the three faults.
pub fn some_head_or_fault()
    ensures { (head : List ℕ) → (HasTooManyLines head → ⊥) → (IsMalformedHead head → ⊥)
        → (LacksHost head → ⊥) → ((one : RequestHead) → ParsesTo head one → ⊥) → ⊥ }
{}
