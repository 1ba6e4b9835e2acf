//! Laws of the messages of a text. Each is the contract of a function that does nothing.

ghost use Rattle.std.specs.Prelude.{◌≡◌, ◌++◌, List, ℕ};
ghost use Rattle.std.specs.List.{AllByRecursion};
ghost use mathlib.Core.List.{IsPrefix};
ghost use Rattle.pod_base.specs.declared.heard.Heard.{Heard};
ghost use Rattle.pod_base.specs.declared.request.Request.{Request};
ghost use Rattle.http_conn.specs.Messages.{AreFirstEvents, HasRefusalStatus, IsBadMessage};
ghost use Rattle.http_conn.specs.Messages.{Messages, NothingAfterEnd, Requests, StaysOpen};

/// A connection's text has at most one parse: one list of events, and one rest.
pub fn one_parse()
    ensures { (text : List ℕ) (one other : List Heard) (rest left : ℕ) → Messages text one rest
        → Messages text other left → (one ≡ other) × (rest ≡ left) }
{}

/// No text of a connection lacks a parse.
pub fn some_parse()
    ensures { (text : List ℕ)
        → ((events : List Heard) (rest : ℕ) → Messages text events rest → ⊥) → ⊥ }
{}

/// No event of a connection follows a request that closes it, the 10,000th request, and a refusal.
pub fn nothing_after_an_end()
    ensures { (text : List ℕ) (events : List Heard) (rest : ℕ) → Messages text events rest
        → NothingAfterEnd 0 events }
{}

/// No message of a connection is unfinished after one of those ends.
pub fn rest_is_0_after_an_end()
    ensures { (text : List ℕ) (events : List Heard) (rest : ℕ) → Messages text events rest
        → (StaysOpen 0 events → ⊥) → rest ≡ 0 }
{}

/// A connection's malformed message is refused with 400, 413, 431 or 501, and with no other status.
pub fn refusal_statuses()
    ensures { (text : List ℕ) (events : List Heard) (rest : ℕ) → Messages text events rest
        → AllByRecursion HasRefusalStatus events }
{}

/// A connection's complete requests stay what they are, whatever follows, and so does a malformed
/// message.
pub fn complete_messages_stay()
    ensures requests { (text left more : List ℕ) (requests : List Request)
        → Requests text requests left → Requests (text ++ more) requests (left ++ more) }
    ensures malformed { (text more : List ℕ) (events : List Heard) (status : ℕ)
        → IsBadMessage text events status → IsBadMessage (text ++ more) events status }
{}

/// The events of a prefix of a connection's text are the first events of the text: a piece that
/// comes later takes nothing back.
pub fn events_stay()
    ensures { (text : List ℕ) (events all : List Heard) (rest : ℕ) → AreFirstEvents text events
        → Messages text all rest → IsPrefix events all }
{}
