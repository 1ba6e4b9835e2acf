//! What follows from the definition of a reply: the contracts of these functions are laws, and they
//! do nothing.

ghost use Rattle.reply_laws.specs.Laws.{AppliesBare, ChangesHaveEntries, EncodableBare};
ghost use Rattle.reply_laws.specs.Laws.{EntriesApply, EntriesAreEncodable, EntriesHaveBases};
ghost use Rattle.reply_laws.specs.Laws.{NeverFails, ReadsHaveNone};
ghost use Rattle.reply_laws.specs.Laws.{RepliesAreSent, UpgradesAlone};

/// The entry of a reply of a well-formed pod applies to it, as the next one: its number is that of
/// the next change and less than 2^63, its edits can be carried out, and the pod after it is
/// well-formed.
pub fn applies()
    ensures applies { EntriesApply }

    // The spare capacity of an entry's lists doesn't matter.
    ensures bare { AppliesBare }
{}

/// The entry of a reply has a stored form: its method is one of those that change a pod, and the
/// content of each row that it puts is of the row's kind.
pub fn encodable()
    ensures encodable { EntriesAreEncodable }

    // The spare capacity of an entry's lists doesn't matter.
    ensures bare { EncodableBare }
{}

/// The response of a reply of a well-formed pod can be written: each field is one line, and the
/// status has three digits (RFC 9110, sections 5.5 and 15).
pub fn sent()
    ensures { RepliesAreSent }
{}

/// No reply has a status of a failure of the server, and the connection is upgraded only where the
/// request asks for it.
pub fn status()
    ensures fails { NeverFails }
    ensures upgrades { UpgradesAlone }
{}

/// A reply to a request that is no change has no entry, and a reply to a change has one exactly
/// where it is a success (2xx).
pub fn complete()
    ensures reads { ReadsHaveNone }
    ensures changes { ChangesHaveEntries }
{}

/// The entry of a reply records its request, and one basis for each need of the request, in their
/// order.
pub fn bases()
    ensures { EntriesHaveBases }
{}
