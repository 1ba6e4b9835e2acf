//! Requests that change nothing, answered from one look.
ghost use Rattle.std.specs.Prelude.{◌≡◌, ◌+◌, false, IfOk, length};
ghost use Rattle.published_view.specs.LookerState.{NotNoPlace, OnNoPlace};
ghost use Rattle.reply_laws.specs.Granted.{is_change};
ghost use Rattle.reply_laws.specs.Laws.{IsNoFailure};
ghost use Rattle.reply_laws.specs.Sent.{IsSent};
ghost use Rattle.token_table.specs.Credentials.{asked_view};
ghost use Rattle.pod_live.specs.VersionReplies.{IsVersionReply};
ghost use Rattle.pod_live.specs.Visits.{IsTurnedAway, Looked, ReadAt};
ghost use Rattle.pod_live.specs.WorldEvents.{IsLook};

use crate::published_version::CommittedEntry;
use crate::session::Session;
use crate::store_names::StoreName;
use pod_base::{Mem, Request, Response, Stamp};
use pod_core::{Answer, Replied, answer};
use pod_pages::Version;
use pod_rows::PodState;
use published_view::{ViewFault, ViewName};
use std::alloc::Global;
use token_table::Asked;

/// Answers a read, a request that is no change, from the version of one look at the live store. It
/// waits for nobody.
///
/// # Errors
///
/// As of [`Session::look`]; out of memory also after the look.
pub fn answer_read<N: ViewName<CommittedEntry> + StoreName>(
    alloc: Global,
    session: &mut Session<N>,
    request: &Request,
    asked: &Asked<'_>,
    stamp: Stamp,
) -> Result<Response, ViewFault>
    requires { is_change request.now.method ≡ false }
    ensures read { IfOk result (λ response. ReadAt N.kept session.new.seen request.now
        (asked_view asked.now) stamp response) }
    ensures given { IfOk result (λ response. session.new.seen ≡ session.new.given) }
    ensures look { IfOk result (λ response. IsLook N.kept session.old.seen session.new.given
        request.now (asked_view asked.now) stamp response) }
    ensures sent { IfOk result IsSent }
    ensures status { IfOk result (λ response. IsNoFailure response.status) }
    ensures looked { NotNoPlace result (Looked session.old session.new) }
    ensures refused { OnNoPlace result (IsTurnedAway session.old session.new) }
{
    match session.read(alloc, request, asked, stamp) {
        Ok(placed) => Ok(placed.response),
        Err(fault) => Err(fault),
    }
}

/// Answers a read, a request that is no change, at a version of the live store.
fn answer_at(
    alloc: Global,
    version: &Version,
    request: &Request,
    asked: &Asked<'_>,
    stamp: Stamp,
) -> Mem<Answer>
    requires { is_change request.now.method ≡ false }
    ensures reply { IfOk result (λ placed. IsVersionReply version.now request.now
        (asked_view asked.now) stamp placed.response) }
    ensures place { IfOk result (λ placed. placed.place ≡ version.now.next) }
    ensures moment { IfOk result (λ placed. placed.moment ≡ stamp.moment) }
    ensures sent { IfOk result (λ placed. IsSent placed.response) }
    ensures status { IfOk result (λ placed. IsNoFailure placed.response.status) }
{
    let place = version.next();
    let replied = answer(alloc, version, request, asked, place, stamp)?;
    let Replied { response, entry: _ } = replied;
    Ok(Answer {
        response,
        place,
        moment: stamp.moment,
    })
}

impl<N: ViewName<CommittedEntry> + StoreName> Session<N> {
    /// Answers a read as [`answer_read`] does, with the position of the version that the look
    /// returned. The moment is the stamp's.
    pub fn read(
        &mut self,
        alloc: Global,
        request: &Request,
        asked: &Asked<'_>,
        stamp: Stamp,
    ) -> Result<Answer, ViewFault>
        requires { is_change request.now.method ≡ false }
        ensures read { IfOk result (λ placed. ReadAt N.kept self.new.seen request.now
            (asked_view asked.now) stamp placed.response) }
        ensures place { IfOk result
            (λ placed. placed.place ≡ N.opened.next + length self.new.seen) }
        ensures moment { IfOk result (λ placed. placed.moment ≡ stamp.moment) }
        ensures given { IfOk result (λ placed. self.new.seen ≡ self.new.given) }
        ensures look { IfOk result (λ placed. IsLook N.kept self.old.seen self.new.given request.now
            (asked_view asked.now) stamp placed.response) }
        ensures sent { IfOk result (λ placed. IsSent placed.response) }
        ensures status { IfOk result (λ placed. IsNoFailure placed.response.status) }
        ensures looked { NotNoPlace result (Looked self.old self.new) }
        ensures refused { OnNoPlace result (IsTurnedAway self.old self.new) }
    {
        match self.look() {
            Ok(version) => match answer_at(alloc, &*version, request, asked, stamp) {
                Ok(placed) => Ok(placed),
                Err(_) => Err(ViewFault::NoMemory),
            },
            Err(fault) => Err(fault),
        }
    }
}
