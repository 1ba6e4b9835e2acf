//! [`name_member`]: the path of a new member of a container.

ghost use Rattle.std.specs.Prelude.{◌≡◌, IfOk, OnOk, codes, true};
ghost use Rattle.std.specs.Option.{option_copied};
ghost use Rattle.pod_path.specs.Hierarchy.{is_container};
ghost use Rattle.pod_path.specs.declared.fault.PathFault.TheVariants.{NoMemory as OutOfMemory};
ghost use Rattle.pod_responses.specs.Responses.{refusal};
ghost use Rattle.slug_naming.specs.Stems.{stem_of};
ghost use Rattle.pod_reply.specs.MemberNames as spec;
ghost use Rattle.pod_reply.specs.Ranks.{Tells};

use crate::stop::{Rank, Stop};
use pod_base::{Mem, NoMemory, Response};
use pod_path::{Path, PathFault};
use pod_responses::refusal;
use pod_rows::PodState;
use slug_naming::choose;
use std::alloc::Global;

/// The refusal of a new member's name: 409 `no-name`, unless memory ran out.
fn refuse_name(alloc: Global, fault: PathFault) -> Mem<Response>
    ensures response { IfOk result (λ response. response ≡ refusal 409 (codes "no-name")) }
    ensures fault { OnOk result (fault ≡ OutOfMemory → ⊥) }
{
    match fault {
        PathFault::NoMemory => Err(NoMemory),
        _ => refusal(alloc, 409, b"no-name"),
    }
}

/// The path that the reply to a POST gives to a new member of a container, which is itself a
/// container with `folder`: that of the first free candidate by the value of a Slug field, or 409
/// `no-name` where this passes a limit of paths.
pub(crate) fn name_member<S: PodState>(
    alloc: Global,
    state: &S,
    container: &Path,
    slug: Option<&[u8]>,
    folder: bool,
) -> Rank<Path>
    requires { is_container container.now ≡ true }
    ensures { Tells result (spec.IsNamed (S.pod state.now) container.now
        (stem_of (option_copied slug.entry)) folder) }
{
    state.is_well_formed();
    match choose(alloc, container, slug, folder, state) {
        Ok(path) => Ok(path),
        Err(fault) => Err(Stop::Refused(refuse_name(alloc, fault)?)),
    }
}
