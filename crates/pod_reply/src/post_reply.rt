//! The reply to a POST.

ghost use Rattle.std.specs.Prelude.{◌≡◌, ◌∷◌, [], if◌then◌else◌, IfOk, Ok, ⊤, true, false};
ghost use Rattle.std.specs.Option.{option_copied};
ghost use Rattle.iri_ref.specs.Characters.{slash};
ghost use Rattle.pod_base.specs.declared.method.Method.TheVariants.{Post};
ghost use Rattle.pod_path.specs.Hierarchy.{is_container, uri_of};
ghost use Rattle.pod_reply.specs.MemberNames.{IsNamed};
ghost use Rattle.pod_reply.specs.PostReplies as spec;
ghost use Rattle.pod_reply.specs.Ranks.{Ends, Passes, Tells};
ghost use Rattle.pod_rows.specs.Pod.{is_row};
ghost use Rattle.request_body.specs.Bodies.{Means};
ghost use Rattle.request_body.specs.declared.body.RequestBody.TheVariants as bodies;
ghost use Rattle.request_fields.specs.Links.{links_to_container};
ghost use Rattle.request_fields.specs.PartFields.{slug};
ghost use Rattle.slug_naming.specs.Names.{candidate_path};
ghost use Rattle.slug_naming.specs.Stems.{stem_of};

use crate::context::Context;
use crate::member_names::name_member;
use crate::put_reply::{row_of, triples_in};
use crate::response_and_entry::{Replied, change_reply};
use crate::shared_refusals::{find_row, refuse_condition, refuse_containment, refuse_room};
use crate::stop::{Rank, Stop};
use iri_ref::Iri;
use pod_base::{List, Mem};
use pod_command::{Basis, Content};
use pod_edits::{creation, find_place};
use pod_path::Path;
use pod_responses::{created, refusal};
use pod_rows::PodState;
use request_body::{BodyFault, RequestBody, read_body};
use request_fields::{links_to_container, slug};
use slug_naming::stem;
use std::alloc::Global;

/// What follows the name of the member that a POST makes: a slash, where it is a container.
fn member_end(folder: bool) -> &'static str
    ensures { result.now ≡ (if folder then slash ∷ [] else []) }
{
    if folder { "/" } else { "" }
}

/// The path of the first candidate for the member that a POST makes, whatever its length.
fn candidate(alloc: Global, container: &Path, slug: Option<&[u8]>, folder: bool) -> Mem<Path>
    requires { is_container container.now ≡ true }
    ensures { IfOk result (λ path. path
        ≡ candidate_path container.now (stem_of (option_copied slug.entry)) folder 0) }
{
    let stem = stem(alloc, slug)?;
    let mut text = String::from_str(alloc, container.as_str())?;
    text.push_str(stem.as_str())?;
    text.push_str(member_end(folder))?;
    match Path::of_text(alloc, text.as_str())? {
        Some(path) => Ok(path),
        None => unreachable!(),
    }
}

/// The URI of the first candidate for the member that a POST makes, by which the form of a body is
/// judged.
pub(crate) fn candidate_base<S: PodState>(context: &Context<'_, S>) -> Mem<Iri>
    requires { is_container context.now.path ≡ true }
    ensures { IfOk result (λ base. base ≡ spec.candidate_base context.now.pod context.now.request
        context.now.path) }
{
    let fields = &context.request.fields;
    let folder = links_to_container(fields);
    let path = candidate(context.alloc, context.path, slug(fields), folder)?;
    path.uri(context.alloc, context.state.base())
}

/// The content of the body of a POST or PUT.
pub(crate) fn content_of(body: RequestBody) -> Content
    requires { spec.IsContentBody body }
    ensures { body ≡ bodies.Content result }
{
    match body {
        RequestBody::Content(content) => content,
        _ => unreachable!(),
    }
}

/// The body of a POST by the URI of the member. It is read again where that isn't the URI which it
/// was read by.
fn read_member<S: PodState>(
    context: &Context<'_, S>,
    member: &Path,
    first: &Iri,
    content: Content,
) -> Mem<Result<RequestBody, BodyFault>>
    requires { Means first.now context.now.path context.now.request (Ok (bodies.Content content)) }
    ensures { IfOk result (Means (uri_of context.now.pod.base member.now) context.now.path
        context.now.request) }
{
    let base = member.uri(context.alloc, context.state.base())?;
    if *first == base {
        return Ok(Ok(RequestBody::Content(content)));
    }
    read_body(context.alloc, &base, context.path, context.request)
}

/// The reply to a POST whose member has its name: 409 `contains` by the content under that name, or
/// the success: the member is made.
fn make_member<S: PodState>(
    context: &Context<'_, S>,
    bases: List<Basis>,
    member: &Path,
    content: Content,
) -> Rank<Replied>
    requires { is_row context.now.pod.rows member.now ≡ false }
    ensures { Ends result (λ reply. reply ≡ spec.judged_member context.now.pod context.now.request
        context.now.path context.now.origin bases.items member.now content) }
{
    refuse_containment(context.alloc, member, triples_in(&content))?;
    let row = row_of(context.alloc, member, content, context.origin.stamp.moment)?;
    let place = find_place(context.alloc, context.state, &row.path)?;
    let edits = creation(context.alloc, row, place)?;
    let response = created(context.alloc, context.state.base(), context.path, member)?;
    change_reply(context, response, edits, bases)
}

/// The reply to a POST by its content under the member's own name: 413 `entry-size` where this is
/// too large, or what follows of it. It was read by the first URI.
fn post_read<S: PodState>(
    context: &Context<'_, S>,
    bases: List<Basis>,
    member: &Path,
    first: &Iri,
    content: Content,
) -> Rank<Replied>
    requires free { is_row context.now.pod.rows member.now ≡ false }
    requires method { context.now.request.method ≡ Post }
    requires means { Means first.now context.now.path context.now.request
        (Ok (bodies.Content content)) }
    ensures { Ends result (spec.IsMade context.now.pod context.now.request context.now.path
        context.now.origin bases.items member.now) }
{
    match read_member(context, member, first, content)? {
        Ok(body) => make_member(context, bases, member, content_of(body)),
        Err(_) => Err(Stop::Refused(refusal(context.alloc, 413, b"entry-size")?)),
    }
}

/// The refusals of the member that a POST makes: 507 `rows`, 412 `condition`, 409 `contains`.
#[tactic(auto, unfolding(crate::specs::PostReplies::member_refusal))]
fn refuse_member<S: PodState>(
    context: &Context<'_, S>,
    member: &Path,
    content: &Content,
) -> Rank<()>
    ensures { Passes result (spec.member_refusal context.now.pod context.now.request
        context.now.origin.seq context.now.path member.now content.now) (λ _. ⊤) }
{
    refuse_room(context, 1)?;
    refuse_condition(context)?;
    refuse_containment(context.alloc, member, triples_in(content))
}

/// The path at which the reply to a POST makes its member, or the refusal 409 `no-name`.
fn find_name<S: PodState>(context: &Context<'_, S>) -> Rank<Path>
    requires { is_container context.now.path ≡ true }
    ensures { Tells result (IsNamed context.now.pod context.now.path
        (stem_of (slug context.now.request.fields))
        (links_to_container context.now.request.fields)) }
{
    let (state, path, fields) = (context.state, context.path, &context.request.fields);
    let folder = links_to_container(fields);
    name_member(context.alloc, state, path, slug(fields), folder)
}

/// The reply to a granted POST of this content, which was read by the URI of the first candidate.
pub(crate) fn post<S: PodState>(
    context: &Context<'_, S>,
    bases: List<Basis>,
    first: &Iri,
    content: Content,
) -> Rank<Replied>
    requires container { is_container context.now.path ≡ true }
    requires method { context.now.request.method ≡ Post }
    requires means { Means first.now context.now.path context.now.request
        (Ok (bodies.Content content)) }
    ensures { Ends result (spec.IsPostReply context.now.pod context.now.request context.now.path
        context.now.origin bases.items content) }
{
    find_row(context)?;
    let member = find_name(context)?;
    refuse_member(context, &member, &content)?;
    post_read(context, bases, &member, first, content)
}
