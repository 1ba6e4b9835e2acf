//! [`kind_of`]: the kind of a row.

ghost use Rattle.std.specs.Prelude.{◌≡◌};
ghost use Rattle.pod_edits.specs.Kinds.{document_kind, kind_of};

use pod_command::{Content, Kind};
use pod_path::Path;

/// The kind of a row that is a document with this content.
fn document_kind(content: &Content) -> Kind
    ensures { result ≡ document_kind content.now }
{
    match content {
        Content::Graph(_) => Kind::Graph,
        Content::Bytes { ctype: _, bytes: _ } => Kind::Bytes,
    }
}

/// The kind of a row with this path and this content.
#[tactic(auto, unfolding(crate::specs::Kinds::kind_of))]
pub fn kind_of(path: &Path, content: &Content) -> Kind
    ensures { result ≡ kind_of path.now content.now }
{
    if path.is_container() {
        return Kind::Container;
    }
    if path.is_acl() {
        return Kind::Acl;
    }
    if path.is_meta() {
        return Kind::Meta;
    }
    document_kind(content)
}
