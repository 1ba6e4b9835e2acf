//! Bases as a line shows them.

ghost use Rattle.std.specs.Prelude.{◌≡◌, ◌++◌, ◌∷◌, OnOk};
ghost use Rattle.std.specs.List.{flat_map};
ghost use Rattle.audit_trail.specs.Lines as spec;

use crate::line_lengths::total;
use pod_base::Mem;
use pod_command::{Basis, Who};
use std::alloc::Global;
use turtle_text::term_len;

/// The length of the text of whom a basis's rule covers, as [`append_who`] appends it.
fn who_len(who: &Who) -> usize {
    match who {
        Who::Agent => b"agent".len(),
        Who::Everyone => b"everyone".len(),
        Who::Authenticated => b"authenticated".len(),
        Who::Group(iri) => total(&[b"group:".len(), iri.as_str().len()]),
    }
}

/// The length of a basis's text, as [`append_basis`] appends it.
fn basis_len(basis: &Basis) -> usize {
    let rule = usize::try_from(term_len(&basis.rule)).unwrap_or(usize::MAX);
    total(&[basis.acl.as_str().len(), rule, who_len(&basis.who), 2])
}

/// The length of the text of bases, as [`append_bases`] appends it.
pub(crate) fn bases_len(bases: &[Basis]) -> usize {
    if bases.is_empty() {
        return 2;
    }
    let mut len = 0usize;
    for basis in bases {
        len = total(&[len, 1, basis_len(basis)]);
    }
    len
}

/// Appends the text of whom the subject of a basis's rule covers to a line of the trail.
fn append_who(into: &mut Vec<u8>, who: &Who) -> Mem<()>
    ensures { OnOk result (into.new.items ≡ into.old.items ++ spec.who_word who.now) }
{
    match who {
        Who::Agent => into.extend_from_slice(b"agent")?,
        Who::Everyone => into.extend_from_slice(b"everyone")?,
        Who::Authenticated => into.extend_from_slice(b"authenticated")?,
        Who::Group(iri) => {
            into.extend_from_slice(b"group:")?;
            into.extend_from_slice(iri.as_str().as_bytes())?;
        }
    }
    Ok(())
}

/// Appends the text of a basis to a line of the trail: the path of the access list, `|`, the node
/// of the rule as the text of a graph has it, `|`, and `agent`, `everyone`, `authenticated`, or
/// `group:` and the group's IRI. After an `Err` only a part may have been appended.
pub fn append_basis(alloc: Global, into: &mut Vec<u8>, basis: &Basis) -> Mem<()>
    ensures { OnOk result (into.new.items ≡ into.old.items ++ spec.basis_text basis.now) }
{
    into.extend_from_slice(basis.acl.as_str().as_bytes())?;
    into.push(b'|')?;
    basis.rule.append_to(alloc, into)?;
    into.push(b'|')?;
    append_who(into, &basis.who)
}

/// Appends the text of a basis to a line of the trail, after a space.
fn append_spaced(alloc: Global, into: &mut Vec<u8>, basis: &Basis) -> Mem<()>
    ensures { OnOk result (into.new.items ≡ into.old.items ++ 32 ∷ spec.basis_text basis.now) }
{
    into.push(b' ')?;
    append_basis(alloc, into, basis)
}

/// Appends the text of each basis to a line of the trail, after a space.
fn append_each(alloc: Global, into: &mut Vec<u8>, bases: &[Basis]) -> Mem<()>
    ensures { OnOk result (into.new.items
        ≡ into.old.items ++ flat_map (λ b. 32 ∷ spec.basis_text b) bases.now) }
{
    for basis in bases {
        append_spaced(alloc, into, basis)?;
    }
    Ok(())
}

/// Appends the text of each basis to a line of the trail, after a space; ` -` where there is none.
pub(crate) fn append_bases(alloc: Global, into: &mut Vec<u8>, bases: &[Basis]) -> Mem<()>
    ensures { OnOk result (into.new.items
        ≡ into.old.items ++ spec.spaced (spec.bases_words bases.now)) }
{
    if bases.is_empty() {
        into.extend_from_slice(b" -")?;
        return Ok(());
    }
    append_each(alloc, into, bases)
}
