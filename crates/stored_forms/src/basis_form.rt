//! The stored forms of bases.
ghost use Rattle.std.specs.Prelude.{◌≡◌, ◌++◌, length, OnOk};
ghost use Rattle.rdf_graph.specs.Size.{saturated};
ghost use Rattle.stored_forms.specs.Readers.{Gives};
ghost use Rattle.stored_forms.specs.Reading.{basis_at, who_after, who_at};
ghost use Rattle.stored_forms.specs.Storable.{IsStorableBasis, IsStorableWho};
ghost use Rattle.stored_forms.specs.StoredForms.{basis_bytes, who_bytes, term_bytes};

use crate::graph_form::{put_term, term_of, term_size};
use crate::list_form::Stored;
use crate::primitive_reading::{byte_of, path_of, text_of};
use crate::primitive_writing::{
    after_byte, byte_size, piece_size, plus, put_byte, put_path, put_text,
};
use crate::read_back::ReadBack;
use pod_base::Mem;
use pod_command::{Basis, Who};
use std::alloc::Global;

/// Appends the stored form of whom a basis's rule covers.
#[tactic(auto, unfolding(crate::specs::StoredForms::who_bytes))]
fn put_who(out: &mut Vec<u8>, who: &Who) -> Mem<()>
    ensures form { OnOk result (out.new.items ≡ out.old.items ++ who_bytes who.now) }
    ensures storable { OnOk result (IsStorableWho who.now) }
{
    match who {
        Who::Agent => put_byte(out, 0),
        Who::Everyone => put_byte(out, 1),
        Who::Authenticated => put_byte(out, 2),
        Who::Group(iri) => {
            put_byte(out, 3)?;
            put_text(out, iri)
        }
    }
}

/// The size of the stored form of whom a basis's rule covers.
#[tactic(auto, unfolding(crate::specs::StoredForms::who_bytes))]
fn who_size(who: &Who) -> u64
    ensures { result ≡ saturated (length (who_bytes who.now)) }
{
    match who {
        Who::Agent | Who::Everyone | Who::Authenticated => byte_size(),
        Who::Group(iri) => after_byte(piece_size(iri.as_str().as_bytes())),
    }
}

/// Reads whom a basis's rule covers, from its stored form.
#[tactic(auto, unfolding(crate::specs::Reading::who_at))]
fn who_of(alloc: Global, bytes: &[u8]) -> Result<(Who, &[u8]), ReadBack>
    ensures { Gives (λ x. (x.0, x.1.now)) result (who_at bytes.now) }
{
    let (tag, rest) = byte_of(bytes)?;
    who_after(alloc, tag, rest)
}

/// Reads whom a basis's rule covers, from its stored form after the first byte.
#[tactic(auto, unfolding(crate::specs::Reading::who_after))]
fn who_after(alloc: Global, tag: u8, bytes: &[u8]) -> Result<(Who, &[u8]), ReadBack>
    ensures { Gives (λ x. (x.0, x.1.now)) result (who_after tag bytes.now) }
{
    match tag {
        0 => Ok((Who::Agent, bytes)),
        1 => Ok((Who::Everyone, bytes)),
        2 => Ok((Who::Authenticated, bytes)),
        3 => {
            let (iri, rest) = text_of(alloc, bytes)?;
            Ok((Who::Group(iri), rest))
        }
        _ => Err(ReadBack::NotCanonical),
    }
}

/// Appends the stored form of a basis.
#[tactic(auto, unfolding(crate::specs::StoredForms::basis_bytes))]
fn put_basis(out: &mut Vec<u8>, basis: &Basis) -> Mem<()>
    ensures form { OnOk result (out.new.items ≡ out.old.items ++ basis_bytes basis.now) }
    ensures storable { OnOk result (IsStorableBasis basis.now) }
{
    put_path(out, &basis.acl)?;
    put_term(out, &basis.rule)?;
    put_who(out, &basis.who)
}

/// The size of a basis's stored form.
#[tactic(auto, unfolding(crate::specs::StoredForms::basis_bytes))]
fn basis_size(basis: &Basis) -> u64
    ensures { result ≡ saturated (length (basis_bytes basis.now)) }
{
    let rest = plus(term_size(&basis.rule), who_size(&basis.who));
    plus(piece_size(basis.acl.as_str().as_bytes()), rest)
}

/// Reads a basis from its stored form.
#[tactic(auto, unfolding(crate::specs::Reading::basis_at))]
fn basis_of(alloc: Global, bytes: &[u8]) -> Result<(Basis, &[u8]), ReadBack>
    ensures { Gives (λ x. (x.0, x.1.now)) result (basis_at bytes.now) }
{
    let (acl, rest) = path_of(alloc, bytes)?;
    let (rule, rest) = term_of(alloc, rest)?;
    let (who, rest) = who_of(alloc, rest)?;
    Ok((Basis { acl, rule, who }, rest))
}

impl Stored for Basis {
    ghost use Rattle.stored_forms.specs.Reading.{basis_at};
    ghost use Rattle.stored_forms.specs.Storable.{IsStorableBasis};
    ghost use Rattle.stored_forms.specs.StoredForms.{basis_bytes};

    ghost form = { basis_bytes };

    ghost is_storable = { λ basis. IsStorableBasis basis };

    ghost fits = { λ basis. Unit {0} };

    ghost reads = { basis_at };

    const LEAST: usize = 19;

    fn size(&self) -> u64 {
        basis_size(self)
    }

    fn put(&self, out: &mut Vec<u8>) -> Mem<()> {
        put_basis(out, self)
    }

    fn read(alloc: Global, bytes: &[u8]) -> Result<(Basis, &[u8]), ReadBack> {
        basis_of(alloc, bytes)
    }
}
