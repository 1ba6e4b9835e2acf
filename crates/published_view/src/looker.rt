//! The reading end of a view.
ghost use Rattle.std.specs.Prelude.{◌≡◌, ◌+◌, ◌⊎◌, IfOk, IfSome, IfNone};
ghost use Rattle.std.specs.Arc.{arc_value};
ghost use mathlib.Core.List.{IsPrefix};
ghost use Rattle.published_view.specs.LookerState.{IsOneLook, IsRefusedLook, OnNoPlace, NotNoPlace};
ghost use Rattle.published_view.specs.LookSteps.{looks_of, given_of};

use crate::fault::ViewFault;
use crate::list_prefix::Front;
use crate::look_counter::{LookCounter, LookRecord, LookStep};
use crate::represented_list::Told;
use crate::version_with_list::VersionWithList;
use crate::view_name::ViewName;
use core::mem::replace_with;
use left_right::reader::Reader;
use std::alloc::AllocError;
use std::marker::Model;
use std::sync::Arc;

/// The reading end of a view. It waits for nobody, and any number of them look beside each other
/// and beside the publisher.
#[derive(Drop)]
pub struct Looker<V: Told, N: ViewName<V::Item>> {
    reader: Reader<VersionWithList<V, N>, LookRecord<V::Item>, LookCounter>,
    seen: Front<V::Item, N>,
    told: Front<V::Item, N>,
    refused: u64,
}

impl<V: Told, N: ViewName<V::Item>> Model for Looker<V, N> {
    ghost use Rattle.published_view.specs.LookSteps.{looks_of, given_of};
    ghost use Rattle.published_view.specs.LookerState.{LookerState};

    ghost Value = { LookerState V.Item };

    ghost view = { λ l. record {
      seen = l.seen;
      told = l.told;
      looks = looks_of l.reader.place;
      refused = l.refused;
      given = given_of l.reader.place;
      table = l.reader.place.table_id;
    } };
}

/// What an entry returned.
#[derive(Drop)]
struct Found<V: Told, N: ViewName<V::Item>> {
    version: Result<Arc<V>, AllocError>,
    front: Front<V::Item, N>,
}

/// Makes one entry of a looker, and returns what is published then. `None` where `left_right`
/// refused it.
fn enter<V: Told, N: ViewName<V::Item>>(
    reader: Reader<VersionWithList<V, N>, LookRecord<V::Item>, LookCounter>,
) -> (
    Reader<VersionWithList<V, N>, LookRecord<V::Item>, LookCounter>,
    Option<Found<V, N>>,
)
    ensures looked { IfSome result.1 (λ f. looks_of result.0.place ≡ looks_of reader.place + 1) }
    ensures given { IfSome result.1 (λ f. given_of result.0.place ≡ f.front) }
    ensures version { IfSome result.1 (λ f. IfOk f.version
        (λ version. V.stands (arc_value version) N.first_number f.front)) }
    ensures refused { IfNone result.1 (looks_of result.0.place ≡ looks_of reader.place) }
    ensures kept { IfNone result.1 (given_of result.0.place ≡ given_of reader.place) }
{
    match reader.enter_as::<LookStep>() {
        Ok(reading) => {
            let shown = reading.get();
            let version = Arc::try_clone(&shown.version);
            let front = shown.front.copy();
            (reading.leave(), Some(Found { version, front }))
        }
        Err(reader) => (reader, None),
    }
}

impl<V: Told, N: ViewName<V::Item>> Looker<V, N> {
    /// A looker that has seen this prefix of the view's list.
    pub(crate) fn of(
        reader: Reader<VersionWithList<V, N>, LookRecord<V::Item>, LookCounter>,
        front: &Front<V::Item, N>,
    ) -> Looker<V, N>
        ensures seen { result.seen ≡ front.now }
        ensures told { result.told ≡ front.now }
        ensures looks { result.looks ≡ looks_of reader.place }
        ensures refused { result.refused ≡ 0 }
        ensures table { result.table ≡ reader.place.table_id }
    {
        Looker {
            reader,
            seen: front.copy(),
            told: front.copy(),
            refused: 0,
        }
    }

    /// Makes one look, which is one entry, and returns the version that is published then. It waits
    /// for nobody and takes no memory: `NoMemory` says that the `Arc` has as many owners as it can
    /// count. `NoPlace` says that `left_right` refused the entry, as it does once the view has
    /// ended.
    pub fn look(&mut self) -> Result<Arc<V>, ViewFault>
        ensures version { IfOk result
            (λ version. V.stands (arc_value version) N.first_number self.new.seen) }
        ensures given { IfOk result (λ version. self.new.seen ≡ self.new.given) }
        ensures opening { IfOk result (λ version. IsPrefix N.opening self.new.seen) }
        ensures later { IsPrefix self.old.seen self.new.seen }
        ensures told { NotNoPlace result (IsPrefix self.old.told self.new.seen) }
        ensures keeps { self.new.told ≡ self.old.told }
        ensures made { NotNoPlace result (IsOneLook self.old self.new) }
        ensures refused { OnNoPlace result (IsRefusedLook self.old self.new) }
    {
        let found = replace_with(&mut self.reader, (), |reader, _unit: ()| enter(reader));
        let Some(Found { version, front }) = found else {
            self.refused = self.refused.saturating_add(1);
            return Err(ViewFault::NoPlace);
        };
        let known = self.seen.longer(&self.told);
        if !known.is_prefix_of(&front) {
            // No clause of `left_right` says that a longer list is never published before a shorter
            // one, though it never is. What the looker knows counts as seen here, so that every
            // list is a prefix of the next.
            self.seen = known;
            return Err(ViewFault::NoMemory);
        }
        let _ = front.added();
        self.seen = front;
        match version {
            Ok(version) => Ok(version),
            Err(_) => Err(ViewFault::NoMemory),
        }
    }

    /// Has later looks of the looker hold at least this front.
    pub fn learn(&mut self, front: Front<V::Item, N>)
        ensures told { IsPrefix front self.new.told }
        ensures kept { IsPrefix self.old.told self.new.told }
        ensures one { (self.new.told ≡ front) ⊎ (self.new.told ≡ self.old.told) }
        ensures rest { record self.new { told = self.old.told } ≡ self.old }
    {
        self.told = self.told.longer(&front);
    }

    /// The list that the looker has seen.
    pub fn seen(&self) -> &Front<V::Item, N>
        ensures { result.now ≡ self.now.seen }
    {
        &self.seen
    }

    /// How many entries of the looker were refused. The count stands still at its last value.
    pub fn refused(&self) -> u64
        ensures { result ≡ self.now.refused }
    {
        self.refused
    }
}
