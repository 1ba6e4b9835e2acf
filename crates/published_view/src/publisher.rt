//! The writing end of a view.
ghost use Rattle.std.specs.Prelude.{◌≡◌, ◌<◌, ◌^◌, ◌++◌, [], ◌∷◌, Some, None};
ghost use Rattle.std.specs.Prelude.{IfOk, IfSome, IfNone, OnSome, OnErr, OnOk};
ghost use Rattle.std.specs.Arc.{arc_value};
ghost use Rattle.std.specs.Option.{ForSome};
ghost use mathlib.Core.List.{IsPrefix};
ghost use Rattle.published_view.specs.Copies.{last_of, shown_in, waiting_in};
ghost use Rattle.published_view.specs.LookerState.{IsNewLooker, CountIncreasedByOne};
ghost use Rattle.published_view.specs.LookerState.{OnNoPlace, NotNoPlace};

use crate::fault::ViewFault;
use crate::list_prefix::{Front, LengthWord, NewList};
use crate::look_counter::{LookCounter, LookRecord, PublishStep};
use crate::looker::Looker;
use crate::refused_openings::Places;
use crate::represented_list::Told;
use crate::version_with_list::{KeptTwice, VersionWithList};
use crate::view_name::ViewName;
use core::mem::replace_with;
use left_right::writer::Writer;
use pod_base::Mem;
use std::alloc::{AllocError, Global};
use std::marker::Model;
use std::sync::{Arc, Wait};

/// The two copies of what is published.
pub(crate) type Copies<V, N> = Writer<
    VersionWithList<V, N>,
    VersionWithList<V, N>,
    LookRecord<<V as Told>::Item>,
    LookCounter,
>;

/// The writing end of a view. It is not `Drop`: end it by [`Publisher::close`].
pub struct Publisher<V: Told, N: ViewName<V::Item>>
where
    VersionWithList<V, N>: KeptTwice,
{
    copies: Writer<VersionWithList<V, N>, VersionWithList<V, N>, LookRecord<V::Item>, LookCounter>,
    length: LengthWord<V::Item, N>,
    // The version of the next publication.
    next: Option<Arc<V>>,
}

impl<V: Told, N: ViewName<V::Item>> Model for Publisher<V, N>
where
    VersionWithList<V, N>: KeptTwice,
{
    ghost use Rattle.std.specs.Prelude.{◌≡◌, [], option_map};
    ghost use Rattle.std.specs.Arc.{arc_value};
    ghost use Rattle.published_view.specs.VersionWithList.{PublisherState};
    ghost use Rattle.published_view.specs.Copies.{shown_in, waiting_in};

    ghost Value = { PublisherState V V.Item };

    ghost view = { λ p. record {
      version = (shown_in p.copies).version;
      list = (shown_in p.copies).list;
      next = option_map arc_value p.next;
      table = p.copies.desk.place.table_id;
    } };

    ghost invariant = { λ p. waiting_in p.copies ≡ [] };
}

impl<V: Told, N: ViewName<V::Item>> Publisher<V, N> {
    /// Opens the publisher of a view with two copies of this version, and room for so many readers.
    pub(crate) fn open(
        alloc: Global,
        list: NewList<V::Item>,
        first: Arc<V>,
        readers: usize,
    ) -> Mem<Publisher<V, N>>
        requires book { list ≡ N.book }
        requires stands { V.stands (arc_value first) N.first_number N.opening }
        requires readers { (0 < readers) × (readers < 2 ^ 32) }
        ensures version { IfOk result (λ publisher. publisher.version ≡ arc_value first) }
        ensures list { IfOk result (λ publisher. publisher.list ≡ N.opening) }
        ensures next { IfOk result (λ publisher. publisher.next ≡ None) }
    {
        let (length, front) = list.under_name::<N>();
        let version = Arc::try_clone(&first)?;
        let second = VersionWithList {
            version,
            front: front.copy(),
        };
        let first = VersionWithList {
            version: first,
            front,
        };
        let copies = make_copies(alloc, first, second, readers)?;
        Ok(Publisher {
            copies,
            length,
            next: None,
        })
    }

    /// A looker that has seen what the publisher has published, if `left_right` has a place for it.
    pub(crate) fn looker(&self, places: &mut Places) -> Result<Looker<V, N>, ViewFault>
        ensures looker { IfOk result (λ looker. IsNewLooker self.now.list looker) }
        ensures table { IfOk result (λ looker. looker.table ≡ self.now.table) }
        ensures refused { OnNoPlace result (CountIncreasedByOne places.old places.new) }
        ensures kept { NotNoPlace result (places.new ≡ places.old) }
    {
        match self.copies.factory().reader() {
            Ok(reader) => Ok(Looker::of(reader, &self.copies.published().front)),
            Err(_) => {
                places.count_refusal();
                Err(ViewFault::NoPlace)
            }
        }
    }

    /// Prepares the version that the publisher publishes next, whatever was prepared before. It
    /// takes no memory.
    pub fn prepare(&mut self, next: Arc<V>)
        ensures next { self.new.next ≡ Some (arc_value next) }
        ensures rest { record self.new { next = self.old.next } ≡ self.old }
    {
        self.next = Some(next);
    }

    /// The list that the publisher has published, for a looker to learn.
    pub fn tell(&self) -> Front<V::Item, N>
        ensures list { result ≡ self.now.list }
        ensures stands { V.stands self.now.version N.first_number self.now.list }
        ensures opening { IsPrefix N.opening self.now.list }
    {
        let front = self.copies.published().front.copy();
        let _ = front.added();
        front
    }

    /// Publishes the version that was prepared since the last publication, of the published list
    /// with this item after it. Where none was, version and list stay. It keeps nothing of the
    /// item.
    ///
    /// It waits for the readers of the copy that it changes. Where it finds no memory it tries
    /// again; a list to which 2^64 - 1 items were added takes no more, and it then waits for ever.
    pub fn publish<R: Wait>(&mut self, rt: &R, item: &V::Item)
        requires { ForSome self.old.next
            (λ next. V.stands next N.first_number (self.old.list ++ item.now ∷ [])) }
        ensures version { IfSome self.old.next (λ next. self.new.version ≡ next) }
        ensures list { OnSome self.old.next (self.new.list ≡ self.old.list ++ item.now ∷ []) }
        ensures version_stays { IfNone self.old.next (self.new.version ≡ self.old.version) }
        ensures list_stays { IfNone self.old.next (self.new.list ≡ self.old.list) }
        ensures next { self.new.next ≡ None }
    {
        let Some(version) = self.next.take() else {
            return;
        };
        let front = extend_list(rt, &self.length, &self.copies.published().front, item);
        append_until(rt, &mut self.copies, VersionWithList { version, front });
        publish_appended(rt, &mut self.copies);
    }

    /// Ends the publisher's view, and returns the version that was published last. It waits for the
    /// readers; looks that come later answer `NoPlace`.
    pub fn close<R: Wait>(self, rt: &R) -> Arc<V>
        ensures { arc_value result ≡ self.version }
    {
        let Publisher {
            copies,
            length: _,
            next: _,
        } = self;
        let VersionWithList { version, front: _ } = Box::into_inner(copies.take(rt));
        version
    }
}

/// Makes the two copies of what a publisher has published.
fn make_copies<V: Told, N: ViewName<V::Item>>(
    alloc: Global,
    first: VersionWithList<V, N>,
    second: VersionWithList<V, N>,
    readers: usize,
) -> Mem<Copies<V, N>>
    requires readers { (0 < readers) × (readers < 2 ^ 32) }
    requires alike { first ≡ second }
    ensures { IfOk result (λ copies. (shown_in copies ≡ first) × (waiting_in copies ≡ [])) }
{
    Ok(Writer::new(alloc, first, second, readers)?)
}

/// The published list with this item appended.
fn extend_list<I, N: ViewName<I>, R: Wait>(
    rt: &R,
    length: &LengthWord<I, N>,
    list: &Front<I, N>,
    item: &I,
) -> Front<I, N>
    ensures { result ≡ list.now ++ item.now ∷ [] }
{
    for _ in rt.forever() {
        let mut longer = list.copy();
        if longer.append(length, item) {
            return longer;
        }
    }
    unreachable!()
}

/// Appends a version to those that wait to be published, however often memory is missing.
fn append_until<V: Told, N: ViewName<V::Item>, R: Wait>(
    rt: &R,
    copies: &mut Copies<V, N>,
    next: VersionWithList<V, N>,
)
    requires { waiting_in copies.old ≡ [] }
    ensures shown { copies.new.desk ≡ copies.old.desk }
    ensures waiting { waiting_in copies.new ≡ next ∷ [] }
{
    let mut next = next;
    for _ in rt.forever() {
        match copies.append(next) {
            Ok(()) => return,
            Err(back) => next = back,
        }
    }
    unreachable!()
}

/// Makes one try to publish the versions that wait.
fn try_publish<V: Told, N: ViewName<V::Item>, R: Wait>(
    rt: &R,
    copies: Copies<V, N>,
) -> (Copies<V, N>, Result<(), AllocError>)
    ensures shown { OnOk result.1
        (shown_in result.0 ≡ last_of (shown_in copies) (waiting_in copies)) }
    ensures none_waits { OnOk result.1 (waiting_in result.0 ≡ []) }
    ensures stays { OnErr result.1 (shown_in result.0 ≡ shown_in copies) }
    ensures waits { OnErr result.1 (waiting_in result.0 ≡ waiting_in copies) }
{
    copies.publish_as::<PublishStep, R>(rt)
}

/// Publishes the versions that wait, however often memory is missing.
fn publish_until<V: Told, N: ViewName<V::Item>, R: Wait>(
    rt: &R,
    copies: Copies<V, N>,
) -> Copies<V, N>
    ensures shown { shown_in result ≡ last_of (shown_in copies) (waiting_in copies) }
    ensures waiting { waiting_in result ≡ [] }
{
    let mut copies = copies;
    for _ in rt.forever() {
        let (next, done) = try_publish(rt, copies);
        copies = next;
        if done.is_ok() {
            return copies;
        }
    }
    unreachable!()
}

/// Publishes the versions that wait, in place, however often memory is missing.
fn publish_appended<V: Told, N: ViewName<V::Item>, R: Wait>(rt: &R, copies: &mut Copies<V, N>)
    ensures shown { shown_in copies.new ≡ last_of (shown_in copies.old) (waiting_in copies.old) }
    ensures waiting { waiting_in copies.new ≡ [] }
{
    replace_with(
        copies,
        rt,
        |copies: Copies<V, N>, rt: &R| -> (Copies<V, N>, ())
            ensures shown { shown_in result.0 ≡ last_of (shown_in copies) (waiting_in copies) }
            ensures waiting { waiting_in result.0 ≡ [] }
        { (publish_until::<V, N, R>(rt, copies), ()) },
    );
}
