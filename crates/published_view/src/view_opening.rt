//! The opening of a view.
ghost use Rattle.std.specs.Prelude.{◌≡◌, ◌≤◌, ◌<◌, None, All, IfOk, length};
ghost use Rattle.std.specs.Arc.{arc_value};
ghost use Rattle.published_view.specs.LookerState.{IsNewLooker, CountIncreasedByOne};
ghost use Rattle.published_view.specs.LookerState.{OnNoPlace, NotNoPlace};

use crate::fault::ViewFault;
use crate::list_prefix::NewList;
use crate::looker::Looker;
use crate::publisher::Publisher;
use crate::refused_openings::Places;
use crate::represented_list::Told;
use crate::view_name::ViewName;
use pod_base::List;
use std::alloc::Global;
use std::sync::{Arc, Wait};

/// How many lookers a view has at most.
pub const READERS_LIMIT: usize = 64;

/// Opens a view of this version for so many lookers, each of which has seen the opening list.
/// `NoPlace` says that `left_right` refused a looker its place.
pub fn open_view<V: Told, N: ViewName<V::Item>, R: Wait>(
    rt: &R,
    alloc: Global,
    list: NewList<V::Item>,
    first: Arc<V>,
    readers: usize,
    places: &mut Places,
) -> Result<(Publisher<V, N>, List<Looker<V, N>>), ViewFault>
    requires book { list ≡ N.book }
    requires stands { V.stands (arc_value first) N.first_number N.opening }
    requires readers { (0 < readers) × (readers ≤ READERS_LIMIT) }
    ensures version { IfOk result (λ view. view.0.version ≡ arc_value first) }
    ensures list { IfOk result (λ view. view.0.list ≡ N.opening) }
    ensures next { IfOk result (λ view. view.0.next ≡ None) }
    ensures readers { IfOk result (λ view. length view.1.items ≡ readers) }
    ensures lookers { IfOk result (λ view. All (IsNewLooker N.opening) view.1.items) }
    ensures table { IfOk result (λ view. All (λ looker. looker.table ≡ view.0.table) view.1.items) }
    ensures refused { OnNoPlace result (CountIncreasedByOne places.old places.new) }
    ensures kept { NotNoPlace result (places.new ≡ places.old) }
{
    let publisher = Publisher::open(alloc, list, first, readers)?;
    match make_lookers(alloc, &publisher, readers, places) {
        Ok(lookers) => Ok((publisher, lookers)),
        Err(fault) => {
            let _ = publisher.close(rt);
            Err(fault)
        }
    }
}

/// Makes the lookers of a view that is opened, and takes a place for each.
fn make_lookers<V: Told, N: ViewName<V::Item>>(
    alloc: Global,
    publisher: &Publisher<V, N>,
    readers: usize,
    places: &mut Places,
) -> Result<List<Looker<V, N>>, ViewFault>
    ensures readers { IfOk result (λ lookers. length lookers.items ≡ readers) }
    ensures lookers { IfOk result (λ lookers. All (IsNewLooker publisher.now.list) lookers.items) }
    ensures table { IfOk result
        (λ lookers. All (λ looker. looker.table ≡ publisher.now.table) lookers.items) }
    ensures refused { OnNoPlace result (CountIncreasedByOne places.old places.new) }
    ensures kept { NotNoPlace result (places.new ≡ places.old) }
{
    let mut lookers = List::new(alloc);
    for _ in 0..readers {
        let looker = publisher.looker(places)?;
        if lookers.push(alloc, looker).is_err() {
            return Err(ViewFault::NoMemory);
        }
    }
    Ok(lookers)
}
