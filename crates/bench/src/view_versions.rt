//! Which versions looks give: the one that is published, none after the end of the view, and beside
//! a publisher later and later ones, up to the last.
ghost use Rattle.std.specs.Prelude.{◌≡◌};

use crate::view_figure::{Counted, make_version};
use pod_base::Mem;
use published_view::{Looker, NewList, Places, Publisher, ViewFault, ViewName, open_view};
use std::alloc::Global;
use std::marker::Brand;
use std::sync::Wait;
use std::thread::{Threads, join};

/// How many looks gave the version that was published, at first and after a publication, and how
/// many looks and openings were refused by then; how many looks were refused after the end.
#[derive(Clone, Copy)]
struct Given {
    first: u64,
    second: u64,
    refused: u64,
    openings: u64,
    ended: u64,
}

/// How many of so many looks of each looker give the version of this number.
fn count_given<N: ViewName<u64>>(
    lookers: &mut [Looker<Counted, N>],
    looks: u64,
    number: u64,
) -> u64 {
    let mut given = 0u64;
    for looker in lookers.iter_mut() {
        for _ in 0..looks {
            match looker.look() {
                Ok(version) if version.number == number => given = given.saturating_add(1),
                _ => {}
            }
        }
    }
    given
}

/// Tells all lookers what was published.
fn tell_all<N: ViewName<u64>>(
    publisher: &Publisher<Counted, N>,
    lookers: &mut [Looker<Counted, N>],
) {
    for looker in lookers.iter_mut() {
        looker.learn(publisher.tell());
    }
}

/// How many looks were refused.
fn count_refused<N: ViewName<u64>>(lookers: &[Looker<Counted, N>]) -> u64 {
    let mut refused = 0u64;
    for looker in lookers {
        refused = refused.saturating_add(looker.refused());
    }
    refused
}

/// Has four lookers look so many times each, again after a publication, and once after the end.
fn look<N: ViewName<u64>, R: Wait>(
    rt: &R,
    alloc: Global,
    list: NewList<u64>,
    looks: u64,
) -> Result<Given, ViewFault>
    requires { list ≡ N.book }
{
    let mut places = Places::new();
    let first = make_version(alloc, 0)?;
    let second = make_version(alloc, 1)?;
    let (mut publisher, mut lookers) = open_view::<Counted, N, R>(
        rt,
        alloc,
        list,
        first,
        4,
        &mut places,
    )?;
    let lookers = lookers.as_mut_slice();
    let first = count_given(lookers, looks, 0);
    publisher.prepare(second);
    publisher.publish(rt, &7);
    tell_all(&publisher, lookers);
    let second = count_given(lookers, looks, 1);
    let refused = count_refused(lookers);
    let _ = publisher.close(rt);
    let _ = count_given(lookers, 1, 1);
    Ok(Given {
        first,
        second,
        refused,
        openings: places.refused(),
        ended: count_refused(lookers).saturating_sub(refused),
    })
}

/// Has four lookers look at a view of two versions, and prints how many looks gave the version that
/// was published, and how many were refused.
pub fn look_at_versions<R: Wait + Print>(rt: &R, alloc: Global, looks: u64) -> anyhow::Result<()> {
    let given = look::<Brand, R>(rt, alloc, NewList::new(), looks)?;
    println!(rt;
        "looks that gave what was published: {} at first, {} after a publication",
        given.first, given.second
    )?;
    println!(rt;
        "refused: {} openings, {} looks, {} looks after the end",
        given.openings, given.refused, given.ended
    )?;
    Ok(())
}

/// Looks until it has found the version of this number. False where there is no looker, a look
/// gives none, or the numbers fall.
fn follow<N: ViewName<u64>, R: Wait>(
    rt: &R,
    looker: Option<Looker<Counted, N>>,
    last: u64,
) -> bool {
    let Some(mut looker) = looker else {
        return false;
    };
    let mut found = 0;
    for _ in rt.forever() {
        let Ok(version) = looker.look() else {
            return false;
        };
        if version.number < found {
            return false;
        }
        found = version.number;
        if found >= last {
            return found == last;
        }
    }
    unreachable!()
}

/// Publishes so many versions.
fn publish_all<N: ViewName<u64>, R: Wait>(
    rt: &R,
    alloc: Global,
    publisher: &mut Publisher<Counted, N>,
    last: u64,
) -> Mem<()> {
    for number in 0..last {
        let next = make_version(alloc, number + 1)?;
        publisher.prepare(next);
        publisher.publish(rt, &number);
    }
    Ok(())
}

/// Has four lookers in threads of their own follow one that publishes so many versions: whether no
/// looker found an older version after a newer one, and each found the last.
fn follow_beside<N: ViewName<u64> + Send + Sync, R: Threads + Wait + Sync>(
    rt: &R,
    alloc: Global,
    list: NewList<u64>,
    last: u64,
) -> Result<bool, ViewFault>
    requires { list ≡ N.book }
{
    let first = make_version(alloc, 0)?;
    let (mut publisher, mut lookers) = open_view::<Counted, N, R>(
        rt,
        alloc,
        list,
        first,
        4,
        &mut Places::new(),
    )?;
    let a = lookers.pop();
    let b = lookers.pop();
    let c = lookers.pop();
    let d = lookers.pop();
    let (published, followed) = join(
        rt,
        || publish_all(rt, alloc, &mut publisher, last),
        move || {
            let (front, back) = join(
                rt,
                move || join(rt, move || follow(rt, a, last), move || follow(rt, b, last)),
                move || join(rt, move || follow(rt, c, last), move || follow(rt, d, last)),
            );
            front.0 && front.1 && back.0 && back.1
        },
    );
    let _ = publisher.close(rt);
    published?;
    Ok(followed)
}

/// Has four lookers follow a publisher of so many versions, and prints whether they did.
pub fn follow_versions<R: Threads + Wait + Print + Sync>(
    rt: &R,
    alloc: Global,
    last: u64,
) -> anyhow::Result<()> {
    let followed = follow_beside::<Brand, R>(rt, alloc, NewList::new(), last)?;
    println!(rt; "four lookers followed {last} versions in order, up to the last: {followed}")?;
    Ok(())
}
