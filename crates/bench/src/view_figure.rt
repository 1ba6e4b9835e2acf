//! The figure `view`: looks of four lookers, without and with a publisher beside them.
ghost use Rattle.std.specs.Prelude.{◌≡◌};

use pod_base::Mem;
use published_view::{Looker, NewList, Places, Publisher, Told, ViewName, open_view};
use std::alloc::Global;
use std::marker::Brand;
use std::sync::atomic::{AtomicU64, Ordering};
use std::sync::{Arc, Wait};
use std::thread;
use std::thread::{Threads, join};
use std::time::{Clock, Duration, Instant};

/// A version. It stands for any list, since a measurement needs to know none.
#[derive(Drop)]
pub struct Counted {
    pub number: u64,
}

impl Told for Counted {
    type Item = u64;

    ghost stands = { λ v first list. Unit {0} };
}

/// The version of a number.
pub fn make_version(alloc: Global, number: u64) -> Mem<Arc<Counted>> {
    Ok(Arc::new(alloc, Counted { number })?)
}

/// Makes so many looks, and returns how many of them gave a version.
fn look_often<N: ViewName<u64>>(
    looker: Option<Looker<Counted, N>>,
    looks: u64,
    ended: &AtomicU64,
) -> u64 {
    let mut given = 0u64;
    if let Some(mut looker) = looker {
        for _ in 0..looks {
            if looker.look().is_ok() {
                given = given.saturating_add(1);
            }
        }
    }
    ended.fetch_add(1, Ordering::SeqCst);
    given
}

/// Publishes a version each millisecond until four lookers have ended.
fn publish_beside<N: ViewName<u64>, R: Wait + Clock>(
    rt: &R,
    alloc: Global,
    publisher: &mut Publisher<Counted, N>,
    ended: &AtomicU64,
) {
    for _ in rt.forever() {
        if ended.load(Ordering::SeqCst) >= 4 {
            return;
        }
        let number = publisher.tell().added();
        if let Ok(next) = make_version(alloc, number) {
            publisher.prepare(next);
        }
        publisher.publish(rt, &number);
        thread::sleep(rt, Duration::from_millis(1));
    }
}

/// The looks of four lookers in threads of their own.
fn look_beside<N: ViewName<u64> + Send + Sync, R: Threads + Sync>(
    rt: &R,
    lookers: (Option<Looker<Counted, N>>, Option<Looker<Counted, N>>),
    others: (Option<Looker<Counted, N>>, Option<Looker<Counted, N>>),
    looks: u64,
    ended: &AtomicU64,
) -> u64 {
    let (a, b) = lookers;
    let (c, d) = others;
    let (front, back) = join(
        rt,
        move || join(
            rt,
            move || look_often(a, looks, ended),
            move || look_often(b, looks, ended),
        ),
        move || join(
            rt,
            move || look_often(c, looks, ended),
            move || look_often(d, looks, ended),
        ),
    );
    front
        .0
        .saturating_add(front.1)
        .saturating_add(back.0)
        .saturating_add(back.1)
}

/// The looks of four lookers that gave a version, and the microseconds that they took.
fn measure<N: ViewName<u64> + Send + Sync, R: Threads + Wait + Clock + Sync>(
    rt: &R,
    alloc: Global,
    list: NewList<u64>,
    looks: u64,
    publishes: bool,
) -> anyhow::Result<(u64, u128)>
    requires { list ≡ N.book }
{
    let first = make_version(alloc, 0)?;
    let start = Instant::now(rt)?;
    let (mut publisher, mut lookers) = open_view::<Counted, N, R>(
        rt,
        alloc,
        list,
        first,
        4,
        &mut Places::new(),
    )?;
    let front = (lookers.pop(), lookers.pop());
    let back = (lookers.pop(), lookers.pop());
    let ended = AtomicU64::new(if publishes { 0 } else { 4 });
    let (_, given) = join(
        rt,
        || publish_beside(rt, alloc, &mut publisher, &ended),
        || look_beside(rt, front, back, looks, &ended),
    );
    let _ = publisher.close(rt);
    Ok((given, start.elapsed(rt)?.as_micros()))
}

/// How many looks gave a version, and how many looks a second had.
#[derive(Clone, Copy)]
pub struct Looks {
    pub given: u64,
    pub rate: u64,
}

/// The looks of these microseconds.
fn rate_looks(looks: (u64, u128)) -> Looks {
    let micros = looks.1.max(1);
    let rate = u64::try_from(u128::from(looks.0) * 1_000_000 / micros).unwrap_or(u64::MAX);
    Looks {
        given: looks.0,
        rate,
    }
}

/// Has four lookers make so many looks each, first alone, then beside a publisher.
pub fn read_versions<R: Threads + Wait + Clock + Sync>(
    rt: &R,
    alloc: Global,
    looks: u64,
) -> anyhow::Result<(Looks, Looks)> {
    let alone = measure::<Brand, R>(rt, alloc, NewList::new(), looks, false)?;
    let beside = measure::<Brand, R>(rt, alloc, NewList::new(), looks, true)?;
    Ok((rate_looks(alone), rate_looks(beside)))
}
