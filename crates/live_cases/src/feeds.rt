//! What a feed on a new store does.

use crate::script::Script;
use crate::store::OWNER;
use crate::wire::CaseWire;
use case_words::{first_word, numbers_of, path_or_root};
use pod_base::{Agent, Mem, NoMemory, Text};
use pod_feed::serve_feed;
use pod_io::MemWire;
use pod_live::{CommittedEntry, Rounds, Session, StoreName};
use pod_path::Path;
use published_view::ViewName;
use std::alloc::Global;
use std::sync::Wait;

/// The most texts that are all shown.
const SHOWN_LIMIT: usize = 3;

/// What a feed is begun with.
#[derive(Drop)]
struct Begin {
    topic: Path,
    agent: Agent,
    last: Option<u64>,
    wire: MemWire,
}

/// The agent of a word.
fn agent_of(alloc: Global, word: &str) -> Mem<Agent> {
    match word {
        "owner" => Ok(Agent::Known(Text::of(alloc, OWNER)?)),
        "bob" => Ok(Agent::Known(Text::of(alloc, "https://bob.example/#me")?)),
        _ => Ok(Agent::Public),
    }
}

/// How many polls the steps have.
fn polls_of(steps: &[&str]) -> u64 {
    let mut polls: u64 = 0;
    for step in steps {
        if *step == "poll" {
            polls = polls.saturating_add(1);
        }
    }
    polls
}

/// What the feed of a case is begun with: that of its step `feed`.
fn begin_of(alloc: Global, steps: &[&str]) -> Mem<Option<Begin>> {
    for step in steps {
        let (word, words) = first_word(step);
        if word == "feed" {
            let (topic, words) = first_word(words);
            let (agent, words) = first_word(words);
            let (last, failing) = first_word(words);
            return Ok(Some(Begin {
                topic: path_or_root(alloc, topic)?,
                agent: agent_of(alloc, agent)?,
                last: last.parse::<u64>().ok(),
                wire: MemWire::new(alloc, polls_of(steps), numbers_of(alloc, failing, ' ')?),
            }));
        }
    }
    Ok(None)
}

/// The texts that a wire has sent.
fn sent_text(alloc: Global, sent: &[Text]) -> Mem<String> {
    let mut text = format!(in alloc; "sent {}", sent.len())?;
    for (index, notice) in sent.iter().enumerate() {
        if sent.len() <= SHOWN_LIMIT || index == 0 || index.saturating_add(1) == sent.len() {
            text.push(' ')?;
            text.push_str(notice.as_str())?;
        } else if index == 1 {
            text.push_str(" ..")?;
        }
    }
    Ok(text)
}

/// Does the steps before a feed, serves it, and shows what it did.
fn feed<N: ViewName<CommittedEntry> + StoreName, L: Rounds<N>, R: Wait>(
    rt: &R,
    alloc: Global,
    wire: &mut CaseWire<'_, N, L, R, MemWire>,
    session: &mut Session<N>,
    last: Option<u64>,
    topic: &Path,
    agent: &Agent,
) -> Mem<String> {
    wire.script.run();
    let last = last.unwrap_or(wire.script.seen());
    wire.script.run_call("feed");
    let end = serve_feed(rt, alloc, session, wire, last, topic, agent);
    let left = wire.script.steps.len().saturating_sub(wire.script.next);
    let refused = wire.script.refused;
    let seen = session.seen();
    let sent = sent_text(alloc, wire.wire.sent())?;
    Ok(format!(in alloc;
        "{end:?}; seen {seen}; refused {refused}; left {left}; {}",
        sent.as_str()
    )?)
}

/// Does the steps by one session, and serves a feed by another one.
pub(crate) fn run<'x, N: ViewName<CommittedEntry> + StoreName, L: Rounds<N>, R: Wait>(
    rt: &'x R,
    alloc: Global,
    live: &'x L,
    changing: &'x mut Session<N>,
    feeding: &mut Session<N>,
    steps: &'x [&'x str],
) -> Mem<String> {
    let owner = Text::of(alloc, OWNER)?;
    let Some(begin) = begin_of(alloc, steps)? else {
        return Err(NoMemory);
    };
    let Begin {
        topic,
        agent,
        last,
        wire,
    } = begin;
    let mut wire = CaseWire {
        script: Script {
            rt,
            alloc,
            live,
            session: &mut *changing,
            owner: &owner,
            steps,
            next: 0,
            refused: 0,
        },
        wire,
    };
    feed(rt, alloc, &mut wire, feeding, last, &topic, &agent)
}
