//! [`Script`]: the steps of a case of a feed, done by the owner of the pod.
//!
//! | Step | What it does |
//! |---|---|
//! | `put PATH`, `put PATH N` | the owner puts a document there, or N of them one after the other |
//! | `delete PATH` | the owner deletes it |
//! | `share PATH MODE` | an access list gives the owner all modes there, and `https://bob.example/#me` one |
//! | `feed TOPIC AGENT` | begins the feed, for `owner`, `bob` or `public`. It tells what follows |
//! | `feed TOPIC AGENT LAST` | the same, from the entry of that number on |
//! | `feed TOPIC AGENT LAST N ..` | the same, by a wire whose calls of these numbers fail |
//! | `poll` | the steps after it are done while the feed polls its wire |
//! | `send` | the steps after it are done while the feed sends a notice |
//!
//! The wire is closed at the poll after the last one. What is shown is how the feed ended, the
//! position after the entries that its last look saw, how many changes were refused, how many steps
//! were not done, and what was sent. Of more than three texts the first and the last one are shown.

use crate::store::{OWNER, SECONDS};
use case_words::first_word;
use pod_base::{Bytes, Field, Fields, List, Mem, Method, Moment, NoMemory, Request, Stamp, Text};
use pod_core::is_change;
use pod_live::{CommittedEntry, Rounds, Session, StoreName};
use published_view::ViewName;
use std::alloc::Global;
use std::sync::Wait;
use token_table::Asked;

/// A request of the owner's.
pub(crate) fn request(
    alloc: Global,
    method: Method,
    path: &str,
    content: &str,
    body: &str,
) -> Mem<Request> {
    let mut list = List::new(alloc);
    let name = Bytes::from_static(b"content-type");
    let value = Bytes::of(alloc, content.as_bytes())?;
    if list.push(alloc, Field { name, value }).is_err() {
        return Err(NoMemory);
    }
    Ok(Request {
        method,
        target: Bytes::of(alloc, path.as_bytes())?,
        minor: 1,
        fields: Fields { list },
        body: Bytes::of(alloc, body.as_bytes())?,
    })
}

/// An access list of a path: it gives the owner all modes there, and another agent one.
fn access_list(alloc: Global, path: &str, mode: &str) -> Mem<String> {
    Ok(format!(in alloc;
        "@prefix acl: <http://www.w3.org/ns/auth/acl#>. <#a> a acl:Authorization; acl:agent <{OWNER}>; acl:accessTo <http://127.0.0.1:8080{path}>; acl:mode acl:Read, acl:Write, acl:Control. <#b> a acl:Authorization; acl:agent <https://bob.example/#me>; acl:accessTo <http://127.0.0.1:8080{path}>; acl:mode acl:{mode}."
    )?)
}

/// The steps of a case, the first that isn't done yet, and the session by which they are done.
#[derive(Drop)]
pub(crate) struct Script<'a, N: ViewName<CommittedEntry> + StoreName, L, R> {
    pub(crate) rt: &'a R,
    pub(crate) alloc: Global,
    pub(crate) live: &'a L,
    pub(crate) session: &'a mut Session<N>,
    pub(crate) owner: &'a Text,
    pub(crate) steps: &'a [&'a str],
    pub(crate) next: usize,
    // How many changes weren't done.
    pub(crate) refused: u64,
}

impl<'a, N: ViewName<CommittedEntry> + StoreName, L: Rounds<N>, R: Wait> Script<'a, N, L, R> {
    /// Makes a change. Returns whether it was done.
    fn commit(&mut self, request: &Request) -> bool {
        if !is_change(request.method) {
            return false;
        }
        let asked = Asked::Known(self.owner);
        let stamp = Stamp {
            conn: 1,
            number: 1,
            moment: Moment(SECONDS),
        };
        match self
            .live
            .commit(self.rt, self.alloc, self.session, request, &asked, stamp)
        {
            Ok(placed) => placed.response.status < 300,
            Err(_fault) => false,
        }
    }

    /// Makes the change of a step. Returns whether it was done.
    fn change(&mut self, word: &str, path: &str, rest: &str) -> Mem<bool> {
        let alloc = self.alloc;
        let request = match word {
            "put" => request(alloc, Method::Put, path, "application/octet-stream", "x")?,
            "share" => {
                let list = access_list(alloc, path, rest)?;
                let path = format!(in alloc; "{path}.acl")?;
                request(
                    alloc,
                    Method::Put,
                    path.as_str(),
                    "text/turtle",
                    list.as_str(),
                )?
            }
            _ => request(alloc, Method::Delete, path, "text/plain", "")?,
        };
        Ok(self.commit(&request))
    }

    /// Does a step, as often as it says.
    fn step(&mut self, field: &str) {
        let (word, words) = first_word(field);
        let (path, rest) = first_word(words);
        for _ in 0..rest.parse::<u64>().unwrap_or(1) {
            if !self.change(word, path, rest).unwrap_or(false) {
                self.refused = self.refused.saturating_add(1);
            }
        }
    }

    /// The position after the entries that its session has seen.
    pub(crate) fn seen(&self) -> u64 {
        self.session.seen()
    }

    /// Whether the next step's word is that one.
    pub(crate) fn is_at(&self, word: &str) -> bool {
        match self.steps.get(self.next) {
            Some(field) => first_word(field).0 == word,
            None => false,
        }
    }

    /// Does the steps up to the next one whose word is that of another call.
    pub(crate) fn run(&mut self) {
        for _ in 0..self.steps.len() {
            if self.is_at("feed") || self.is_at("poll") || self.is_at("send") {
                return;
            }
            if let Some(field) = self.steps.get(self.next) {
                self.step(field);
                self.next = self.next.saturating_add(1);
            }
        }
    }

    /// Does the steps of a call, where the next ones are those of such a call.
    pub(crate) fn run_call(&mut self, word: &str) {
        if self.is_at(word) {
            self.next = self.next.saturating_add(1);
            self.run();
        }
    }
}
