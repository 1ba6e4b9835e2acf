//! Cases of access lists and decisions, without a pod.
//!
//! The base is `https://pod.example/`. A graph is a field of three words of `case_words::pod_term`
//! for each triple, and `;` after each but the last. Members are groups' members: for each the path
//! of the document, the group and the agent.
//!
//! | Fields | Result |
//! |---|---|
//! | `rules` GRAPH | the rules of an access list |
//! | `decide` GRAPH HOW PATH AGENT MODE MEMBERS | the rule and the subject by which the list that governs a path, `own` or `inherited`, grants a mode, and its basis, or `none` |
//! | `modes` GRAPH HOW PATH AGENT MEMBERS | what `WAC-Allow` says of the agent and of everybody |
//! | `many` COUNT AGENT MODE | the decision on `/` by a list of so many rules, of which rule N gives agent N the mode `read` |
//! | `needs` METHOD PATH ROW ABOVE PARTS | what a request needs; ROW is `row` where its path is a row, ABOVE the nearest container. PARTS has `c` for conditions, `d` for deletions, `i` for insertions and `t` for preconditions |
//! | `allow` USER PUBLIC | the text of `WAC-Allow`, for read, write, append and control as `1` or `0` |

use crate::{access_needs, decisions};
use pod_base::Mem;
use std::alloc::Global;

/// What the libraries return for a call and the other fields of a case.
pub(crate) fn answer(alloc: Global, call: &str, fields: &[&str]) -> Mem<String> {
    match (call, fields) {
        ("rules", [graph]) => decisions::rules(alloc, graph),
        ("decide", [graph, how, at, agent, mode, members]) => {
            decisions::decide(alloc, graph, [how, at, agent, members], mode)
        }
        ("modes", [graph, how, at, agent, members]) => {
            decisions::modes(alloc, graph, [how, at, agent, members])
        }
        ("many", [count, agent, mode]) => decisions::many(alloc, count, agent, mode),
        ("needs", [method, path, exists, above, parts]) => {
            access_needs::needs_of(alloc, [method, path, exists, above, parts])
        }
        ("allow", [user, public]) => access_needs::allow(alloc, user, public),
        _ => Ok(String::from_str(alloc, "no case")?),
    }
}
