//! Cases of reports.
//!
//! | Fields after the pod | Result |
//! |---|---|
//! | `report`: AGENT | the lines of the agent's report, with `\|` before each |
//! | `checks`: AGENT PATH MODE LIST NODE SUBJECT | whether the line of these five words checks |
//!
//! The subject is `agent`, `everyone`, `authenticated`, or a group's IRI.

use crate::row_words::BASE;
use crate::words::{agent_of, mode_of, mode_word};
use access_report::{Line, checks, report};
use audit_trail::append_basis;
use case_words::{path_or_root, pod_iri, pod_term, shown_whole};
use pod_base::{Agent, Mem, Text};
use pod_command::{Basis, Who};
use pod_rows::PlainRows;
use std::alloc::Global;

fn who_of(alloc: Global, word: &str) -> Mem<Who> {
    match word {
        "agent" => Ok(Who::Agent),
        "everyone" => Ok(Who::Everyone),
        "authenticated" => Ok(Who::Authenticated),
        _ => {
            let iri = pod_iri(alloc, BASE, word)?;
            Ok(Who::Group(Text::of(alloc, iri.as_str())?))
        }
    }
}

/// Appends a line after `|`.
fn push_line(alloc: Global, shown: &mut String, line: &Line) -> Mem<()> {
    let mut basis = Vec::new(alloc);
    append_basis(alloc, &mut basis, &line.basis)?;
    let basis = shown_whole(alloc, basis.as_slice())?;
    let path = line.path.as_str();
    let mode = mode_word(line.mode);
    write!(shown, "|{path} {mode} {basis}")?;
    Ok(())
}

/// The lines of a report.
fn report_text(alloc: Global, state: &PlainRows, agent: &Agent) -> Mem<String> {
    let mut shown = String::new(alloc);
    let lines = report(alloc, state, agent)?;
    for line in lines.as_slice() {
        push_line(alloc, &mut shown, line)?;
    }
    Ok(shown)
}

/// The line of five words.
fn line_of(alloc: Global, words: [&str; 5]) -> Mem<Line> {
    let [path, mode, acl, node, who] = words;
    Ok(Line {
        path: path_or_root(alloc, path)?,
        mode: mode_of(mode),
        basis: Basis {
            acl: path_or_root(alloc, acl)?,
            rule: pod_term(alloc, BASE, node)?,
            who: who_of(alloc, who)?,
        },
    })
}

/// Whether a line checks.
fn checks_text(alloc: Global, state: &PlainRows, agent: &Agent, line: &Line) -> Mem<String> {
    let checks = checks(alloc, state, agent, line)?;
    Ok(format!(in alloc; "{checks}")?)
}

/// What the library returns for a call on a pod.
pub(crate) fn answer(alloc: Global, state: &PlainRows, call: &str, words: &[&str]) -> Mem<String> {
    match (call, words) {
        ("report", [agent]) => {
            let agent = agent_of(alloc, BASE, agent)?;
            report_text(alloc, state, &agent)
        }
        ("checks", [agent, path, mode, acl, node, who]) => {
            let agent = agent_of(alloc, BASE, agent)?;
            let line = line_of(alloc, [path, mode, acl, node, who])?;
            checks_text(alloc, state, &agent, &line)
        }
        _ => Ok(String::from_str(alloc, "no case")?),
    }
}
