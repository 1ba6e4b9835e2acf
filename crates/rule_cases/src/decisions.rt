//! Cases of rules and decisions.

use crate::groups::{Members, members_of};
use crate::words::{agent_of, mode_of, mode_word};
use acl_rules::{How, Items, Rule, Rules, Subject, rules_of};
use case_words::{add_words, iri_or_bad, path_or_root, pod_graph, shown_whole};
use pod_access::{basis_of, granted, granted_modes, wac_allow};
use pod_base::{Agent, Mem, Mode};
use pod_command::{Basis, Who};
use pod_path::Path;
use rdf_graph::{Graph, Term};
use std::alloc::{AllocError, Global};

/// The base of these cases.
const BASE: &str = "https://pod.example/";

/// The rules of a graph.
fn rules_in(alloc: Global, graph: &Graph) -> Mem<Rules> {
    let base = iri_or_bad(alloc, BASE)?;
    rules_of(alloc, graph, &base)
}

/// The rules of the graph of a field.
fn rules_of_field(alloc: Global, field: &str) -> Mem<Rules> {
    let graph = pod_graph(alloc, BASE, field, ';')?;
    rules_in(alloc, &graph)
}

/// An IRI without the base, but for its last slash.
fn short(iri: &str) -> &str {
    iri.strip_prefix("https://pod.example").unwrap_or(iri)
}

/// A term as it is shown: an IRI without the base.
fn push_term(text: &mut String, term: &Term) -> Result<(), AllocError> {
    match term {
        Term::Iri(iri) => text.push_str(short(iri.as_str())),
        Term::Blank(label) => write!(text, "_{}", label.as_str()),
        Term::Literal { lexical, .. } => text.push_str(lexical.as_str()),
        Term::Tagged { lexical, .. } => text.push_str(lexical.as_str()),
    }
}

fn push_paths(text: &mut String, word: &str, paths: &Items<Path>) -> Result<(), AllocError> {
    for path in paths.as_slice() {
        write!(text, " {word} {}", path.as_str())?;
    }
    Ok(())
}

fn push_modes(text: &mut String, rule: &Rule) -> Result<(), AllocError> {
    for mode in rule.modes.as_slice() {
        write!(text, " {}", mode_word(*mode))?;
    }
    Ok(())
}

fn document_name(doc: &Option<Path>) -> &str {
    match doc {
        Some(path) => path.as_str(),
        None => "elsewhere",
    }
}

fn push_subject(text: &mut String, subject: &Subject) -> Result<(), AllocError> {
    match subject {
        Subject::Agent(iri) => text.push_str(iri.as_str()),
        Subject::Everyone => text.push_str("everyone"),
        Subject::Authenticated => text.push_str("authenticated"),
        Subject::Group { doc, iri } => {
            write!(
                text,
                "group {} of {}",
                short(iri.as_str()),
                document_name(doc)
            )
        }
    }
}

fn push_subjects(text: &mut String, subjects: &Items<Subject>) -> Result<(), AllocError> {
    for subject in subjects.as_slice() {
        text.push(' ')?;
        push_subject(text, subject)?;
    }
    Ok(())
}

/// A rule as its node, `=`, and its values.
fn push_rule(text: &mut String, rule: &Rule) -> Result<(), AllocError> {
    if !text.is_empty() {
        text.push_str("; ")?;
    }
    push_term(text, &rule.node)?;
    text.push_str(" =")?;
    push_paths(text, "to", &rule.access_to)?;
    push_paths(text, "below", &rule.defaults)?;
    push_modes(text, rule)?;
    push_subjects(text, &rule.subjects)
}

fn rules_text(alloc: Global, rules: &Rules) -> Mem<String> {
    let mut text = String::new(alloc);
    for rule in rules.list.as_slice() {
        push_rule(&mut text, rule)?;
    }
    if text.is_empty() {
        text.push_str("none")?;
    }
    Ok(text)
}

/// A copy of the rules of a graph.
pub(crate) fn rules(alloc: Global, field: &str) -> Mem<String> {
    let rules = rules_of_field(alloc, field)?;
    let copy = rules.copy(alloc)?;
    rules_text(alloc, &copy)
}

/// How a list applies to a path, and the agent and the members of groups of a case.
#[derive(Drop)]
struct Question {
    how: How,
    at: Path,
    agent: Agent,
    members: Members,
}

fn how_of(word: &str) -> How {
    match word {
        "own" => How::Own,
        _ => How::Inherited,
    }
}

/// The question of four words.
fn question_of(alloc: Global, words: [&str; 4]) -> Mem<Question> {
    let [how, at, agent, members] = words;
    Ok(Question {
        how: how_of(how),
        at: path_or_root(alloc, at)?,
        agent: agent_of(alloc, BASE, agent)?,
        members: members_of(alloc, BASE, members)?,
    })
}

fn push_basis(text: &mut String, basis: &Basis) -> Result<(), AllocError> {
    push_term(text, &basis.rule)?;
    text.push(' ')?;
    match &basis.who {
        Who::Agent => text.push_str("agent"),
        Who::Everyone => text.push_str("everyone"),
        Who::Authenticated => text.push_str("authenticated"),
        Who::Group(iri) => text.push_str(short(iri.as_str())),
    }
}

/// The ground of a decision and its basis, or `none`.
fn decided(alloc: Global, rules: &Rules, asked: &Question, mode: Mode) -> Mem<String> {
    match granted(
        rules,
        asked.how,
        &asked.at,
        &asked.agent,
        &asked.members,
        mode,
    ) {
        Some(ground) => {
            let basis = basis_of(alloc, rules, &ground, &asked.at)?;
            let mut text = format!(in alloc; "{} {} ", ground.rule, ground.subject)?;
            push_basis(&mut text, &basis)?;
            Ok(text)
        }
        None => Ok(String::from_str(alloc, "none")?),
    }
}

/// The decision of a question of four words on a mode.
pub(crate) fn decide(alloc: Global, graph: &str, words: [&str; 4], mode: &str) -> Mem<String> {
    let asked = question_of(alloc, words)?;
    let rules = rules_of_field(alloc, graph)?;
    decided(alloc, &rules, &asked, mode_of(mode))
}

fn allowed(alloc: Global, rules: &Rules, asked: &Question) -> Mem<String> {
    let user = granted_modes(rules, asked.how, &asked.at, &asked.agent, &asked.members);
    let public = granted_modes(rules, asked.how, &asked.at, &Agent::Public, &asked.members);
    let text = wac_allow(alloc, user, public)?;
    Ok(shown_whole(alloc, text.as_slice())?)
}

/// What `WAC-Allow` says of the agent of a question and of everybody.
pub(crate) fn modes(alloc: Global, graph: &str, words: [&str; 4]) -> Mem<String> {
    let asked = question_of(alloc, words)?;
    let rules = rules_of_field(alloc, graph)?;
    allowed(alloc, &rules, &asked)
}

/// Adds the rule of a node, which gives the agent the mode `read` on `/`.
fn add_reader(alloc: Global, graph: &mut Graph, node: &str, agent: &str) -> Mem<()> {
    add_words(alloc, graph, BASE, [node, "rdf:type", "acl:Authorization"])?;
    add_words(alloc, graph, BASE, [node, "acl:accessTo", "/"])?;
    add_words(alloc, graph, BASE, [node, "acl:mode", "acl:Read"])?;
    add_words(alloc, graph, BASE, [node, "acl:agent", agent])
}

/// Adds the rule of a number, which gives its agent the mode `read` on `/`.
fn add_rule(alloc: Global, graph: &mut Graph, number: u32) -> Mem<()> {
    let node = format!(in alloc; "/.acl#{number:03}")?;
    let agent = format!(in alloc; "@agent{number:03}")?;
    add_reader(alloc, graph, node.as_str(), agent.as_str())
}

/// A list of so many rules.
fn many_rules(alloc: Global, count: u32) -> Mem<Rules> {
    let mut graph = Graph::new(alloc);
    for number in 0..count.min(999) {
        add_rule(alloc, &mut graph, number)?;
    }
    rules_in(alloc, &graph)
}

/// The decision on `/` by a list of so many rules, of which rule N gives agent N the mode `read`.
pub(crate) fn many(alloc: Global, count: &str, agent: &str, mode: &str) -> Mem<String> {
    let asked = question_of(alloc, ["own", "/", agent, ""])?;
    let rules = many_rules(alloc, count.parse().unwrap_or(0))?;
    decided(alloc, &rules, &asked, mode_of(mode))
}
