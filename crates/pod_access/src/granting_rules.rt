//! [`granted`]: the first rule that grants, and in it the first subject that covers the agent.
ghost use Rattle.std.specs.Prelude.{◌≡◌, ◌↔◌, ◌||◌, ◌<◌, ℕ, Bool, List, false, length};
ghost use Rattle.std.specs.Prelude.{IsTrue, IfSome, IfNone, All, is_some};
ghost use Rattle.std.specs.List.{position};
ghost use Rattle.pod_base.specs.declared.agent.Mode.TheVariants.{Read, Write, Append, Control};
ghost use Rattle.pod_base.specs.EachTo.{EachTo};
ghost use Rattle.pod_base.specs.declared.agent.Agent.TheVariants.{Known};
ghost use Rattle.pod_path.specs.Hierarchy.{uri_of, IsUriOf};
ghost use Rattle.rdf_graph.specs.declared.triple.Triple.{Triple};
ghost use Rattle.acl_rules.specs.Rules.{rules_of};
ghost use Rattle.pod_access.specs.Decision.{covers, is_about, has_mode, has_subject};
ghost use Rattle.pod_access.specs.Decision.{rule_grants, first_ground, IsFirstGround, subjects_at};
ghost use Rattle.pod_access.specs.Decision.{granted_modes, allow_modes};
ghost use Rattle.pod_access.specs.Grants.{Grants};
ghost use Rattle.pod_access.specs.Modes.{includes};

use acl_rules::{Groups, How, Items, Rule, Rules, Subject};
use pod_base::{Agent, Mode};
use pod_path::Path;

/// Why a mode is granted: the position of a rule in its list, and that of a subject in the rule.
#[derive(Clone, Copy, Debug, PartialEq, Eq)]
pub struct Ground {
    pub rule: usize,
    pub subject: usize,
}

/// The first rule of an access list, and in it the first subject, that grant the agent the mode;
/// none exactly where nothing grants. `at` is the subject of the list; `how` is `Own` where that is
/// the requested path, and `Inherited` where the list is that of a container above it. It takes no
/// memory and goes over the rules once.
pub fn granted<G: Groups>(
    rules: &Rules,
    how: How,
    at: &Path,
    agent: &Agent,
    groups: &G,
    mode: Mode,
) -> Option<Ground>
    ensures ground { result ≡ first_ground (G.is_member groups.now) rules.now.list how at.now
        agent.now mode }
    ensures first { IfSome result (IsFirstGround (G.is_member groups.now) rules.now.list how at.now
        agent.now mode) }
    ensures none { IfNone result (All (λ rule. rule_grants (G.is_member groups.now) how at.now
        agent.now mode rule ≡ false) rules.now.list) }
    ensures rule_within { IfSome result (λ ground. ground.rule < length rules.now.list) }
    ensures subject_within { IfSome result (λ ground. ground.subject
        < length (subjects_at rules.now.list ground.rule)) }

    // Where the rules are those of a graph, the graph grants.
    ensures grants { (base : List ℕ) (g : List Triple) → rules.now.list ≡ rules_of base g
        → IsUriOf base (uri_of base at.now) at.now
        → IsTrue (is_some result)
        ↔ Grants (G.is_member groups.now) base g how at.now agent.now mode }
{
    find_ground(rules.list.as_slice(), how, at, agent, groups, mode)
}

/// Which modes the rules of an access list grant, in the order read, write, append, control: for
/// each of them what [`granted`] finds. It takes no memory, goes over the rules once, and queries
/// each group once per rule.
pub fn granted_modes<G: Groups>(
    rules: &Rules,
    how: How,
    at: &Path,
    agent: &Agent,
    groups: &G,
) -> [bool; 4]
    ensures modes { result
        ≡ granted_modes (G.is_member groups.now) rules.now.list how at.now agent.now }
    ensures grants { (base : List ℕ) (g : List Triple) → rules.now.list ≡ rules_of base g
        → IsUriOf base (uri_of base at.now) at.now
        → EachTo (λ mode granted. IsTrue granted
        ↔ Grants (G.is_member groups.now) base g how at.now agent.now mode)
        allow_modes result }
{
    find_modes(rules.list.as_slice(), how, at, agent, groups)
}

/// The first rule that grants a mode, and in it the first subject that covers the agent.
fn find_ground<G: Groups>(
    rules: &[Rule],
    how: How,
    at: &Path,
    agent: &Agent,
    groups: &G,
    mode: Mode,
) -> Option<Ground>
    ensures { result ≡ first_ground (G.is_member groups.now) rules.now how at.now agent.now mode }
{
    let rule = position_of_rule(rules, how, at, agent, groups, mode)?;
    let subject = position_of_subject(&rules[rule], agent, groups)?;
    Some(Ground { rule, subject })
}

/// The position of the first rule that grants a mode.
fn position_of_rule<G: Groups>(
    rules: &[Rule],
    how: How,
    at: &Path,
    agent: &Agent,
    groups: &G,
    mode: Mode,
) -> Option<usize>
    ensures first { result
        ≡ position (rule_grants (G.is_member groups.now) how at.now agent.now mode) rules.now }
    ensures within { IfSome result (λ i. i < length rules.now) }
{
    rules
        .iter()
        .position(|rule| rule_grants(rule, how, at, agent, groups, mode))
}

/// Which modes some of the rules grant to an agent.
fn find_modes<G: Groups>(
    rules: &[Rule],
    how: How,
    at: &Path,
    agent: &Agent,
    groups: &G,
) -> [bool; 4]
    ensures { result ≡ granted_modes (G.is_member groups.now) rules.now how at.now agent.now }
{
    let mut found = Found {
        read: false,
        write: false,
        append: false,
        control: false,
    };
    for rule in rules {
        if is_about(rule, how, at) && has_subject(rule, agent, groups) {
            found.add(rule);
        }
    }
    [found.read, found.write, found.append, found.control]
}

/// The modes that some of the rules so far grant.
#[derive(Clone, Copy)]
struct Found {
    read: bool,
    write: bool,
    append: bool,
    control: bool,
}

impl Found {
    /// Adds the modes of a rule to those granted so far.
    fn add(&mut self, rule: &Rule)
        ensures read { self.new.read ≡ (self.old.read || has_mode rule.now Read) }
        ensures write { self.new.write ≡ (self.old.write || has_mode rule.now Write) }
        ensures append { self.new.append ≡ (self.old.append || has_mode rule.now Append) }
        ensures control { self.new.control ≡ (self.old.control || has_mode rule.now Control) }
    {
        self.read = self.read || has_mode(rule, Mode::Read);
        self.write = self.write || has_mode(rule, Mode::Write);
        self.append = self.append || has_mode(rule, Mode::Append);
        self.control = self.control || has_mode(rule, Mode::Control);
    }
}

/// Whether a rule grants the agent the mode at the path.
fn rule_grants<G: Groups>(
    rule: &Rule,
    how: How,
    at: &Path,
    agent: &Agent,
    groups: &G,
    mode: Mode,
) -> bool
    ensures { result ≡ rule_grants (G.is_member groups.now) how at.now agent.now mode rule.now }
{
    is_about(rule, how, at) && has_mode(rule, mode) && has_subject(rule, agent, groups)
}

/// Whether what a rule grants is about the path: by `acl:accessTo`, or by `acl:default` of a
/// container above.
fn is_about(rule: &Rule, how: How, at: &Path) -> bool
    ensures { result ≡ is_about how at.now rule.now }
{
    let places = match how {
        How::Own => &rule.access_to,
        How::Inherited => &rule.defaults,
    };
    places.as_slice().iter().any(|place| place == at)
}

/// Whether a rule grants a mode, or one that includes it.
fn has_mode(rule: &Rule, mode: Mode) -> bool
    ensures { result ≡ has_mode rule.now mode }
{
    rule.modes
        .as_slice()
        .iter()
        .any(|granted| includes(*granted, mode))
}

/// Whether a rule grants to the agent, by a subject that covers it.
fn has_subject<G: Groups>(rule: &Rule, agent: &Agent, groups: &G) -> bool
    ensures { result ≡ has_subject (G.is_member groups.now) agent.now rule.now }
{
    rule.subjects
        .as_slice()
        .iter()
        .any(|subject| covers(subject, agent, groups))
}

/// The position of the first subject of a granting rule that covers the agent.
fn position_of_subject<G: Groups>(rule: &Rule, agent: &Agent, groups: &G) -> Option<usize>
    ensures { result ≡ position (covers (G.is_member groups.now) agent.now) rule.now.subjects }
{
    rule.subjects
        .as_slice()
        .iter()
        .position(|subject| covers(subject, agent, groups))
}

/// Whether a subject of a granting rule covers the agent. IRIs are compared as they are written.
fn covers<G: Groups>(subject: &Subject, agent: &Agent, groups: &G) -> bool
    ensures { result ≡ covers (G.is_member groups.now) agent.now subject.now }
{
    match agent {
        Agent::Public => matches!(subject, Subject::Everyone),
        Agent::Known(agent) => covers_known(subject, agent.as_str(), groups),
    }
}

/// Whether a subject of a granting rule covers a known agent.
fn covers_known<G: Groups>(subject: &Subject, agent: &str, groups: &G) -> bool
    ensures { result ≡ covers (G.is_member groups.now) (Known agent.now) subject.now }
{
    match subject {
        Subject::Agent(iri) => iri.as_str() == agent,
        Subject::Everyone | Subject::Authenticated => true,
        Subject::Group { doc, iri } => match doc {
            Some(doc) => groups.member(doc, iri.as_str(), agent),
            None => false,
        },
    }
}

/// Whether the mode that a rule grants includes the wanted one.
fn includes(granted: Mode, wanted: Mode) -> bool
    ensures { result ≡ includes granted wanted }
{
    match (granted, wanted) {
        (Mode::Read, Mode::Read) | (Mode::Append, Mode::Append) => true,
        (Mode::Write, Mode::Append | Mode::Write) | (Mode::Control, Mode::Control) => true,
        _ => false,
    }
}
