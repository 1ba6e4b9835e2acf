//! [`rules_of`]: the rules of a graph.
ghost use Rattle.std.specs.Prelude.{◌≡◌, [], IfOk, OnOk};
ghost use Rattle.rdf_graph.specs.Graph.{IsOrdered};
ghost use Rattle.acl_rules.specs.Building.{empty_rule, with_places, with_triple};
ghost use Rattle.acl_rules.specs.Rules.{rule_of, rules_of};

use crate::items::Items;
use crate::rule::{Rule, Rules};
use crate::rule_statements::{granted_mode, is_rule_statement, place_of, subject_of};
use crate::vocabulary::{ACL_ACCESS_TO, ACL_DEFAULT};
use iri_ref::Iri;
use pod_base::Mem;
use rdf_graph::{Graph, Term, Triple};
use std::alloc::Global;

/// The rules that the graph of an access list states: one for each node of type
/// `acl:Authorization`, in the order of the graph's triples, as are the lists of each rule. A value
/// that is no IRI, an IRI of no path of this base, another class and another mode give nothing.
///
/// It goes over the graph once, and then over the triples of each rule, which stand together.
pub fn rules_of(alloc: Global, graph: &Graph, base: &Iri) -> Mem<Rules>
    ensures { IfOk result (λ rules. rules.list ≡ rules_of base.now graph.now) }
{
    let mut list = Items::new(alloc);
    for triple in graph.as_slice() {
        if is_rule_statement(triple) {
            let rule = rule_of(alloc, graph, base, &triple.s)?;
            list.push(alloc, rule)?;
        }
    }
    Ok(Rules { list })
}

/// The rule that a graph states of one of its nodes.
fn rule_of<'a>(alloc: Global, graph: &'a Graph, base: &Iri, node: &'a Term) -> Mem<Rule>
    requires { IsOrdered graph.now }
    ensures { IfOk result (λ rule. rule ≡ rule_of base.now graph.now node.now) }
{
    let mut rule = empty_rule(alloc, node)?;
    for triple in graph.walk(Some(node), None, None) {
        rule.add(alloc, base, triple)?;
    }
    Ok(rule)
}

/// The rule of a graph's node before its triples are added.
fn empty_rule(alloc: Global, node: &Term) -> Mem<Rule>
    ensures { IfOk result (λ rule. rule ≡ empty_rule node.now) }
{
    let node = node.copy(alloc)?;
    Ok(Rule {
        node,
        access_to: Items::new(alloc),
        defaults: Items::new(alloc),
        modes: Items::new(alloc),
        subjects: Items::new(alloc),
    })
}

impl Rule {
    /// Adds to a graph's rule what a triple of its node gives.
    fn add(&mut self, alloc: Global, base: &Iri, triple: &Triple) -> Mem<()>
        ensures { OnOk result (self.new ≡ with_triple base.now triple.now self.old) }
    {
        self.add_places(alloc, base, triple)?;
        let subject = subject_of(alloc, base, triple)?;
        self.modes.push_some(alloc, granted_mode(triple))?;
        self.subjects.push_some(alloc, subject)
    }

    /// Adds to a graph's rule the paths that a triple of its node gives.
    fn add_places(&mut self, alloc: Global, base: &Iri, triple: &Triple) -> Mem<()>
        ensures { OnOk result (self.new ≡ with_places base.now triple.now self.old) }
    {
        let access_to = place_of(alloc, base, ACL_ACCESS_TO, triple)?;
        let default = place_of(alloc, base, ACL_DEFAULT, triple)?;
        self.access_to.push_some(alloc, access_to)?;
        self.defaults.push_some(alloc, default)
    }
}
