//! What a rule of a graph grants, by its triples. The contract of this function is a law, and it
//! does nothing.
ghost use Rattle.std.specs.Prelude.{◌≡◌, ◌↔◌, ℕ, List, IsTrue};
ghost use Rattle.pod_base.specs.declared.agent.Agent.{Agent};
ghost use Rattle.pod_base.specs.declared.agent.Mode.{Mode};
ghost use Rattle.pod_path.specs.Hierarchy.{uri_of, IsUriOf};
ghost use Rattle.rdf_graph.specs.declared.term.Term.{Term};
ghost use Rattle.rdf_graph.specs.declared.triple.Triple.{Triple};
ghost use Rattle.acl_rules.specs.Rules.{rule_of};
ghost use Rattle.acl_rules.specs.Statements.{IsRule};
ghost use Rattle.acl_rules.specs.declared.rule.How.{How};
ghost use Rattle.pod_access.specs.Decision.{rule_grants};
ghost use Rattle.pod_access.specs.Grants.{Membership, NodeGrants};

/// The rule of a node grants access exactly where the node does by its graph.
pub fn rule_law()
    ensures { (member : Membership) (base : List ℕ) (g : List Triple) (how : How) (at : List ℕ)
        (agent : Agent) (mode : Mode) (node : Term) → IsUriOf base (uri_of base at) at
        → IsRule g node → IsTrue (rule_grants member how at agent mode (rule_of base g node))
        ↔ NodeGrants member base g how at agent mode node }
{}
