//! What the rules of a graph are, by its triples. The contracts of these functions are laws, and
//! they do nothing.
ghost use Rattle.std.specs.Prelude.{◌≡◌, ◌↔◌, ℕ, List, Option, Some, Contains, map};
ghost use Rattle.std.specs.List.Sorted.{IsStrictlySortedBy};
ghost use Rattle.iri_ref.specs.Characters.{Lacks, is_hash};
ghost use Rattle.pod_base.specs.declared.agent.Mode.{Mode};
ghost use Rattle.pod_path.specs.Hierarchy.{uri_of, IsUriOf};
ghost use Rattle.rdf_graph.specs.Graph.{IsGraph};
ghost use Rattle.rdf_graph.specs.declared.term.Term.{Term};
ghost use Rattle.rdf_graph.specs.declared.triple.Triple.{Triple};
ghost use Rattle.acl_rules.specs.Documents.{document_of, resource_of};
ghost use Rattle.acl_rules.specs.Rules.{rule_of, rules_of};
ghost use Rattle.acl_rules.specs.Statements.{States, IsRule, mode_iri, rule_cmp};
ghost use Rattle.acl_rules.specs.Vocabulary.{acl_access_to, acl_default, acl_mode, acl_agent};
ghost use Rattle.acl_rules.specs.Vocabulary.{acl_agent_class, acl_agent_group};
ghost use Rattle.acl_rules.specs.Vocabulary.{acl_authenticated_agent, foaf_agent};
ghost use Rattle.acl_rules.specs.declared.rule.Rule.{Rule};
ghost use Rattle.acl_rules.specs.declared.rule.Subject.TheVariants.{Agent as AgentSubject};
ghost use Rattle.acl_rules.specs.declared.rule.Subject.TheVariants.{Everyone as EveryoneSubject};
ghost use Rattle.acl_rules.specs.declared.rule.Subject.TheVariants.{Authenticated as KnownSubject};
ghost use Rattle.acl_rules.specs.declared.rule.Subject.TheVariants.{Group as GroupSubject};

/// The rules of a graph are those of its nodes of type `acl:Authorization`. They stand in strict
/// order, so no node has two rules. Each rule is that of its node.
pub fn nodes_law()
    ensures nodes { (base : List ℕ) (g : List Triple) (node : Term)
        → Contains (map (λ rule. rule.node) (rules_of base g)) node ↔ IsRule g node }
    ensures order { (base : List ℕ) (g : List Triple) → IsGraph g
        → IsStrictlySortedBy rule_cmp (rules_of base g) }
    ensures own { (base : List ℕ) (g : List Triple) (rule : Rule)
        → Contains (rules_of base g) rule → rule ≡ rule_of base g rule.node }
{}

/// The values of a rule are those that the triples of its node state.
pub fn values_law()
    ensures access_to { (base : List ℕ) (g : List Triple) (node : Term) (path : List ℕ)
        → Contains (rule_of base g node).access_to path
        ↔ ((iri : List ℕ) × States g node acl_access_to iri × (resource_of base iri ≡ Some path)) }
    ensures defaults { (base : List ℕ) (g : List Triple) (node : Term) (path : List ℕ)
        → Contains (rule_of base g node).defaults path
        ↔ ((iri : List ℕ) × States g node acl_default iri × (resource_of base iri ≡ Some path)) }
    ensures modes { (base : List ℕ) (g : List Triple) (node : Term) (mode : Mode)
        → Contains (rule_of base g node).modes mode ↔ States g node acl_mode (mode_iri mode) }
    ensures agents { (base : List ℕ) (g : List Triple) (node : Term) (agent : List ℕ)
        → Contains (rule_of base g node).subjects (AgentSubject agent)
        ↔ States g node acl_agent agent }
    ensures everyone { (base : List ℕ) (g : List Triple) (node : Term)
        → Contains (rule_of base g node).subjects EveryoneSubject
        ↔ States g node acl_agent_class foaf_agent }
    ensures authenticated { (base : List ℕ) (g : List Triple) (node : Term)
        → Contains (rule_of base g node).subjects KnownSubject
        ↔ States g node acl_agent_class acl_authenticated_agent }
    ensures groups { (base : List ℕ) (g : List Triple) (node : Term) (doc : Option (List ℕ))
        (group : List ℕ) → Contains (rule_of base g node).subjects (GroupSubject doc group)
        ↔ (States g node acl_agent_group group × (doc ≡ document_of base group)) }
{}

/// The document that an IRI in an access rule names is the path of which it is the URI, and so is
/// the resource, where the IRI has no fragment. The IRI of a resource is its URI.
pub fn documents_law()
    ensures documents { (base iri path : List ℕ)
        → (document_of base iri ≡ Some path) ↔ IsUriOf base iri path }
    ensures resources { (base iri path : List ℕ)
        → (resource_of base iri ≡ Some path) ↔ (IsUriOf base iri path × Lacks is_hash iri) }
    ensures uris { (base iri path : List ℕ) → IsUriOf base (uri_of base path) path
        → (resource_of base iri ≡ Some path) ↔ (iri ≡ uri_of base path) }
{}
