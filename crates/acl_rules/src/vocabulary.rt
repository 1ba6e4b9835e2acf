//! The IRIs that access lists use beside those of RDF. No other file has them.
ghost use Rattle.std.specs.Prelude.{◌≡◌};
ghost use Rattle.rdf_graph.specs.Term.{term_eq};
ghost use Rattle.rdf_graph.specs.declared.term.Term.TheVariants.{Iri};

use rdf_graph::Term;

/// The class of rules.
pub const ACL_AUTHORIZATION: &str = "http://www.w3.org/ns/auth/acl#Authorization";

/// The property of a resource that a rule is about.
pub const ACL_ACCESS_TO: &str = "http://www.w3.org/ns/auth/acl#accessTo";

/// The property of a container whose members a rule is about.
pub const ACL_DEFAULT: &str = "http://www.w3.org/ns/auth/acl#default";

/// The property of a mode that a rule grants.
pub const ACL_MODE: &str = "http://www.w3.org/ns/auth/acl#mode";

/// The mode of reading.
pub const ACL_READ: &str = "http://www.w3.org/ns/auth/acl#Read";

/// The mode of adding.
pub const ACL_APPEND: &str = "http://www.w3.org/ns/auth/acl#Append";

/// The mode of changing, which includes adding.
pub const ACL_WRITE: &str = "http://www.w3.org/ns/auth/acl#Write";

/// The mode of reading and changing the access list.
pub const ACL_CONTROL: &str = "http://www.w3.org/ns/auth/acl#Control";

/// The property of an agent whom a rule covers.
pub const ACL_AGENT: &str = "http://www.w3.org/ns/auth/acl#agent";

/// The property of a class of agents whom a rule covers.
pub const ACL_AGENT_CLASS: &str = "http://www.w3.org/ns/auth/acl#agentClass";

/// The property of a group whose members a rule covers.
pub const ACL_AGENT_GROUP: &str = "http://www.w3.org/ns/auth/acl#agentGroup";

/// The class of all known agents.
pub const ACL_AUTHENTICATED_AGENT: &str = "http://www.w3.org/ns/auth/acl#AuthenticatedAgent";

/// The class of everyone.
pub const FOAF_AGENT: &str = "http://xmlns.com/foaf/0.1/Agent";

/// The property of a group's member.
pub const VCARD_HAS_MEMBER: &str = "http://www.w3.org/2006/vcard/ns#hasMember";

/// Whether a term is this IRI of the vocabulary of access lists.
pub fn is_iri(term: &Term, iri: &str) -> bool
    ensures { result ≡ term_eq term.now (Iri iri.now) }
{
    match term {
        Term::Iri(other) => other.as_str() == iri,
        _ => false,
    }
}
