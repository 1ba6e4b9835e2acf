//! The IRIs of the Linked Data Platform that containers use. No other file has them.

/// The type of a container whose members are its children.
pub const LDP_BASIC_CONTAINER: &str = "http://www.w3.org/ns/ldp#BasicContainer";

/// The type of every container.
pub const LDP_CONTAINER: &str = "http://www.w3.org/ns/ldp#Container";

/// The type of every resource.
pub const LDP_RESOURCE: &str = "http://www.w3.org/ns/ldp#Resource";

/// The property of a container's child.
pub const LDP_CONTAINS: &str = "http://www.w3.org/ns/ldp#contains";
