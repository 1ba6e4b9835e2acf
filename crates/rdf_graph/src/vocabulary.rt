//! The IRIs of RDF and of XML Schema that languages of graphs have words for. No other file has
//! them.

/// The property of a node's class.
pub const RDF_TYPE: &str = "http://www.w3.org/1999/02/22-rdf-syntax-ns#type";

/// The property of a list's first element.
pub const RDF_FIRST: &str = "http://www.w3.org/1999/02/22-rdf-syntax-ns#first";

/// The property of a list's rest.
pub const RDF_REST: &str = "http://www.w3.org/1999/02/22-rdf-syntax-ns#rest";

/// The empty list.
pub const RDF_NIL: &str = "http://www.w3.org/1999/02/22-rdf-syntax-ns#nil";

/// The datatype of a literal that is written without one.
pub const XSD_STRING: &str = "http://www.w3.org/2001/XMLSchema#string";

/// The datatype of `true` and `false`.
pub const XSD_BOOLEAN: &str = "http://www.w3.org/2001/XMLSchema#boolean";

/// The datatype of a number without a fraction.
pub const XSD_INTEGER: &str = "http://www.w3.org/2001/XMLSchema#integer";

/// The datatype of a number with a fraction.
pub const XSD_DECIMAL: &str = "http://www.w3.org/2001/XMLSchema#decimal";

/// The datatype of a number with an exponent.
pub const XSD_DOUBLE: &str = "http://www.w3.org/2001/XMLSchema#double";
