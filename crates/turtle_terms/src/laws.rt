//! Laws of the values and meanings of tokens, for the proofs of readers and writers.
//!
//! Each is the contract of a function that does nothing.

ghost use Rattle.turtle_terms.specs.Laws.{HasOneIri, HasOneTerm, PlainIsItself, NumbersAreDecoded};
ghost use Rattle.turtle_terms.specs.Laws.{ReferenceIsRead, StringIsRead};

/// The law that a token has at most one meaning.
pub fn one_meaning()
    ensures iri { HasOneIri }
    ensures term { HasOneTerm }
{}

/// The law that a text without escapes is its own value, and a UCHAR is the character of its
/// number.
pub fn decoded_texts()
    ensures plain { PlainIsItself }
    ensures numbers { NumbersAreDecoded }
{}

/// The law that what is written of an IRI and of a lexical form has that value again.
pub fn written_values()
    ensures reference { ReferenceIsRead }
    ensures string { StringIsRead }
{}
