//! The literals of value objects.

ghost use Rattle.std.specs.Prelude.{◌≡◌, codes, map, length, Some, None, is_some, option_map};
ghost use Rattle.std.specs.Prelude.{option_and_then, IfOk, IsErrOf};
ghost use Rattle.std.specs.Char.{to_ascii_lowercase};
ghost use Rattle.iri_ref.specs.Components.{IsAbsolute};
ghost use Rattle.rdf_graph.specs.declared.term.Term.{Term};
ghost use Rattle.rdf_graph.specs.declared.term.Term.TheVariants as Terms;
ghost use Rattle.serde_json.specs.Data.{object as object_of, number as number_data};
ghost use Rattle.serde_json.specs.Find.{as_str, get};
ghost use Rattle.serde_json.specs.View.{view, members_view, number_view};
ghost use Rattle.jsonld_expanded.specs.Literals.{IsLiteralOf, IsPlain, text_at};
ghost use Rattle.jsonld_expanded.specs.declared.fault.Refusal.TheVariants as Refusal;

use crate::fault::{Refusal, refusal_of};
use crate::walk_scope::Scope;
use iri_ref::Iri;
use itoa::Buffer;
use pod_base::{Mem, Text};
use rdf_graph::{Term, copy_iri};
use serde_json::{Map, Number, Value};
use std::alloc::Global;
use turtle_lex::is_lang_tag;

/// The string at the key of a value object.
fn text_at<'v>(object: &'v Value, key: &str) -> Option<&'v str>
    ensures { option_map (λ s. s.now) result
        ≡ option_and_then as_str (get key.now (view object.now)) }
{
    match object.get(key) {
        Some(value) => value.as_str(),
        None => None,
    }
}

/// Whether the value object has the key.
pub(crate) fn has_key(object: &Value, key: &str) -> bool
    ensures { result ≡ is_some (get key.now (view object.now)) }
{
    object.get(key).is_some()
}

/// The literal term of this lexical form and datatype, for a value object.
fn literal(alloc: Global, lexical: &str, datatype: &Iri) -> Mem<Term>
    ensures { IfOk result (λ t. t ≡ Terms.Literal lexical.now datatype.now) }
{
    let lexical = Text::of(alloc, lexical)?;
    let datatype = copy_iri(alloc, datatype)?;
    Ok(Term::Literal { lexical, datatype })
}

/// The literal term with this language tag, which is put in lower case, for a value object.
fn tagged(alloc: Global, lexical: &str, lang: &str) -> Mem<Term>
    ensures { IfOk result (λ t. t ≡ Terms.Tagged lexical.now (map to_ascii_lowercase lang.now)) }
{
    let lexical = Text::of(alloc, lexical)?;
    let lang = lang.to_ascii_lowercase(alloc)?;
    let lang = Text::from_string(alloc, lang)?;
    Ok(Term::Tagged { lexical, lang })
}

impl<'a> Scope<'a> {
    /// The literal of a JSON value that is a whole number.
    fn number(&self, number: &Number) -> Result<Term, Refusal>
        ensures literal { IfOk result (IsPlain (number_data (number_view number.now))) }
        ensures out { IsErrOf result Refusal.OutOfProfile
            → (t : Term) → IsPlain (number_data (number_view number.now)) t → ⊥ }
    {
        let mut buffer = Buffer::new();
        let text = match number.as_u64() {
            Some(n) => buffer.format(n),
            None => match number.as_i64() {
                Some(n) => buffer.format(n),
                None => return Err(Refusal::OutOfProfile),
            },
        };
        Ok(literal(self.alloc, text, &self.words.integer)?)
    }

    /// The literal of a JSON value that is a string, a truth value or a whole number.
    fn plain(&self, value: &Value) -> Result<Term, Refusal>
        ensures literal { IfOk result (IsPlain (view value.now)) }
        ensures out { IsErrOf result Refusal.OutOfProfile
            → (t : Term) → IsPlain (view value.now) t → ⊥ }
    {
        match value {
            Value::String(text) => Ok(literal(self.alloc, text.as_str(), &self.words.string)?),
            Value::Bool(true) => Ok(literal(self.alloc, "true", &self.words.boolean)?),
            Value::Bool(false) => Ok(literal(self.alloc, "false", &self.words.boolean)?),
            Value::Number(number) => self.number(number),
            _ => Err(Refusal::OutOfProfile),
        }
    }

    /// The literal of a value object whose string has a datatype, which is an absolute IRI.
    fn typed(&self, lexical: &str, datatype: &str) -> Result<Term, Refusal>
        ensures literal { IfOk result (λ t. IsAbsolute datatype.now
            × (t ≡ Terms.Literal lexical.now datatype.now)) }
        ensures out { IsErrOf result Refusal.OutOfProfile → IsAbsolute datatype.now → ⊥ }
    {
        match Iri::read(self.alloc, datatype) {
            Ok(datatype) => {
                let lexical = Text::of(self.alloc, lexical)?;
                Ok(Term::Literal { lexical, datatype })
            }
            Err(fault) => Err(refusal_of(fault)),
        }
    }

    /// The literal of a value object whose string has a language tag, and no datatype.
    fn tagged(
        &self,
        object: &Value,
        members: &Map<String, Value>,
        lexical: &str,
    ) -> Result<Term, Refusal>
        requires members { view object.now ≡ object_of (members_view members.now.entries) }
        requires two { length members.now.entries ≡ 2 }
        requires value { text_at (codes "@value") (members_view members.now.entries)
            ≡ Some lexical.now }
        requires no_type { text_at (codes "@type") (members_view members.now.entries) ≡ None }
        ensures literal { IfOk result (IsLiteralOf (members_view members.now.entries)) }
        ensures out { IsErrOf result Refusal.OutOfProfile
            → (t : Term) → IsLiteralOf (members_view members.now.entries) t → ⊥ }
    {
        match text_at(object, "@language") {
            None => Err(Refusal::OutOfProfile),
            Some(lang) => {
                if !is_lang_tag(lang) {
                    return Err(Refusal::OutOfProfile);
                }
                Ok(tagged(self.alloc, lexical, lang)?)
            }
        }
    }

    /// The literal of a value object that has `@value` alone.
    fn alone(&self, object: &Value, members: &Map<String, Value>) -> Result<Term, Refusal>
        requires members { view object.now ≡ object_of (members_view members.now.entries) }
        requires one { length members.now.entries ≡ 1 }
        ensures literal { IfOk result (IsLiteralOf (members_view members.now.entries)) }
        ensures out { IsErrOf result Refusal.OutOfProfile
            → (t : Term) → IsLiteralOf (members_view members.now.entries) t → ⊥ }
    {
        match object.get("@value") {
            Some(value) => self.plain(value),
            None => Err(Refusal::OutOfProfile),
        }
    }

    /// The literal of a value object whose string has a datatype or a language tag.
    fn qualified(&self, object: &Value, members: &Map<String, Value>) -> Result<Term, Refusal>
        requires members { view object.now ≡ object_of (members_view members.now.entries) }
        requires two { length members.now.entries ≡ 2 }
        ensures literal { IfOk result (IsLiteralOf (members_view members.now.entries)) }
        ensures out { IsErrOf result Refusal.OutOfProfile
            → (t : Term) → IsLiteralOf (members_view members.now.entries) t → ⊥ }
    {
        match text_at(object, "@value") {
            None => Err(Refusal::OutOfProfile),
            Some(lexical) => match text_at(object, "@type") {
                Some(datatype) => self.typed(lexical, datatype),
                None => self.tagged(object, members, lexical),
            },
        }
    }

    /// The literal of a value object with these members.
    pub(crate) fn literal(
        &self,
        object: &Value,
        members: &Map<String, Value>,
    ) -> Result<Term, Refusal>
        requires { view object.now ≡ object_of (members_view members.now.entries) }
        ensures literal { IfOk result (IsLiteralOf (members_view members.now.entries)) }
        ensures out { IsErrOf result Refusal.OutOfProfile
            → (t : Term) → IsLiteralOf (members_view members.now.entries) t → ⊥ }
    {
        let count = members.len();
        if count == 1 {
            return self.alone(object, members);
        }
        if count == 2 {
            return self.qualified(object, members);
        }
        Err(Refusal::OutOfProfile)
    }
}
