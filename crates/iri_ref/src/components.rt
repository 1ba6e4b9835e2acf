//! The components of a reference (RFC 3986, section 3 and appendix B).

ghost use Rattle.std.specs.Prelude.{◌≡◌, [], ◌<◌, ◌==◌, ◌↔◌, ◌++◌, ◌∷◌, List, ℕ, IsTrue, IfSome};
ghost use Rattle.std.specs.Prelude.{IfNone, OnSome, option_copied};
ghost use Rattle.iri_ref.specs.Characters.{Lacks, slash, is_slash};
ghost use Rattle.iri_ref.specs.Components.{HasComponents, BeginsWithScheme, HasScheme, IsAbsolute};
ghost use Rattle.iri_ref.specs.Components.{IsEmptyOrRooted, authority_text, prefixed};
ghost use Rattle.iri_ref.specs.Reference.{components_of};

use crate::characters::{all_allowed, is_scheme};

/// The five components of a reference, without the delimiters that begin or end them.
#[derive(Clone, Copy)]
pub(crate) struct Reference<'a> {
    pub(crate) scheme: Option<&'a str>,
    pub(crate) authority: Option<&'a str>,
    pub(crate) path: &'a str,
    pub(crate) query: Option<&'a str>,
    pub(crate) fragment: Option<&'a str>,
}

/// The first component of a reference, its scheme, and what follows its colon, or the whole
/// reference.
fn split_scheme(text: &str) -> (Option<&str>, &str)
    ensures some { IfSome (option_copied result.0)
        (λ scheme. BeginsWithScheme text.now scheme result.1.now) }
    ensures none { IfNone (option_copied result.0) (HasScheme text.now → ⊥) }
    ensures rest { IfNone (option_copied result.0) (result.1.now ≡ text.now) }
{
    match text.split_once(':') {
        Some((scheme, rest)) if is_scheme(scheme) => (Some(scheme), rest),
        _ => (None, text),
    }
}

/// Whether the components of a reference are those of an absolute IRI: a scheme, and no forbidden
/// character.
pub(crate) fn is_absolute(text: &str) -> bool
    ensures { IsTrue result ↔ IsAbsolute text.now }
{
    match split_scheme(text) {
        (Some(_), _) => all_allowed(text),
        (None, _) => false,
    }
}

/// The components of a reference before and after the first such mark, that of its query or its
/// fragment.
fn split_at_mark(text: &str, mark: char) -> (&str, Option<&str>)
    requires { mark < 128 }
    ensures whole { text.now ≡ result.0.now ++ prefixed (mark ∷ []) (option_copied result.1) }
    ensures first { Lacks (λ c. c == mark) result.0.now }
{
    match text.split_once(mark) {
        Some((prefix, rest)) => (prefix, Some(rest)),
        None => (text, None),
    }
}

/// The components of a reference after two slashes: the authority before the first slash, and the
/// path from there on.
fn split_at_slash(text: &str) -> (&str, &str)
    ensures whole { text.now ≡ result.0.now ++ result.1.now }
    ensures first { Lacks is_slash result.0.now }
    ensures rooted { IsEmptyOrRooted result.1.now }
{
    match text.find('/') {
        Some(at) => text.split_at(at),
        None => (text, ""),
    }
}

/// The components authority and path of a reference, where two slashes begin an authority.
fn split_authority(text: &str) -> (Option<&str>, &str)
    ensures whole { text.now ≡ authority_text (option_copied result.0) ++ result.1.now }
    ensures authority { IfSome (option_copied result.0) (λ authority. Lacks is_slash authority) }
    ensures rooted { OnSome (option_copied result.0) (IsEmptyOrRooted result.1.now) }
    ensures none { IfNone (option_copied result.0) ((rest : List ℕ)
        → result.1.now ≡ slash ∷ slash ∷ rest → ⊥) }
{
    let Some(rest) = text.strip_prefix("//") else {
        return (None, text);
    };
    let (authority, path) = split_at_slash(rest);
    (Some(authority), path)
}

/// The five components of a reference: what the expression of appendix B matches.
pub(crate) fn parse_components(text: &str) -> Reference<'_>
    ensures { HasComponents text.now (components_of result) }
{
    let (scheme, rest) = split_scheme(text);
    let (rest, fragment) = split_at_mark(rest, '#');
    let (rest, query) = split_at_mark(rest, '?');
    let (authority, path) = split_authority(rest);
    Reference {
        scheme,
        authority,
        path,
        query,
        fragment,
    }
}
