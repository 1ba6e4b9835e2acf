//! The target of a reference and its base (RFC 3986, section 5.2.2), before it is written.

ghost use Rattle.std.specs.Prelude.{◌≡◌, [], ◌∷◌, ◌++◌, List, ℕ, IfOk, IfSome, IfNone, OnOk};
ghost use Rattle.std.specs.Prelude.{option_copied, string_bytes};
ghost use Rattle.iri_ref.specs.Characters.{slash, is_slash, Lacks};
ghost use Rattle.iri_ref.specs.Components.{Components, recomposed, scheme_text, prefixed};
ghost use Rattle.iri_ref.specs.Reference.{components_of};
ghost use Rattle.iri_ref.specs.Resolution.{transformed, path_from, query_from, up_to_last_slash};
ghost use Rattle.iri_ref.specs.Resolution.{merged};
ghost use Rattle.iri_ref.specs.Target.{joined_path, target_path_text, target_of};

use crate::components::Reference;
use crate::dot_segments::remove_dot_segments;
use std::alloc::{AllocError, Global};

/// The path of a target.
#[derive(Clone, Copy)]
pub(crate) enum TargetPath<'a> {
    /// This path, unchanged.
    Unchanged(&'a str),
    /// This path without its dot segments; a prefix precedes it with a slash.
    WithoutDots(Option<&'a str>, &'a str),
}

/// The components of a target.
#[derive(Clone, Copy)]
pub(crate) struct Target<'a> {
    pub(crate) scheme: Option<&'a str>,
    pub(crate) authority: Option<&'a str>,
    pub(crate) path: TargetPath<'a>,
    pub(crate) query: Option<&'a str>,
    pub(crate) fragment: Option<&'a str>,
}

/// The path component of a base before its last slash, with which that of the target can begin.
fn strip_last_segment(path: &str) -> Option<&str>
    ensures some { IfSome (option_copied result)
        (λ prefix. up_to_last_slash path.now ≡ prefix ++ slash ∷ []) }
    ensures none { IfNone (option_copied result) (up_to_last_slash path.now ≡ []) }
{
    match path.rsplit_once('/') {
        Some((prefix, _)) => Some(prefix),
        None => None,
    }
}

/// The path component of the target, where the reference has neither scheme nor authority.
fn choose_path<'a>(base: Reference<'a>, path: &'a str) -> TargetPath<'a>
    ensures { target_path_text result ≡ path_from (components_of base.entry) path.entry.now }
{
    if path.is_empty() {
        return TargetPath::Unchanged(base.path);
    }
    if path.starts_with('/') {
        return TargetPath::WithoutDots(None, path);
    }
    if base.authority.is_some() && base.path.is_empty() {
        return TargetPath::WithoutDots(Some(""), path);
    }
    TargetPath::WithoutDots(strip_last_segment(base.path), path)
}

/// The target's components, from those of a base and of a reference, by the transform of section
/// 5.2.2, strict: a scheme in the reference counts even where it is the base's.
pub(crate) fn transform<'a>(base: Reference<'a>, reference: Reference<'a>) -> Target<'a>
    ensures { target_of result ≡ transformed (components_of base.entry)
        (components_of reference.entry) }
{
    if reference.scheme.is_some() {
        return Target {
            scheme: reference.scheme,
            authority: reference.authority,
            path: TargetPath::WithoutDots(None, reference.path),
            query: reference.query,
            fragment: reference.fragment,
        };
    }
    if reference.authority.is_some() {
        return Target {
            scheme: base.scheme,
            authority: reference.authority,
            path: TargetPath::WithoutDots(None, reference.path),
            query: reference.query,
            fragment: reference.fragment,
        };
    }
    let query = if reference.path.is_empty() && reference.query.is_none() {
        base.query
    } else {
        reference.query
    };
    Target {
        scheme: base.scheme,
        authority: base.authority,
        path: choose_path(base, reference.path),
        query,
        fragment: reference.fragment,
    }
}

/// How many bytes a component of a reference's target has.
fn component_len(component: Option<&str>) -> usize {
    component.map_or(0, |text| text.len())
}

/// Writes a component of a reference's target after its mark, where there is one.
fn push_component(text: &mut String, mark: &str, component: Option<&str>) -> Result<(), AllocError>
    ensures { OnOk result (string_bytes text.new ≡ string_bytes text.old
        ++ prefixed mark.now (option_copied component.entry)) }
{
    if let Some(component) = component {
        text.push_str(mark)?;
        text.push_str(component)?;
    }
    Ok(())
}

/// Writes the scheme component of a reference's target and its colon, where there is one.
fn push_scheme(text: &mut String, scheme: Option<&str>) -> Result<(), AllocError>
    ensures { OnOk result (string_bytes text.new ≡ string_bytes text.old
        ++ scheme_text (option_copied scheme.entry)) }
{
    if let Some(scheme) = scheme {
        text.push_str(scheme)?;
        text.push_str(":")?;
    }
    Ok(())
}

impl<'a> TargetPath<'a> {
    /// How many bytes the path component of a target has with all segments, but for a slash between
    /// two texts.
    fn max_len(&self) -> usize {
        match *self {
            TargetPath::Unchanged(path) => path.len(),
            TargetPath::WithoutDots(prefix, path) => component_len(prefix).saturating_add(
                path.len(),
            ),
        }
    }

    /// Writes the path component of a target at the end of a text.
    fn push_onto(self, mut text: String) -> Result<String, AllocError>
        ensures { IfOk result (λ more. string_bytes more ≡ string_bytes text
            ++ target_path_text self.entry) }
    {
        match self {
            TargetPath::Unchanged(path) => {
                text.push_str(path)?;
                Ok(text)
            }
            TargetPath::WithoutDots(prefix, path) => remove_dot_segments(text, prefix, path),
        }
    }
}

impl<'a> Target<'a> {
    /// How many bytes the components of a reference's target have at most: with all segments, and
    /// with all marks.
    fn max_len(&self) -> usize {
        ":///?#"
            .len()
            .saturating_add(component_len(self.scheme))
            .saturating_add(component_len(self.authority))
            .saturating_add(self.path.max_len())
            .saturating_add(component_len(self.query))
            .saturating_add(component_len(self.fragment))
    }

    /// The text of the components of a reference's target, by section 5.3.
    pub(crate) fn recompose(&self, alloc: Global) -> Result<String, AllocError>
        ensures { IfOk result (λ text. string_bytes text ≡ recomposed (target_of self.now)) }
    {
        let mut text = String::with_capacity(alloc, self.max_len())?;
        push_scheme(&mut text, self.scheme)?;
        push_component(&mut text, "//", self.authority)?;
        let mut text = self.path.push_onto(text)?;
        push_component(&mut text, "?", self.query)?;
        push_component(&mut text, "#", self.fragment)?;
        Ok(text)
    }
}
