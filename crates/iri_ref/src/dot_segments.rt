//! Removal of dot segments (RFC 3986, section 5.2.4), while a path is written at the end of a text.

ghost use Rattle.std.specs.Prelude.{◌≡◌, ◌<◌, ◌≤◌, ◌∷◌, ◌++◌, [], List, ℕ, length, take, drop};
ghost use Rattle.std.specs.Prelude.{slice_index, IfOk, IfSome, IsSome, OnOk, Some, None};
ghost use Rattle.std.specs.Prelude.{option_copied, unwrap_or, string_bytes};
ghost use Rattle.std.specs.List.{before_last};
ghost use Rattle.iri_ref.specs.Characters.{slash, is_slash};
ghost use Rattle.iri_ref.specs.Segments.{is_dot_segment, segments, with_trailing_slash};
ghost use Rattle.iri_ref.specs.Segments.{remove_dot_segments};
ghost use Rattle.iri_ref.specs.Target.{joined_path};
ghost use Rattle.iri_ref.specs.PathWriter.{WriterState, after_segment, after_segments};
ghost use Rattle.iri_ref.specs.PathWriter.{ends_in_dot_segment};

use std::alloc::AllocError;
use std::marker::Model;

/// Writes the segments of a path at the end of a text, and removes the last at a `..`.
#[derive(Drop)]
struct PathWriter {
    text: String,
    start: usize,
    begun: bool,
}

impl Model for PathWriter {
    ghost use Rattle.std.specs.Prelude.{◌≡◌, ◌≤◌, false, length, take, drop, if◌then◌else◌, Some};
    ghost use Rattle.std.specs.Prelude.{None, string_bytes, IsUtf8};
    ghost use Rattle.iri_ref.specs.PathWriter.{WriterState};

    ghost Value = { WriterState };

    ghost view = { λ w. record {
      before = take w.start (string_bytes w.text);
      path = if w.begun then Some (drop w.start (string_bytes w.text)) else None;
    } };

    ghost invariant = { λ w. (w.start ≤ length (string_bytes w.text))
        × IsUtf8 (take w.start (string_bytes w.text))
        × (w.begun ≡ false → length (string_bytes w.text) ≡ w.start) };
}

/// How many bytes of a path are left where the dot segment `..` removes its last segment.
fn parent_len(path: &[u8]) -> usize
    ensures within { result ≤ length path.now }
    ensures prefix { take result path.now ≡ before_last is_slash path.now }
    ensures at_slash { 0 < result → slice_index path.now result ≡ slash }
{
    let mut end = path.len();
    while end > 0 {
        end -= 1;
        if path[end] == b'/' {
            return end;
        }
    }
    0
}

/// Whether a segment is `.` or `..`.
pub fn is_dot_segment(segment: &str) -> bool
    ensures { result ≡ is_dot_segment segment.now }
{
    segment == "." || segment == ".."
}

impl PathWriter {
    /// A writer of paths without dot segments, at the end of this text.
    fn new(text: String) -> PathWriter
        ensures before { result.before ≡ string_bytes text }
        ensures path { result.path ≡ None }
    {
        PathWriter {
            start: text.len(),
            text,
            begun: false,
        }
    }

    /// The text with the path at its end, without dot segments.
    fn into_text(self) -> String
        ensures { string_bytes result ≡ self.before ++ unwrap_or self.path [] }
    {
        self.text
    }

    /// Writes the first segment of the path, which is no dot segment.
    fn push_first(&mut self, segment: &str) -> Result<(), AllocError>
        requires { self.old.path ≡ None }
        ensures { OnOk result (self.new ≡ record self.old { path = Some segment.now }) }
    {
        self.text.push_str(segment)?;
        self.begun = true;
        Ok(())
    }

    /// Writes one more segment of the path, which is no dot segment.
    fn push_next(&mut self, segment: &str) -> Result<(), AllocError>
        requires { IsSome self.old.path }
        ensures { OnOk result (IfSome self.old.path
            (λ path. self.new ≡ record self.old { path = Some (path ++ slash ∷ segment.now) })) }
    {
        self.text.push_str("/")?;
        self.text.push_str(segment)?;
        Ok(())
    }

    /// Removes the last segment of the path, at a dot segment `..`.
    fn pop_segment(&mut self)
        requires { IsSome self.old.path }
        ensures { IfSome self.old.path (λ path. self.new
            ≡ record self.old { path = Some (before_last is_slash path) }) }
    {
        let end = self.start + parent_len(&self.text.as_bytes()[self.start..]);
        self.text.truncate(end);
    }

    /// Takes one more segment of the path, which may be a dot segment.
    fn push(&mut self, segment: &str) -> Result<(), AllocError>
        ensures { OnOk result (self.new ≡ record self.old {
          path = after_segment self.old.path segment.now;
        }) }
    {
        if !self.begun {
            return if is_dot_segment(segment) {
                Ok(())
            } else {
                self.push_first(segment)
            };
        }
        if segment == "." {
            return Ok(());
        }
        if segment == ".." {
            self.pop_segment();
            return Ok(());
        }
        self.push_next(segment)
    }

    /// Takes the segments of a path, which may be dot segments. Returns whether the last one is a
    /// dot segment.
    fn push_segments(&mut self, path: &str) -> Result<bool, AllocError>
        ensures written { OnOk result (self.new
            ≡ record self.old { path = after_segments self.old.path (segments path.now) }) }
        ensures dots { IfOk result (λ dots. dots ≡ ends_in_dot_segment (segments path.now)) }
    {
        let mut dots = false;
        for segment in path.split('/') {
            self.push(segment)?;
            dots = is_dot_segment(segment);
        }
        Ok(dots)
    }

    /// Takes the last segments of a path. After a dot segment the path ends in a slash.
    fn push_ending(&mut self, path: &str) -> Result<(), AllocError>
        ensures { OnOk result (self.new ≡ record self.old {
          path = after_segments self.old.path (with_trailing_slash (segments path.now));
        }) }
    {
        if self.push_segments(path)? {
            return self.push("");
        }
        Ok(())
    }

    /// Writes a path without its dot segments. A prefix precedes it with a slash.
    fn push_path(&mut self, prefix: Option<&str>, path: &str) -> Result<(), AllocError>
        ensures { OnOk result (self.new ≡ record self.old {
          path = after_segments self.old.path (with_trailing_slash
              (segments (joined_path (option_copied prefix.entry) path.now)));
        }) }
    {
        if let Some(prefix) = prefix {
            self.push_segments(prefix)?;
        }
        self.push_ending(path)
    }
}

/// A text with a path at its end, without the path's dot segments. A prefix precedes the path with
/// a slash.
pub(crate) fn remove_dot_segments(
    text: String,
    prefix: Option<&str>,
    path: &str,
) -> Result<String, AllocError>
    ensures { IfOk result (λ more. string_bytes more ≡ string_bytes text
        ++ remove_dot_segments (joined_path (option_copied prefix.entry) path.now)) }
{
    let mut writer = PathWriter::new(text);
    writer.push_path(prefix, path)?;
    Ok(writer.into_text())
}
