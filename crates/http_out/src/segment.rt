//! The segments of a response's text, of which each is copied from one slice.

ghost use Rattle.std.specs.Prelude.{◌≡◌, ◌≢◌, ◌<◌, ◌++◌, Bool, false, IsTrue, List, ℕ, length};
ghost use Rattle.http_out.specs.Segments.{segment_text, text_after, segments_left};

/// The segments of a response's text, in their order. Those of a field's line have the field's
/// number, from 0.
#[derive(Clone, Copy, Debug, PartialEq, Eq)]
pub(crate) enum Segment {
    Version,
    Code,
    Space,
    Phrase,
    DateName,
    Date,
    DateEnd,
    Name(usize),
    Colon(usize),
    Value(usize),
    LineEnd(usize),
    Closing,
    LengthName,
    Length,
    LengthEnd,
    HeadEnd,
    Body,
    End,
}

impl Segment {
    ghost use Rattle.pod_base.specs.declared.response.Response.{Response as Whole};

    /// Whether the segment is the end of the text.
    pub(crate) fn is_end(self) -> bool
        ensures yes { IsTrue result → self ≡ Segment.End }
        ensures no { result ≡ false → self ≢ Segment.End }
    {
        matches!(self, Segment::End)
    }

    /// The segment of a response after this one, where there are so many fields.
    pub(crate) fn next(self, fields: usize) -> Segment
        ensures after { (response : Whole) (date : List ℕ) (close : Bool)
            → length response.fields ≡ fields
            → segment_text response date close result ++ text_after response date close result
            ≡ text_after response date close self }
        ensures nearer { self ≢ Segment.End
            → segments_left fields result < segments_left fields self }
    {
        match self {
            Segment::Version => Segment::Code,
            Segment::Code => Segment::Space,
            Segment::Space => Segment::Phrase,
            Segment::Phrase => Segment::DateName,
            Segment::DateName => Segment::Date,
            Segment::Date => Segment::DateEnd,
            Segment::DateEnd => Segment::Name(0),
            Segment::Name(i) if i < fields => Segment::Colon(i),
            Segment::Colon(i) if i < fields => Segment::Value(i),
            Segment::Value(i) if i < fields => Segment::LineEnd(i),
            Segment::LineEnd(i) if i < fields => Segment::Name(i + 1),
            Segment::Name(_) | Segment::Colon(_) | Segment::Value(_) | Segment::LineEnd(_) =>
                Segment::Closing,
            Segment::Closing => Segment::LengthName,
            Segment::LengthName => Segment::Length,
            Segment::Length => Segment::LengthEnd,
            Segment::LengthEnd => Segment::HeadEnd,
            Segment::HeadEnd => Segment::Body,
            Segment::Body | Segment::End => Segment::End,
        }
    }
}
