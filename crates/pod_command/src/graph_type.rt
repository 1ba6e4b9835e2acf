//! [`GraphType`]: the types in which a graph is shown.
ghost use Rattle.std.specs.Prelude.{◌≡◌};
ghost use Rattle.pod_command.specs.GraphTexts.{type_name};

/// A type in which a graph is shown.
#[derive(Clone, Copy, Debug, PartialEq, Eq)]
pub enum GraphType {
    /// `text/turtle`.
    Turtle,
    /// `application/ld+json`, expanded.
    JsonLd,
}

impl GraphType {
    /// Its name, without parameters.
    pub fn name(self) -> &'static str
        ensures { result.now ≡ type_name self }
    {
        match self {
            GraphType::Turtle => "text/turtle",
            GraphType::JsonLd => "application/ld+json",
        }
    }
}
