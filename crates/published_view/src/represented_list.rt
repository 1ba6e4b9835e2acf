//! What a version stands for.
ghost use Rattle.std.specs.Prelude.{ℕ, List};

/// A version, which stands for a list of numbered items. It stores no list.
pub trait Told: Drop {
    /// An item of the list.
    type Item;

    /// The version stands for the list, whose first item has this number.
    ghost stands: { Self → ℕ → List Self.Item → Type 0 };
}
