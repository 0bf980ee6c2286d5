//! What a value behind a turnstile shows.
ghost use Rattle.std.specs.Prelude.{◌≡◌, List, length};

/// A value with a list of entries, and with a part that no call changes.
///
/// Contracts alone read the list and the fixed part, so no value of `Entry` or `Fixed` need be made.
pub trait Kept {
    /// One entry of the list.
    type Entry;

    /// The part that never changes.
    type Fixed;

    ghost list: { Self → List Self.Entry };

    ghost fixed: { Self → Self.Fixed };

    /// The number of entries. Each list that a value has is so short that this number fits.
    fn length(&self) -> u64
        ensures { result ≡ length (list self.now) };
}
