//! What the limits of a file mean, as the clauses of a function that only looks at its argument.

ghost use Rattle.std.specs.Prelude.{◌≡◌, ℕ, ◌↔◌, Ok, Err};
ghost use Rattle.loda_io.specs.Shelf.{checked};
ghost use Rattle.loda_io.specs.Whole.{IsWhole, IsFirstTooLong, IsTooLarge};
ghost use Rattle.loda_io.specs.declared.ReadError.TheVariants.{FileTooLarge, LineTooLong};

/// A file is whole exactly where it has at most 268,435,456 bytes and each of its lines at most 65,536
/// without its line feed. The line that is answered is the first that is longer, if the byte that makes
/// it too long comes before the first byte past the file's limit; else the file is too large.
pub fn limits_of_a_file(file: &[u8])
    ensures whole { (checked file.now ≡ Ok file.now) ↔ IsWhole file.now }
    ensures long { (line : ℕ) → (checked file.now ≡ Err (LineTooLong line)) ↔ IsFirstTooLong file.now line }
    ensures large { (checked file.now ≡ Err (FileTooLarge 268435457)) ↔ IsTooLarge file.now }
{
    let _length = file.len();
}
