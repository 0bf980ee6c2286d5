//! Counts in decimal.

ghost use Rattle.std.specs.Prelude.{◌≡◌, ◌++◌, OnOk, OnErr};
ghost use Rattle.std.specs.Fmt.{decimal};

use itoa::Buffer;
use std::alloc::AllocError;

/// Adds the decimal text of a count. After want of memory `out` is as before.
pub fn write_count(out: &mut Vec<u8>, count: u64) -> Result<(), AllocError>
    ensures ok { OnOk result (out.new.items ≡ out.old.items ++ decimal count) }
    ensures err { OnErr result (out.new.items ≡ out.old.items) }
{
    let mut buffer = Buffer::new();
    out.extend_from_slice(buffer.format(count).as_bytes())
}

/// Adds a word and a count, as `accepted 10`. After want of memory a part of it may stand there.
pub fn write_counted(out: &mut Vec<u8>, word: &[u8], count: u64) -> Result<(), AllocError>
    ensures { OnOk result (out.new.items ≡ out.old.items ++ (word.now ++ decimal count)) }
{
    out.extend_from_slice(word)?;
    write_count(out, count)
}
