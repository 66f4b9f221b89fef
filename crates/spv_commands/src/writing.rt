//! Writing on where no write failed before.
ghost use Rattle.spv_commands.specs.inner.Progress.{Adds};

use spv_words::{Sink, write_all};

/// Writes on where no write failed before: whether none has.
pub fn write_on<W: Sink>(text: &[u8], sound: bool, w: &mut W) -> bool
    ensures { Adds W.contents W.failures w.old w.new sound text.now result }
{
    if !sound {
        return false;
    }
    write_all(text, w).is_ok()
}
