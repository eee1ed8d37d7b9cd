//! Pieces of the texts of payloads.

ghost use Rattle.std.specs.Prelude.{◌≡◌, ◌++◌, OnOk, decimal};
ghost use Rattle.rtr_base.specs.PlainTexts.{prefix_text};

use list_lines::Line;
use rtr_base::addr::Prefix;
use std::alloc::AllocError;

/// Adds a text, a prefix after it, another text, and a number after that.
pub fn add_prefix(
    line: &mut Line,
    before: &str,
    prefix: Prefix,
    between: &str,
    max_len: u8,
) -> Result<(), AllocError>
    ensures { OnOk result (line.new ≡ line.old
        ++ (before.now ++ prefix_text prefix ++ between.now ++ decimal max_len)) }
{
    line.text(before)?;
    line.prefix(prefix)?;
    line.labelled(between, u64::from(max_len))
}
