//! Reading a whole text of properties.
ghost use Rattle.std.specs.Prelude.{◌≤◌, length, MatchResult};
ghost use Rattle.prop_text.specs.Properties.{HasFault, IsProps};

use crate::cuts::cut_line;
use crate::faults::PropFault;
use crate::lines::LineList;
use crate::reading::Reading;
use crate::sizes::Sizes;
use std::alloc::Global;

/// The largest size of a text of properties, in bytes.
const LONGEST_TEXT: usize = 1048576;

/// Properties: their lines in order, and the four sizes.
#[derive(Drop)]
pub struct Props {
    pub lines: LineList,
    pub sizes: Sizes,
}

/// Reads properties from a text, or reports the first bad line. Takes memory for the lines, and
/// time O(n log n) in the number of lines.
pub fn read_props(alloc: Global, bytes: &[u8]) -> Result<Props, PropFault>
    ensures { MatchResult result (IsProps bytes.now) (HasFault bytes.now) }
{
    if bytes.len() > LONGEST_TEXT {
        return Err(PropFault::TooLong);
    }
    read_lines(alloc, bytes)
}

fn read_lines(alloc: Global, text: &[u8]) -> Result<Props, PropFault>
    requires { length text.now ≤ 1048576 }
    ensures { MatchResult result (IsProps text.now) (HasFault text.now) }
{
    let mut reading = Reading::new(alloc);
    let mut rest = text;
    let mut number = 0u64;
    'lines: loop {
        let (line, more) = cut_line(rest);
        number += 1;
        reading.read_line(alloc, number, line)?;
        match more {
            None => {
                return Ok(Props {
                    lines: reading.lines,
                    sizes: reading.sizes,
                });
            }
            Some(next) => rest = next,
        }
    }
}
