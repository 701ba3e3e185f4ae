//! Reading line by line.
ghost use Rattle.std.specs.Prelude.{◌≡◌, [], MatchResult};
ghost use Rattle.prop_text.specs.Properties.{is_quiet};
ghost use Rattle.prop_text.specs.Sizes.{IsInRange, default_sizes, with_line};
ghost use Rattle.prop_text.specs.Steps.{AddsValue, LineHasFault, ReadsLine, ValueHasFault};

use crate::cuts::cut_at_equals;
use crate::faults::PropFault;
use crate::lines::{LineList, PropLine};
use crate::names::read_name;
use crate::seen::NameSet;
use crate::setting::Setting;
use crate::sizes::Sizes;
use crate::values::read_value;
use std::alloc::Global;

/// The result so far: the names that were set, the lines, and the sizes.
#[derive(Drop)]
pub struct Reading {
    pub names: NameSet,
    pub lines: LineList,
    pub sizes: Sizes,
}

/// Returns whether a line is empty or a comment.
fn is_quiet(line: &[u8]) -> bool
    ensures { result ≡ is_quiet line.now }
{
    if line.is_empty() {
        return true;
    }
    line[0] == b'#'
}

fn default_sizes() -> Sizes
    ensures { result ≡ default_sizes }
{
    Sizes {
        queue: 500,
        watermark: 150,
        batch: 1000,
        cache: 1000,
    }
}

/// Returns the sizes after a line.
fn with_line(sizes: Sizes, line: &PropLine) -> Sizes
    requires { IsInRange line.now }
    ensures { result ≡ with_line sizes line.now }
{
    match line {
        PropLine::QueueSize { size } => Sizes {
            queue: *size,
            ..sizes
        },
        PropLine::QueueWatermark { size } => Sizes {
            watermark: *size,
            ..sizes
        },
        PropLine::BatchSize { size } => Sizes {
            batch: *size,
            ..sizes
        },
        PropLine::CacheSize { size } => Sizes {
            cache: *size,
            ..sizes
        },
        PropLine::Service { .. } => sizes,
        PropLine::Blacklist { .. } => sizes,
        PropLine::Key { .. } => sizes,
        PropLine::KeyAll { .. } => sizes,
        PropLine::Default { .. } => sizes,
        PropLine::Whitelist { .. } => sizes,
        PropLine::Group { .. } => sizes,
    }
}

impl Reading {
    /// Creates the state before the first line. Does not allocate.
    pub fn new(alloc: Global) -> Reading
        ensures names { result.names ≡ [] }
        ensures lines { result.lines ≡ [] }
        ensures sizes { result.sizes ≡ default_sizes }
    {
        Reading {
            names: NameSet::new(alloc),
            lines: LineList::new(alloc),
            sizes: default_sizes(),
        }
    }

    /// Reads the value of a known name in line `number`.
    fn read_set(
        &mut self,
        alloc: Global,
        number: u64,
        what: Setting,
        name: &[u8],
        value: &[u8],
    ) -> Result<(), PropFault>
        ensures { MatchResult result (λ _. AddsValue self.old self.new what name.now value.now)
            (ValueHasFault self.old.names number what name.now value.now) }
    {
        let new = self.names.add(name)?;
        if !new {
            return Err(PropFault::Repeated { number });
        }
        let Some(line) = read_value(alloc, what, name, value)? else {
            return Err(PropFault::BadLine { number });
        };
        let sizes = with_line(self.sizes, &line);
        self.lines.push(line)?;
        self.sizes = sizes;
        Ok(())
    }

    /// Reads line `number`. After an error the state must not be used again.
    pub fn read_line(&mut self, alloc: Global, number: u64, line: &[u8]) -> Result<(), PropFault>
        ensures { MatchResult result (λ _. ReadsLine self.old self.new line.now)
            (LineHasFault self.old.names number line.now) }
    {
        if is_quiet(line) {
            return Ok(());
        }
        let Some((name, value)) = cut_at_equals(line) else {
            return Err(PropFault::BadLine { number });
        };
        let Some(what) = read_name(name) else {
            return Err(PropFault::UnknownName { number });
        };
        self.read_set(alloc, number, what, name, value)?;
        Ok(())
    }
}
