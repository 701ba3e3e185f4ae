//! Reads the properties.
ghost use Rattle.std.specs.Prelude.{◌≡◌, ◌≤◌, IfOk, IsErrOf};
ghost use Rattle.hk_base.specs.Faults.{Rose};
ghost use Rattle.command_io.specs.Properties.{HasPropsFault, ReadsProperties, ReadsText};
ghost use Rattle.command_io.specs.declared.props.PropsFault.{PropsFault};
ghost use Rattle.command_io.specs.declared.props.PropsFault.TheVariants as props_fault;

use hk_base::{ByteList, Next, Reader, Source};
use prop_text::{PropFault, Props, read_props};
use std::alloc::Global;

/// The most bytes that the properties may have.
const LONGEST_TEXT: usize = 1048576;

/// Why the properties could not be read.
#[derive(Clone, Copy, Debug, PartialEq, Eq)]
pub enum PropsFault {
    /// The source failed.
    ReadFault,
    /// The text is refused as properties.
    TextFault(PropFault),
}

/// Reads a source to its end, or to one byte more than properties may have.
fn read_text<A: Source>(alloc: Global, source: &mut A) -> Result<ByteList, PropsFault>
    ensures text { IfOk result (λ text. ReadsText (A.left source.old) (A.left source.new) text) }
    ensures fault { (why : PropsFault) → IsErrOf result why →
        HasPropsFault (A.left source.old) why }
    ensures later { A.faults source.old ≤ A.faults source.new }
    ensures cause { IsErrOf result props_fault.ReadFault →
        Rose (A.faults source.old) (A.faults source.new) }
{
    let mut reader = Reader::new();
    let mut text = ByteList::new(alloc);
    'bytes: while text.len() <= LONGEST_TEXT {
        match reader.next(source) {
            Next::Byte(byte) => {
                if text.push(byte).is_err() {
                    return Err(PropsFault::TextFault(PropFault::NoMemory));
                }
            }
            Next::End => return Ok(text),
            Next::Past => return Err(PropsFault::TextFault(PropFault::TooLong)),
            Next::Fault => return Err(PropsFault::ReadFault),
        }
    }
    Ok(text)
}

/// Reads the properties of the key management service, to the end of the source or to the byte past
/// 1,048,576. It asks for 4,096 bytes at a time. Do not use the source after an error.
///
/// Returns `ReadFault` only if the source's count of faults rose, and a fault of the text other than
/// `NoMemory` exactly if the whole text has it.
pub fn read_properties<A: Source>(alloc: Global, acls: &mut A) -> Result<Props, PropsFault>
    ensures read { IfOk result (ReadsProperties (A.left acls.old) (A.left acls.new)) }
    ensures fault { (why : PropsFault) → IsErrOf result why → HasPropsFault (A.left acls.old) why }
    ensures later { A.faults acls.old ≤ A.faults acls.new }
    ensures cause { IsErrOf result props_fault.ReadFault →
        Rose (A.faults acls.old) (A.faults acls.new) }
{
    let text = match read_text(alloc, acls) {
        Err(fault) => return Err(fault),
        Ok(text) => text,
    };
    match read_props(alloc, text.as_slice()) {
        Err(fault) => Err(PropsFault::TextFault(fault)),
        Ok(props) => Ok(props),
    }
}
