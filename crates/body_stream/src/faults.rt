//! What ends the transfer of a body.

/// Why a body was not put or not read.
#[derive(Clone, Copy, Debug, PartialEq, Eq)]
pub enum BodyFault {
    /// The source failed.
    ReadFault,
    /// The sink failed.
    WriteFault,
    /// The vault failed.
    VaultFault,
    /// The source has more than 2^40 bytes.
    TooLong,
    /// There is no memory for the transfer. The transfers here need none.
    NoMemory,
}
