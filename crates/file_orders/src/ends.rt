//! What a command over files and their bodies comes to.
ghost use Rattle.std.specs.Prelude.{◌≡◌};
ghost use Rattle.file_orders.specs.Ends.{end_of_body, end_of_keys, end_of_names, end_of_refused};

use body_stream::BodyFault;
use kms_calls::KmsRefusal;
use name_calls::NameRefusal;

/// How a command ended.
#[derive(Clone, Copy)]
pub enum FsEnd {
    /// A body of this number of bytes was put.
    Put { count: u64 },
    /// This number of bytes was read.
    Read { count: u64 },
    /// The namesystem refused an order, but not for want of memory, and its disk had no fault.
    NameRefused(NameRefusal),
    /// The key management service refused a decryption in the same sense.
    KeyRefused(KmsRefusal),
    /// The path is that of a directory.
    Directory,
    /// The disk failed.
    StoreFault,
    /// Allocation failed.
    NoMemory,
    /// The input failed.
    ReadFault,
    /// The output failed.
    WriteFault,
    /// The vault failed, or it had a body for a new file.
    VaultFault,
    /// The input has more bytes than a body may have.
    TooLong,
}

/// Returns the end by a refusal of the key management service.
pub(crate) fn end_of_keys(why: KmsRefusal) -> FsEnd
    ensures { result ≡ end_of_keys why }
{
    match why {
        KmsRefusal::NoMemory => FsEnd::NoMemory,
        KmsRefusal::StoreFault => FsEnd::StoreFault,
        _ => FsEnd::KeyRefused(why),
    }
}

/// Returns the end by a refusal of the namesystem that carries this one of the key management service.
fn end_of_refused(refused: KmsRefusal, why: NameRefusal) -> FsEnd
    ensures { result ≡ end_of_refused refused why }
{
    match refused {
        KmsRefusal::NoMemory => FsEnd::NoMemory,
        KmsRefusal::StoreFault => FsEnd::StoreFault,
        _ => FsEnd::NameRefused(why),
    }
}

/// Returns the end by a refusal of the namesystem.
pub fn end_of_names(why: NameRefusal) -> FsEnd
    ensures { result ≡ end_of_names why }
{
    match why {
        NameRefusal::NoMemory => FsEnd::NoMemory,
        NameRefusal::StoreFault => FsEnd::StoreFault,
        NameRefusal::KeyRefused(refused) => end_of_refused(refused, why),
        _ => FsEnd::NameRefused(why),
    }
}

/// Returns the end by a fault of a transfer.
pub(crate) fn end_of_body(fault: BodyFault) -> FsEnd
    ensures { result ≡ end_of_body fault }
{
    match fault {
        BodyFault::ReadFault => FsEnd::ReadFault,
        BodyFault::WriteFault => FsEnd::WriteFault,
        BodyFault::VaultFault => FsEnd::VaultFault,
        BodyFault::TooLong => FsEnd::TooLong,
        BodyFault::NoMemory => FsEnd::NoMemory,
    }
}
