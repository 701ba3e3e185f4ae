//! The files that each program opens before its command runs.
use disk_kinds::{Reading, open_source};
use std::fs::File;
use std::io::{self, Read};
use std::rt::Files;

/// The file of the properties of the key management service, in the current folder.
pub const PROPERTIES: &str = "kms-acls.properties";

/// The properties if there is no such file: every user may do everything.
const PERMITTING: &[u8] = b"default.key.acl.MANAGEMENT=*\n\
    default.key.acl.GENERATE_EEK=*\n\
    default.key.acl.DECRYPT_EEK=*\n\
    default.key.acl.READ=*\n";

/// The bytes of the properties.
#[derive(Drop)]
pub enum PropertyBytes {
    Kept(File),
    Permitting(&'static [u8]),
}

impl Read for PropertyBytes {
    fn read(&mut self, buf: &mut [u8]) -> io::Result<usize> {
        match self {
            PropertyBytes::Kept(file) => file.read(buf),
            PropertyBytes::Permitting(rest) => rest.read(buf),
        }
    }
}

/// Returns the properties of the current folder. Fails if the file is there and cannot be opened, or is
/// no regular file.
pub fn open_properties<R: Files<File = File>>(files: &R) -> io::Result<Reading<PropertyBytes>> {
    match open_source(files, PROPERTIES)? {
        Some(source) => Ok(Reading::new(PropertyBytes::Kept(source.inner))),
        None => Ok(Reading::new(PropertyBytes::Permitting(PERMITTING))),
    }
}

/// Files in place of the standard descriptors that were closed.
#[derive(Drop)]
pub struct Standard {
    input: File,
    output: File,
    errors: File,
}

/// Opens `/dev/null` three times for reading. An open takes the lowest descriptor that is free, so
/// afterwards none of the standard ones is, and no file that is opened later is taken for the input or
/// the output. If the input was closed it reads as empty. If the output was closed each write to it
/// fails.
pub fn fill_standard<R: Files<File = File>>(files: &R) -> io::Result<Standard> {
    Ok(Standard {
        input: File::open(files, "/dev/null")?,
        output: File::open(files, "/dev/null")?,
        errors: File::open(files, "/dev/null")?,
    })
}
