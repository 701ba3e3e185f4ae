//! The help texts of the program. `clap` adds the usage, the commands and the options.

/// The version that `--version` shows.
pub(crate) const VERSION: &str = "0.1.0";

/// What the program is.
pub(crate) const PROGRAM: &str =
    "Bodies of files in HDFS encryption zones, encrypted under their own keys";

/// The files and the exit statuses of the commands.
pub(crate) const PROGRAM_NOTES: &str = "It uses these files of the current folder, or of FOLDER:
  keys.log             the keys
  names.log            directories, files and zones
  kms-acls.properties  access control lists: who may do what with which key
  bodies/ID            the body of the file with this id, encrypted if the file
                       lies in an encryption zone
What is missing is made, for its owner alone to read. The logs are those of
'hkms'. Where there is no kms-acls.properties, everybody may do everything. One
process at a time can use the logs of a folder.

Exit status:
   0  the body was stored, or the range was written
   2  the command line has a mistake; nothing was read, and no log was made
   3  kms-acls.properties has a mistake
   4  keys.log or names.log is damaged
   5  FOLDER or a log cannot be opened, or another process has the log, or the disk
      failed later
   6  there was no memory
   7  the input, kms-acls.properties or /dev/urandom cannot be read
   8  the output cannot be written
  10  a log was opened 4,294,967,295 times, and cannot be opened again
  11  a call was refused, or the path is that of a directory
  12  a body cannot be read or written
  13  the input has more than 1,099,511,627,776 bytes

'hkfs put --help' and 'hkfs read --help' say what a command reads and writes.";

/// The purpose of `put`, in one line.
pub(crate) const PUT: &str = "Makes a file, and stores the input as its body";

/// What the first word gives.
pub(crate) const USER: &str = "Who makes the calls, of 1 to 255 bytes";

/// What the second word of `put` gives.
pub(crate) const NEW_PATH: &str = "Path of the new file, such as /data/a";

/// The input, the output and the exit statuses of `put`.
pub(crate) const PUT_NOTES: &str =
    "Standard input is read to its end. Standard output gets one line: 'put' and the
number of bytes, as in

    put 16

In an encryption zone the body is encrypted with AES in counter mode, under the
data encryption key of the file. After any other status but 2 the file may be
there, with the beginning of its body. The last line says why:

  Status  Last line            Cause
     3    acl line N refused   line N of kms-acls.properties has a mistake
          acl line N repeated  it has a name that an earlier line has
          acl line N unknown   it has a name that does not exist
          acl too long         kms-acls.properties is over 1,048,576 bytes
     4    damaged keys AT      keys.log is damaged at byte AT
          damaged names AT     names.log is damaged at byte AT
     5    store fault          the folder or a log cannot be opened, another
                               process has a log, or one cannot be written
     6    no memory            there was no memory
     7    read fault           the input or kms-acls.properties cannot be read
          no random source     /dev/urandom cannot be read
     8    none                 the output cannot be written
    10    openings spent       a log was opened 4,294,967,295 times
    11    refused ..           a call was refused, as in an answer of 'hkms replay'
    12    vault fault          the body cannot be written
    13    body too long        the input has more than 1,099,511,627,776 bytes";

/// The purpose of `read`, in one line.
pub(crate) const READ: &str = "Writes a range of the body of a file";

/// What the second word of `read` gives.
pub(crate) const PATH: &str = "Path of the file, such as /data/a";

/// The output and the exit statuses of `read`.
pub(crate) const READ_NOTES: &str =
    "Standard output gets the bytes and nothing else. A range that goes past the end of
the body is cut there. Standard input is not read. The numbers are decimal, below
9,223,372,036,854,775,808, without a sign or a leading zero.

The exit statuses and last lines are those of 'hkfs put', without 13. A last line
stands after bytes that were already written: look at the status.";
