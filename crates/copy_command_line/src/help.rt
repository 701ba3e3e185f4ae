//! The help texts of the program. `clap` adds the usage, the commands and the options.

/// The version that `--version` shows.
pub(crate) const VERSION: &str = "0.1.0";

/// What the program is.
pub(crate) const PROGRAM: &str =
    "Copies of HDFS encryption zones in a second cluster, which stay encrypted";

/// The files and the exit statuses of the commands.
pub(crate) const PROGRAM_NOTES: &str = "It uses these files of the current folder, or of FOLDER:
  keys.log             the keys
  names.log            directories, files and zones
  kms-acls.properties  access control lists: who may do what with which key
  bodies/ID            the body of the file with this id
  backup/names.log     directories, files and zones of the second cluster
  copies/ID            the body of the file of the second cluster with this id
What is missing is made, for its owner alone to read. The logs are those of
'hkms', and the bodies those of 'hkfs'. Where there is no kms-acls.properties,
everybody may do everything. One process at a time can use the logs of a folder.

The second cluster has no keys of its own: what is copied is decrypted with those
of keys.log.

Exit status:
   0  the zone was copied, or the range was written
   2  the command line has a mistake; nothing was read, and no log was made
   3  kms-acls.properties has a mistake
   4  keys.log, names.log or backup/names.log is damaged
   5  FOLDER or a log cannot be opened, or another process has the log, or the disk
      failed later
   6  there was no memory
   7  kms-acls.properties or /dev/urandom cannot be read
   8  the output cannot be written
  10  a log was opened 4,294,967,295 times, and cannot be opened again
  11  a call was refused, or the path is that of a directory
  12  a body cannot be read or written

'hkcopy copy --help' and 'hkcopy read --help' say what a command reads and writes.";

/// The purpose of `copy`, in one line.
pub(crate) const COPY: &str = "Copies an encryption zone into the second cluster";

/// What the first word of `copy` gives.
pub(crate) const SOURCE: &str =
    "The zone after /.reserved/raw, as it is or in a snapshot: /.reserved/raw/z";

/// What the second word of `copy` gives.
pub(crate) const TARGET: &str =
    "Path of the copy in the second cluster, where nothing may be, such as /w";

/// The output and the exit statuses of `copy`.
pub(crate) const COPY_NOTES: &str =
    "Directories, files, keys of zones and encrypted keys of files are copied, and the
bodies as they are stored. No body is decrypted, and no key. The calls of both
clusters are made as the superuser 'hdfs'. Missing directories above TO are made. A
snapshot is copied by its path: /.reserved/raw/z/.snapshot/NAME.

Standard output gets one line: 'copied', the number of files and the number of
directories, the zone among them, as in

    copied 300 20

The first call that is refused or fails ends the command. What was copied until then
stays at TO, each file with its whole body. The last line says why:

  Status  Last line            Cause
     3    acl line N refused   line N of kms-acls.properties has a mistake
          acl line N repeated  it has a name that an earlier line has
          acl line N unknown   it has a name that does not exist
          acl too long         kms-acls.properties is over 1,048,576 bytes
     4    damaged keys AT      keys.log is damaged at byte AT
          damaged names AT     names.log is damaged at byte AT
          damaged copies AT    backup/names.log is damaged at byte AT
     5    store fault          the folder or a log cannot be opened, another
                               process has a log, or one cannot be written
     6    no memory            there was no memory
     7    read fault           kms-acls.properties cannot be read
          no random source     /dev/urandom cannot be read
     8    none                 the output cannot be written
    10    openings spent       a log was opened 4,294,967,295 times
    11    refused ..           a call was refused, as in an answer of 'hkms replay'
    12    vault fault          a body cannot be read or written, or 'copies' has a
                               body for a new file";

/// The purpose of `read`, in one line.
pub(crate) const READ: &str = "Writes a range of the body of a file of the second cluster";

/// What the second word of `read` gives.
pub(crate) const PATH: &str = "Path of the file in the second cluster, such as /w/a";

/// The output and the exit statuses of `read`.
pub(crate) const READ_NOTES: &str =
    "The body of a file with an encrypted key is decrypted. kms-acls.properties says
whether the user may decrypt that key.

Standard output gets the bytes and nothing else. A range that goes past the end of
the body is cut there. Standard input is not read. The numbers are decimal, below
9,223,372,036,854,775,808, without a sign or a leading zero.

The exit statuses and last lines are those of 'hkcopy copy'. A last line stands after
bytes that were already written: look at the status.";
