//! The help texts of the program. `clap` adds the usage, the commands and the options.

/// The version that `--version` shows.
pub(crate) const VERSION: &str = "0.1.0";

/// What the program is.
pub(crate) const PROGRAM: &str = "Hadoop key management server for HDFS encryption zones";

/// The files and the exit statuses of the commands.
pub(crate) const PROGRAM_NOTES: &str =
    "Each command but 'load' uses these files of the current folder, or of FOLDER:
  keys.log             the keys; a change is written here before it is answered
  names.log            directories, files and zones, written in the same way
  kms-acls.properties  access control lists: who may do what with which key
  hkms.stop            a named pipe: a byte on it ends 'serve' after the requests
                       that it has begun
A log that is missing is made, for its owner alone to read. Where there is no
kms-acls.properties, everybody may do everything. The pipe need not be there. One
process at a time can use the logs of a folder. 'check' reads the two logs alone and
makes none, and it may run beside that process.

Exit status:
   0  the input was read to its end, or a request closed the connection, or all
      connections of 'serve' were served, or a byte came on hkms.stop, or 'load'
      or 'check' came to its end
   2  the command line has a mistake; nothing was read, and no log was made
   3  the input or kms-acls.properties has a mistake
   4  keys.log or names.log is damaged
   5  FOLDER or a log cannot be opened, or another process has the log, or the disk
      failed while 'serve' ran
   6  there was no memory
   7  the input, kms-acls.properties or /dev/urandom cannot be read
   8  the output cannot be written
   9  the port of 'serve' cannot be opened, or accepting a connection failed
  10  a log was opened 4,294,967,295 times, and cannot be opened again

'hkms replay --help' and so on say what a command reads and writes.";

/// The purpose of `replay`, in one line.
pub(crate) const REPLAY: &str = "Runs the calls of an event text and writes their answers";

/// The input, the output and the exit statuses of `replay`.
pub(crate) const REPLAY_NOTES: &str =
    "Standard input has a call on each line, with the user who makes it, such as

    kms alice create k 128 2b7e151628aed2a6abf7158809cf4f3c
    kms alice metadata j
    nn alice mkdir /data

Empty lines, and lines that begin with #, are passed over. Standard output gets
the number of each call and its answer, here

    1 version k@0 2b7e151628aed2a6abf7158809cf4f3c
    2 refused K4 NoSuchKey
    3 done

A call that is refused ends nothing. What ends a run:

  Status  Last line            Cause
     0    none                 the input was read to its end
     3    line N refused       line N is no call, or the input is too long
          acl line N refused   line N of kms-acls.properties has a mistake
          acl line N repeated  it has a name that an earlier line has
          acl line N unknown   it has a name that does not exist
          acl too long         kms-acls.properties is over 1,048,576 bytes
     4    damaged keys AT      keys.log is damaged at byte AT
          damaged names AT     names.log is damaged at byte AT
     5    store fault          the folder or a log cannot be opened, or another
                               process has the log
     6    no memory            there was no memory
     7    read fault           the input or kms-acls.properties cannot be read
          no random source     /dev/urandom cannot be read
     8    none                 the output cannot be written
    10    openings spent       a log was opened 4,294,967,295 times

The calls before that were made, and their answers stand. docs/event-text.md has
all calls. 'hkms --help' says which files are used.";

/// The purpose of `pipe`, in one line.
pub(crate) const PIPE: &str = "Answers the HTTP requests of one connection";

/// The input, the output and the exit statuses of `pipe`.
pub(crate) const PIPE_NOTES: &str =
    "Standard input has what a client sends on a connection of HTTP/1.1: requests of
the Hadoop KMS REST API, version 1, and of the namesystem, such as

    GET /kms/v1/keys/names?user.name=alice HTTP/1.1
    GET /nn/v1/list?path=/&user.name=alice HTTP/1.1

Standard output gets the response to each request, in their order, and nothing
else. The user is the one that the request names; no password is asked for. A
call that is refused is answered by a status of HTTP and ends nothing.

Exit status:
   0  the input ended, or the response to a request closed the connection
   3  the input is no HTTP, or kms-acls.properties has a mistake, or one of them
      is too long
   4  keys.log or names.log is damaged
   5  the folder or a log cannot be opened, or another process has the log
   6  there was no memory
   7  the input, kms-acls.properties or /dev/urandom cannot be read
   8  the output cannot be written
  10  a log was opened 4,294,967,295 times, and cannot be opened again

A head has at most 16,384 bytes and 64 fields, and a body 4,194,304 bytes.
docs/rest.md has the bodies and the messages. 'hkms --help' says which files are
used.";

/// The purpose of `serve`, in one line.
pub(crate) const SERVE: &str = "Answers the HTTP requests of connections to a port";

/// What the option `--port` gives.
pub(crate) const PORT: &str = "Port of 127.0.0.1, from 1 to 65535 [default: 9600]";

/// What the option `--conns` gives.
pub(crate) const CONNS: &str = "Connections to serve, from 1 to 4294967295 [default: 4294967295]";

/// What the option `--connections` gives.
pub(crate) const CONNECTIONS: &str = "Connections to serve at a time, from 1 to 1024 [default: 16]";

/// The connections and the exit statuses of `serve`.
pub(crate) const SERVE_NOTES: &str =
    "It listens on a port of 127.0.0.1. Clients send requests of HTTP/1.1: those of
the Hadoop KMS REST API, version 1, and of the namesystem, such as

    GET /kms/v1/keys/names?user.name=alice HTTP/1.1
    GET /nn/v1/list?path=/&user.name=alice HTTP/1.1

The user is the one that the request names; no password is asked for. Queues of
ready keys are filled, and zones re-encrypted, in the background. There are as
many places for connections as --connections says. If all are taken for half a
second, the connection that has waited longest for a request is ended, and the
next one gets its place; if none waits for a request, the next one waits.
A fault of a connection ends that connection alone.

Standard error gets a line when it listens, and a line when it ends. Standard
input is not read. What ends it:

  Status  Last line            Cause
     0    none                 all connections that --conns says were served, or
                               a byte came on hkms.stop
     3    acl line N refused   line N of kms-acls.properties has a mistake
          acl line N repeated  it has a name that an earlier line has
          acl line N unknown   it has a name that does not exist
          acl too long         kms-acls.properties is over 1,048,576 bytes
     4    damaged keys AT      keys.log is damaged at byte AT
          damaged names AT     names.log is damaged at byte AT
     5    store fault          the folder or a log cannot be opened, another
                               process has the log, or the disk failed
     6    no memory            there was no memory
     7    read fault           kms-acls.properties cannot be read
          no random source     /dev/urandom cannot be read
     8    none                 the output cannot be written
     9    door fault           the port cannot be opened, or accepting failed
    10    openings spent       a log was opened 4,294,967,295 times

The last line goes to standard output. What was answered before that stands.
docs/rest.md has the requests, the bodies and the messages. 'hkms --help' says
which files are used.";

/// The purpose of `load`, in one line.
pub(crate) const LOAD: &str = "Runs a load in memory and writes one line that sums it up";

/// What the number of `load` gives.
pub(crate) const COUNT: &str = "Steps, from 1 to 20000";

/// The steps, the output and the exit statuses of `load`.
pub(crate) const LOAD_NOTES: &str =
    "It makes four encryption zones in memory and takes N steps in them. Each step makes
or deletes a file, rolls a key, takes a snapshot or generates encrypted keys. Then
each zone is re-encrypted. N alone says what the steps are. No file is read or
written, except that /dev/urandom is read, and standard input is not read.

Standard output gets one line, as this one of 'hkms load 10':

    load events=10 created=8 deleted=0 rolled=1 ready=0 snapshots=1 refused=0 reencrypted=2

It has the number of steps, of files that were made and deleted, of rolls, of
encrypted keys that were generated, of snapshots, of steps that were refused, and
of files that got another encrypted key. It is the same in each run.

  Status  Last line            Cause
     0    the line above       all steps were taken
     6    no memory            there was no memory
     7    no random source     /dev/urandom cannot be read
     8    none                 the output cannot be written

docs/operations.md says what it is good for.";

/// The purpose of `check`, in one line.
pub(crate) const CHECK: &str = "Says what keys.log and names.log make, and which files are lost";

/// The output and the exit statuses of `check`.
pub(crate) const CHECK_NOTES: &str =
    "It reads both logs and changes neither. It takes no lock, so it may run beside
'serve'. A log that is missing is taken for an empty one and is not made. Standard
input and kms-acls.properties are not read.

Standard output gets a line for each lost file, and a line of numbers, such as

    lost /z/f k@0
    check keys=1 versions=2 directories=2 files=5 zones=1 snapshots=0 reencryptions=0 lost=1

A file is lost if its encrypted key is under a version of a key that keys.log does
not have: the key was deleted, or the two logs do not belong together. A key that
was made anew under the same name has versions of the same names, so its older
files are not seen as lost. The files of snapshots are not looked at.

The numbers are those of keys, of versions of all keys, of directories with the
root, of files, of encryption zones, of snapshots, of zones whose re-encryption has
not ended, and of lost files.

  Status  Last line            Cause
     0    the line above       both logs could be read, whether files are lost or not
     4    damaged keys AT      keys.log is damaged at byte AT
          damaged names AT     names.log is damaged at byte AT
     5    store fault          the folder or a log cannot be read
     6    no memory            there was no memory
     7    no random source     /dev/urandom cannot be read
     8    none                 the output cannot be written
    10    openings spent       a log was opened 4,294,967,295 times

docs/operations.md says when to use it.";
