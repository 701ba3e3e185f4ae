//! The folder whose files a program uses.
ghost use Rattle.std.specs.Prelude.{◌≡◌, IfErr, IsErr, IsOk, None, Ok};
ghost use Rattle.std.specs.IoError.{error_kind};
ghost use Rattle.std.specs.declared.io.ErrorKind.TheVariants.{OutOfMemory};

use clap_lines::OrderFault;
use hk_base::Text;
use std::env;
use std::io::{self, ErrorKind};
use std::rt::{Env, Stderr};

/// Makes a folder the current one. If it can't be, tells why on `errors`, after the name of the program.
fn enter<R: Env>(rt: &R, errors: Stderr, program: &str, folder: &str) -> io::Result<()> {
    match env::set_current_dir(rt, folder) {
        Ok(()) => Ok(()),
        Err(error) => {
            let _ = eprintln!(errors; "{program}: the folder {folder} cannot be opened: {error}");
            Err(error)
        }
    }
}

/// Makes the folder that the words of a program give the current one. Does nothing if they give none. If the
/// folder can't be entered, tells why on `errors`, after the name of the program. Fails with `OutOfMemory`
/// if the words could not be parsed.
pub fn enter_folder<R: Env>(
    rt: &R,
    errors: Stderr,
    program: &str,
    given: Result<Option<Text>, OrderFault>,
) -> io::Result<()>
    ensures memory { IsErr given → IfErr result (λ error. error_kind error ≡ OutOfMemory) }
    ensures fails { IsErr given → IsErr result }
    ensures none { given ≡ Ok None → IsOk result }
{
    match given {
        Ok(Some(folder)) => enter(rt, errors, program, folder.as_str()),
        Ok(None) => Ok(()),
        Err(_) => Err(io::Error::from(ErrorKind::OutOfMemory)),
    }
}
