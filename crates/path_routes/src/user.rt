//! The user that a request names.
ghost use Rattle.std.specs.Prelude.{◌≡◌, ◌≤◌, length, IfOk, MatchOption};
ghost use Rattle.path_routes.specs.Users as spec;

use crate::query::{Given, Query};
use hk_base::{NoMemory, Text};
use std::alloc::Global;

/// The greatest length of a user's name in bytes.
const LONGEST_USER: usize = 255;

/// Why a query names no user.
#[derive(Clone, Copy, Debug, PartialEq, Eq)]
pub enum UserFault {
    /// `user.name` is absent or empty.
    NoUser,
    /// `user.name` occurs more than once, isn't UTF-8 or has more than 255 bytes, or `doAs` is given.
    BadRequest,
    /// There is no memory for the name.
    NoMemory,
}

/// Returns the user that a query names by `user.name`: 1 to 255 bytes of UTF-8, given once. No user
/// acts for another: a request with `doAs` is refused. A missing or empty name is reported before
/// any other fault.
pub fn read_user(alloc: Global, query: &Query) -> Result<Text, UserFault>
    ensures { spec.SaysUser query.now result }
{
    let user = match query.given(b"user.name") {
        Given::Absent => return Err(UserFault::NoUser),
        Given::Repeated => return Err(UserFault::BadRequest),
        Given::Once(user) => user,
    };
    if user.is_empty() {
        return Err(UserFault::NoUser);
    }
    let Given::Absent = query.given(b"doAs") else {
        return Err(UserFault::BadRequest);
    };
    match read_text(alloc, user) {
        Ok(Some(user)) => Ok(user),
        Ok(None) => Err(UserFault::BadRequest),
        Err(NoMemory) => Err(UserFault::NoMemory),
    }
}

/// Copies the bytes as a user's name. Returns `None` if they are not one.
fn read_text(alloc: Global, user: &[u8]) -> Result<Option<Text>, NoMemory>
    ensures { IfOk result
        (λ found.
        MatchOption found (¬ spec.IsUserText user.now)
        (λ text. (text ≡ user.now) × spec.IsUserText user.now)) }
{
    if user.len() > LONGEST_USER {
        return Ok(None);
    }
    let bytes = user.to_vec(alloc)?;
    Ok(Text::from_utf8(bytes))
}
