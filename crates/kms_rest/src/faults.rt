//! The faults of a request.
use hk_base::NoMemory;

/// Why a request is not a call. If more than one holds, the first one in this order is reported.
#[derive(Clone, Copy, Debug, PartialEq, Eq)]
pub enum RestFault {
    /// No route of the service matches the path.
    NoRoute,
    /// A route matches the path, but it has no operation with this method.
    BadMethod,
    /// The parameter `user.name` is absent or empty.
    NoUser,
    /// The user, the query, the names in the path or the body are at fault.
    BadRequest,
    /// There is no memory for the call.
    NoMemory,
}

impl From<NoMemory> for RestFault {
    ghost use Rattle.std.specs.Prelude.{◌≡◌};
    ghost use Rattle.kms_rest.specs.declared.faults.RestFault.TheVariants as fault;

    ghost from_gives = { λ _ given. given ≡ fault.NoMemory };

    fn from(_: NoMemory) -> Self {
        RestFault::NoMemory
    }
}
