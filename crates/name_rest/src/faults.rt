//! The faults of a request.
use hk_base::NoMemory;

/// Why a request is not an order. If more than one holds, the first one in this order is reported.
#[derive(Clone, Copy, Debug, PartialEq, Eq)]
pub enum NameRestFault {
    /// No route of the namesystem has the path.
    NoRoute,
    /// A route has the path, but another method.
    BadMethod,
    /// The parameter `user.name` is absent or empty.
    NoUser,
    /// The user is at fault, or a parameter that the order needs.
    BadRequest,
    /// A path or the name of a snapshot breaks its rule.
    BadPath,
    /// There is no memory for the order.
    NoMemory,
}

impl From<NoMemory> for NameRestFault {
    ghost use Rattle.std.specs.Prelude.{◌≡◌};
    ghost use Rattle.name_rest.specs.declared.faults.NameRestFault.TheVariants as fault;

    ghost from_gives = { λ _ given. given ≡ fault.NoMemory };

    fn from(_: NoMemory) -> Self {
        NameRestFault::NoMemory
    }
}
