//! The two parts of the target of a request.
ghost use Rattle.std.specs.Prelude.{◌≡◌};
ghost use Rattle.path_routes.specs.Queries as spec;

/// Returns the path of a target: the part before the first `?`, not percent-decoded.
pub fn path_of(target: &str) -> &str
    ensures { result.now ≡ spec.path_of target.now }
{
    match target.split_once('?') {
        Some((path, _)) => path,
        None => target,
    }
}

/// Returns the query of a target: the part after the first `?`, empty if there is no `?`.
pub fn query_of(target: &str) -> &str
    ensures { result.now ≡ spec.query_of target.now }
{
    match target.split_once('?') {
        Some((_, query)) => query,
        None => "",
    }
}
