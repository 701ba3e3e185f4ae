//! The routes of the service: which operation a method and a path name.
ghost use Rattle.std.specs.Prelude.{◌≡◌, ℕ, List, [], length, IfOk, IfErr, OnOk};
ghost use Rattle.kms_rest.specs.Operations.{Routes};
ghost use Rattle.kms_rest.specs.Places as spec;
ghost use Rattle.kms_rest.specs.Rows.{table, with_calls_of_a_key, with_keys};

use crate::faults::RestFault;
use crate::operation::Operation;
use crate::place::{Place, Verb};
use hk_base::NoMemory;
use matchit::Router;
use path_routes::add_route;
use std::alloc::Global;

/// Adds the routes of keys as a whole and of their metadata to an empty router.
fn add_routes_of_keys(router: &mut Router<Place>) -> Result<(), NoMemory>
    requires { router.old ≡ [] }
    ensures { OnOk result (router.new ≡ with_keys []) }
{
    add_route(router, "/kms/v1/keys", Place::Keys)?;
    add_route(router, "/kms/v1/key/{k}", Place::Key)?;
    add_route(
        router,
        "/kms/v1/key/{k}/_invalidatecache",
        Place::KeyInvalidate,
    )?;
    add_route(router, "/kms/v1/key/{k}/_metadata", Place::KeyMetadata)?;
    Ok(())
}

/// Adds the routes of a key's versions and of its encrypted keys to those of keys.
fn add_routes_of_a_key(router: &mut Router<Place>) -> Result<(), NoMemory>
    requires { router.old ≡ with_keys [] }
    ensures { OnOk result (router.new ≡ with_calls_of_a_key (with_keys [])) }
{
    add_route(router, "/kms/v1/key/{k}/_currentversion", Place::KeyCurrent)?;
    add_route(router, "/kms/v1/key/{k}/_versions", Place::KeyVersions)?;
    add_route(router, "/kms/v1/key/{k}/_eek", Place::KeyEek)?;
    add_route(router, "/kms/v1/key/{k}/_reencryptbatch", Place::KeyBatch)?;
    Ok(())
}

/// Adds the routes of single versions and of lists of keys to all others.
fn add_routes_of_versions_and_names(router: &mut Router<Place>) -> Result<(), NoMemory>
    requires { router.old ≡ with_calls_of_a_key (with_keys []) }
    ensures { OnOk result (router.new ≡ table) }
{
    add_route(router, "/kms/v1/keyversion/{v}", Place::Version)?;
    add_route(router, "/kms/v1/keyversion/{v}/_eek", Place::VersionEek)?;
    add_route(router, "/kms/v1/keys/names", Place::Names)?;
    add_route(router, "/kms/v1/keys/metadata", Place::Metadatas)?;
    Ok(())
}

/// Builds the routes of the service, each with the place that it names.
pub(crate) fn routes(alloc: Global) -> Result<Router<Place>, NoMemory>
    ensures { IfOk result (λ router. router ≡ table) }
{
    let mut router = Router::new(alloc);
    add_routes_of_keys(&mut router)?;
    add_routes_of_a_key(&mut router)?;
    add_routes_of_versions_and_names(&mut router)?;
    Ok(router)
}

fn read_verb(method: &[u8]) -> Verb
    ensures { result ≡ spec.verb_of method.now }
{
    if method == b"GET".as_slice() {
        Verb::Get
    } else if method == b"POST".as_slice() {
        Verb::Post
    } else if method == b"DELETE".as_slice() {
        Verb::Delete
    } else {
        Verb::Other
    }
}

/// Returns the operation at a place with a method.
fn operation_at(place: Place, verb: Verb) -> Option<Operation>
    ensures { result ≡ spec.operation_at place verb }
{
    match (place, verb) {
        (Place::Keys, Verb::Post) => Some(Operation::Create),
        (Place::Key, Verb::Post) => Some(Operation::Roll),
        (Place::Key, Verb::Delete) => Some(Operation::Delete),
        (Place::KeyInvalidate, Verb::Post) => Some(Operation::Invalidate),
        (Place::KeyMetadata, Verb::Get) => Some(Operation::Metadata),
        (Place::KeyCurrent, Verb::Get) => Some(Operation::Current),
        (Place::KeyVersions, Verb::Get) => Some(Operation::Versions),
        (Place::KeyEek, Verb::Get) => Some(Operation::Generate),
        (Place::KeyBatch, Verb::Post) => Some(Operation::Batch),
        (Place::Version, Verb::Get) => Some(Operation::Version),
        (Place::VersionEek, Verb::Post) => Some(Operation::Eek),
        (Place::Names, Verb::Get) => Some(Operation::Names),
        (Place::Metadatas, Verb::Get) => Some(Operation::Metadatas),
        _ => None,
    }
}

/// Returns the length of a place's path before its variable part.
fn part_start(place: Place) -> usize
    ensures { result ≡ length (spec.before place) }
{
    match place {
        Place::Keys => 12,
        Place::Key
        | Place::KeyInvalidate
        | Place::KeyMetadata
        | Place::KeyCurrent
        | Place::KeyVersions
        | Place::KeyEek
        | Place::KeyBatch => 12,
        Place::Version | Place::VersionEek => 19,
        Place::Names => 18,
        Place::Metadatas => 21,
    }
}

/// Returns the length of a place's path after its variable part.
fn part_rest(place: Place) -> usize
    ensures { result ≡ length (spec.after place) }
{
    match place {
        Place::Keys | Place::Key | Place::Version | Place::Names | Place::Metadatas => 0,
        Place::KeyInvalidate => 17,
        Place::KeyMetadata => 10,
        Place::KeyCurrent => 16,
        Place::KeyVersions => 10,
        Place::KeyEek | Place::VersionEek => 5,
        Place::KeyBatch => 16,
    }
}

/// Returns the variable part of a path of a place.
fn part(place: Place, path: &[u8]) -> &[u8]
    requires { (k : List ℕ) × spec.IsAt path.now place k }
    ensures { spec.IsAt path.now place result.now }
{
    &path[part_start(place)..path.len() - part_rest(place)]
}

/// Returns the operation that a method and a path name, and the variable part of the path, not
/// percent-decoded.
pub(crate) fn route<'p>(
    router: &Router<Place>,
    method: &[u8],
    path: &'p str,
) -> Result<(Operation, &'p [u8]), RestFault>
    requires { router.now ≡ table }
    ensures ok { IfOk result (λ found. Routes method.now path.now found.0 found.1.now) }
    ensures fault { IfErr result (λ e. spec.IsUnrouted method.now path.now e) }
{
    let place = match router.at(path) {
        Ok(found) => *found.value,
        Err(_) => return Err(RestFault::NoRoute),
    };
    let Some(operation) = operation_at(place, read_verb(method)) else {
        return Err(RestFault::BadMethod);
    };
    Ok((operation, part(place, path.as_bytes())))
}
