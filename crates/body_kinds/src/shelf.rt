//! Bodies in memory.
ghost use Rattle.std.specs.Prelude.{◌≡◌, ◌++◌, None, position, OnOk, OnErr};
ghost use Rattle.body_stream.specs.Vaults.{GrowsBody};
ghost use Rattle.body_kinds.specs.Shelves.{body_in, has_id};

use std::alloc::{AllocError, Global};

/// A body and its id.
#[derive(Drop)]
pub(crate) struct Body {
    id: u64,
    bytes: Vec<u8>,
}

fn has_id(body: &Body, id: u64) -> bool
    ensures { result ≡ has_id id body.now }
{
    body.id == id
}

/// Returns the index of a body, or `None` if it was never written.
fn place_of(bodies: &Vec<Body>, id: u64) -> Option<usize>
    ensures { result ≡ position (has_id id) bodies.now.items }
{
    bodies.iter().position(|body| has_id(body, id))
}

/// Returns the bytes of a body.
pub(crate) fn bytes_of(bodies: &Vec<Body>, id: u64) -> &[u8]
    ensures { result.now ≡ body_in bodies.now.items id }
{
    match place_of(bodies, id) {
        Some(at) => bodies[at].bytes.as_slice(),
        None => &[],
    }
}

/// Appends to the bytes of a body. If allocation fails, nothing changes.
fn grow(body: &mut Body, bytes: &[u8]) -> Result<(), AllocError>
    ensures id { body.new.id ≡ body.old.id }
    ensures ok { OnOk result (body.new.bytes.items ≡ body.old.bytes.items ++ bytes.now) }
    ensures err { OnErr result (body.new.bytes.items ≡ body.old.bytes.items) }
{
    body.bytes.extend_from_slice(bytes)
}

/// Adds a body. If allocation fails, nothing changes.
fn add(alloc: Global, bodies: &mut Vec<Body>, id: u64, bytes: &[u8]) -> Result<(), AllocError>
    requires { position (has_id id) bodies.old.items ≡ None }
    ensures ok { OnOk result
        (GrowsBody id bytes.now (body_in bodies.old.items) (body_in bodies.new.items)) }
    ensures err { OnErr result (bodies.new.items ≡ bodies.old.items) }
{
    let bytes = bytes.to_vec(alloc)?;
    bodies.push(Body { id, bytes })?;
    Ok(())
}

/// Appends bytes to a body. If allocation fails, nothing changes.
pub(crate) fn append(
    alloc: Global,
    bodies: &mut Vec<Body>,
    id: u64,
    bytes: &[u8],
) -> Result<(), AllocError>
    ensures ok { OnOk result
        (GrowsBody id bytes.now (body_in bodies.old.items) (body_in bodies.new.items)) }
    ensures err { OnErr result (body_in bodies.new.items ≡ body_in bodies.old.items) }
{
    match place_of(bodies, id) {
        Some(at) => grow(&mut bodies[at], bytes),
        None => add(alloc, bodies, id, bytes),
    }
}
