//! What a walk lends.
use name_calls::NameRefusal;
use name_core::Walked;

/// The answer to a walk, and a pass of the key management service with which the batch is served that the walk gave, if
/// it gave one. The pass was split from the one that the namesystem keeps. `front` is how many entries it has seen.
#[derive(Drop)]
pub struct Lent<K> {
    pub walked: Result<Walked, NameRefusal>,
    pub front: u64,
    pub keys: K,
}
