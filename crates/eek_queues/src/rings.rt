//! The ring buffers of the queues, ordered by birth.
ghost use Rattle.std.specs.Prelude.{◌≡◌, ◌<◌, ◌≤◌, length, slice_index_or, nat_lt, true, false, IfNone, IfSome};
ghost use Rattle.std.specs.List.Sorted.{IsPartitionPoint};
ghost use Rattle.eek_queues.specs.Queues.{has_queue};
ghost use Rattle.eek_queues.specs.Kept.{AreQueuesRising, queues_of};

use circular_buffer::HeapCircularBuffer;
use hk_base::Edek;

/// The ready keys of the key with this birth.
#[derive(Drop)]
pub struct Ring {
    pub birth: u64,
    pub ready: HeapCircularBuffer<Edek>,
}

/// Returns how many rings have a smaller birth.
pub fn place_of_birth(rings: &Vec<Ring>, birth: u64) -> usize
    requires { AreQueuesRising (queues_of rings.now.items) }
    ensures most { result ≤ length rings.now.items }
    ensures parted { IsPartitionPoint (λ ring. nat_lt ring.birth birth ≡ true)
        (λ ring. nat_lt ring.birth birth ≡ false) rings.now.items result }
{
    rings.as_slice().partition_point(|ring| ring.birth < birth)
}

/// Returns the index of the ring with this birth.
pub fn find(rings: &Vec<Ring>, birth: u64) -> Option<usize>
    requires { AreQueuesRising (queues_of rings.now.items) }
    ensures none { IfNone result (has_queue (queues_of rings.now.items) birth ≡ false) }
    ensures within { IfSome result (λ at. at < length rings.now.items) }
    ensures birth { IfSome result
        (λ at. (ring : Ring) → (slice_index_or rings.now.items at ring).birth ≡ birth) }
{
    let at = place_of_birth(rings, birth);
    if at == rings.len() {
        return None;
    }
    if rings[at].birth == birth {
        return Some(at);
    }
    None
}
