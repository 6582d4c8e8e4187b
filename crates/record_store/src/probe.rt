ghost use Rattle.record_store.specs.Buckets.{IsIndex};
ghost use Rattle.record_store.specs.Probe.{Probes};

use crate::path::hash;

/// Where the path of a body ends.
pub(crate) enum PathEnd {
    /// At the bucket with its id.
    Known(u32),
    /// At an empty bucket.
    Empty(usize),
}

/// Follows the path of a body to its id, or to the first empty bucket. The number of buckets is a power of two, so that
/// a mask takes the remainder.
pub(crate) fn probe(buckets: &[u32], bodies: &[[u64; 8]], body: &[u64; 8]) -> PathEnd
    requires { IsIndex buckets.now bodies.now }
    ensures { Probes buckets.now bodies.now body.now result }
{
    let mask = buckets.len() - 1;
    let start = hash(body) as usize & mask;
    let mut distance = 0;
    loop {
        let bucket = (start + distance) & mask;
        let id = buckets[bucket];
        if id == 0 {
            return PathEnd::Empty(bucket);
        }
        if bodies[id as usize - 1] == *body {
            return PathEnd::Known(id);
        }
        distance += 1;
    }
}
