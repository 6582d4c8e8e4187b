ghost use Rattle.std.specs.Prelude.{◌≡◌, ◌<◌};
ghost use Rattle.record_store.specs.Path.{hash_of, start_of};

/// The hash of a body.
#[tactic(auto, unfolding(crate::specs::Path::mixed))]
pub(crate) fn hash(body: &[u64; 8]) -> u64
    ensures { result ≡ hash_of body.now }
{
    let mut hash: u64 = 0;
    for word in body {
        hash = (hash ^ word).wrapping_mul(0x9E37_79B9_7F4A_7C15);
        hash ^= hash >> 29;
    }
    hash
}

/// The bucket at which the path of a body begins.
pub fn start(body: &[u64; 8], buckets: u64) -> u64
    requires { 0 < buckets }
    ensures { result ≡ start_of body.now buckets }
{
    hash(body) % buckets
}
