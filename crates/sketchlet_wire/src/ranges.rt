//! What the types of numbers say about the fields of a key and of buckets. Nothing is done here; the clauses are what counts.
ghost use Rattle.std.specs.Prelude.{◌≡◌, ◌<◌, ◌^◌, length};
ghost use Rattle.sketchlet_wire.specs.Spelling.{FitsBucket, FitBuckets};

use lg_model::{Bucket, Key};

/// The fields of a key have 2 and 4 bytes.
pub(crate) fn key_fits(key: Key)
    ensures switch { key.switch < 2 ^ 16 }
    ensures epoch { key.epoch < 2 ^ 32 }
{}

/// The fields of a bucket have 4 and 2 bytes.
pub(crate) fn bucket_fits(bucket: Bucket)
    ensures { FitsBucket bucket }
{}

/// So have those of eight buckets.
pub(crate) fn buckets_fit(buckets: &[Bucket; 8])
    ensures len { length buckets.now ≡ 8 }
    ensures fit { FitBuckets buckets.now }
{
    for bucket in buckets {
        bucket_fits(*bucket);
    }
}
