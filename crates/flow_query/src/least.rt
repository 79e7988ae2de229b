//! The least counters of the known buckets of a flow.
ghost use Rattle.std.specs.Prelude.{◌≡◌, ◌<◌, ◌+◌, ◌++◌, ◌∷◌, [], List, length, map};
ghost use Rattle.lg_model.specs.declared.column.Bucket.{Bucket as GhostBucket};
ghost use Rattle.lg_model.specs.declared.limits.TheConstants.{LAST_BYTES, LAST_DELAY};
ghost use Rattle.lg_model.specs.Answer.{value_of};
ghost use Rattle.flow_query.specs.Least.{lower, known_of};

use lg_model::limits::{LAST_BYTES, LAST_DELAY};
use lg_model::{Answer, Bucket, Value};

/// How many rows are known so far, and the least counters of their buckets.
#[derive(Drop)]
pub(crate) struct Known {
    /// How many, at most 8.
    pub(crate) rows: u8,
    /// The least counters, each over all known buckets.
    pub(crate) least: Option<Bucket>,
}

// The lower counters of two buckets.
fn lower_of(a: Bucket, b: Bucket) -> Bucket
    ensures { result ≡ lower a b }
{
    Bucket {
        bytes: a.bytes.min(b.bytes),
        delay: a.delay.min(b.delay),
    }
}

// What is told of a least counter whose last value is `limit`.
fn value(limit: u32, least: u32) -> Value
    ensures { result ≡ value_of limit (least ∷ []) }
{
    if least == limit {
        Value::Saturated
    } else {
        Value::AtMost(least)
    }
}

impl Known {
    /// No row.
    pub(crate) fn new() -> Known
        ensures { result ≡ known_of [] }
    {
        Known {
            rows: 0,
            least: None,
        }
    }

    /// One bucket more.
    pub(crate) fn add(&mut self, bucket: Bucket)
        requires { self.old.rows < 255 }
        ensures rows { self.new.rows ≡ self.old.rows + 1 }
        ensures least { (bs : List GhostBucket) → self.old ≡ known_of bs → self.new ≡ known_of (bs ++ bucket ∷ []) }
    {
        self.rows += 1;
        self.least = Some(match self.least {
            None => bucket,
            Some(least) => lower_of(least, bucket),
        });
    }

    /// What is told of a flow with these known rows.
    pub(crate) fn answer(&self) -> Answer
        ensures { (bs : List GhostBucket) → self.now ≡ known_of bs →
            result ≡ record { rows_known = length bs; bytes = value_of LAST_BYTES (map (λ b. b.bytes) bs); delay = value_of LAST_DELAY (map (λ b. b.delay) bs) } }
    {
        match self.least {
            None => Answer {
                rows_known: self.rows,
                bytes: Value::Unknown,
                delay: Value::Unknown,
            },
            Some(least) => Answer {
                rows_known: self.rows,
                bytes: value(LAST_BYTES, least.bytes),
                delay: value(u32::from(LAST_DELAY), u32::from(least.delay)),
            },
        }
    }
}
