//! The moves of buckets, as the tenures that were seen show them.
ghost use Rattle.std.specs.Prelude.{◌≡◌, ℕ, None, IfOk, OnOk};
ghost use Rattle.vault_core_evidence.specs.Moves.{is_same_move, move_by, seen_of, IsAdded, Sees, SeesOne};

use std::alloc::{AllocError, Global};
use std::collections::BTreeMap;
use vault_base::moment::Moment;
use vault_base::name::{BucketName, DeptName};
use vault_core_model::records::Tenure;

/// A move of a bucket, as a tenure shows it.
#[derive(Drop)]
pub struct Move {
    pub bucket: BucketName,
    /// The department that has the bucket from then on.
    pub dept: DeptName,
    pub from: Moment,
}

/// The move of each number of which a tenure was seen.
#[derive(Drop)]
pub struct SeenMoves {
    moves: BTreeMap<u32, Move>,
}

fn is_same(seen: &Move, bucket: &BucketName, tenure: &Tenure) -> bool
    ensures { result ≡ is_same_move seen.now (move_by bucket.now tenure.now) }
{
    seen.bucket == *bucket && seen.dept == tenure.dept && seen.from == tenure.from
}

impl SeenMoves {
    /// No move.
    pub fn new(alloc: Global) -> SeenMoves
        ensures { (n : ℕ) → seen_of result n ≡ None }
    {
        SeenMoves {
            moves: BTreeMap::new(alloc),
        }
    }

    /// Sees a tenure of a version in that bucket. False where an earlier one of the same number shows another move.
    fn see(&mut self, bucket: &BucketName, tenure: &Tenure) -> Result<bool, AllocError>
        ensures { IfOk result (λ passes. SeesOne self.old bucket.now tenure.now passes self.new) }
    {
        if tenure.number == 0 {
            return Ok(true);
        }
        if let Some(seen) = self.moves.get(&tenure.number) {
            return Ok(is_same(seen, bucket, tenure));
        }
        self.add(bucket, tenure)?;
        Ok(true)
    }

    fn add(&mut self, bucket: &BucketName, tenure: &Tenure) -> Result<(), AllocError>
        ensures { OnOk result (IsAdded self.old bucket.now tenure.now self.new) }
    {
        let seen = Move {
            bucket: bucket.clone()?,
            dept: tenure.dept.clone()?,
            from: tenure.from,
        };
        self.moves.insert(tenure.number, seen)?;
        Ok(())
    }

    /// Sees the tenures of a version in that bucket, up to the first of which an earlier one of the same number
    /// shows another move: then false.
    pub fn see_all(&mut self, bucket: &BucketName, tenures: &[Tenure]) -> Result<bool, AllocError>
        ensures { IfOk result (λ passes. Sees self.old bucket.now tenures.now passes self.new) }
    {
        for tenure in tenures {
            if !self.see(bucket, tenure)? {
                return Ok(false);
            }
        }
        Ok(true)
    }
}
