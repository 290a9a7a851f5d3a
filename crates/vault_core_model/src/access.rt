//! Who may do what where.
use crate::records::{BucketConfig, Caller};

/// A caller at a bucket of its department.
#[derive(Drop)]
pub struct Access {
    pub caller: Caller,
    pub bucket: BucketConfig,
}
