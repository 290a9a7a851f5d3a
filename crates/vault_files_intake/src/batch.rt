//! What an intake is carried out for.
use csv::ByteRecord;
use vault_base::moment::Moment;
use vault_base::name::{BatchName, BucketName, CallerName};

/// Into which batch of which bucket files are taken, by whom and when.
#[derive(Clone, Copy)]
pub(crate) struct Batch<'a> {
    pub(crate) at: Moment,
    pub(crate) who: &'a CallerName,
    pub(crate) bucket: &'a BucketName,
    pub(crate) name: &'a BatchName,
}

/// A record of a list, with its number below the header.
#[derive(Clone, Copy)]
pub(crate) struct Line<'a> {
    pub(crate) number: u32,
    pub(crate) cells: &'a ByteRecord,
}
