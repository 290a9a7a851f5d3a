//! What stands in the status line and the headers of an answer.
use vault_base::content::Registered;
use vault_base::name::VersionId;
use vault_lock::retention::Retention;

/// The status of an answer (RFC 9110, section 15).
#[derive(Clone, Copy, PartialEq, Eq, Debug)]
pub enum Status {
    Ok,
    NoContent,
    BadRequest,
    Forbidden,
    NotFound,
    MethodNotAllowed,
    Conflict,
    LengthRequired,
    InternalServerError,
    NotImplemented,
    ServiceUnavailable,
}

/// Which methods are reported to be allowed (RFC 9110, section 10.2.1).
#[derive(Clone, Copy, PartialEq, Eq, Debug)]
pub enum Allow {
    /// An object, without a subresource.
    Object,
    /// A delete marker that was named by its id.
    Marker,
    /// Retention, legal hold, and the default retention of a bucket.
    Setting,
    /// The versions of a bucket.
    Versions,
    /// The lifecycle rules of a bucket.
    Lifecycle,
    /// A bucket alone, which has no method.
    Bucket,
}

/// What an answer brings, and how many bytes that are.
#[derive(Clone, Copy)]
pub enum Kind {
    /// Nothing, and no length is reported.
    Nothing,
    /// A body without a byte.
    Empty,
    /// The content of a version.
    Content(u64),
    /// Nothing, as the content of the version is kept outside: what is registered of it is reported.
    External(Registered),
    /// A JSON value.
    Json(u64),
}

/// An answer but for its body and the date. What isn't there has no header.
#[derive(Clone, Copy)]
pub struct Head {
    pub status: Status,
    pub kind: Kind,
    pub allow: Option<Allow>,
    /// Whether it says that a delete marker is on top.
    pub marker: bool,
    pub version: Option<VersionId>,
    pub retention: Option<Retention>,
    pub hold: Option<bool>,
}
