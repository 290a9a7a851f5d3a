//! What an intake answers.
use vault_base::refusal::Refusal;
use vault_core_model::reply::Reply;

/// The reply to a row of a list.
#[derive(Drop)]
pub struct RowReply {
    /// The row's number below the header, from 1 on.
    pub line: u32,
    pub reply: Reply,
}

/// The replies to the rows of a list, in order, and what stopped the intake before its end.
#[derive(Drop)]
pub struct IntakeReport {
    pub rows: Vec<RowReply>,
    pub stopped: Option<Refusal>,
}
