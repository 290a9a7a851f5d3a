//! What replies say of a vault.
use crate::transcript::answers;
use crate::trial::compare;
use std::alloc::Global;
use std::test::Fail;
use vault_core_model::keeper::Keeper;

const READS: &str = r#"
{"at":"2024-01-16T00:00:00Z","as":"registrar","do":"report","dept":"records"}
{"at":"2024-01-16T00:00:00Z","as":"ann","do":"list-versions","bucket":"docs"}
{"at":"2024-01-16T00:00:00Z","as":"ann","do":"get-default","bucket":"docs"}
{"at":"2024-01-16T00:00:00Z","as":"ann","do":"get-rules","bucket":"docs"}
{"at":"2024-01-16T00:00:00Z","as":"ann","do":"get","bucket":"docs","key":"2024/a"}
{"at":"2024-01-16T00:00:00Z","as":"ann","do":"get","bucket":"docs","key":"2024/b"}
"#;

/// The moment of the last change in seconds, and the id that the next entry gets.
pub fn edge<K: Keeper>(keeper: &mut K) -> Result<(u64, u64), Fail> {
    Ok((keeper.last()?.secs(), keeper.next_id()?))
}

/// All that replies say of the vault.
pub fn stated<K: Keeper>(alloc: Global, keeper: &mut K) -> Result<String, Fail> {
    answers(alloc, keeper, READS.as_bytes())
}

/// Fails unless replies still say of the vault what they reported before.
pub fn answers_still<K: Keeper>(alloc: Global, keeper: &mut K, before: &str) -> Result<(), Fail> {
    let stated = stated(alloc, keeper)?;
    compare("the vault", stated.as_str(), before)
}
