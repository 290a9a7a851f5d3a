//! The queries of the ordered reads, each with the rows that it shows of the vault.
ghost use Rattle.std.specs.Prelude.{◌≡◌, List, map, reverse, take, option_to_list, IsTrue};
ghost use Rattle.sqlite_sql.specs.Query.{Query};
ghost use Rattle.sqlite.specs.Values.{bound};
ghost use Rattle.vault_core_model.specs.Reads.{entries_of, keys_after, setting_of, settings_of, tenures_of};
ghost use Rattle.vault_core_model.specs.Sound.{Sound};
ghost use Rattle.vault_core_model.specs.Vault.{rules_of};
ghost use Rattle.vault_audit_model.specs.declared.rows.RuleRow.{RuleRow};
ghost use Rattle.vault_audit_model.specs.declared.rows.SettingRow.{SettingRow};
ghost use Rattle.vault_audit_model.specs.declared.rows.TenureRow.{TenureRow};
ghost use Rattle.vault_base.specs.Name.{is_version_id};
ghost use Rattle.vault_audit_model.specs.Limits.{IsObjectKey, IsRuleRow, IsSettingRow, IsTenureRow};
ghost use Rattle.vault_audit_model.specs.Rows.{rule_row, setting_row, tenure_row};
ghost use Rattle.vault_store_model.specs.Sums.{last_tenure_of};
ghost use Rattle.vault_store_reads.specs.Queries.{FindsRows, SelectsInBoth};
ghost use Rattle.vault_store_reads.specs.Quiet.{OnlyReads, ReadsQuietly, IsOpenIfOk, SaysOf};
ghost use Rattle.vault_store_reads.specs.Readable.{AreReadable, IsHeldRow, IsLastSetting};
ghost use Rattle.vault_store_reads.specs.Shown.{last_row, entry_shown, held_row, key_row, id_row, set_of, newest_but, ShowsTenure};
ghost use Rattle.vault_store_reads.specs.Wants.{IsAskedWith, WantsMemoryIfErr};

use crate::query::query_rows;
use sqlite::types::ValueRef;
use sqlite::{Alter, Connection, Error, Row, params};
use vault_audit_schema::{rules_columns, select_text, settings_columns, tenures_columns};
use vault_base::name::{BucketName, KeyPrefix, ObjectKey, VersionId};

/// All rows of a query over the tables of a vault, which shows that the connection is open.
pub fn open_rows<S: Alter>(
    conn: &mut Connection<S>,
    sql: &str,
    params: &[ValueRef<'_>],
) -> Result<Vec<Row>, Error>
    requires { (q : Query) × SelectsInBoth sql.now q }
    ensures rows { SaysOf S.Store conn.old conn.new result (λ v rows. FindsRows v sql.now (bound params.now) rows.items) }
    ensures read { ReadsQuietly S.Store conn.old conn.new }
    ensures open { IsOpenIfOk S.Store conn.new result }
    ensures memory { IsAskedWith sql.now (bound params.now) → WantsMemoryIfErr S.Store conn.old conn.new result }
{
    conn.query_all(sql, params)
}

/// The row of a version's last setting.
pub fn setting_rows<S: Alter>(conn: &mut Connection<S>, id: VersionId) -> Result<Vec<Row>, Error>
    ensures rows { SaysOf S.Store conn.old conn.new result (λ v rows. rows.items ≡ map last_row (option_to_list (setting_of v id))) }
    ensures readable { SaysOf S.Store conn.old conn.new result (λ v rows. AreReadable last_row IsLastSetting rows.items) }
    ensures read { ReadsQuietly S.Store conn.old conn.new }
    ensures open { IsOpenIfOk S.Store conn.new result }
    ensures memory { WantsMemoryIfErr S.Store conn.old conn.new result }
{
    open_rows(
        conn,
        "SELECT n, mode, until, hold FROM settings WHERE id = ?1 ORDER BY n DESC LIMIT 1",
        params![id.number()],
    )
}

/// The row of a version's last tenure.
pub fn last_tenure_rows<S: Alter>(
    conn: &mut Connection<S>,
    id: VersionId,
) -> Result<Vec<Row>, Error>
    ensures rows { SaysOf S.Store conn.old conn.new result (λ v rows. ShowsTenure (last_tenure_of v id) rows.items) }
    ensures readable { SaysOf S.Store conn.old conn.new result (λ v rows. AreReadable tenure_row IsTenureRow rows.items) }
    ensures read { ReadsQuietly S.Store conn.old conn.new }
    ensures open { IsOpenIfOk S.Store conn.new result }
    ensures memory { WantsMemoryIfErr S.Store conn.old conn.new result }
{
    open_rows(
        conn,
        tenures_columns!(select_text, " WHERE id = ?1 ORDER BY n DESC LIMIT 1"),
        params![id.number()],
    )
}

/// The rows of a version's tenures.
pub fn tenure_rows<S: Alter>(conn: &mut Connection<S>, id: VersionId) -> Result<Vec<Row>, Error>
    ensures rows { SaysOf S.Store conn.old conn.new result (λ v rows. (tenures : List TenureRow) × (rows.items ≡ map tenure_row tenures) × (map (λ x. x.tenure) tenures ≡ tenures_of v id)) }
    ensures readable { SaysOf S.Store conn.old conn.new result (λ v rows. AreReadable tenure_row IsTenureRow rows.items) }
    ensures read { OnlyReads S.Store conn.old conn.new }
    ensures open { IsOpenIfOk S.Store conn.new result }
    ensures memory { WantsMemoryIfErr S.Store conn.old conn.new result }
{
    query_rows(
        conn,
        tenures_columns!(select_text, " WHERE id = ?1 ORDER BY n"),
        params![id.number()],
    )
}

/// The rows of a bucket's rules.
pub fn rule_rows<S: Alter>(conn: &mut Connection<S>, bucket: &BucketName) -> Result<Vec<Row>, Error>
    ensures rows { SaysOf S.Store conn.old conn.new result (λ v rows. (rules : List RuleRow) × (rows.items ≡ map rule_row rules) × (set_of rules ≡ rules_of v bucket.now)) }
    ensures readable { SaysOf S.Store conn.old conn.new result (λ v rows. AreReadable rule_row IsRuleRow rows.items) }
    ensures read { OnlyReads S.Store conn.old conn.new }
    ensures open { IsOpenIfOk S.Store conn.new result }
    ensures memory { WantsMemoryIfErr S.Store conn.old conn.new result }
{
    query_rows(
        conn,
        rules_columns!(select_text, " WHERE bucket = ?1 ORDER BY n"),
        params![bucket.as_str()],
    )
}

/// The rows of a key's held entries, the newest first: at most `most`. Where that is how many the key holds, no removed one is looked at.
pub fn entry_rows<S: Alter>(
    conn: &mut Connection<S>,
    bucket: &BucketName,
    key: &ObjectKey,
    most: u32,
) -> Result<Vec<Row>, Error>
    ensures rows { SaysOf S.Store conn.old conn.new result (λ v rows. (rows.items ≡ take most (reverse (map entry_shown (entries_of v bucket.now key.now)))) × Sound v) }
    ensures readable { SaysOf S.Store conn.old conn.new result (λ v rows. AreReadable held_row IsHeldRow rows.items) }
    ensures read { ReadsQuietly S.Store conn.old conn.new }
    ensures open { IsOpenIfOk S.Store conn.new result }
    ensures memory { WantsMemoryIfErr S.Store conn.old conn.new result }
{
    open_rows(
        conn,
        "SELECT id, marker, size, admitted FROM entries WHERE bucket = ?1 AND key = ?2 AND removed IS NULL ORDER BY removed, id DESC LIMIT ?3",
        params![bucket.as_str(), key.as_str(), most],
    )
}

/// The rows of the first keys of a bucket after one.
pub fn key_rows<S: Alter>(
    conn: &mut Connection<S>,
    bucket: &BucketName,
    after: &KeyPrefix,
    most: u32,
) -> Result<Vec<Row>, Error>
    ensures rows { SaysOf S.Store conn.old conn.new result (λ v rows. rows.items ≡ map key_row (keys_after v bucket.now after.now most)) }
    ensures readable { SaysOf S.Store conn.old conn.new result (λ v rows. AreReadable key_row IsObjectKey rows.items) }
    ensures read { OnlyReads S.Store conn.old conn.new }
    ensures open { IsOpenIfOk S.Store conn.new result }
    ensures memory { WantsMemoryIfErr S.Store conn.old conn.new result }
{
    query_rows(
        conn,
        "SELECT key FROM heads WHERE bucket = ?1 AND key > ?2 ORDER BY key LIMIT ?3",
        params![bucket.as_str(), after.as_str(), most],
    )
}

/// The row of a key's newest held entry besides one.
pub fn newest_rows<S: Alter>(
    conn: &mut Connection<S>,
    bucket: &BucketName,
    key: &ObjectKey,
    id: VersionId,
) -> Result<Vec<Row>, Error>
    ensures rows { SaysOf S.Store conn.old conn.new result (λ v rows. rows.items ≡ map id_row (option_to_list (newest_but v bucket.now key.now id))) }
    ensures readable { SaysOf S.Store conn.old conn.new result (λ v rows. AreReadable id_row (λ id. IsTrue (is_version_id id)) rows.items) }
    ensures read { OnlyReads S.Store conn.old conn.new }
    ensures open { IsOpenIfOk S.Store conn.new result }
    ensures memory { WantsMemoryIfErr S.Store conn.old conn.new result }
{
    query_rows(
        conn,
        "SELECT id FROM entries WHERE bucket = ?1 AND key = ?2 AND id <> ?3 AND removed IS NULL ORDER BY removed, id DESC LIMIT 1",
        params![bucket.as_str(), key.as_str(), id.number()],
    )
}

/// The rows of a version's settings.
pub fn settings_rows<S: Alter>(conn: &mut Connection<S>, id: VersionId) -> Result<Vec<Row>, Error>
    ensures rows { SaysOf S.Store conn.old conn.new result (λ v rows. (settings : List SettingRow) × (rows.items ≡ map setting_row settings) × (map (λ x. x.setting) settings ≡ settings_of v id)) }
    ensures readable { SaysOf S.Store conn.old conn.new result (λ v rows. AreReadable setting_row IsSettingRow rows.items) }
    ensures read { OnlyReads S.Store conn.old conn.new }
    ensures open { IsOpenIfOk S.Store conn.new result }
    ensures memory { WantsMemoryIfErr S.Store conn.old conn.new result }
{
    query_rows(
        conn,
        settings_columns!(select_text, " WHERE id = ?1 ORDER BY n"),
        params![id.number()],
    )
}
