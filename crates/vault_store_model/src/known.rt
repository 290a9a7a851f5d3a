//! What was read of a vault last, kept in memory, so that nothing is asked twice.
ghost use Rattle.std.specs.Prelude.{◌≡◌, ◌≤◌, ◌+◌, Some, option_map, IfSome, IfOk};
ghost use Rattle.vault_base.specs.Days.{day};
ghost use Rattle.vault_audit_model.specs.Spells.{meta_of};
ghost use Rattle.vault_audit_model.specs.declared.rows.MetaRow.{MetaRow};
ghost use Rattle.vault_audit_model.specs.declared.rows.DepartmentRow.{DepartmentRow};
ghost use Rattle.vault_core_model.specs.Allowed.{Allows, IsAdmission};
ghost use Rattle.vault_core_model.specs.Change.{changed};
ghost use Rattle.vault_core_model.specs.declared.change.Change.TheVariants as change;
ghost use Rattle.vault_core_model.specs.Sound.{Sound};
ghost use Rattle.vault_core_model.specs.Totals.{IsRowFor, bucket_bytes, bucket_weight};
ghost use Rattle.vault_core_model.specs.Vault.{Vault, config_of, next_id};
ghost use Rattle.vault_store_model.specs.Sums.{CountsIn};
ghost use Rattle.vault_store_model.specs.Known.{AreKnown};

use std::alloc::AllocError;
use vault_audit_model::rows::{BucketRow, DepartmentRow, MetaRow};
use vault_audit_model::schema::SchemaVersion;
use vault_base::moment::Moment;
use vault_base::moment::laws::moment_is_in_range;
use vault_base::name::{BucketName, DeptName};
use vault_core_model::change::{Admission, Change};
use vault_core_model::records::{BucketConfig, Tenure};
use vault_tally::row::Row;

/// What a bucket holds: the bytes of its held versions, and their weight, each times the day from which its
/// department has it.
#[derive(Drop)]
pub struct BucketLoad {
    pub name: BucketName,
    pub bytes: u64,
    pub weight: u64,
}

/// The row of `meta`, one bucket, the sums of one department, and what one bucket holds: each where it is
/// known of the vault that the tables spell. A change keeps it so, or it is forgotten.
#[derive(Drop)]
pub struct Known {
    meta: Option<MetaRow>,
    bucket: Option<BucketRow>,
    sums: Option<DepartmentRow>,
    load: Option<BucketLoad>,
}

/// Whether the vault that has this row of `meta` registers contents that are kept outside.
pub fn is_external(meta: MetaRow) -> bool
    ensures { (v : Vault) → meta ≡ meta_of v → result ≡ v.external }
{
    meta.schema == SchemaVersion::Fourth.number()
}

/// The row of `meta` after a change at a moment that admits nothing and moves no bucket.
fn meta_at(meta: Option<MetaRow>, at: Moment) -> Option<MetaRow>
    ensures { result ≡ option_map (λ (m : MetaRow). record m { last = at }) meta }
{
    let meta = meta?;
    Some(MetaRow {
        schema: meta.schema,
        last: at,
        next: meta.next,
        moves: meta.moves,
    })
}

/// The row of `meta` after an admission at a moment; none beyond 64 bits.
fn next_meta(meta: Option<MetaRow>, at: Moment) -> Option<MetaRow>
    ensures { IfSome result (λ next. (m : MetaRow) × (meta ≡ Some m) × (next ≡ record m { last = at; next = m.next + 1 })) }
{
    let meta = meta?;
    if meta.next == u64::MAX {
        return None;
    }
    Some(MetaRow {
        schema: meta.schema,
        last: at,
        next: meta.next + 1,
        moves: meta.moves,
    })
}

/// The sums with a version counted in that is admitted at a moment.
pub fn with_version(sums: Row, size: u64, at: Moment) -> Row
    ensures { CountsIn sums size (day at) result }
{
    let mut sums = sums;
    sums.admit(size, at.day());
    sums
}

/// The sums of the department of that tenure, where they are known, with a version counted in that is
/// admitted at a moment.
fn sums_with(
    sums: Option<DepartmentRow>,
    tenure: &Tenure,
    size: u64,
    at: Moment,
) -> Option<DepartmentRow>
    ensures { IfSome result (λ new. (old : DepartmentRow) × (sums ≡ Some old) × (old.name ≡ tenure.now.dept) × (new.name ≡ tenure.now.dept) × CountsIn old.sums size (day at) new.sums) }
{
    let old = sums?;
    if old.name != tenure.dept {
        drop(old);
        return None;
    }
    Some(DepartmentRow {
        sums: with_version(old.sums, size, at),
        name: old.name,
    })
}

/// A bucket by its name; none where there is no memory for a copy.
fn copy_bucket(name: &BucketName, config: &BucketConfig) -> Option<BucketRow>
    ensures { IfSome result (λ row. (row.name ≡ name.now) × (row.config ≡ config.now)) }
{
    let Ok(name) = name.clone() else {
        return None;
    };
    let Ok(config) = config.clone() else {
        drop(name);
        return None;
    };
    Some(BucketRow { name, config })
}

/// The sums of a department by its name; none where there is no memory for a copy of that.
fn copy_sums(dept: &DeptName, sums: Row) -> Option<DepartmentRow>
    ensures { IfSome result (λ row. (row.name ≡ dept.now) × (row.sums ≡ sums)) }
{
    let Ok(name) = dept.clone() else {
        return None;
    };
    Some(DepartmentRow { name, sums })
}

/// What a bucket holds by its name; none where there is no memory for a copy of that.
fn copy_load(name: &BucketName, bytes: u64, weight: u64) -> Option<BucketLoad>
    ensures { IfSome result (λ load. (load.name ≡ name.now) × (load.bytes ≡ bytes) × (load.weight ≡ weight)) }
{
    let Ok(name) = name.clone() else {
        return None;
    };
    Some(BucketLoad {
        name,
        bytes,
        weight,
    })
}

impl Known {
    /// Nothing is known.
    pub fn new() -> Known
        ensures { (v : Vault) → AreKnown result v }
    {
        Known {
            meta: None,
            bucket: None,
            sums: None,
            load: None,
        }
    }

    /// From here on nothing is known.
    pub fn forget(&mut self)
        ensures { (v : Vault) → AreKnown self.new v }
    {
        self.meta = None;
        self.bucket = None;
        self.sums = None;
        self.load = None;
    }

    /// The row of `meta`, if it is known.
    pub fn meta(&self) -> Option<MetaRow>
        ensures { IfSome result (λ meta. (v : Vault) → AreKnown self.now v → meta ≡ meta_of v) }
    {
        self.meta
    }

    /// How often a bucket was moved, if it is known.
    pub fn moves(&self) -> Option<u32>
        ensures { IfSome result (λ moves. (v : Vault) → AreKnown self.now v → moves ≡ v.moves) }
    {
        let meta = self.meta?;
        match u32::try_from(meta.moves) {
            Ok(moves) => Some(moves),
            Err(_) => None,
        }
    }

    /// The configuration of a bucket, if it is known.
    pub fn config(&self, name: &BucketName) -> Result<Option<BucketConfig>, AllocError>
        ensures { IfOk result (λ found. IfSome found (λ config. (v : Vault) → AreKnown self.now v → config_of v name.now ≡ Some config)) }
    {
        let Some(bucket) = &self.bucket else {
            return Ok(None);
        };
        if bucket.name != *name {
            return Ok(None);
        }
        let config = bucket.config.clone()?;
        Ok(Some(config))
    }

    /// The sums of a department, if they are known.
    pub fn sums(&self, dept: &DeptName) -> Option<Row>
        ensures { IfSome result (λ row. (v : Vault) → AreKnown self.now v → IsRowFor v dept.now row) }
    {
        let Some(department) = &self.sums else {
            return None;
        };
        if department.name != *dept {
            return None;
        }
        Some(department.sums)
    }

    /// The bytes and the weight of a bucket's held versions, if they are known.
    pub fn load(&self, name: &BucketName) -> Option<(u64, u64)>
        ensures { IfSome result (λ load. (v : Vault) → AreKnown self.now v → (load.0 ≡ bucket_bytes v name.now) × (load.1 ≡ bucket_weight v name.now)) }
    {
        let Some(load) = &self.load else {
            return None;
        };
        if load.name != *name {
            return None;
        }
        Some((load.bytes, load.weight))
    }

    /// Keeps the row of `meta`.
    pub fn note_meta(&mut self, meta: MetaRow)
        ensures { (v : Vault) → meta ≡ meta_of v → AreKnown self.old v → AreKnown self.new v }
    {
        self.meta = Some(meta);
    }

    /// Keeps what a bucket of that name was found to be.
    pub fn note_bucket(&mut self, name: &BucketName, found: &Option<BucketConfig>)
        ensures { (v : Vault) → found.now ≡ config_of v name.now → AreKnown self.old v → AreKnown self.new v }
    {
        let Some(config) = found else {
            return;
        };
        self.bucket = copy_bucket(name, config);
    }

    /// Keeps the sums of a department.
    pub fn note_sums(&mut self, dept: &DeptName, sums: Row)
        ensures { (v : Vault) → IsRowFor v dept.now sums → AreKnown self.old v → AreKnown self.new v }
    {
        self.sums = copy_sums(dept, sums);
    }

    /// Keeps what a bucket holds.
    pub fn note_load(&mut self, name: &BucketName, bytes: u64, weight: u64)
        ensures { (v : Vault) → bytes ≡ bucket_bytes v name.now → weight ≡ bucket_weight v name.now → AreKnown self.old v → AreKnown self.new v }
    {
        self.load = copy_load(name, bytes, weight);
    }

    /// What stays known after a change that admits nothing, and changes neither a bucket nor `moves`.
    fn pass(&mut self, at: Moment)
        ensures { (v w : Vault) → AreKnown self.old v → w.last ≡ at → next_id w ≡ next_id v → w.moves ≡ v.moves → w.external ≡ v.external → w.buckets ≡ v.buckets → AreKnown self.new w }
    {
        self.meta = meta_at(self.meta, at);
        self.sums = None;
        self.load = None;
    }

    /// Counts an admission in.
    fn admit(&mut self, at: Moment, admission: &Admission)
        ensures { (v : Vault) → Sound v → v.last ≤ at → IsAdmission v at admission.now → AreKnown self.old v → AreKnown self.new (changed v at (change.Admit admission.now)) }
    {
        moment_is_in_range(at);
        self.meta = next_meta(self.meta, at);
        self.load = None;
        let Some(tenure) = admission.history.tenures.as_slice().first() else {
            return;
        };
        self.sums = sums_with(self.sums.take(), tenure, admission.history.entry.size, at);
    }

    /// What is known after a change that was made at a moment.
    pub fn follow(&mut self, at: Moment, change: &Change)
        ensures { (v : Vault) → Sound v → v.last ≤ at → Allows v at change.now → AreKnown self.old v → AreKnown self.new (changed v at change.now) }
    {
        match change {
            Change::Admit(admission) => self.admit(at, admission),
            Change::AddSetting(_, _) => self.pass(at),
            Change::Remove(_, _) => self.pass(at),
            _ => self.forget(),
        }
    }
}
