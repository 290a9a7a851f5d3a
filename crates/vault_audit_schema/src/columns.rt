//! The columns of each table, said once. `callers_columns!(select_text, " ORDER BY name")` hands those of `callers` to
//! `select_text!`, with what comes after them; so do the other eleven, and so with each macro that makes something of columns.
//!
//! A column is its name and what SQL says of it. One that came with the second or the third schema version comes after a `;`,
//! and one that came with the fourth after a `|`, each with what it is where a schema version lacks it.

/// The columns of `meta`.
#[macro_export]
macro_rules! meta_columns {
    ($make:ident $(, $more:expr)*) => {
        $make!(
            meta(
                one INTEGER PRIMARY KEY,
                schema INTEGER NOT NULL,
                last INTEGER NOT NULL,
                next INTEGER NOT NULL;
                moves INTEGER NOT NULL = 0
                | place INTEGER NOT NULL = 0
                | done INTEGER NOT NULL = 1
            )
            $(, $more)*
        )
    };
}

/// The columns of `departments`.
#[macro_export]
macro_rules! departments_columns {
    ($make:ident $(, $more:expr)*) => {
        $make!(
            departments(
                name TEXT NOT NULL,
                admitted INTEGER NOT NULL,
                held INTEGER NOT NULL,
                removed INTEGER NOT NULL,
                weighted INTEGER NOT NULL,
                closed INTEGER NOT NULL;
                received INTEGER NOT NULL = 0;
                handed INTEGER NOT NULL = 0
            )
            $(, $more)*
        )
    };
}

/// The columns of `callers`.
#[macro_export]
macro_rules! callers_columns {
    ($make:ident $(, $more:expr)*) => {
        $make!(
            callers(
                name TEXT NOT NULL,
                dept TEXT REFERENCES departments (name),
                rights INTEGER NOT NULL,
                closed INTEGER NOT NULL
            )
            $(, $more)*
        )
    };
}

/// The columns of `buckets`.
#[macro_export]
macro_rules! buckets_columns {
    ($make:ident $(, $more:expr)*) => {
        $make!(
            buckets(
                name TEXT NOT NULL,
                dept TEXT NOT NULL REFERENCES departments (name),
                mode INTEGER NOT NULL,
                days INTEGER,
                years INTEGER
            )
            $(, $more)*
        )
    };
}

/// The columns of `rules`.
#[macro_export]
macro_rules! rules_columns {
    ($make:ident $(, $more:expr)*) => {
        $make!(
            rules(
                bucket TEXT NOT NULL REFERENCES buckets (name),
                n INTEGER NOT NULL,
                id TEXT NOT NULL,
                prefix TEXT NOT NULL,
                enabled INTEGER NOT NULL,
                days INTEGER,
                lone INTEGER NOT NULL,
                nc_days INTEGER,
                nc_keep INTEGER;
                larger INTEGER = NULL;
                smaller INTEGER = NULL
            )
            $(, $more)*
        )
    };
}

/// The columns of `entries`.
#[macro_export]
macro_rules! entries_columns {
    ($make:ident $(, $more:expr)*) => {
        $make!(
            entries(
                id INTEGER PRIMARY KEY,
                bucket TEXT NOT NULL REFERENCES buckets (name),
                key TEXT NOT NULL,
                marker INTEGER NOT NULL,
                size INTEGER NOT NULL,
                digest BLOB,
                admitted INTEGER NOT NULL,
                by_rule INTEGER NOT NULL,
                admitted_by TEXT NOT NULL,
                removed INTEGER,
                cause INTEGER,
                cause_by TEXT
            )
            $(, $more)*
        )
    };
}

/// The columns of `contents`.
#[macro_export]
macro_rules! contents_columns {
    ($make:ident $(, $more:expr)*) => {
        $make!(
            contents(
                id INTEGER PRIMARY KEY REFERENCES entries (id),
                bytes BLOB NOT NULL
            )
            $(, $more)*
        )
    };
}

/// The columns of `settings`.
#[macro_export]
macro_rules! settings_columns {
    ($make:ident $(, $more:expr)*) => {
        $make!(
            settings(
                id INTEGER NOT NULL REFERENCES entries (id),
                n INTEGER NOT NULL,
                moment INTEGER NOT NULL,
                caller TEXT NOT NULL,
                mode INTEGER NOT NULL,
                until INTEGER,
                hold INTEGER NOT NULL,
                bypass INTEGER NOT NULL
            )
            $(, $more)*
        )
    };
}

/// The columns of `intake`.
#[macro_export]
macro_rules! intake_columns {
    ($make:ident $(, $more:expr)*) => {
        $make!(
            intake(
                bucket TEXT NOT NULL REFERENCES buckets (name),
                batch TEXT NOT NULL,
                line INTEGER NOT NULL,
                key TEXT NOT NULL,
                size INTEGER NOT NULL,
                digest BLOB NOT NULL,
                mode INTEGER NOT NULL,
                until INTEGER,
                hold INTEGER,
                id INTEGER NOT NULL REFERENCES entries (id)
            )
            $(, $more)*
        )
    };
}

/// The columns of `heads`.
#[macro_export]
macro_rules! heads_columns {
    ($make:ident $(, $more:expr)*) => {
        $make!(
            heads(
                bucket TEXT NOT NULL REFERENCES buckets (name),
                key TEXT NOT NULL,
                newest INTEGER NOT NULL REFERENCES entries (id),
                count INTEGER NOT NULL
            )
            $(, $more)*
        )
    };
}

/// The columns of `tenures`.
#[macro_export]
macro_rules! tenures_columns {
    ($make:ident $(, $more:expr)*) => {
        $make!(
            tenures(
                id INTEGER NOT NULL REFERENCES entries (id),
                n INTEGER NOT NULL,
                dept TEXT NOT NULL REFERENCES departments (name),
                moment INTEGER NOT NULL
            )
            $(, $more)*
        )
    };
}

/// The columns of `external`.
#[macro_export]
macro_rules! external_columns {
    ($make:ident $(, $more:expr)*) => {
        $make!(
            external(
                id INTEGER PRIMARY KEY REFERENCES entries (id)
            )
            $(, $more)*
        )
    };
}
