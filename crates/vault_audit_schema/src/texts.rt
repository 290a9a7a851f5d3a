//! Texts of statements that are made of a table's columns.

/// The query for all columns, and what follows it.
#[macro_export]
macro_rules! select_text {
    (
        $table:ident(
            $first:ident $first_kind:ident $($first_word:ident)* $(($first_at:ident))?
            $(, $name:ident $kind:ident $($word:ident)* $(($at:ident))?)*
            $(; $later:ident $later_kind:ident $($later_word:ident)* = $absent:tt)*
            $(| $newest:ident $newest_kind:ident $($newest_word:ident)* = $none:tt)*
        )
        $(, $ending:expr)?
    ) => {
        concat!(
            "SELECT ", stringify!($first), $(", ", stringify!($name),)* $(", ", stringify!($later),)*
            $(", ", stringify!($newest),)* " FROM ", stringify!($table) $(, $ending)?
        )
    };
}

/// The query for all columns over the table as schema versions have it that lack the later ones.
#[macro_export]
macro_rules! earlier_select_text {
    (
        $table:ident(
            $first:ident $first_kind:ident $($first_word:ident)* $(($first_at:ident))?
            $(, $name:ident $kind:ident $($word:ident)* $(($at:ident))?)*
            $(; $later:ident $later_kind:ident $($later_word:ident)* = $absent:tt)*
            $(| $newest:ident $newest_kind:ident $($newest_word:ident)* = $none:tt)*
        )
        $(, $ending:expr)?
    ) => {
        concat!(
            "SELECT ", stringify!($first), $(", ", stringify!($name),)*
            $(", ", stringify!($absent), " AS ", stringify!($later),)*
            $(", ", stringify!($none), " AS ", stringify!($newest),)*
            " FROM ", stringify!($table) $(, $ending)?
        )
    };
}

/// The same over the table as the third schema version has it, which lacks those of the fourth.
#[macro_export]
macro_rules! third_select_text {
    (
        $table:ident(
            $first:ident $first_kind:ident $($first_word:ident)* $(($first_at:ident))?
            $(, $name:ident $kind:ident $($word:ident)* $(($at:ident))?)*
            $(; $later:ident $later_kind:ident $($later_word:ident)* = $absent:tt)*
            $(| $newest:ident $newest_kind:ident $($newest_word:ident)* = $none:tt)*
        )
        $(, $ending:expr)?
    ) => {
        concat!(
            "SELECT ", stringify!($first), $(", ", stringify!($name),)* $(", ", stringify!($later),)*
            $(", ", stringify!($none), " AS ", stringify!($newest),)*
            " FROM ", stringify!($table) $(, $ending)?
        )
    };
}

/// The statement that puts rows in, with what follows the columns: these values, or a query for them. Where nothing is
/// given, it puts one row in, with a parameter for each column, of its name.
#[macro_export]
macro_rules! insert_text {
    (
        $table:ident(
            $first:ident $first_kind:ident $($first_word:ident)* $(($first_at:ident))?
            $(, $name:ident $kind:ident $($word:ident)* $(($at:ident))?)*
            $(; $later:ident $later_kind:ident $($later_word:ident)* = $absent:tt)*
            $(| $newest:ident $newest_kind:ident $($newest_word:ident)* = $none:tt)*
        )
    ) => {
        concat!(
            "INSERT INTO ", stringify!($table), " (",
            stringify!($first), $(", ", stringify!($name),)* $(", ", stringify!($later),)*
            $(", ", stringify!($newest),)* ") VALUES (:",
            stringify!($first), $(", :", stringify!($name),)* $(", :", stringify!($later),)*
            $(", :", stringify!($newest),)* ")"
        )
    };
    (
        $table:ident(
            $first:ident $first_kind:ident $($first_word:ident)* $(($first_at:ident))?
            $(, $name:ident $kind:ident $($word:ident)* $(($at:ident))?)*
            $(; $later:ident $later_kind:ident $($later_word:ident)* = $absent:tt)*
            $(| $newest:ident $newest_kind:ident $($newest_word:ident)* = $none:tt)*
        ),
        $ending:expr
    ) => {
        concat!(
            "INSERT INTO ", stringify!($table), " (",
            stringify!($first), $(", ", stringify!($name),)* $(", ", stringify!($later),)*
            $(", ", stringify!($newest),)* ")", $ending
        )
    };
}

/// The same for the table as the third schema version has it.
#[macro_export]
macro_rules! third_insert_text {
    (
        $table:ident(
            $first:ident $first_kind:ident $($first_word:ident)* $(($first_at:ident))?
            $(, $name:ident $kind:ident $($word:ident)* $(($at:ident))?)*
            $(; $later:ident $later_kind:ident $($later_word:ident)* = $absent:tt)*
            $(| $newest:ident $newest_kind:ident $($newest_word:ident)* = $none:tt)*
        )
        $(, $ending:expr)?
    ) => {
        $crate::insert_text!(
            $table(
                $first $first_kind $($first_word)* $(($first_at))?
                $(, $name $kind $($word)* $(($at))?)*
                $(; $later $later_kind $($later_word)* = $absent)*
            )
            $(, $ending)?
        )
    };
}
