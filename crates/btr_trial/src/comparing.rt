// The rows of a restore beside those of a made volume.
ghost use Rattle.std.specs.Prelude.{◌≡◌, ◌<◌, ◌≤◌, [], ◌∷◌, drop};
ghost use Rattle.btr_rack.specs.declared.row.Row.TheVariants.{Dir as dir_row, File as file_row, Up as up_row};
ghost use Rattle.btr_trial.specs.Stated.{AreBehind, content, directories, directory, directory_name, same_row, same_rows};

use crate::content::{is_directory_name, is_pattern};
use btr_rack::Row;

/// Whether the rows behind the first, the start, are those of so many directories.
pub(crate) fn are_made(rows: &[Row], number: u64) -> bool
    requires { number ≤ 1000 }
    ensures { result ≡ same_rows (drop 1 rows.now) (directories 0 number) }
{
    match rows {
        [_, rest @ ..] => are_directories(rest, number),
        [] => are_directories(rows, number),
    }
}

// Whether rows are those of so many directories.
fn are_directories(rows: &[Row], number: u64) -> bool
    requires { number ≤ 1000 }
    ensures { result ≡ same_rows rows.now (directories 0 number) }
{
    let mut left = rows;
    for i in 0..number {
        match behind_directory(left, i) {
            Some(rest) => left = rest,
            None => return false,
        }
    }
    left.is_empty()
}

// The rows behind those of a directory, where they begin with these.
fn behind_directory(rows: &[Row], i: u64) -> Option<&[Row]>
    requires { i < 1000 }
    ensures { AreBehind rows.now (directory i) result }
{
    let rest = behind_start(rows, i)?;
    let rest = behind_file(rest, "f0", i, 0)?;
    let rest = behind_file(rest, "f1", i, 1)?;
    let rest = behind_file(rest, "f2", i, 2)?;
    let rest = behind_file(rest, "f3", i, 3)?;
    behind_up(rest)
}

// The rows behind the one that enters a directory, where they begin with it.
fn behind_start(rows: &[Row], i: u64) -> Option<&[Row]>
    ensures { AreBehind rows.now (dir_row (directory_name i) ∷ []) result }
{
    let (row, rest) = rows.split_first()?;
    if is_directory(row, i) {
        Some(rest)
    } else {
        None
    }
}

// The rows behind file j of directory i, where they begin with it.
fn behind_file<'r>(rows: &'r [Row], name: &str, i: u64, j: u64) -> Option<&'r [Row]>
    requires directory { i < 1000 }
    requires file { j < 4 }
    ensures { AreBehind rows.now (file_row name.now (content i j) ∷ []) result }
{
    let (row, rest) = rows.split_first()?;
    if is_file(row, name, i, j) {
        Some(rest)
    } else {
        None
    }
}

// The rows behind the one that leaves a directory, where they begin with it.
fn behind_up(rows: &[Row]) -> Option<&[Row]>
    ensures { AreBehind rows.now (up_row ∷ []) result }
{
    let (row, rest) = rows.split_first()?;
    if is_up(row) { Some(rest) } else { None }
}

// Whether a row enters the directory of a number.
fn is_directory(row: &Row, i: u64) -> bool
    ensures { result ≡ same_row row.now (dir_row (directory_name i)) }
{
    match row {
        Row::Dir(name) => is_directory_name(name.as_str(), i),
        Row::Start(_) => false,
        Row::Up => false,
        Row::File(_, _) => false,
    }
}

// Whether a row leaves a directory.
fn is_up(row: &Row) -> bool
    ensures { result ≡ same_row row.now up_row }
{
    match row {
        Row::Up => true,
        Row::Start(_) => false,
        Row::Dir(_) => false,
        Row::File(_, _) => false,
    }
}

// Whether a row is file j of directory i, under this name.
fn is_file(row: &Row, name: &str, i: u64, j: u64) -> bool
    requires directory { i < 1000 }
    requires file { j < 4 }
    ensures { result ≡ same_row row.now (file_row name.now (content i j)) }
{
    match row {
        Row::File(this, bytes) => {
            this.as_str() == name && is_pattern(bytes.as_slice(), i + 7 * j, 4096 * j + i)
        }
        Row::Start(_) => false,
        Row::Dir(_) => false,
        Row::Up => false,
    }
}
