//! How a row is found among rows in byte order of their paths.
ghost use Rattle.std.specs.Prelude.{◌≡◌, ◌++◌, option_copied, is_some};
ghost use Rattle.pod_command.specs.Encodable.{AreInOrder};
ghost use Rattle.pod_rows.specs.Pod.{row_at, is_row, is_row_of};
ghost use Rattle.rdf_graph.specs.Triple.{bytes_cmp};

use pod_command::Row;
use pod_path::Path;
use std::cmp::Ordering;

/// How the path that is searched for, two texts one after the other, compares with a row's.
fn compare_joined(first: &str, second: &str, text: &str) -> Ordering
    ensures { result ≡ bytes_cmp (first.now ++ second.now) text.now }
{
    match text.strip_prefix(first) {
        Some(rest) => second.cmp(rest),
        None => first.cmp(text),
    }
}

/// Finds the row at the path that two texts give, one after the other. It halves what is left.
pub(crate) fn row_joined<'a>(rows: &'a [Row], first: &str, second: &str) -> Option<&'a Row>
    requires { AreInOrder rows.now }
    ensures { option_copied result ≡ row_at rows.entry.now (first.now ++ second.now) }
{
    let (before, after) = rows.split_at(rows.len() / 2);
    let Some((row, rest)) = after.split_first() else {
        return None;
    };
    match compare_joined(first, second, row.path.as_str()) {
        Ordering::Less => row_joined(before, first, second),
        Ordering::Equal => Some(row),
        Ordering::Greater => row_joined(rest, first, second),
    }
}

/// Finds the row at a path, among rows in order.
pub(crate) fn row_in<'a>(rows: &'a [Row], path: &str) -> Option<&'a Row>
    requires { AreInOrder rows.now }
    ensures { option_copied result ≡ row_at rows.entry.now path.now }
{
    row_joined(rows, path, "")
}

/// Whether a search finds a row at a path.
pub(crate) fn is_row(rows: &[Row], path: &str) -> bool
    requires { AreInOrder rows.now }
    ensures { result ≡ is_row rows.now path.now }
{
    row_in(rows, path).is_some()
}

/// Whether there is a path, and a search finds a row at it.
pub(crate) fn is_row_of(rows: &[Row], path: &Option<Path>) -> bool
    requires { AreInOrder rows.now }
    ensures { result ≡ is_row_of rows.now path.now }
{
    match path {
        Some(path) => is_row(rows, path.as_str()),
        None => false,
    }
}
