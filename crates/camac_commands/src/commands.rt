// The rows of a body, walked together with its text.

ghost use Rattle.std.specs.Prelude.{◌≡◌, drop};
ghost use Rattle.camac_commands.specs.Commands.{detail_told};

use camac_check_rows::{Detail, Row};

/// The rows behind the first one.
pub fn behind_first(rows: &[Row]) -> &[Row]
    ensures { result.now ≡ drop 1 rows.now }
{
    match rows {
        [] => rows,
        [_, rest @ ..] => rest,
    }
}

/// What the first row tells.
pub fn detail_told(rows: &[Row]) -> Detail
    ensures { result ≡ detail_told rows.now }
{
    match rows {
        [] => Detail::Nothing,
        [row, ..] => row.detail,
    }
}
