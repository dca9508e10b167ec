//! Rows that are numbered from 1 on.

ghost use Rattle.std.specs.Prelude.{◌≡◌, slice_get};
ghost use Rattle.jc_api.specs.Numbered.{numbered, put};

/// The row with a number, or `None` if there is none.
pub(crate) fn numbered<T: Copy>(rows: &[T], number: u8) -> Option<T>
    ensures { result ≡ numbered rows.now number }
{
    if number == 0 {
        return None;
    }
    row_at(rows, usize::from(number - 1))
}

/// Replaces the row with a number, if there is one.
pub(crate) fn put<T: Copy + Drop>(rows: &mut [T], number: u8, row: T)
    ensures { rows.new ≡ put rows.old number row }
{
    if number == 0 {
        return;
    }
    let index = usize::from(number - 1);
    if index < rows.len() {
        rows[index] = row;
    }
}

fn row_at<T: Copy>(rows: &[T], index: usize) -> Option<T>
    ensures { result ≡ slice_get rows.now index }
{
    rows.get(index).copied()
}
