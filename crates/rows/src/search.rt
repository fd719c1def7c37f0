// Equal type rows, and the search for one.
ghost use Rattle.std.specs.Prelude.{◌≡◌};
ghost use Rattle.rows.specs.Rows.{row_alike, row_place};

use crate::tables::TypeRow;

// Whether two type rows are equal: the derived `==`, in the words of contracts.
pub fn same_row(p: TypeRow, q: TypeRow) -> bool
    ensures { result ≡ row_alike p q }
{
    p == q
}

// The place of the first equal row. Where there is none it is the number of rows, which is the place of a row to come: so a
// caller has a place either way.
pub fn find_type(made: &[TypeRow], row: TypeRow) -> usize
    ensures { result ≡ row_place row made.now }
{
    match made.iter().position(|earlier| row == *earlier) {
        Some(place) => place,
        None => made.len(),
    }
}
