ghost use Rattle.std.specs.Prelude.{◌≡◌, ℕ, ◌≤◌, [], vec_len, vec_capacity};
ghost use Rattle.floor.specs.Numbers.{numbers};
ghost use Rattle.maps.specs.Tables.{row_of};

use arrayvec::ArrayVec;
use floor::Place;

// As many places as a floor may have.
pub const MOST_PLACES: usize = 1024;

// The row of a place: none off the floor.
pub fn row_at<const N: usize>(rows: &[ArrayVec<Place, N>], p: Place) -> &[Place]
    ensures { numbers result.now ≡ row_of rows.now p.0 }
{
    match rows.get(usize::from(p)) {
        Some(row) => row.as_slice(),
        None => &[],
    }
}

// So many empty rows in the place of those before, in memory that is there.
pub fn clear_rows<const N: usize>(rows: &mut Vec<ArrayVec<Place, N>>, count: usize)
    requires { count ≤ vec_capacity rows.old }
    ensures empty { (p : ℕ) → row_of rows.new.items p ≡ [] }
    ensures count { vec_len rows.new ≡ count }
    ensures room { vec_capacity rows.new ≡ vec_capacity rows.old }
{
    rows.clear();
    for _ in 0..count {
        rows.push_reserved(ArrayVec::new());
    }
}
