//! The pattern of the grid, dart by dart: where a dart lies, its neighbours and its point.
ghost use Rattle.std.specs.Prelude.{◌≡◌, ◌+◌, ◌*◌, ◌<◌, ◌≤◌};
ghost use Rattle.gm_grid.specs.GridMap.{across, neighbour, point, dart, dart_count};

use gm_model::Value;

// By the number of a dart in its square, as the definition of the grid has them.
const ALONG: [u8; 8] = [1, 0, 3, 2, 5, 4, 7, 6];

const AROUND: [u8; 8] = [7, 2, 1, 4, 3, 6, 5, 0];

const FACING: [u8; 8] = [5, 4, 7, 6, 1, 0, 3, 2];

const CORNER_X: [u8; 8] = [0, 4, 4, 4, 4, 0, 0, 0];

const CORNER_Y: [u8; 8] = [0, 0, 0, 4, 4, 4, 4, 0];

/// Where a dart lies: the row and the column of its square, and its number there.
#[derive(Clone, Copy)]
pub(crate) struct Place {
    pub(crate) row: u32,
    pub(crate) column: u32,
    pub(crate) number: u8,
}

/// The name of the dart there.
pub(crate) fn name_of(m: u32, row: u32, column: u32, number: u8) -> u32
    requires most { m ≤ 100 }
    requires row { row < m }
    requires column { column < m }
    requires number { number < 8 }
    ensures name { result ≡ dart m row column number }
    ensures below { result < dart_count m }
{
    8 * (row * m + column) + number as u32
}

/// The neighbour of the dart there.
pub(crate) fn neighbour_at(m: u32, label: u8, place: Place) -> u32
    requires most { m ≤ 100 }
    requires within { (place.row < m) × (place.column < m) × (place.number < 8) }
    ensures name { result ≡ neighbour m label place.row place.column place.number }
    ensures below { result < dart_count m }
{
    match label {
        0 => name_of(m, place.row, place.column, ALONG[place.number as usize]),
        1 => name_of(m, place.row, place.column, AROUND[place.number as usize]),
        _ => across_at(m, place),
    }
}

/// The dart on the other side of the seam, or the dart itself on the border.
fn across_at(m: u32, place: Place) -> u32
    requires most { m ≤ 100 }
    requires within { (place.row < m) × (place.column < m) × (place.number < 8) }
    ensures name { result ≡ across m place.row place.column place.number }
    ensures below { result < dart_count m }
{
    let Place {
        row,
        column,
        number,
    } = place;
    let facing = FACING[number as usize];
    match number {
        0 | 1 if row > 0 => name_of(m, row - 1, column, facing),
        2 | 3 if column + 1 < m => name_of(m, row, column + 1, facing),
        4 | 5 if row + 1 < m => name_of(m, row + 1, column, facing),
        6 | 7 if column > 0 => name_of(m, row, column - 1, facing),
        _ => name_of(m, row, column, number),
    }
}

/// The point at the corner of the dart there.
pub(crate) fn point_at(place: Place) -> Value
    requires low { (place.row < 100) × (place.column < 100) × (place.number < 8) }
    ensures { result ≡ point place.row place.column place.number }
{
    let number = place.number as usize;
    Value::Vec3(
        (4 * place.column + CORNER_X[number] as u32) as i64,
        (4 * place.row + CORNER_Y[number] as u32) as i64,
        0,
    )
}
