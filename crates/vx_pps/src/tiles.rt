//! The tiles of a picture, by their index.
ghost use Rattle.std.specs.Prelude.{◌≡◌, ◌+◌, ◌-◌, ◌*◌, ◌<◌, ◌≤◌, ℕ, List, length, slice_index};
ghost use Rattle.vx_pps.specs.Tiles.{IsGrid, across, block, column, down, row, tile_behind};

use vx_layout::{Bounds, Rect};

/// The bounds of a picture's tile columns and tile rows.
#[derive(Drop)]
pub struct Tiles {
    /// The bounds of the tile columns, in CTUs.
    pub columns: Bounds,
    /// The bounds of the tile rows, in CTUs.
    pub rows: Bounds,
}

impl Tiles {
    /// Returns the number of tile columns: NumTileColumns.
    pub fn across(&self) -> u32
        requires { IsGrid self.now }
        ensures { result ≡ across self.now }
    {
        self.columns.len() as u32 - 1
    }

    /// Returns the number of tile rows: NumTileRows.
    pub fn down(&self) -> u32
        requires { IsGrid self.now }
        ensures { result ≡ down self.now }
    {
        self.rows.len() as u32 - 1
    }

    /// Returns the number of tiles: NumTilesInPic.
    pub fn count(&self) -> u32
        requires { IsGrid self.now }
        ensures { result ≡ across self.now * down self.now }
    {
        self.across() * self.down()
    }

    /// Returns the column of a tile.
    pub fn column(&self, tile: u32) -> u32
        requires { IsGrid self.now }
        ensures { result ≡ column self.now tile }
    {
        tile % self.across()
    }

    /// Returns the row of a tile.
    pub fn row(&self, tile: u32) -> u32
        requires { IsGrid self.now }
        ensures { result ≡ row self.now tile }
    {
        tile / self.across()
    }

    /// Returns `wide` tiles across and `high` down from a tile on, as a rectangle of CTUs. A bound past the last one counts
    /// as 0.
    pub fn block(&self, tile: u32, wide: u32, high: u32) -> Rect
        requires grid { IsGrid self.now }
        requires inside { tile < across self.now * down self.now }
        requires low { (wide ≤ 512) × (high ≤ 512) }
        ensures { result ≡ block self.now tile wide high }
    {
        let (column, row) = (self.column(tile), self.row(tile));
        let x = bound(&self.columns, column);
        let y = bound(&self.rows, row);
        Rect {
            x,
            y,
            w: bound(&self.columns, column + wide).saturating_sub(x),
            h: bound(&self.rows, row + high).saturating_sub(y),
        }
    }

    /// Returns the tile at which the next slice begins if its index isn't coded (H.266 7.4.3.5).
    ///
    /// The slice before it starts at `tile` and is `wide` x `high` tiles. That is the tile to its right, or after the last
    /// column the first tile below it.
    pub fn tile_behind(&self, tile: u32, wide: u32, high: u32) -> u32
        requires grid { IsGrid self.now }
        requires inside { tile < across self.now * down self.now }
        requires wide { (1 ≤ wide) × (wide ≤ 512) }
        requires high { (1 ≤ high) × (high ≤ 512) }
        ensures { result ≡ tile_behind self.now tile (wide - 1) (high - 1) }
    {
        let beside = tile + wide;
        if beside % self.across() == 0 {
            beside + (high - 1) * self.across()
        } else {
            beside
        }
    }
}

/// Returns a bound by its index, or 0 past the last one.
fn bound(bounds: &Bounds, index: u32) -> u32
    ensures { result ≡ slice_index bounds.now index }
{
    let index = index as usize;
    if index < bounds.len() {
        bounds.item(index)
    } else {
        0
    }
}
