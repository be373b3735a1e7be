//! What a map is of.

/// A row: a location whose instruction was executed.
#[derive(Clone, Copy)]
pub struct MapRow {
    /// The location.
    pub place: u16,
    /// How often its instruction was executed.
    pub times: u128,
    /// How often at most in a column.
    pub most: u64,
    /// The first column in which it was.
    pub from: u16,
    /// The one after the last of these.
    pub to: u16,
}

/// A box: columns that follow each other, in which a row is equally dark.
#[derive(Clone, Copy)]
pub struct MapBox {
    /// The number of the row, from 0 on.
    pub row: usize,
    /// The first column.
    pub from: u16,
    /// The one after the last.
    pub to: u16,
    /// How dark, in tenths: 3 to 10.
    pub dark: u16,
}

/// A map.
#[derive(Drop)]
pub struct RunMap {
    /// How many instructions were executed.
    pub found: usize,
    /// The rows that are kept, by rising location.
    pub rows: Vec<MapRow>,
    /// Their boxes: row by row, and from left to right.
    pub boxes: Vec<MapBox>,
}
