/// The most shards that restore a source.
pub const MOST_SHARDS: u32 = 128;

/// The most bytes of a source.
pub const MOST_SOURCE: u32 = 1 << 24;

/// A shard: so many of them restore the source, its point, how many bytes the source has, and the values at the point.
#[derive(Debug, PartialEq, Eq, Drop)]
pub struct Shard {
    pub k: u32,
    pub x: u32,
    pub len: u32,
    pub body: Vec<u8>,
}

/// What shards restore.
#[derive(Debug, PartialEq, Eq, Drop)]
pub enum Restored {
    /// The source.
    Is(Vec<u8>),
    /// The shards aren't those of one source.
    Damaged,
}
