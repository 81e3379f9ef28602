//! [`Work`], how many bytes a scan reads, and over which geometries it hops.

/// How many bytes a scan reads, how often it hops, and how many boxes it meets.
#[derive(Clone, Copy, Debug, PartialEq, Eq)]
pub struct Work {
    pub read: u64,
    /// The number of blobs that it hops over, of members of blobs, and of deeper geometries.
    pub hops: [u64; 3],
    /// The number of geometries with a size and a box that meets the window.
    pub met: u64,
    /// The number of geometries with a size and a box that only touches the window.
    pub touched: u64,
}

impl Work {
    pub fn new() -> Work {
        Work {
            read: 0,
            hops: [0; 3],
            met: 0,
            touched: 0,
        }
    }

    /// Counts bytes that are read.
    pub fn read(&mut self, bytes: usize) {
        self.read = self.read.wrapping_add(bytes as u64);
    }

    /// Counts a hop over a geometry at this depth.
    pub fn hop(&mut self, depth: u8) {
        let level = match depth {
            0 | 1 => 0,
            2 => 1,
            _ => 2,
        };
        self.hops[level] = self.hops[level].wrapping_add(1);
    }

    /// Counts a box that meets the window, and whether it only touches it.
    pub fn meet(&mut self, only_touches: bool) {
        self.met = self.met.wrapping_add(1);
        self.touched = self.touched.wrapping_add(u64::from(only_touches));
    }

    /// Adds the counts of another scan.
    pub fn and(&mut self, other: &Work) {
        self.read = self.read.wrapping_add(other.read);
        self.met = self.met.wrapping_add(other.met);
        self.touched = self.touched.wrapping_add(other.touched);
        for level in 0..3 {
            self.hops[level] = self.hops[level].wrapping_add(other.hops[level]);
        }
    }
}
