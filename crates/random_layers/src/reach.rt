//! How far vertices reach.

/// The least and the greatest number of units in each axis, in the order X, Y, Z, M, as far as a vertex has it.
#[derive(Clone, Copy, Debug)]
pub struct Reach {
    pub ranges: [Option<(i64, i64)>; 4],
}

impl Reach {
    pub fn new() -> Reach {
        Reach { ranges: [None; 4] }
    }

    /// Takes a coordinate in.
    pub fn add(&mut self, axis: usize, units: i64) {
        if axis < 4 {
            self.ranges[axis] = Some(match self.ranges[axis] {
                Some((least, most)) => (least.min(units), most.max(units)),
                None => (units, units),
            });
        }
    }

    /// Takes in the reach of other vertices.
    pub fn merge(&mut self, other: &Reach) {
        for axis in 0..4 {
            if let Some((least, most)) = other.ranges[axis] {
                self.add(axis, least);
                self.add(axis, most);
            }
        }
    }
}
