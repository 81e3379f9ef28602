//! [`Reader`], which reads the fields of a geometry one after another.
ghost use Rattle.std.specs.Prelude.{◌<◌};

use crate::fault::{Claim, Fault, malformed};
use crate::layer::Layer;
use std::alloc::Global;
use twkb_head::{Bounds, DEEPEST, Kind, Span, Vertex, Why};

/// How many bytes there are, the bytes that are left, and what was read so far.
#[derive(Drop)]
pub struct Reader<'a> {
    total: usize,
    left: &'a [u8],
    pub layer: Layer,
    /// The false claim of least offset so far.
    pub lie: Option<(usize, Claim)>,
    /// Whether loose boxes are false too.
    pub is_tight: bool,
}

/// The axes and the precisions of the numbers under one header.
#[derive(Clone, Copy)]
pub struct Axes {
    pub xy: i8,
    pub z: Option<i8>,
    pub m: Option<i8>,
    last: [i128; 4],
}

/// A header.
#[derive(Clone, Copy)]
pub struct Header {
    pub kind: Kind,
    pub axes: Axes,
    /// The size, its offset, and the place after its field.
    pub size: Option<(u64, usize, usize)>,
    /// The box, and its offset.
    pub bounds: Option<(Bounds, usize)>,
    pub has_ids: bool,
    pub is_empty: bool,
}

impl<'a> Reader<'a> {
    pub fn new(alloc: Global, bytes: &'a [u8], is_tight: bool) -> Reader<'a> {
        Reader {
            total: bytes.len(),
            left: bytes,
            layer: Layer::new(alloc),
            lie: None,
            is_tight,
        }
    }

    pub fn is_at_end(&self) -> bool {
        self.left.is_empty()
    }

    pub fn offset(&self) -> usize {
        self.total.wrapping_sub(self.left.len())
    }

    /// Notes a claim that doesn't hold.
    pub fn tell(&mut self, holds: bool, offset: usize, claim: Claim) {
        let is_first = match self.lie {
            Some((before, _)) => offset < before,
            None => true,
        };
        if !holds && is_first {
            self.lie = Some((offset, claim));
        }
    }

    fn byte(&mut self) -> Result<u8, Fault> {
        match self.left {
            [first, left @ ..] => {
                self.left = left;
                Ok(*first)
            }
            [] => Err(malformed(self.offset(), Why::Cut)),
        }
    }

    pub fn unsigned(&mut self) -> Result<u64, Fault> {
        let start = self.offset();
        let mut value = 0u64;
        for group in 0..10u32 {
            let Ok(byte) = self.byte() else {
                return Err(malformed(start, Why::Cut));
            };
            if group == 9 && byte > 1 {
                return Err(malformed(start, Why::Varint));
            }
            value |= u64::from(byte % 128) << (7 * group);
            if byte < 128 {
                return Ok(value);
            }
        }
        Err(malformed(start, Why::Varint))
    }

    /// Reads a signed number, by zigzag: an even number n means n / 2, an odd one -(n + 1) / 2.
    pub fn signed(&mut self) -> Result<i128, Fault> {
        let number = i128::from(self.unsigned()?);
        Ok(if number % 2 == 0 {
            number / 2
        } else {
            -1 - number / 2
        })
    }

    fn span(&mut self, precision: i8) -> Result<Span, Fault> {
        let least = self.signed()?;
        let width = self.signed()?;
        Ok(Span {
            lo: scaled(least, precision),
            hi: scaled(least.wrapping_add(width), precision),
        })
    }

    fn bounds(&mut self, axes: &Axes) -> Result<Bounds, Fault> {
        let x = self.span(axes.xy)?;
        let y = self.span(axes.xy)?;
        let z = match axes.z {
            Some(precision) => Some(self.span(precision)?),
            None => None,
        };
        let m = match axes.m {
            Some(precision) => Some(self.span(precision)?),
            None => None,
        };
        Ok(Bounds { x, y, z, m })
    }

    fn coordinate(&mut self, axes: &mut Axes, axis: usize, precision: i8) -> Result<i128, Fault>
        requires { axis < 4 }
    {
        let start = self.offset();
        let sum = axes.last[axis].wrapping_add(self.signed()?);
        if sum < i128::from(i64::MIN) || i128::from(i64::MAX) < sum {
            return Err(malformed(start, Why::Range));
        }
        axes.last[axis] = sum;
        Ok(scaled(sum, precision))
    }

    pub fn point(&mut self, axes: &mut Axes) -> Result<(), Fault> {
        let xy = axes.xy;
        let x = self.coordinate(axes, 0, xy)?;
        let y = self.coordinate(axes, 1, xy)?;
        let z = match axes.z {
            Some(precision) => Some(self.coordinate(axes, 2, precision)?),
            None => None,
        };
        let m = match axes.m {
            Some(precision) => Some(self.coordinate(axes, 3, precision)?),
            None => None,
        };
        self.layer.vertices.push(Vertex { x, y, z, m })?;
        Ok(())
    }

    pub fn points(&mut self, axes: &mut Axes) -> Result<(), Fault> {
        for _ in 0..self.unsigned()? {
            self.point(axes)?;
        }
        Ok(())
    }

    pub fn rings(&mut self, axes: &mut Axes) -> Result<(), Fault> {
        for _ in 0..self.unsigned()? {
            self.points(axes)?;
        }
        Ok(())
    }

    /// Reads a list of ids, and returns whether they differ.
    pub fn ids(&mut self, alloc: Global, count: u64) -> Result<bool, Fault> {
        let mut ids = Vec::new(alloc);
        let mut distinct = true;
        for _ in 0..count {
            let id = self.signed()?;
            distinct = distinct && !ids.contains(&id);
            ids.push(id)?;
        }
        Ok(distinct)
    }

    fn kind_and_precision(&mut self, depth: u8) -> Result<(Kind, i8), Fault> {
        let offset = self.offset();
        let first = self.byte()?;
        let kind = match first % 16 {
            1 => Kind::Point,
            2 => Kind::LineString,
            3 => Kind::Polygon,
            4 => Kind::MultiPoint,
            5 => Kind::MultiLineString,
            6 => Kind::MultiPolygon,
            7 if depth == DEEPEST => return Err(malformed(offset, Why::Depth)),
            7 => Kind::GeometryCollection,
            _ => return Err(malformed(offset, Why::Kind)),
        };
        Ok((kind, PRECISIONS[usize::from(first / 16)]))
    }

    fn axes(&mut self, xy: i8, is_extended: bool) -> Result<Axes, Fault> {
        let extended = if is_extended { self.byte()? } else { 0 };
        Ok(Axes {
            xy,
            z: precision_if(extended & 1 > 0, extended / 4 % 8),
            m: precision_if(extended & 2 > 0, extended / 32),
            last: [0; 4],
        })
    }

    pub fn header(&mut self, depth: u8) -> Result<Header, Fault> {
        let (kind, precision) = self.kind_and_precision(depth)?;
        let metadata = self.byte()?;
        let axes = self.axes(precision, metadata & 8 > 0)?;
        let size_offset = self.offset();
        let size = if metadata & 2 > 0 {
            let size = self.unsigned()?;
            Some((size, size_offset, self.offset()))
        } else {
            None
        };
        let box_offset = self.offset();
        let bounds = if metadata & 1 > 0 {
            Some((self.bounds(&axes)?, box_offset))
        } else {
            None
        };
        Ok(Header {
            kind,
            axes,
            size,
            bounds,
            has_ids: metadata & 4 > 0,
            is_empty: metadata & 16 > 0,
        })
    }
}

const PRECISIONS: [i8; 16] = [0, -1, 1, -2, 2, -3, 3, -4, 4, -5, 5, -6, 6, -7, 7, -8];

fn precision_if(there: bool, precision: u8) -> Option<i8> {
    if there {
        Some((precision % 8) as i8)
    } else {
        None
    }
}

fn scaled(coordinate: i128, precision: i8) -> i128 {
    let mut units = coordinate;
    for _ in precision..7 {
        units = units.wrapping_mul(10);
    }
    units
}
