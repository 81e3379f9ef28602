//! Reading whole geometries, with all geometries below them, and whole layers.
ghost use Rattle.std.specs.Prelude.{◌≤◌};
ghost use Rattle.twkb_head.specs.declared.kinds.TheConstants.{DEEPEST};

use crate::fault::{Claim, Fault};
use crate::geometry::Geometry;
use crate::layer::Layer;
use crate::reader::{Header, Reader};
use crate::tight::is_loose;
use crate::window::is_held;
use std::alloc::Global;
use twkb_head::{DEEPEST, Kind};

/// Reads the blob at the front of the bytes. The bytes after it aren't looked at.
pub fn read_blob(alloc: Global, bytes: &[u8]) -> Result<Layer, Fault> {
    let mut reader = Reader::new(alloc, bytes, false);
    reader.blob(alloc)?;
    Ok(reader.layer)
}

/// Reads the blob at the front of the bytes, in tight checking.
pub fn read_blob_tight(alloc: Global, bytes: &[u8]) -> Result<Layer, Fault> {
    let mut reader = Reader::new(alloc, bytes, true);
    reader.blob(alloc)?;
    Ok(reader.layer)
}

/// Reads the bytes as one blob after another.
pub fn read_layer(alloc: Global, bytes: &[u8]) -> Result<Layer, Fault> {
    let mut reader = Reader::new(alloc, bytes, false);
    // No blob is shorter than two bytes.
    for _ in 0..bytes.len() {
        if !reader.is_at_end() {
            reader.blob(alloc)?;
        }
    }
    Ok(reader.layer)
}

impl<'a> Reader<'a> {
    fn blob(&mut self, alloc: Global) -> Result<(), Fault> {
        self.geometry(alloc, 1)?;
        match self.lie {
            Some((offset, claim)) => Err(Fault::FalseClaim { offset, claim }),
            None => Ok(()),
        }
    }

    #[cycle(reading)]
    fn geometry(&mut self, alloc: Global, depth: u8) -> Result<(), Fault>
        requires { depth ≤ DEEPEST }
    {
        let offset = self.offset();
        let header = self.header(depth)?;
        let number = self.layer.geometries.len();
        let mut geometry = begun(&header, depth, offset);
        geometry.header = self.offset().wrapping_sub(offset);
        geometry.vertices_before = self.layer.vertices.len();
        self.layer.geometries.push(geometry)?;
        if !header.is_empty {
            geometry.list = self.body(alloc, depth, &header)?;
        }
        geometry.whole = self.offset().wrapping_sub(offset);
        geometry.vertices = self
            .layer
            .vertices
            .len()
            .wrapping_sub(geometry.vertices_before);
        geometry.next = self.layer.geometries.len();
        if let Some(kept) = self.layer.geometries.get_mut(number) {
            *kept = geometry;
        }
        self.judge(&header, geometry.vertices_before);
        Ok(())
    }

    /// Reads a body, and returns how many bytes the count and the ids of a collection take.
    #[cycle(reading)]
    fn body(&mut self, alloc: Global, depth: u8, header: &Header) -> Result<usize, Fault>
        requires { depth ≤ DEEPEST }
    {
        let mut axes = header.axes;
        match header.kind {
            Kind::Point => self.point(&mut axes)?,
            Kind::LineString => self.points(&mut axes)?,
            Kind::Polygon => self.rings(&mut axes)?,
            _ => return self.list(alloc, depth, header),
        }
        Ok(0)
    }

    #[cycle(reading)]
    fn list(&mut self, alloc: Global, depth: u8, header: &Header) -> Result<usize, Fault>
        requires { depth ≤ DEEPEST }
    {
        let start = self.offset();
        let count = self.unsigned()?;
        if header.has_ids {
            let offset = self.offset();
            let distinct = self.ids(alloc, count)?;
            self.tell(distinct, offset, Claim::Ids);
        }
        let list = self.offset().wrapping_sub(start);
        let mut axes = header.axes;
        for _ in 0..count {
            match header.kind {
                Kind::MultiPoint => self.point(&mut axes)?,
                Kind::MultiLineString => self.points(&mut axes)?,
                Kind::MultiPolygon => self.rings(&mut axes)?,
                Kind::GeometryCollection if depth < DEEPEST => self.geometry(alloc, depth + 1)?,
                _ => {}
            }
        }
        Ok(if header.kind == Kind::GeometryCollection {
            list
        } else {
            0
        })
    }

    /// Judges the size and the box, at the geometry's end.
    fn judge(&mut self, header: &Header, vertices_before: usize) {
        if let Some((size, offset, after)) = header.size {
            let length = self.offset().wrapping_sub(after) as u64;
            self.tell(size == length, offset, Claim::Size);
        }
        if let Some((bounds, offset)) = header.bounds {
            let mut holds = true;
            for vertex in self.layer.vertices.iter().skip(vertices_before) {
                holds = holds && is_held(vertex, &bounds);
            }
            self.tell(holds, offset, Claim::Box);
            if self.is_tight {
                let vertices = &self.layer.vertices;
                let loose = is_loose(&bounds, &header.axes, vertices, vertices_before);
                self.tell(!loose, offset, Claim::Loose);
            }
        }
    }
}

// The geometry that begins here, by its header. Its lengths are set later.
fn begun(header: &Header, depth: u8, offset: usize) -> Geometry {
    Geometry {
        depth,
        kind: header.kind,
        precision: header.axes.xy,
        offset,
        header: 0,
        list: 0,
        whole: 0,
        has_size: header.size.is_some(),
        bounds: header.bounds.map(|field| field.0),
        has_members: header.kind == Kind::GeometryCollection && !header.is_empty,
        vertices_before: 0,
        vertices: 0,
        next: 0,
    }
}
