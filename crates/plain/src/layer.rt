//! [`Layer`], a layer as it was read, and the answer that a scan of it has to give.
use crate::geometry::Geometry;
use crate::window::{is_inside, is_missed, touches};
use crate::work::Work;
use std::alloc::{AllocError, Global};
use twkb_head::{Bounds, Vertex};

/// Geometries in reading order, each before its members, and the vertices of all of them.
#[derive(Debug, Drop)]
pub struct Layer {
    pub geometries: Vec<Geometry>,
    /// The vertices, in units.
    pub vertices: Vec<Vertex>,
}

impl Layer {
    pub(crate) fn new(alloc: Global) -> Layer {
        Layer {
            geometries: Vec::new(alloc),
            vertices: Vec::new(alloc),
        }
    }

    /// The geometries that are no member of another.
    pub fn blobs(&self, alloc: Global) -> Result<Vec<Geometry>, AllocError> {
        let mut blobs = Vec::new(alloc);
        for geometry in &self.geometries {
            if geometry.depth == 1 {
                blobs.push(*geometry)?;
            }
        }
        Ok(blobs)
    }

    /// Whether some vertex of the geometry, or of one within it, is inside the window.
    pub fn has_vertex_inside(&self, geometry: &Geometry, window: &Bounds) -> bool {
        let mut is_found = false;
        let below = self.vertices.iter().skip(geometry.vertices_before);
        for vertex in below.take(geometry.vertices) {
            is_found = is_found || is_inside(vertex, window);
        }
        is_found
    }

    /// What a scan for the window reads: of a geometry with a size and a box that misses the window only the header;
    /// of any other collection its header, count and ids, and then its members; of any other geometry all bytes.
    pub fn work(&self, window: &Bounds) -> Work {
        self.work_of(window, false)
    }

    /// What a scan with a directory reads: nothing of a blob whose box misses the window, otherwise as [`Layer::work`] says.
    pub fn work_by_directory(&self, window: &Bounds) -> Work {
        self.work_of(window, true)
    }

    fn work_of(&self, window: &Bounds, has_directory: bool) -> Work {
        let mut work = Work::new();
        // The geometries before this number are passed, or lie within one that was passed.
        let mut next = 0;
        for (number, geometry) in self.geometries.iter().enumerate() {
            if number < next {
                continue;
            }
            next = geometry.next;
            let is_apart = match geometry.bounds {
                Some(bounds) => is_missed(&bounds, window),
                None => false,
            };
            if is_apart && has_directory && geometry.depth == 1 {
                work.hop(1);
            } else if is_apart && geometry.has_size {
                work.read(geometry.header);
                work.hop(geometry.depth);
            } else if geometry.has_members {
                work.read(geometry.header);
                work.read(geometry.list);
                next = 0;
            } else {
                work.read(geometry.whole);
            }
            if let Some(bounds) = geometry.bounds {
                if geometry.has_size && !is_apart {
                    work.meet(touches(&bounds, window));
                }
            }
        }
        work
    }
}
