//! Layers and windows made at random, against a plain reader: it finds the hits by looking at each vertex, and the
//! bytes that a scan reads by the lengths of all geometries.
ghost use Rattle.std.specs.Prelude.{◌≡◌};

use super::plain_scans::{directory_scan_agrees, plain_layer, scan_agrees};
use super::{certified, equal};
use plain::{Layer, Work};
use random_layers::Dice;
use std::alloc::Global;
use std::process::Abort;
use twkb_layer::{Bounds, Certified, Directory, Row, Vertex};

const LAYERS: u64 = 1000;

const WINDOWS: u64 = 8;

// What the layers and the scans had, so that a run that tests too little fails.
#[derive(Clone, Copy, Debug)]
struct Met {
    kinds: [usize; 7],
    hits: usize,
    hits_by_more_axes: usize,
    scans_without_hits: usize,
    scans_upside_down: usize,
    work: Work,
    work_by_directory: Work,
}

impl Met {
    fn new() -> Met {
        Met {
            kinds: [0; 7],
            hits: 0,
            hits_by_more_axes: 0,
            scans_without_hits: 0,
            scans_upside_down: 0,
            work: Work::new(),
            work_by_directory: Work::new(),
        }
    }

    fn layer(&mut self, plain: &Layer) {
        for geometry in &plain.geometries {
            if let Some(kind) = self.kinds.get_mut(geometry.kind as usize) {
                *kind = kind.saturating_add(1);
            }
        }
    }

    fn scan(&mut self, plain: &Layer, ranges: &Bounds, found: usize) {
        self.work.and(&plain.work(ranges));
        self.work_by_directory.and(&plain.work_by_directory(ranges));
        self.hits = self.hits.saturating_add(found);
        if ranges.z.is_some() || ranges.m.is_some() {
            self.hits_by_more_axes = self.hits_by_more_axes.saturating_add(found);
        }
        if found == 0 {
            self.scans_without_hits = self.scans_without_hits.saturating_add(1);
        }
        if ranges.x.lo > ranges.x.hi || ranges.y.lo > ranges.y.hi {
            self.scans_upside_down = self.scans_upside_down.saturating_add(1);
        }
    }

    // Whether there were all seven kinds, hits and none, hops at each depth, and boxes that were met and only touched.
    fn is_enough(&self) -> bool {
        let [blobs, members, deeper] = self.work.hops;
        let [_, members_by_directory, _] = self.work_by_directory.hops;
        self.kinds.iter().all(|&kind| kind > 500)
            && self.hits > 1000
            && self.hits_by_more_axes > 100
            && self.scans_without_hits > 1000
            && self.scans_upside_down > 100
            && blobs > 1000
            && members > 1000
            && deeper > 1000
            && members_by_directory > 1000
            && self.work.met > 1000
            && self.work.touched > 100
    }
}

#[test]
fn random_layers(rt: HostRuntime) {
    let mut met = Met::new();
    for seed in 0..LAYERS {
        let bytes = random_layers::layer(rt.alloc(), seed).expect(&rt, "there is memory");
        agrees(&rt, rt.alloc(), seed, &bytes, &mut met);
    }
    assert!(rt; met.is_enough(), "{met:?}");
}

// Whether the layer of this seed is certified, and its list and its scans are the plain reader's.
fn agrees(rt: &impl Abort, alloc: Global, seed: u64, bytes: &[u8], met: &mut Met) {
    let mut layer = certified(rt, alloc, bytes);
    let plain = plain_layer(rt, alloc, bytes);
    met.layer(&plain);
    rows_agree(rt, alloc, &plain, &mut layer);
    let directory = Directory::build(alloc, &mut layer).expect(rt, "there is memory");
    let mut dice = Dice::new(seed);
    for _ in 0..WINDOWS {
        let near = place(&mut dice, &plain);
        let ranges = random_layers::window(&mut dice, &near);
        let found = scan_agrees(rt, &plain, &mut layer, &ranges);
        directory_scan_agrees(rt, &plain, &directory, &mut layer, &ranges);
        met.scan(&plain, &ranges, found);
    }
}

// A vertex of the layer, or a corner of a box, or the origin if there is neither.
fn place(dice: &mut Dice, plain: &Layer) -> Vertex {
    let origin = Vertex {
        x: 0,
        y: 0,
        z: None,
        m: None,
    };
    if dice.once_in(2) {
        let chosen = dice.below(plain.vertices.len() as u64) as usize;
        return plain.vertices.get(chosen).copied().unwrap_or(origin);
    }
    let chosen = dice.below(plain.geometries.len() as u64) as usize;
    let bounds = plain
        .geometries
        .get(chosen)
        .and_then(|geometry| geometry.bounds);
    match bounds {
        Some(bounds) if dice.once_in(2) => Vertex {
            x: bounds.x.lo,
            y: bounds.y.lo,
            z: bounds.z.map(|span| span.hi),
            m: bounds.m.map(|span| span.lo),
        },
        Some(bounds) => Vertex {
            x: bounds.x.hi,
            y: bounds.y.hi,
            z: bounds.z.map(|span| span.lo),
            m: bounds.m.map(|span| span.hi),
        },
        None => origin,
    }
}

fn rows_agree(rt: &impl Abort, alloc: Global, plain: &Layer, layer: &mut Certified)
    ensures { layer.new.bytes ≡ layer.old.bytes }
{
    let blobs = plain.blobs(alloc).expect(rt, "there is memory");
    equal(rt, layer.blobs(), blobs.len());
    equal(rt, layer.vertices(), plain.vertices.len());
    let rows = layer.list(alloc).expect(rt, "there is memory");
    equal(rt, rows.len(), blobs.len());
    for (blob, (row, geometry)) in rows.iter().zip(&blobs).enumerate() {
        let expected = Row {
            blob,
            offset: geometry.offset,
            bytes: geometry.whole,
            vertices: geometry.vertices,
            kind: geometry.kind,
            precision: geometry.precision,
            has_size: geometry.has_size,
            has_box: geometry.bounds.is_some(),
        };
        equal(rt, *row, expected);
    }
}
