//! [`layer`], a layer made at random.
use crate::dice::Dice;
use crate::header::{Axes, Marks, with_header};
use crate::leaf::{Body, put_ids};
use crate::numbers::put_unsigned;
use crate::reach::Reach;
use std::alloc::{AllocError, Global};

/// A geometry, as its bytes, and how far its vertices reach.
#[derive(Drop)]
struct Piece {
    bytes: Vec<u8>,
    reach: Reach,
}

/// The layer of this seed. It is made from the inside out: a geometry is put after the others, or the last few of them
/// become the members of a collection.
pub fn layer(alloc: Global, seed: u64) -> Result<Vec<u8>, AllocError> {
    let mut dice = Dice::new(seed);
    let mut pieces = Vec::new(alloc);
    for _ in 0..dice.below(14) {
        let piece = if dice.below(5) < 3 {
            leaf(alloc, &mut dice)?
        } else {
            collection(alloc, &mut dice, &mut pieces)?
        };
        pieces.push(piece)?;
    }
    let mut layer = Vec::new(alloc);
    for piece in &pieces {
        layer.extend_from_slice(&piece.bytes)?;
    }
    Ok(layer)
}

fn leaf(alloc: Global, dice: &mut Dice) -> Result<Piece, AllocError> {
    let axes = Axes::random(dice);
    let marks = Marks {
        kind: (dice.below(6) % 6) as u8 + 1,
        has_ids: dice.once_in(2),
        is_empty: dice.once_in(9),
    };
    let mut body = Body::new(alloc, dice, axes);
    if !marks.is_empty {
        body.put(dice, marks.kind, marks.has_ids)?;
    }
    let reach = body.reach;
    let bytes = with_header(alloc, dice, &axes, &marks, &reach, &body.bytes)?;
    Ok(Piece { bytes, reach })
}

// A collection of some of the last pieces, which are taken from the list.
fn collection(
    alloc: Global,
    dice: &mut Dice,
    pieces: &mut Vec<Piece>,
) -> Result<Piece, AllocError> {
    let axes = Axes::random(dice);
    let is_empty = dice.once_in(9);
    let most = if is_empty { 0 } else { dice.below(4) as usize };
    let count = most.min(pieces.len());
    let marks = Marks {
        kind: 7,
        has_ids: dice.once_in(2),
        is_empty,
    };
    let mut body = Vec::new(alloc);
    if !is_empty {
        put_unsigned(&mut body, dice, count as u64)?;
        if marks.has_ids {
            put_ids(&mut body, dice, count as u64)?;
        }
    }
    let kept = pieces.len() - count;
    let mut reach = Reach::new();
    for member in pieces.iter().skip(kept) {
        body.extend_from_slice(&member.bytes)?;
        reach.merge(&member.reach);
    }
    pieces.truncate(kept);
    let bytes = with_header(alloc, dice, &axes, &marks, &reach, &body)?;
    Ok(Piece { bytes, reach })
}
