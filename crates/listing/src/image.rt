//! A raw image, cut into encodings.
ghost use Rattle.std.specs.Prelude.{◌≡◌, length, MatchOption};
ghost use Rattle.std.specs.Iterator.{at_most};
ghost use Rattle.listing.specs.Image.{Begins, piece_length};

use crate::Listing;
use std::{fmt, io};
use thumb::{decode, is_wide};

/// What stands at a place of an image.
#[derive(Clone, Copy, Debug, PartialEq, Eq)]
pub enum Piece {
    Narrow(u16),
    Wide(u16, u16),
    /// A first halfword whose second lies beyond the end.
    Cut(u16),
    /// The last byte of an odd number.
    Odd(u8),
}

impl Piece {
    /// How many bytes it has.
    fn length(self) -> u32
        ensures { result ≡ piece_length self }
    {
        match self {
            Piece::Narrow(_) | Piece::Cut(_) => 2,
            Piece::Wide(_, _) => 4,
            Piece::Odd(_) => 1,
        }
    }
}

/// What an image begins with, and what comes after.
fn split_piece(image: &[u8]) -> Option<(Piece, &[u8])>
    ensures { MatchOption result (length image.now ≡ 0) (λ r. Begins image.now r.0 r.1.now) }
{
    match image {
        [] => None,
        [byte] => Some((Piece::Odd(*byte), &[])),
        [a, b, rest @ ..] => {
            let first = u16::from_le_bytes([*a, *b]);
            if !is_wide(first) {
                return Some((Piece::Narrow(first), rest));
            }
            match rest {
                [c, d, rest @ ..] => {
                    let second = u16::from_le_bytes([*c, *d]);
                    Some((Piece::Wide(first, second), rest))
                }
                _ => Some((Piece::Cut(first), rest)),
            }
        }
    }
}

/// A piece at its address, as a line of a listing.
#[derive(Clone, Copy, Debug, PartialEq, Eq)]
pub struct Line {
    pub address: u32,
    pub piece: Piece,
}

impl fmt::Display for Line {
    fn fmt<W: fmt::Write>(&self, f: &mut fmt::Formatter<W>) -> fmt::Result {
        let address = self.address;
        write!(f, "{address:8x}: ")?;
        match self.piece {
            Piece::Narrow(first) => {
                write!(f, "{first:04x}      ")?;
                meaning(address, first, 0, f)
            }
            Piece::Wide(first, second) => {
                write!(f, "{first:04x} {second:04x} ")?;
                meaning(address, first, second, f)
            }
            Piece::Cut(first) => write!(f, "{first:04x}      cut short"),
            Piece::Odd(byte) => write!(f, "{byte:02x}        odd byte"),
        }
    }
}

/// The text of an encoding, or why it is refused.
fn meaning<W: fmt::Write>(
    address: u32,
    first: u16,
    second: u16,
    f: &mut fmt::Formatter<W>,
) -> fmt::Result {
    match decode(first, second) {
        Ok(instruction) => {
            let listing = Listing {
                address,
                instruction,
            };
            write!(f, "{listing}")
        }
        Err(refusal) => write!(f, "{refusal}"),
    }
}

/// The lines of an image.
#[derive(Drop)]
struct Lines<'a> {
    address: u32,
    rest: &'a [u8],
}

impl Iterator for Lines<'_> {
    type Item = Line;

    ghost remaining = { λ s. at_most (length s.rest.now) };

    fn next(&mut self) -> Option<Line> {
        let (piece, rest) = split_piece(self.rest)?;
        let address = self.address;
        self.address = address.wrapping_add(piece.length());
        self.rest = rest;
        Some(Line { address, piece })
    }
}

/// Prints an image that begins at `base`, a line for each piece.
pub fn print_image(rt: &impl Print, image: &[u8], base: u32) -> io::Result<()> {
    let lines = Lines {
        address: base,
        rest: image,
    };
    for line in lines {
        println!(rt; "{line}")?;
    }
    Ok(())
}
