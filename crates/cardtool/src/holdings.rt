// What a card holds, in a few lines.
use mmc_bus::Part;
use mmc_card_sim::SimCard;
use std::alloc::Global;
use std::io;
use text_out::{Piece, put_pieces};

// How many sectors of a partition are shown.
const MOST_SECTORS: usize = 8;

// How many bytes of a sector are shown.
const SHOWN: usize = 32;

// The partitions with their names.
const PARTS: [(Part, &[u8]); 7] = [
    (Part::User, b"user"),
    (Part::Boot1, b"boot1"),
    (Part::Boot2, b"boot2"),
    (Part::Gp1, b"gp1"),
    (Part::Gp2, b"gp2"),
    (Part::Gp3, b"gp3"),
    (Part::Gp4, b"gp4"),
];

// Whether a sector is as an erased one.
fn is_erased(sector: &[u8]) -> bool {
    sector.iter().all(|byte| *byte == 0) || sector.iter().all(|byte| *byte == 0xff)
}

// Writes a line with the first bytes of a sector.
fn put_sector<'a>(
    out: &mut Vec<u8>,
    name: &'a [u8],
    number: usize,
    sector: &'a [u8],
) -> io::Result<()> {
    let front = &sector[..sector.len().min(SHOWN)];
    put_pieces(
        out,
        &[
            Piece::Text(name),
            Piece::Text(b" sector "),
            Piece::Number(number as u64),
            Piece::Text(b": "),
            Piece::Hex(front),
            Piece::Text(b" ..\n"),
        ],
    )
}

// Writes a line for each of the first sectors of a partition that aren't erased.
fn put_part(out: &mut Vec<u8>, name: &[u8], card: &SimCard, part: Part) -> io::Result<()> {
    let mut count = 0;
    for number in 0..card.size(part) {
        match card.sector(part, number) {
            Some(sector) if count < MOST_SECTORS && !is_erased(&sector) => {
                put_sector(out, name, number, &sector)?;
                count += 1;
            }
            _ => {}
        }
    }
    Ok(())
}

/// Lines with the first bytes of the first sectors of each partition that aren't erased.
///
/// # Errors
/// Memory was refused.
pub fn holdings(alloc: Global, card: &SimCard) -> io::Result<Vec<u8>> {
    let mut lines = Vec::new(alloc);
    for (part, name) in PARTS {
        put_part(&mut lines, name, card, part)?;
    }
    Ok(lines)
}
