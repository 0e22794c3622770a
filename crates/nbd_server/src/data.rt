// The data of a write, in pieces that its parts take over.
ghost use Rattle.std.specs.Prelude.{◌%◌, ◌++◌, ◌<◌, ◌≡◌, ◌≤◌, IfErr, IfOk, OnOk, [], drop, length, take};
ghost use Rattle.nbd_server.specs.declared.data.TheConstants.{PIECE};

use mmc_bus::Bytes;
use std::alloc::{AllocError, Global};
use std::collections::VecDeque;
use std::marker::Model;

/// The bytes of a piece: those of a part's `PART` sectors.
pub const PIECE: usize = 8192;

/// The data of a write. Contracts see the bytes; they are kept in pieces, so that a part takes its own over without a copy.
#[derive(Drop)]
pub struct Data {
    pieces: VecDeque<Bytes>,
}

impl Model for Data {
    ghost use Rattle.std.specs.Prelude.{List, ℕ};
    ghost use Rattle.nbd_server.specs.Data.{AreCut, joined};

    ghost Value = { List ℕ };

    ghost view = { λ d. joined d.pieces.items };

    ghost invariant = { λ d. AreCut d.pieces.items };
}

impl Data {
    /// No bytes.
    pub fn none(alloc: Global) -> Data
        ensures { result ≡ [] }
    {
        Data {
            pieces: VecDeque::new(alloc),
        }
    }

    /// Adds a piece after whole ones, of `PIECE` bytes at most. An error: memory was refused.
    pub fn push(&mut self, piece: Vec<u8>) -> Result<(), AllocError>
        requires whole { length self.old % PIECE ≡ 0 }
        requires some { 0 < length piece.items }
        requires few { length piece.items ≤ PIECE }
        ensures { OnOk result (self.new ≡ self.old ++ piece.items) }
    {
        match self.pieces.push_back(Bytes::new(piece)) {
            Ok(()) => Ok(()),
            Err(_) => Err(AllocError),
        }
    }

    /// Takes out the next piece.
    pub fn next_piece(&mut self) -> Bytes
        requires some { 0 < length self.old }
        ensures piece { result ≡ take PIECE self.old }
        ensures rest { self.new ≡ drop PIECE self.old }
    {
        match self.pieces.pop_front() {
            Some(piece) => piece,
            None => unreachable!(),
        }
    }

    /// The only piece. An error: there are others, or none.
    pub fn into_piece(self) -> Result<Bytes, Data>
        ensures one { IfOk result (λ bytes. bytes ≡ self) }
        ensures others { IfErr result (λ bytes. bytes ≡ self) }
    {
        let mut data = self;
        if data.pieces.len() != 1 {
            return Err(data);
        }
        match data.pieces.pop_front() {
            Some(piece) => Ok(piece),
            None => unreachable!(),
        }
    }
}
