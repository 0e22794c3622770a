// Writes bytes as their longest repeats.
ghost use Rattle.std.specs.Prelude.{◌+◌, ◌≡◌, ◌==◌, ◌<◌, ◌≤◌, ℕ, length, slice_index, true, IfOk, OnErr};
ghost use Rattle.std.specs.List.{prefix_len};
ghost use Rattle.text_out.specs.Repeats.{PutsFirst, repeat_text, repeats_text};
ghost use Rattle.text_out.specs.Writing.{AppendsFront, Writes};

use crate::hex::digit_of;
use crate::put::{put, put_number};
use std::io::{self, Write};
use std::simd::prelude::*;

// How many bytes are looked at together.
const LANES: usize = 32;

// Whether so many bytes from this index on are all `byte`.
fn are_all(bytes: &[u8], from: usize, byte: u8) -> bool
    requires { from + LANES ≤ length bytes.now }
    ensures { result ≡ true → (k : ℕ) → from ≤ k → k < from + LANES → slice_index bytes.now k ≡ byte }
{
    let others = u8x32::from_slice(&bytes[from..]).simd_ne(u8x32::splat(byte));
    others.to_bitmask() == 0
}

// Some number of bytes at the front, looked at together, that are all `byte`.
fn sure_len(bytes: &[u8], byte: u8) -> usize
    ensures within { result ≤ length bytes.now }
    ensures same { (k : ℕ) → k < result → slice_index bytes.now k ≡ byte }
{
    let mut count = 0;
    while bytes.len() - count >= LANES && are_all(bytes, count, byte) {
        count += LANES;
    }
    count
}

// How many bytes at the front are `byte`.
fn repeat_len(bytes: &[u8], byte: u8) -> usize
    ensures count { result ≡ prefix_len (λ b. b == byte) bytes.now }
    ensures within { result ≤ length bytes.now }
{
    let mut count = sure_len(bytes, byte);
    while count < bytes.len() && bytes[count] == byte {
        count += 1;
    }
    count
}

// Writes one repeat.
fn put_repeat<W: Write>(out: &mut W, byte: u8, count: u64) -> io::Result<()>
    ensures { Writes (W.contents out.old) (W.contents out.new) result (repeat_text (byte, count)) }
{
    put(out, &[digit_of(byte / 16), digit_of(byte % 16), b'*'])?;
    put_number(out, count)
}

// Writes the first repeat, with a comma where others follow, and gives the bytes after it.
fn put_first<'a, W: Write>(out: &mut W, bytes: &'a [u8]) -> io::Result<&'a [u8]>
    requires { 0 < length bytes.now }
    ensures ok { IfOk result (λ rest. PutsFirst (W.contents out.old) (W.contents out.new) bytes.now rest.now) }
    ensures err { OnErr result (AppendsFront (W.contents out.old) (W.contents out.new) (repeats_text bytes.now)) }
{
    let byte = bytes[0];
    let (repeat, rest) = bytes.split_at(repeat_len(bytes, byte));
    put_repeat(out, byte, repeat.len() as u64)?;
    if !rest.is_empty() {
        put(out, b",")?;
    }
    Ok(rest)
}

/// Writes bytes as their longest repeats, joined by commas.
pub(crate) fn put_repeats<W: Write>(out: &mut W, bytes: &[u8]) -> io::Result<()>
    ensures { Writes (W.contents out.old) (W.contents out.new) result (repeats_text bytes.now) }
{
    let mut rest = bytes;
    while !rest.is_empty() {
        rest = put_first(out, rest)?;
    }
    Ok(())
}
