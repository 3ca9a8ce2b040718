//! The bytes of a round's tiles, written through one buffer.

ghost use Rattle.std.specs.Prelude.{◌≡◌, ◌<◌, ◌+◌, [], ◌++◌, length, map, slice_index_or, IfErr, IfSome, OnOk, IsErrOf};
ghost use Rattle.std.specs.List.{concat};
ghost use Rattle.jx_io.specs.Causes.{Rose};
ghost use Rattle.jx_rounds.specs.MadeRounds.{parts_of};
ghost use Rattle.jx_rounds.specs.Taken.{HasTaken, SomeFront, followed_by};
ghost use Rattle.jx_rounds.specs.Rounds.{IsFault};

use crate::halt::{Halt, halt_of};
use crate::packed::Packed;
use crate::writer::ByteWriter;

/// The buffer is written where it has so many bytes.
pub const ENOUGH: usize = 65_536;

/// Writes these bytes; after an error, a front of them.
pub fn put<W: ByteWriter>(writer: &mut W, bytes: &[u8]) -> Result<(), Halt>
    requires may { W.can_write (W.kept writer.old) }
    ensures ok { OnOk result (W.written writer.new ≡ followed_by bytes.now (W.written writer.old)) }
    ensures front { SomeFront (W.written writer.old) (W.written writer.new) bytes.now }
    ensures fault { IfErr result (λ h. IsFault h) }
    ensures cause { IsErrOf result Halt.Failed → Rose (W.faults writer.old) (W.faults writer.new) }
    ensures rose { W.faults writer.old < W.faults writer.new → IsErrOf result Halt.Failed }
    ensures same { OnOk result (W.faults writer.new ≡ W.faults writer.old) }
    ensures other { W.kept writer.new ≡ W.kept writer.old }
{
    match writer.write(bytes) {
        Ok(()) => Ok(()),
        Err(refused) => Err(halt_of(refused)),
    }
}

/// Writes what stands in the buffer, and clears it; after an error, a front of it was written.
fn write_out<W: ByteWriter>(writer: &mut W, buffer: &mut Vec<u8>) -> Result<(), Halt>
    requires may { W.can_write (W.kept writer.old) }
    ensures ok { OnOk result (W.written writer.new ≡ followed_by buffer.old.items (W.written writer.old)) }
    ensures empty { OnOk result (buffer.new.items ≡ []) }
    ensures front { SomeFront (W.written writer.old) (W.written writer.new) buffer.old.items }
    ensures fault { IfErr result (λ h. IsFault h) }
    ensures cause { IsErrOf result Halt.Failed → Rose (W.faults writer.old) (W.faults writer.new) }
    ensures rose { W.faults writer.old < W.faults writer.new → IsErrOf result Halt.Failed }
    ensures same { OnOk result (W.faults writer.new ≡ W.faults writer.old) }
    ensures other { W.kept writer.new ≡ W.kept writer.old }
{
    match put(writer, buffer) {
        Ok(()) => {
            buffer.clear();
            Ok(())
        }
        Err(halt) => Err(halt),
    }
}

/// Writes what stands in the buffer where it has enough; after an error, a front of it was written.
fn write_full<W: ByteWriter>(writer: &mut W, buffer: &mut Vec<u8>) -> Result<(), Halt>
    requires may { W.can_write (W.kept writer.old) }
    ensures ok { OnOk result (HasTaken (W.written writer.old)
        (W.written writer.new) buffer.old.items buffer.new.items) }
    ensures front { SomeFront (W.written writer.old) (W.written writer.new) buffer.old.items }
    ensures fault { IfErr result (λ h. IsFault h) }
    ensures cause { IsErrOf result Halt.Failed → Rose (W.faults writer.old) (W.faults writer.new) }
    ensures rose { W.faults writer.old < W.faults writer.new → IsErrOf result Halt.Failed }
    ensures same { OnOk result (W.faults writer.new ≡ W.faults writer.old) }
    ensures other { W.kept writer.new ≡ W.kept writer.old }
{
    if buffer.len() >= ENOUGH {
        return write_out(writer, buffer);
    }
    Ok(())
}

/// Puts a piece behind what stands in the buffer, which is written where it has enough.
fn put_piece<W: ByteWriter>(
    writer: &mut W,
    tile: &Packed<'_, '_>,
    part: usize,
    piece: usize,
    buffer: &mut Vec<u8>,
) -> Result<(), Halt>
    requires may { W.can_write (W.kept writer.old) }
    requires part { part < length tile.now }
    requires piece { piece < length (slice_index_or tile.now part []) }
    ensures ok { OnOk result (HasTaken (W.written writer.old) (W.written writer.new)
        (buffer.old.items ++ slice_index_or (slice_index_or tile.now part []) piece []) buffer.new.items) }
    ensures front { SomeFront (W.written writer.old) (W.written writer.new)
        (buffer.old.items ++ slice_index_or (slice_index_or tile.now part []) piece []) }
    ensures fault { IfErr result (λ h. IsFault h) }
    ensures cause { IsErrOf result Halt.Failed → Rose (W.faults writer.old) (W.faults writer.new) }
    ensures rose { W.faults writer.old < W.faults writer.new → IsErrOf result Halt.Failed }
    ensures same { OnOk result (W.faults writer.new ≡ W.faults writer.old) }
    ensures other { W.kept writer.new ≡ W.kept writer.old }
{
    match tile.put(part, piece, buffer) {
        Ok(()) => write_full(writer, buffer),
        Err(_) => Err(Halt::NoMemory),
    }
}

/// Puts the pieces of a tile-part into the buffer, which is empty before, and writes it where it has enough; after an error, a front of
/// them was written.
fn put_pieces<W: ByteWriter>(
    writer: &mut W,
    tile: &Packed<'_, '_>,
    part: usize,
    buffer: &mut Vec<u8>,
) -> Result<(), Halt>
    requires may { W.can_write (W.kept writer.old) }
    requires part { part < length tile.now }
    requires empty { buffer.old.items ≡ [] }
    ensures ok { OnOk result (HasTaken (W.written writer.old) (W.written writer.new)
        (concat (slice_index_or tile.now part [])) buffer.new.items) }
    ensures front { SomeFront (W.written writer.old) (W.written writer.new) (concat (slice_index_or tile.now part [])) }
    ensures fault { IfErr result (λ h. IsFault h) }
    ensures cause { IsErrOf result Halt.Failed → Rose (W.faults writer.old) (W.faults writer.new) }
    ensures rose { W.faults writer.old < W.faults writer.new → IsErrOf result Halt.Failed }
    ensures same { OnOk result (W.faults writer.new ≡ W.faults writer.old) }
    ensures other { W.kept writer.new ≡ W.kept writer.old }
{
    for piece in 0..tile.pieces(part) {
        match put_piece(writer, tile, part, piece, buffer) {
            Ok(()) => {}
            Err(halt) => return Err(halt),
        }
    }
    Ok(())
}

/// Writes a tile-part through the buffer, which is empty before and after; after an error, a front of it was written.
fn put_part<W: ByteWriter>(
    writer: &mut W,
    tile: &Packed<'_, '_>,
    part: usize,
    buffer: &mut Vec<u8>,
) -> Result<(), Halt>
    requires may { W.can_write (W.kept writer.old) }
    requires part { part < length tile.now }
    requires empty { buffer.old.items ≡ [] }
    ensures ok { OnOk result (W.written writer.new
        ≡ followed_by (concat (slice_index_or tile.now part [])) (W.written writer.old)) }
    ensures empty { OnOk result (buffer.new.items ≡ []) }
    ensures front { SomeFront (W.written writer.old) (W.written writer.new) (concat (slice_index_or tile.now part [])) }
    ensures fault { IfErr result (λ h. IsFault h) }
    ensures cause { IsErrOf result Halt.Failed → Rose (W.faults writer.old) (W.faults writer.new) }
    ensures rose { W.faults writer.old < W.faults writer.new → IsErrOf result Halt.Failed }
    ensures same { OnOk result (W.faults writer.new ≡ W.faults writer.old) }
    ensures other { W.kept writer.new ≡ W.kept writer.old }
{
    if let Some(bytes) = tile.bytes(part) {
        return put(writer, bytes);
    }
    match put_pieces(writer, tile, part, buffer) {
        Ok(()) => {}
        Err(halt) => return Err(halt),
    }
    write_out(writer, buffer)
}

/// Writes the tile-parts of a tile.
fn put_tile<W: ByteWriter>(
    writer: &mut W,
    tile: &Packed<'_, '_>,
    buffer: &mut Vec<u8>,
) -> Result<(), Halt>
    requires may { W.can_write (W.kept writer.old) }
    requires empty { buffer.old.items ≡ [] }
    ensures ok { OnOk result (W.written writer.new
        ≡ followed_by (concat (map concat tile.now)) (W.written writer.old)) }
    ensures empty { OnOk result (buffer.new.items ≡ []) }
    ensures front { SomeFront (W.written writer.old) (W.written writer.new) (concat (map concat tile.now)) }
    ensures fault { IfErr result (λ h. IsFault h) }
    ensures cause { IsErrOf result Halt.Failed → Rose (W.faults writer.old) (W.faults writer.new) }
    ensures rose { W.faults writer.old < W.faults writer.new → IsErrOf result Halt.Failed }
    ensures same { OnOk result (W.faults writer.new ≡ W.faults writer.old) }
    ensures other { W.kept writer.new ≡ W.kept writer.old }
{
    for part in 0..tile.parts() {
        match put_part(writer, tile, part, buffer) {
            Ok(()) => {}
            Err(halt) => return Err(halt),
        }
    }
    Ok(())
}

/// Writes the tile-parts of tiles, one after another, through a buffer that is empty before and after; after an error, a front of them
/// was written.
pub fn put_tiles<W: ByteWriter>(
    writer: &mut W,
    tiles: &[Packed<'_, '_>],
    buffer: &mut Vec<u8>,
) -> Result<(), Halt>
    requires may { W.can_write (W.kept writer.old) }
    requires empty { buffer.old.items ≡ [] }
    ensures ok { OnOk result (W.written writer.new ≡ followed_by (concat (parts_of tiles.now)) (W.written writer.old)) }
    ensures empty { OnOk result (buffer.new.items ≡ []) }
    ensures front { SomeFront (W.written writer.old) (W.written writer.new) (concat (parts_of tiles.now)) }
    ensures fault { IfErr result (λ h. IsFault h) }
    ensures cause { IsErrOf result Halt.Failed → Rose (W.faults writer.old) (W.faults writer.new) }
    ensures rose { W.faults writer.old < W.faults writer.new → IsErrOf result Halt.Failed }
    ensures same { OnOk result (W.faults writer.new ≡ W.faults writer.old) }
    ensures other { W.kept writer.new ≡ W.kept writer.old }
{
    for tile in tiles {
        match put_tile(writer, tile, buffer) {
            Ok(()) => {}
            Err(halt) => return Err(halt),
        }
    }
    Ok(())
}

/// How many bytes these are with those of a tile; none where no number has so many.
fn count_tile(before: usize, tile: &Packed<'_, '_>) -> Option<usize>
    ensures { IfSome result (λ count. count ≡ before + length (concat (map concat tile.now))) }
{
    let mut count = before;
    for part in 0..tile.parts() {
        count = count.checked_add(tile.size(part))?;
    }
    Some(count)
}

/// How many bytes these are with those of tiles; none where no number has so many.
pub fn count_bytes(before: usize, tiles: &[Packed<'_, '_>]) -> Option<usize>
    ensures { IfSome result (λ count. count ≡ before + length (concat (parts_of tiles.now))) }
{
    let mut count = before;
    for tile in tiles {
        count = count_tile(count, tile)?;
    }
    Some(count)
}
