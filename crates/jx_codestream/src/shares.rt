//! The joined data of PPM, cut into the shares of tile-parts (ITU-T T.800, A.7.4).

ghost use Rattle.std.specs.Prelude.{◌≡◌, ◌≤◌, ◌<◌, ◌+◌, ◌^◌, ◌==◌, length, IfOk, MatchOption, true, false};
ghost use Rattle.std.specs.List.{All};
ghost use Rattle.jx_base.specs.Limits.{most_bytes};
ghost use Rattle.jx_codestream.specs.declared.Body.{Body};
ghost use Rattle.jx_codestream.specs.PackedHeaders.{LieIn, after_bytes, after_share, first_bytes, share_fits, share_of, together};

use crate::Body;
use crate::packed::{joined_bytes, push_some};
use jx_marker::u32_at;
use std::alloc::{AllocError, Global};
use std::marker::Model;

/// What is left of pieces of the file, which contracts see as a list.
#[derive(Drop)]
pub struct Cursor<'a> {
    /// What is left of the piece that goes on.
    first: Body,
    /// The pieces after it.
    later: &'a [Body],
}

impl<'a> Model for Cursor<'a> {
    ghost use Rattle.std.specs.Prelude.{List, ◌++◌};
    ghost use Rattle.jx_codestream.specs.declared.Body.{Body};
    ghost use Rattle.jx_codestream.specs.PackedHeaders.{some_piece};

    ghost Value = { List Body };

    ghost view = { λ cursor. some_piece cursor.first ++ cursor.later.now };
}

impl<'a> Cursor<'a> {
    /// All bytes of these pieces.
    pub fn new(pieces: &'a [Body]) -> Cursor<'a>
        ensures { result ≡ pieces.now }
    {
        Cursor {
            first: Body { at: 0, length: 0 },
            later: pieces,
        }
    }

    /// Takes the first bytes; None where fewer are left.
    fn take(&mut self, alloc: Global, count: usize) -> Result<Option<Vec<Body>>, AllocError>
        requires { All (λ (piece : Body). piece.at + piece.length < 2 ^ 32) self.old }
        ensures { IfOk result (λ taken. MatchOption taken (together self.old < count)
            (λ pieces. (count ≤ together self.old) × (pieces.items ≡ first_bytes count self.old) × (self.new ≡ after_bytes count self.old))) }
    {
        let mut taken = Vec::new(alloc);
        let mut wanted = count;
        while wanted >= self.first.length as usize {
            push_some(self.first, &mut taken)?;
            wanted -= self.first.length as usize;
            let Some((next, later)) = self.later.split_first() else {
                self.first = Body { at: 0, length: 0 };
                return Ok(if wanted > 0 { None } else { Some(taken) });
            };
            self.first = *next;
            self.later = later;
        }
        let Body { at, length } = self.first;
        let count = wanted as u32;
        push_some(Body { at, length: count }, &mut taken)?;
        self.first = Body {
            at: at + count,
            length: length - count,
        };
        Ok(Some(taken))
    }

    /// Takes the next tile-part's share, a number of four bytes and so many bytes; None where it isn't there.
    pub fn take_share(
        &mut self,
        alloc: Global,
        bytes: &[u8],
    ) -> Result<Option<Vec<Body>>, AllocError>
        requires inside { LieIn bytes.now self.old }
        requires fits { length bytes.now ≤ most_bytes }
        ensures { IfOk result (λ taken. MatchOption taken (share_fits bytes.now self.old ≡ false)
            (λ pieces. (share_fits bytes.now self.old ≡ true) × (pieces.items ≡ share_of bytes.now self.old) × (self.new ≡ after_share bytes.now self.old) × LieIn bytes.now self.new)) }
    {
        let Some(front) = self.take(alloc, 4)? else {
            return Ok(None);
        };
        let number = joined_bytes(alloc, bytes, &front)?;
        let size = u32_at(&number, 0) as usize;
        let Some(share) = self.take(alloc, size)? else {
            return Ok(None);
        };
        Ok(Some(share))
    }

    /// Whether no byte is left. The next one is taken.
    pub fn is_used_up(&mut self, alloc: Global) -> Result<bool, AllocError>
        requires { All (λ (piece : Body). piece.at + piece.length < 2 ^ 32) self.old }
        ensures { IfOk result (λ none. none ≡ (together self.old == 0)) }
    {
        let next = self.take(alloc, 1)?;
        Ok(next.is_none())
    }
}
