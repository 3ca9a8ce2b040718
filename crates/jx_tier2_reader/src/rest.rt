//! What is left of a tile's data and packed headers while its packets are read (ITU-T T.800, A.7.4, A.7.5 and B.9).

ghost use Rattle.std.specs.Prelude.{◌≡◌, ◌≤◌, ◌<◌, ◌+◌, ◌-◌, ◌∷◌, ◌^◌, List, length, drop, slice_set, IfOk, IfErr, OnOk};
ghost use Rattle.jx_packet_header.specs.Precinct.{IsState, all_blocks};
ghost use Rattle.jx_tile.specs.Faults.{Answers, HasCause};
ghost use Rattle.jx_codestream.specs.PackedHeaders.{together};
ghost use Rattle.jx_tier2_reader.specs.Data.{behind, due, due_or, packed_behind};
ghost use Rattle.jx_tier2_reader.specs.Cuts.{IsCut, Breaks, left_fault};
ghost use Rattle.jx_tier2_reader.specs.Reading.{AreShort, cut_of, seen, state_at};

use crate::StreamFault;
use crate::data::packed_behind;
use crate::heads::check_used_up;
use crate::packet::{Packet, read_packet};
use jx_codestream::{Body, violated};
use jx_marker::rule_numbers;
use jx_packet_header::Precinct;
use jx_progression::PacketName;
use std::marker::Model;

/// What is left of a tile's data and packed headers, and its precincts with what the headers have told of them.
#[derive(Drop)]
pub(crate) struct Rest<'s> {
    /// What is left of the tile-part that goes on.
    body: Body,
    /// The tile-parts after it.
    later: &'s [Body],
    /// Where a packet begins behind all data.
    end: u32,
    /// What is left of the packed headers, where the tile has such.
    packed: Option<&'s [u8]>,
    /// The precincts by their numbers.
    precincts: Vec<Precinct>,
}

impl<'s> Model for Rest<'s> {
    ghost use Rattle.std.specs.Prelude.{◌∷◌};
    ghost use Rattle.jx_tier2_reader.specs.Cuts.{Left};
    ghost use Rattle.jx_tier2_reader.specs.Reading.{seen};

    ghost Value = { Left };

    ghost view = { λ r. record { bodies = r.body ∷ r.later.now; end = r.end; packed = seen r.packed; states = r.precincts.items } };
}

impl<'s> Rest<'s> {
    /// All of a tile's data, behind which a packet begins at a place, and its packed headers, where it has such, with
    /// precincts of which no packet was read.
    pub(crate) fn new(
        bodies: &'s [Body],
        end: u32,
        packed: Option<&'s [u8]>,
        precincts: Vec<Precinct>,
    ) -> Rest<'s>
        ensures bodies { result.bodies ≡ record { at = 0; length = 0 } ∷ bodies.now }
        ensures end { result.end ≡ end }
        ensures packed { result.packed ≡ seen packed.entry }
        ensures states { result.states ≡ precincts.items }
    {
        Rest {
            body: Body { at: 0, length: 0 },
            later: bodies,
            end,
            packed,
            precincts,
        }
    }

    /// The data in which the next packet begins: those of the first tile-part that has bytes left; where none has, data
    /// without a byte behind all.
    pub(crate) fn due(&mut self) -> Body
        ensures due { due_or self.old.end (due self.old.bodies) ≡ self.new.bodies }
        ensures first { self.new.bodies ≡ result ∷ drop 1 self.new.bodies }
        ensures end { self.new.end ≡ self.old.end }
        ensures packed { self.new.packed ≡ self.old.packed }
        ensures states { self.new.states ≡ self.old.states }
    {
        while self.body.length == 0 {
            let Some((next, later)) = self.later.split_first() else {
                self.body = Body {
                    at: self.end,
                    length: 0,
                };
                return self.body;
            };
            self.body = *next;
            self.later = later;
        }
        self.body
    }

    /// Goes on behind so many bytes of the tile-part that goes on.
    pub(crate) fn pass(&mut self, body: Body, count: usize)
        requires body { self.old.bodies ≡ body ∷ drop 1 self.old.bodies }
        requires count { count ≤ body.length }
        requires fits { body.at + body.length < 2 ^ 32 }
        ensures bodies { self.new.bodies ≡ behind body count ∷ drop 1 self.old.bodies }
        ensures end { self.new.end ≡ self.old.end }
        ensures packed { self.new.packed ≡ self.old.packed }
        ensures states { self.new.states ≡ self.old.states }
    {
        self.body = Body {
            at: body.at + count as u32,
            length: body.length - count as u32,
        };
    }

    /// Reads the packet of a name and of a number in its tile, whose precinct has a number, at the front of
    /// what is left of a tile-part, which begins at a place, and goes on behind its packed header.
    pub(crate) fn read<'a>(
        &mut self,
        precinct: usize,
        name: PacketName,
        number: usize,
        window: &'a [u8],
        at: usize,
    ) -> Result<Packet<'a>, StreamFault>
        requires there { precinct < length self.old.states }
        requires state { IsState (state_at self.old.states precinct) }
        requires layer { (state_at self.old.states precinct).layer ≡ name.layer }
        requires fits { at + length window.now < 2 ^ 32 }
        ensures ok { IfOk result (λ p. IsCut self.old.packed window.now number (state_at self.old.states precinct) (cut_of name p (state_at self.new.states precinct))) }
        ensures within { IfOk result (λ p. p.count ≤ length window.now) }
        ensures packed { IfOk result (λ p. self.new.packed ≡ packed_behind self.old.packed p.used) }
        ensures states { OnOk result (self.new.states ≡ slice_set self.old.states precinct (state_at self.new.states precinct)) }
        ensures bodies { OnOk result (self.new.bodies ≡ self.old.bodies) }
        ensures end { OnOk result (self.new.end ≡ self.old.end) }
        ensures err { IfErr result (λ e. HasCause (Breaks self.old.packed window.now at number (state_at self.old.states precinct)) e) }
    {
        let packed = self.packed;
        let packet = match read_packet(
            &mut self.precincts[precinct],
            name,
            number,
            packed,
            window,
            at,
        ) {
            Ok(packet) => packet,
            Err(fault) => return Err(fault),
        };
        self.packed = packed_behind(packed, packet.used);
        Ok(packet)
    }

    /// Finds rule 31 where all packets were read: a byte of the tile data is left, else one of the packed headers,
    /// which are these pieces of the file.
    pub(crate) fn check_left(&mut self, pieces: &[Body]) -> Result<(), StreamFault>
        requires short { AreShort pieces.now }
        requires few { together pieces.now < 2 ^ 64 }
        ensures { Answers result (left_fault pieces.now self.old) (λ _. Unit {0}) }
    {
        let packed = self.packed;
        let body = self.due();
        if body.length > 0 {
            return Err(violated(rule_numbers::LEFT_OVER, body.at as usize));
        }
        check_used_up(pieces, packed)
    }

    /// A precinct.
    pub(crate) fn precinct(&self, number: usize) -> &Precinct
        requires { number < length self.now.states }
        ensures { result.now ≡ state_at self.now.states number }
    {
        &self.precincts[number]
    }
}
