//! The numbers of the rules that make an input faulty, as the program prints them.

/// Fewer than two bytes are left for a marker or its length, or the length is too short or runs past the file (A.1.1, A.4.2).
pub const LENGTH: u8 = 1;

/// Two bytes are no marker of a codestream, or are SOP or EPH (Table A.2, A.8).
pub const MARKER: u8 = 2;

/// The length of SIZ isn't that of its components (A.5.1).
pub const SIZ_LENGTH: u8 = 3;

/// SIZ has a number of components, a depth, a sampling or a canvas that can't be (Tables A.9, A.11, B.2, B.3).
pub const SIZ_FIELDS: u8 = 4;

/// SIZ asks for Part 2 or Part 15 (Table A.10).
pub const CAPABILITIES: u8 = 5;

/// COD or COC has another length than its fields, or a field out of its range (A.6.1, A.6.2).
pub const CODING: u8 = 6;

/// A code-block style has bit 6 or 7 (Table A.19).
pub const STYLE: u8 = 7;

/// A precinct exponent is 0 above resolution 0 (Table A.21).
pub const PRECINCTS: u8 = 8;

/// QCD or QCC has a style over 2, no whole entry or half an entry, or too few for a tile's bands (A.6.4, A.6.5).
pub const QUANTIZATION: u8 = 9;

/// RGN has another length than its fields, or a style that isn't 0 (A.6.3).
pub const REGION: u8 = 10;

/// POC isn't whole entries, or one of them is out of range (A.6.6).
pub const PROGRESSIONS: u8 = 11;

/// A component's index isn't below the number of components (A.6.2, A.6.3, A.6.5).
pub const COMPONENT: u8 = 12;

/// PLT, PLM, TLM, PPM or PPT is too short (A.7).
pub const LENGTH_LISTS: u8 = 13;

/// A tile-part's header has a PPT, where the main header has a PPM (A.7.5).
pub const PACKED_HEADERS: u8 = 14;

/// The file doesn't begin with SOC (A.4.1).
pub const NO_SOC: u8 = 15;

/// SIZ doesn't follow SOC (A.3).
pub const NO_SIZ: u8 = 16;

/// The main header has no COD or no QCD (A.3).
pub const NO_DEFAULTS: u8 = 17;

/// A header has a second segment of a kind, or of a kind and component, that it has once at most (A.3).
pub const TWICE: u8 = 18;

/// A marker has no place in this header (A.3, Table A.2).
pub const MISPLACED: u8 = 19;

/// A tile-part is of a tile that isn't there (A.4.2).
pub const NO_TILE: u8 = 20;

/// A tile-part is out of turn among those of its tile (A.4.2).
pub const PART_NUMBER: u8 = 21;

/// A tile-part's length can't be (A.4.2).
pub const PART_LENGTH: u8 = 22;

/// Neither SOT nor EOC stands where a tile-part ends (A.4.2, A.4.4).
pub const PART_END: u8 = 23;

/// A tile has no tile-part (A.4.2).
pub const NO_PART: u8 = 24;

/// A packet of a tile is in no progression (A.6.6, B.12).
pub const UNCOVERED: u8 = 25;

/// A packet header ends too early, has a stuffed bit 1, or a length of 2^32 or more (B.10).
pub const PACKET_HEADER: u8 = 26;

/// A code-block's zero planes reach its band's planes, or it has too many passes (B.10.5, B.10.6).
pub const PLANES: u8 = 27;

/// A packet's lengths pass the end of its tile-part (B.10.7).
pub const PACKET_LENGTH: u8 = 28;

/// The length of an SOP segment isn't 4, or its number isn't the packet's (A.8.1).
pub const SOP_SEGMENT: u8 = 29;

/// In a code-block's bytes FF stands before a byte above 8F, or at the end of a piece (D.4).
pub const BLOCK_BYTES: u8 = 30;

/// A byte of a tile is left after its last packet (B.9).
pub const LEFT_OVER: u8 = 31;

/// The joined data of PPM isn't a number and so many bytes for each tile-part (A.7.4).
pub const PACKED_SHARES: u8 = 37;
