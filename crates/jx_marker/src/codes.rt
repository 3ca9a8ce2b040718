//! The markers' second bytes, the first being FF (ITU-T T.800, Table A.2).

/// Start of codestream.
pub const SOC: u8 = 0x4F;

/// Image and tile sizes.
pub const SIZ: u8 = 0x51;

/// Coding style default.
pub const COD: u8 = 0x52;

/// Coding style of a component.
pub const COC: u8 = 0x53;

/// Tile-part lengths.
pub const TLM: u8 = 0x55;

/// Packet lengths in the main header.
pub const PLM: u8 = 0x57;

/// Packet lengths in a tile-part header.
pub const PLT: u8 = 0x58;

/// Quantization default.
pub const QCD: u8 = 0x5C;

/// Quantization of a component.
pub const QCC: u8 = 0x5D;

/// Region of interest.
pub const RGN: u8 = 0x5E;

/// Progression order changes.
pub const POC: u8 = 0x5F;

/// Packed packet headers in the main header.
pub const PPM: u8 = 0x60;

/// Packed packet headers in a tile-part header.
pub const PPT: u8 = 0x61;

/// Component registration.
pub const CRG: u8 = 0x63;

/// Comment.
pub const COM: u8 = 0x64;

/// Start of tile-part.
pub const SOT: u8 = 0x90;

/// Start of packet.
pub const SOP: u8 = 0x91;

/// End of packet header.
pub const EPH: u8 = 0x92;

/// Start of data.
pub const SOD: u8 = 0x93;

/// End of codestream.
pub const EOC: u8 = 0xD9;
