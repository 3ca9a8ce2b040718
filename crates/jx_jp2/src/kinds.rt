//! Types of boxes, each by its four characters (ITU-T T.800, Table I.2, unless another is named).

/// `ftyp`: the file type (T.800, I.5.2).
pub const FTYP: u32 = 0x6674_7970;
/// `jp2c`: a contiguous codestream (T.800, I.5.4).
pub const JP2C: u32 = 0x6A70_3263;
/// `jp2h`: the header, a superbox (T.800, I.5.3).
pub const JP2H: u32 = 0x6A70_3268;
/// `res `: the resolution, a superbox in the header (T.800, I.5.3.7).
pub const RES: u32 = 0x7265_7320;
/// `uinf`: what UUIDs of the file stand for, a superbox (T.800, I.7.3).
pub const UINF: u32 = 0x7569_6E66;
/// `ftbl`: a fragment table (ITU-T T.801, Annex M).
pub const FTBL: u32 = 0x6674_626C;
/// `flst`: a list of fragments (T.801, Annex M).
pub const FLST: u32 = 0x666C_7374;
/// `cref`: a cross-reference (T.801, Annex M).
pub const CREF: u32 = 0x6372_6566;
/// `chck`: a digital signature of a part of the file (T.801, Annex M).
pub const CHCK: u32 = 0x6368_636B;
/// `pagt`: a table of pages (ITU-T T.805).
pub const PAGT: u32 = 0x7061_6774;
/// `fidx`: an index of the file (ITU-T T.808, Annex I).
pub const FIDX: u32 = 0x6669_6478;
/// `cidx`: an index of a codestream (T.808, Annex I).
pub const CIDX: u32 = 0x6369_6478;
/// `iptr`: where the index of the file is (T.808, Annex I).
pub const IPTR: u32 = 0x6970_7472;
