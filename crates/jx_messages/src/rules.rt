//! The rules in words.
ghost use Rattle.std.specs.Prelude.{◌≡◌};
ghost use Rattle.jx_messages.specs.Rules.{box_words, coding_words, front_words, header_words, other_words, packet_words, part_words, rule_words, rule_row};

/// A rule: what stands at its place, what is wrong with it, and the section of ITU-T T.800 that says so.
#[derive(Clone, Copy)]
pub(crate) struct RuleText {
    pub(crate) what: &'static str,
    pub(crate) wrong: &'static str,
    pub(crate) section: &'static str,
}

fn row(what: &'static str, wrong: &'static str, section: &'static str) -> RuleText
    ensures { rule_row result.what.now result.wrong.now result.section.now ≡ rule_row what.now wrong.now section.now }
{
    RuleText {
        what,
        wrong,
        section,
    }
}

/// The rules 1 to 5, of segments as such, and of SIZ.
fn front_text(number: u8) -> RuleText
    ensures { rule_row result.what.now result.wrong.now result.section.now ≡ front_words number }
{
    match number {
        1 => row(
            "a marker segment",
            "it is cut short, its length is too small, or it runs past the file;\n    the file may be damaged or not whole",
            "A.1, A.4",
        ),
        2 => row(
            "the next marker",
            "these bytes are no marker that can stand in a header;\n    the file may be damaged",
            "A.2",
        ),
        3 => row(
            "the SIZ segment",
            "its length doesn't agree with its number of components\n    (38 bytes, and 3 for each of them)",
            "A.5.1",
        ),
        4 => row(
            "the SIZ segment",
            "the number of components, a bit depth, a sampling, a tile size or an\n    offset is out of range",
            "A.5.1",
        ),
        _ => row(
            "the SIZ segment",
            "it asks for Part 2 or Part 15 of the standard, which this program\n    doesn't read",
            "A.5.1",
        ),
    }
}

/// The rules 6 to 9, of COD, COC, QCD and QCC.
fn coding_text(number: u8) -> RuleText
    ensures { rule_row result.what.now result.wrong.now result.section.now ≡ coding_words number }
{
    match number {
        6 => row(
            "a COD or COC segment",
            "its length, progression order, layers, component transform, levels,\n    code-block size or wavelet is out of range",
            "A.6.1, A.6.2",
        ),
        7 => row(
            "a COD or COC segment",
            "its code-block style has a bit that Part 1 doesn't define, as in files\n    of Part 15 (HTJ2K)",
            "A.6.1, Table A.19",
        ),
        8 => row(
            "a COD or COC segment",
            "a precinct exponent above resolution 0, the lowest, is 0, and has to be\n    1 or more",
            "A.6.1, Table A.21",
        ),
        _ => row(
            "a QCD or QCC segment, or a tile that uses it,",
            "the quantization style isn't defined, or some band has no step size",
            "A.6.4, A.6.5",
        ),
    }
}

/// The rules 10 to 14, of other segments.
fn other_text(number: u8) -> RuleText
    ensures { rule_row result.what.now result.wrong.now result.section.now ≡ other_words number }
{
    match number {
        10 => row(
            "an RGN segment",
            "its length is wrong, or its style isn't 0, the only one in Part 1",
            "A.6.3",
        ),
        11 => row(
            "a POC segment",
            "a progression is empty, out of range, or not whole",
            "A.6.6",
        ),
        12 => row(
            "a segment of one component",
            "the picture has no such component",
            "A.6.2, A.6.3, A.6.5",
        ),
        13 => row(
            "a PLT, PLM, TLM, PPM or PPT segment",
            "it is too short",
            "A.7",
        ),
        _ => row(
            "a PPT segment",
            "the main header has packed packet headers, a PPM segment",
            "A.7.4, A.7.5",
        ),
    }
}

/// The rules 15 to 19, of headers.
fn header_text(number: u8) -> RuleText
    ensures { rule_row result.what.now result.wrong.now result.section.now ≡ header_words number }
{
    match number {
        15 => row(
            "the beginning of the file",
            "it is no JPEG 2000 codestream, which begins with the bytes FF 4F (SOC),\n    and no JP2 file, which begins with the signature box (jP)",
            "A.4.1",
        ),
        16 => row(
            "the second marker",
            "SIZ, the picture's size, has to follow SOC",
            "A.5.1",
        ),
        17 => row(
            "the first SOT segment",
            "the main header before it has no COD (coding style) or no QCD\n    (quantization)",
            "A.3",
        ),
        18 => row(
            "a marker segment",
            "its header has one of this kind, or of this kind and component, already",
            "A.3",
        ),
        _ => row("a marker segment", "it has no place in this header", "A.3"),
    }
}

/// The rules 20 to 25, of tile-parts.
fn part_text(number: u8) -> RuleText
    ensures { rule_row result.what.now result.wrong.now result.section.now ≡ part_words number }
{
    match number {
        20 => row("an SOT segment", "the picture has no such tile", "A.4.2"),
        21 => row(
            "an SOT segment",
            "its tile-part's number, or how many there are, disagrees with those\n    before it",
            "A.4.2",
        ),
        22 => row(
            "an SOT segment",
            "its tile-part's length is too small, or passes the file's end;\n    the file may be cut short",
            "A.4.2",
        ),
        23 => row(
            "the end of a tile-part",
            "no tile-part begins there, and the codestream doesn't end (no SOT, no\n    EOC); the file may be cut short",
            "A.4.2, A.4.4",
        ),
        24 => row(
            "the end of the codestream (EOC)",
            "some tile of the picture has no tile-part",
            "A.4.2",
        ),
        _ => row(
            "the tile's first SOT segment",
            "the tile's progressions leave out one of its packets",
            "A.6.6, B.12",
        ),
    }
}

/// The rules 26 to 31, of packets.
fn packet_text(number: u8) -> RuleText
    ensures { rule_row result.what.now result.wrong.now result.section.now ≡ packet_words number }
{
    match number {
        26 => row(
            "a packet",
            "its header ends too early, or has a bit or a length that no packet\n    header has; the file may be damaged",
            "B.10.1",
        ),
        27 => row(
            "a packet",
            "a code-block has more zero planes or coding passes than its band has\n    planes for",
            "B.10.5, B.10.6",
        ),
        28 => row(
            "a packet",
            "its bytes pass the end of the tile-part",
            "B.10.7",
        ),
        29 => row(
            "an SOP segment",
            "its length or its number isn't the packet's",
            "A.8.1",
        ),
        30 => row(
            "the byte FF in a code-block's coded bytes",
            "a byte above 8F follows, or none, which coded bytes never have;\n    the file may be damaged",
            "C.2.3, B.10.7",
        ),
        _ => row(
            "the data behind the tile's last packet",
            "no packet is left for these bytes",
            "B.9",
        ),
    }
}

/// The rules 32 to 36, of the boxes of JP2 files, and 37, of packed packet headers.
fn box_text(number: u8) -> RuleText
    ensures { rule_row result.what.now result.wrong.now result.section.now ≡ box_words number }
{
    match number {
        32 => row(
            "a box",
            "fewer bytes are left than its head has (8, or 16 where LBox is 1);\n    the file may be cut short",
            "I.4",
        ),
        33 => row(
            "a box",
            "its length is less than its head's, or is 0, which says that the file\n    ends with it, and it stands in another box",
            "I.4",
        ),
        34 => row(
            "a box",
            "it is longer than what is left of the file, or of the box in which it\n    stands; the file may be cut short",
            "I.4",
        ),
        35 => row(
            "the end of the file",
            "none of its boxes has a codestream (jp2c)",
            "I.5.4",
        ),
        36 => row(
            "the beginning of the file",
            "it is no JP2 file, which begins with the signature box (jP)",
            "I.5.1",
        ),
        _ => row(
            "the packed packet headers (PPM)",
            "they aren't a length and so many bytes for each tile-part of the file",
            "A.7.4",
        ),
    }
}

/// A rule in words, 1 to 37.
#[tactic(auto, unfolding(crate::specs::Rules::rule_words))]
pub(crate) fn rule_text(number: u8) -> RuleText
    ensures { rule_row result.what.now result.wrong.now result.section.now ≡ rule_words number }
{
    match number {
        0..=5 => front_text(number),
        6..=9 => coding_text(number),
        10..=14 => other_text(number),
        15..=19 => header_text(number),
        20..=25 => part_text(number),
        26..=31 => packet_text(number),
        _ => box_text(number),
    }
}
