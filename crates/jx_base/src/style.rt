//! A code-block's style (T.800, Table A.19): which coding passes are raw, and which end a segment (D.4, D.6).

ghost use Rattle.std.specs.Prelude.{◌≡◌};
ghost use Rattle.jx_base.specs.Passes.{bypasses, resets, terminates, is_causal, has_symbols, raw_pass, end_pass};

/// The style byte of code-blocks (T.800 table A.19): bit 0 bypass, bit 1 reset, bit 2 terminate, bit 3
/// causal, bit 4 predictable termination, bit 5 segmentation symbols.
#[derive(Clone, Copy, Debug, PartialEq, Eq)]
pub struct Style {
    /// The bits as they are written.
    pub bits: u8,
}

impl Style {
    /// Selective arithmetic coding bypass (bit 0, D.6).
    pub fn bypass(self) -> bool
        ensures { result ≡ bypasses self.bits }
    {
        self.bits % 2 == 1
    }

    /// Reset of the contexts on each coding pass (bit 1, D.4).
    pub fn reset(self) -> bool
        ensures { result ≡ resets self.bits }
    {
        self.bits / 2 % 2 == 1
    }

    /// Termination on each coding pass (bit 2, D.4).
    pub fn terminate(self) -> bool
        ensures { result ≡ terminates self.bits }
    {
        self.bits / 4 % 2 == 1
    }

    /// Vertically causal contexts (bit 3, D.7).
    pub fn causal(self) -> bool
        ensures { result ≡ is_causal self.bits }
    {
        self.bits / 8 % 2 == 1
    }

    /// Segmentation symbols (bit 5, D.5).
    pub fn segmentation(self) -> bool
        ensures { result ≡ has_symbols self.bits }
    {
        self.bits / 32 % 2 == 1
    }
}

/// Whether a pass of a block is raw, that is, not coded arithmetically (T.800 D.6).
pub fn is_raw(style: Style, pass: u16) -> bool
    ensures { result ≡ raw_pass style.bits pass }
{
    style.bypass() && pass >= 10 && pass % 3 != 0
}

/// Whether a pass ends a segment, wherever the block's last pass is (T.800 D.4 and D.6). The last pass
/// of a block ends its segment too, which is for the caller to add.
pub fn ends_segment(style: Style, pass: u16) -> bool
    ensures { result ≡ end_pass style.bits pass }
{
    style.terminate() || style.bypass() && (pass == 9 || pass >= 10 && pass % 3 != 1)
}

#[cfg(test)]
mod tests {
    use super::*;

    // With bypass and 13 passes, 0 to 9 are one segment, 10 and 11 one raw segment, and 12 is a segment; with
    // termination each pass is one.
    #[test]
    fn segments_of_passes(rt: HostRuntime) {
        let bypass = Style { bits: 1 };
        let terminate = Style { bits: 4 };
        for (pass, raw, ends) in [
            (0, false, false),
            (8, false, false),
            (9, false, true),
            (10, true, false),
            (11, true, true),
            (12, false, true),
            (13, true, false),
            (218, true, true),
        ] {
            assert_eq!(rt; is_raw(bypass, pass), raw, "at {pass}");
            assert_eq!(rt; ends_segment(bypass, pass), ends, "at {pass}");
            assert_eq!(rt; is_raw(terminate, pass), false);
            assert_eq!(rt; ends_segment(terminate, pass), true);
            assert_eq!(rt; ends_segment(Style { bits: 0x2A }, pass), false);
        }
    }

    // Each bit of the style byte by its name.
    #[test]
    fn bits_by_name(rt: HostRuntime) {
        for (bits, names) in [
            (0, [false, false, false, false, false]),
            (1, [true, false, false, false, false]),
            (2, [false, true, false, false, false]),
            (4, [false, false, true, false, false]),
            (8, [false, false, false, true, false]),
            (16, [false, false, false, false, false]),
            (32, [false, false, false, false, true]),
        ] {
            let style = Style { bits };
            let found = [
                style.bypass(),
                style.reset(),
                style.terminate(),
                style.causal(),
                style.segmentation(),
            ];
            assert_eq!(rt; found, names, "{bits}");
        }
    }
}
