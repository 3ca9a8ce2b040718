//! Copies of segments, each into memory of its own.

ghost use Rattle.std.specs.Prelude.{◌≡◌, IfOk};

use crate::{Cod, Quant, Segment, Shape, Siz};
use jx_base::NoMemory;

impl Shape {
    /// The same levels, code-blocks, wavelet and precincts again.
    pub fn copy(&self) -> Result<Self, NoMemory>
        ensures { IfOk result (λ copy. copy ≡ self.now) }
    {
        Ok(Shape {
            levels: self.levels,
            xcb: self.xcb,
            ycb: self.ycb,
            style: self.style,
            wavelet: self.wavelet,
            precincts: self.precincts.copy()?,
        })
    }
}

impl Cod {
    /// The same COD again.
    pub fn copy(&self) -> Result<Self, NoMemory>
        ensures { IfOk result (λ copy. copy ≡ self.now) }
    {
        Ok(Cod {
            sop: self.sop,
            eph: self.eph,
            order: self.order,
            layers: self.layers,
            transform: self.transform,
            shape: self.shape.copy()?,
        })
    }
}

impl Quant {
    /// The same quantization again.
    pub fn copy(&self) -> Result<Self, NoMemory>
        ensures { IfOk result (λ copy. copy ≡ self.now) }
    {
        Ok(Quant {
            sqcd: self.sqcd,
            entries: self.entries.copy()?,
        })
    }
}

impl Siz {
    /// The same SIZ again.
    pub fn copy(&self) -> Result<Self, NoMemory>
        ensures { IfOk result (λ copy. copy ≡ self.now) }
    {
        Ok(Siz {
            rsiz: self.rsiz,
            x1: self.x1,
            y1: self.y1,
            x0: self.x0,
            y0: self.y0,
            tw: self.tw,
            th: self.th,
            tx: self.tx,
            ty: self.ty,
            comps: self.comps.copy()?,
        })
    }
}

impl Segment {
    /// The same segment again.
    pub fn copy(&self) -> Result<Self, NoMemory>
        ensures { IfOk result (λ copy. copy ≡ self.now) }
    {
        Ok(match self {
            Segment::Soc => Segment::Soc,
            Segment::Siz(siz) => Segment::Siz(siz.copy()?),
            Segment::Cod(cod) => Segment::Cod(cod.copy()?),
            Segment::Coc { comp, shape } => Segment::Coc {
                comp: *comp,
                shape: shape.copy()?,
            },
            Segment::Qcd(quant) => Segment::Qcd(quant.copy()?),
            Segment::Qcc { comp, quant } => Segment::Qcc {
                comp: *comp,
                quant: quant.copy()?,
            },
            Segment::Rgn { comp, shift } => Segment::Rgn {
                comp: *comp,
                shift: *shift,
            },
            Segment::Poc(entries) => Segment::Poc(entries.copy()?),
            Segment::Crg(bytes) => Segment::Crg(bytes.copy()?),
            Segment::Com(bytes) => Segment::Com(bytes.copy()?),
            Segment::Plt(bytes) => Segment::Plt(bytes.copy()?),
            Segment::Plm(bytes) => Segment::Plm(bytes.copy()?),
            Segment::Tlm(bytes) => Segment::Tlm(bytes.copy()?),
            Segment::Ppm { index, bytes } => Segment::Ppm {
                index: *index,
                bytes: bytes.copy()?,
            },
            Segment::Ppt { index, bytes } => Segment::Ppt {
                index: *index,
                bytes: bytes.copy()?,
            },
            Segment::Sot(sot) => Segment::Sot(*sot),
            Segment::Sod => Segment::Sod,
            Segment::Eoc => Segment::Eoc,
            Segment::Skipped(code) => Segment::Skipped(*code),
        })
    }
}
