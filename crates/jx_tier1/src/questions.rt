//! The plane that a pass scans, and the questions that are asked in it.

ghost use Rattle.std.specs.Prelude.{◌≡◌, ◌<◌, ◌≤◌};
ghost use Rattle.jx_base.specs.Passes.{is_causal};
ghost use Rattle.jx_tier1_specs.specs.Pass.{IsScan, plane_of, shift_of, question};

use jx_base::{Band, Style};
use jx_tier1_specs::{About, Plane, Question};

/// The plane that a pass of a block scans (T.800 D.3).
pub(crate) fn plane_for(band: Band, style: Style, planes: u8, pass: u16) -> Plane
    requires { pass ≤ 220 }
    ensures { result ≡ plane_of band (is_causal style.bits) planes pass }
{
    Plane {
        band,
        causal: style.causal(),
        planes,
        number: ((pass + 2) / 3) as u8,
    }
}

/// The weight of a bit of the plane is 2 to this power.
#[inline(always)]
fn shift(plane: Plane) -> u8
    requires { IsScan plane }
    ensures { result ≡ shift_of plane }
{
    plane.planes - 1 - plane.number
}

/// A question in a plane, under a label and turned over or not.
#[inline(always)]
pub(crate) fn asked(plane: Plane, label: u8, turned: bool, about: About) -> Question
    requires scan { IsScan plane }
    requires label { label < 19 }
    ensures question { result ≡ question plane label turned about }
    ensures label { result.label < 19 }
    ensures shift { result.shift < 128 }
{
    Question {
        label,
        turned,
        shift: shift(plane),
        about,
    }
}
