//! One of two codings of a code-block that are read beside each other.

ghost use Rattle.std.specs.Prelude.{◌≡◌, [], false, map, OnOk};
ghost use Rattle.jx_coder_specs.specs.MqTable.{mq_fresh};
ghost use Rattle.jx_tier1_specs.specs.Reading.{fresh_reading, ends_by_symbol};
ghost use Rattle.jx_tier1_specs.specs.Segments.{bytes_of};
ghost use Rattle.jx_tier1_specs.specs.Short.{AreShort};
ghost use Rattle.jx_tier1.specs.Beside.{half_opened, half_begun, half_ended};

use crate::rest::Rest;
use jx_base::{NoMemory, Style, ends_segment, is_raw};
use jx_mq::Contexts;
use jx_tier1_specs::{Reader, ask_symbol};
use std::marker::Model;

/// A coding of which some passes were read.
#[derive(Drop)]
pub struct Half<'a> {
    pub reader: Reader<'a>,
    rest: Rest<'a>,
}

impl<'a> Model for Half<'a> {
    ghost use Rattle.jx_tier1.specs.Beside.{HalfValue};

    ghost Value = { HalfValue };

    ghost view = { λ h. record { reading = h.reader; rest = h.rest } };
}

/// Whether a segmentation symbol follows a pass (T.800 D.5).
fn has_symbol(style: Style, pass: u16) -> bool
    ensures { result ≡ ends_by_symbol style.bits pass }
{
    style.segmentation() && pass % 3 == 0
}

impl<'a> Half<'a> {
    /// A coding of which no pass was read.
    pub fn new(segments: &'a [&'a [u8]]) -> Half<'a>
        requires { AreShort (map bytes_of segments.now) }
        ensures { result ≡ record { reading = fresh_reading false [] mq_fresh; rest = map bytes_of segments.entry.now } }
    {
        Half {
            reader: Reader::new(false, &[], Contexts::new()),
            rest: Rest::new(segments),
        }
    }

    /// Begins a segment where the pass does.
    fn open(&mut self, style: Style, pass: u16)
        ensures { self.new ≡ half_opened style.bits pass self.old }
    {
        if pass == 0 || ends_segment(style, pass - 1) {
            let segment = self.rest.take();
            self.reader.begin(is_raw(style, pass), segment);
        }
    }

    /// Begins a pass: its segment, and its contexts where the style starts them anew.
    pub fn begin(&mut self, style: Style, pass: u16)
        ensures { self.new ≡ half_begun style.bits pass self.old }
    {
        self.open(style, pass);
        if style.reset() {
            self.reader.renew();
        }
    }

    /// Reads the segmentation symbol after a pass, where there is one. A wrong one is no fault.
    pub fn end(&mut self, style: Style, pass: u16) -> Result<(), NoMemory>
        ensures { OnOk result (self.new ≡ half_ended style.bits pass self.old) }
    {
        if has_symbol(style, pass) {
            ask_symbol(&mut self.reader)?;
        }
        Ok(())
    }
}
