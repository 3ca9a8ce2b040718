//! The options of the command line: what each is called, what its values say, and what is asked by all of them (ITU-T T.800).
#![tactic(auto)]

ghost use Rattle.std.specs.Prelude.{◌≡◌};
ghost use Rattle.jx_options.specs.Names.{no_marks};

pub mod laws;
mod names;
mod numbers;
mod options;
mod orders;
mod parts;
mod precincts;
mod styles;
mod values;
mod volumes;
mod work;

pub use names::OptionName;
pub use numbers::{long_number_in, number_in};
pub use options::{Options, OrderChoice, PocChoice, PrecinctChoice};
pub use orders::{order_name, order_said};
pub use values::{
    SEEDS, SIDES, form_said, parts_said, precincts_said, reduce_said, rsiz_said, seed_said,
    side_said, style_said, thread_count,
};
pub use volumes::parse_poc;
pub use work::Work;

/// Where a tile is cut into tile-parts (ITU-T T.800, A.4.2).
#[derive(Clone, Copy, Debug, PartialEq, Eq)]
pub enum PartChoice {
    /// Nowhere.
    None,
    /// Between packets of different resolutions.
    Resolution,
    /// Between packets of different layers.
    Layer,
    /// Between packets of different components.
    Component,
}

/// What is written of a JP2 file (ITU-T T.800, Annex I). Of a codestream both are a codestream.
#[derive(Clone, Copy, Debug, PartialEq, Eq)]
pub enum FormChoice {
    /// The input's form: of a JP2 file a JP2 file again.
    Keep,
    /// The codestream alone.
    Codestream,
}

/// What profile the written file claims (Rsiz; ITU-T T.800, A.5.1, Table A.10).
#[derive(Clone, Copy, Debug, PartialEq, Eq)]
pub enum RsizChoice {
    /// None: Rsiz is 0.
    Zero,
    /// The input's, where the written file meets it.
    Keep,
}

/// What stands in the tile-parts of the written file beside headers and code-blocks, where they begin, and whether the main header says so.
#[derive(Clone, Copy, Debug, PartialEq, Eq)]
pub struct Marks {
    /// Whether an SOP segment stands before each packet (ITU-T T.800, A.8.1).
    pub sop: bool,
    /// Whether an EPH marker follows each packet header (A.8.2).
    pub eph: bool,
    /// Whether PLT segments give the lengths of the packets (A.7.3).
    pub plt: bool,
    /// Whether TLM segments in the main header give the lengths of the tile-parts (A.7.1).
    pub tlm: bool,
    /// Where a tile is cut into tile-parts (A.4.2).
    pub parts: PartChoice,
}

impl Marks {
    /// What stands there where no option is among the words.
    pub fn none() -> Marks
        ensures { result ≡ no_marks }
    {
        Marks {
            sop: false,
            eph: false,
            plt: false,
            tlm: false,
            parts: PartChoice::None,
        }
    }
}
