//! The table of the options of all commands: what each is called, what it is where it isn't among the words, which words are its values,
//! and what the help says of it.

ghost use Rattle.std.specs.Prelude.{◌≡◌, IfOk, map};
ghost use Rattle.jx_options.specs.Names.{all_names, boxes_names, default_of, form_of, greatest_of, heading_of, is_flag, is_value, listed_of, name_of, number_said, placeholder_of, range_of, same_names, show_names, transcode_names, what_of};

use crate::numbers::number_in;
use crate::orders::{order_help, order_said, order_words};
use crate::values::{
    form_said, parts_said, precincts_said, reduce_said, rsiz_said, style_said, thread_count,
};
use crate::volumes::parse_poc;
use jx_base::{MOST_BYTES, NoMemory};
use std::alloc::Global;

/// An option.
#[derive(Clone, Copy, Debug, PartialEq, Eq)]
pub enum OptionName {
    /// The order of the packets (ITU-T T.800, A.6.1, B.12).
    Order,
    /// The progression order changes (A.6.6).
    Poc,
    /// The precincts (A.6.1, Table A.21).
    Precincts,
    /// The quality layers (B.10).
    Layers,
    /// Where tile-parts begin (A.4.2).
    TileParts,
    /// SOP segments (A.8.1).
    Sop,
    /// EPH markers (A.8.2).
    Eph,
    /// PLT segments (A.7.3).
    Plt,
    /// TLM segments (A.7.1).
    Tlm,
    /// What profile the file claims (A.5.1).
    Rsiz,
    /// What is written of a JP2 file (Annex I).
    Form,
    /// The style of code-blocks (Table A.19).
    Style,
    /// How many of the highest resolutions are left out (A.5.1, B.5).
    Reduce,
    /// How many bytes an input may have.
    LimitBytes,
    /// How many workers recode blocks.
    Threads,
    /// How many blocks may stand between claim and sequence.
    Window,
    /// How many bytes several such blocks may have together.
    WindowBytes,
    /// How many threads compare code-blocks.
    CompareThreads,
    /// A JSON object in place of lines (RFC 8259).
    Json,
}

impl OptionName {
    /// All of them.
    pub fn all() -> &'static [OptionName]
        ensures { result.now ≡ all_names }
    {
        &[
            OptionName::Order,
            OptionName::Poc,
            OptionName::Precincts,
            OptionName::Layers,
            OptionName::TileParts,
            OptionName::Sop,
            OptionName::Eph,
            OptionName::Plt,
            OptionName::Tlm,
            OptionName::Rsiz,
            OptionName::Form,
            OptionName::Style,
            OptionName::Reduce,
            OptionName::LimitBytes,
            OptionName::Threads,
            OptionName::Window,
            OptionName::WindowBytes,
            OptionName::CompareThreads,
            OptionName::Json,
        ]
    }

    /// Those of `transcode`, in the order of its help.
    pub fn of_transcode() -> &'static [OptionName]
        ensures { result.now ≡ transcode_names }
    {
        &[
            OptionName::Order,
            OptionName::Poc,
            OptionName::Precincts,
            OptionName::Layers,
            OptionName::TileParts,
            OptionName::Sop,
            OptionName::Eph,
            OptionName::Plt,
            OptionName::Tlm,
            OptionName::Rsiz,
            OptionName::Form,
            OptionName::Style,
            OptionName::Reduce,
            OptionName::LimitBytes,
            OptionName::Threads,
            OptionName::Window,
            OptionName::WindowBytes,
        ]
    }

    /// That of `boxes`.
    pub fn of_boxes() -> &'static [OptionName]
        ensures { result.now ≡ boxes_names }
    {
        &[OptionName::LimitBytes]
    }

    /// Those of `same`.
    pub fn of_same() -> &'static [OptionName]
        ensures { result.now ≡ same_names }
    {
        &[OptionName::CompareThreads, OptionName::LimitBytes]
    }

    /// Those of `show`.
    pub fn of_show() -> &'static [OptionName]
        ensures { result.now ≡ show_names }
    {
        &[OptionName::Json, OptionName::LimitBytes]
    }

    /// The name, without its dashes.
    pub fn text(self) -> &'static str
        ensures { result.now ≡ name_of self }
    {
        match self {
            OptionName::Order => "order",
            OptionName::Poc => "poc",
            OptionName::Precincts => "precincts",
            OptionName::Layers => "layers",
            OptionName::TileParts => "tile-parts",
            OptionName::Sop => "sop",
            OptionName::Eph => "eph",
            OptionName::Plt => "plt",
            OptionName::Tlm => "tlm",
            OptionName::Rsiz => "rsiz",
            OptionName::Form => "form",
            OptionName::Style => "style",
            OptionName::Reduce => "reduce",
            OptionName::LimitBytes => "limit-bytes",
            OptionName::Threads => "threads",
            OptionName::Window => "window",
            OptionName::WindowBytes => "window-bytes",
            OptionName::CompareThreads => "threads",
            OptionName::Json => "json",
        }
    }

    /// What stands for it where it isn't among the words.
    pub fn default(self) -> &'static str
        ensures { result.now ≡ default_of self }
    {
        match self {
            OptionName::Order
            | OptionName::Precincts
            | OptionName::Layers
            | OptionName::Form
            | OptionName::Style => "keep",
            OptionName::Poc | OptionName::TileParts => "none",
            OptionName::Sop
            | OptionName::Eph
            | OptionName::Plt
            | OptionName::Tlm
            | OptionName::Json => "false",
            OptionName::Rsiz => "zero",
            OptionName::Reduce => "0",
            OptionName::Threads | OptionName::CompareThreads => "auto",
            OptionName::Window => "64",
            OptionName::LimitBytes | OptionName::WindowBytes => "268435456",
        }
    }

    /// Whether it stands alone, without a value.
    pub fn is_flag(self) -> bool
        ensures { result ≡ is_flag self }
    {
        matches!(
            self,
            OptionName::Sop | OptionName::Eph | OptionName::Plt | OptionName::Tlm | OptionName::Json
        )
    }

    /// All its values, where these are few words; none where they aren't.
    pub fn listed(self) -> &'static [&'static str]
        ensures { map (λ word. word.now) result.now ≡ listed_of self }
    {
        match self {
            OptionName::Order => order_words(),
            OptionName::TileParts => &["none", "r", "l", "c"],
            OptionName::Rsiz => &["zero", "keep"],
            OptionName::Form => &["keep", "j2k"],
            _ => &[],
        }
    }

    /// Whether a word is one of its values. A flag has none, and to the planners of layers any text may be one.
    ///
    /// # Errors
    ///
    /// `NoMemory` where memory is refused.
    pub fn is_value(self, alloc: Global, word: &str) -> Result<bool, NoMemory>
        ensures { IfOk result (λ good. good ≡ is_value self word.now) }
    {
        let good = match self {
            OptionName::Order => order_said(word).is_some(),
            OptionName::Poc => parse_poc(alloc, word)?.is_some(),
            OptionName::Precincts => precincts_said(alloc, word)?.is_some(),
            OptionName::Layers => true,
            OptionName::TileParts => parts_said(word).is_some(),
            OptionName::Sop
            | OptionName::Eph
            | OptionName::Plt
            | OptionName::Tlm
            | OptionName::Json => false,
            OptionName::Rsiz => rsiz_said(word).is_some(),
            OptionName::Form => form_said(word).is_some(),
            OptionName::Style => style_said(word).is_some(),
            OptionName::Reduce => reduce_said(word).is_some(),
            OptionName::Threads | OptionName::CompareThreads => thread_count(word).is_some(),
            OptionName::LimitBytes | OptionName::Window | OptionName::WindowBytes => {
                self.number(word).is_some()
            }
        };
        Ok(good)
    }

    /// The heading under which the help of `transcode` has it; nothing where it is none of its options.
    pub fn heading(self) -> &'static str
        ensures { result.now ≡ heading_of self }
    {
        match self {
            OptionName::Style => "How code-blocks are coded",
            OptionName::Reduce => "How much of the picture is written",
            OptionName::LimitBytes => "How large a file is taken",
            OptionName::Threads | OptionName::Window | OptionName::WindowBytes => {
                "How the work is done (the file doesn't depend on it)"
            }
            OptionName::CompareThreads | OptionName::Json => "",
            _ => "How the file is packed",
        }
    }

    /// The word that stands for its value; nothing for a flag.
    pub fn placeholder(self) -> &'static str
        ensures { result.now ≡ placeholder_of self }
    {
        match self {
            OptionName::Order => "ORDER",
            OptionName::Poc => "VOLUMES",
            OptionName::Precincts => "LIST",
            OptionName::Layers => "RULE",
            OptionName::TileParts => "BY",
            OptionName::Rsiz => "PROFILE",
            OptionName::Form => "FORM",
            OptionName::Style => "NAMES",
            OptionName::Reduce => "D",
            OptionName::LimitBytes
            | OptionName::Threads
            | OptionName::Window
            | OptionName::WindowBytes
            | OptionName::CompareThreads => "N",
            OptionName::Sop
            | OptionName::Eph
            | OptionName::Plt
            | OptionName::Tlm
            | OptionName::Json => "",
        }
    }

    /// What it does, its values and its default, and an example, as the help has it.
    pub fn what(self) -> &'static str
        ensures { result.now ≡ what_of self }
    {
        match self {
            OptionName::Order => order_help(),
            OptionName::Poc => {
                "none, keep, or volumes with / between them, each\nRS,CS,LYE,RE,CE,ORDER: the packets of a volume\nstand together, in its order\ndefault none; as in --poc 0,0,1,33,3,rpcl"
            }
            OptionName::Precincts => {
                "keep, max, or exponents from resolution 0 up:\n7x7 is 128 by 128, the last one is for all above\ndefault keep; as in --precincts 7x7,8x8"
            }
            OptionName::Layers => {
                "keep, one, cuts:N,N.. (a new layer at each of\nthese coding passes, 1 to 220, rising), or\nplanes:N (one for each N bit-planes, 1 to 74)\ndefault keep; as in --layers planes:2"
            }
            OptionName::TileParts => {
                "none, r, l or c: a new tile-part for each\nresolution, layer or component\ndefault none; as in --tile-parts r"
            }
            OptionName::Sop => "an SOP segment before each packet",
            OptionName::Eph => "an EPH marker behind each packet header",
            OptionName::Plt => "packet lengths in the tile-parts' headers",
            OptionName::Tlm => "tile-part lengths in the main header",
            OptionName::Rsiz => {
                "zero or keep: no profile is claimed, or that of\nthe input, where the file meets it\ndefault zero; as in --rsiz keep"
            }
            OptionName::Form => {
                "keep or j2k: of a JP2 file a JP2 file again, or\nthe codestream alone\ndefault keep; as in --form j2k"
            }
            OptionName::Style => {
                "keep, none, or names with + between them:\nbypass, reset, terminate, causal, segment\ndefault keep; as in --style terminate+reset"
            }
            OptionName::Reduce => {
                "leave out the D highest resolutions: the picture\nis 2^D times smaller both ways\n0 to 32, default 0; as in --reduce 1"
            }
            OptionName::LimitBytes => {
                "the most bytes that an input may have (limit 1)\n1 to 4294967295, default 268435456"
            }
            OptionName::Threads => {
                "workers that code blocks anew: 1 to 64, or auto,\nas many as the system has free\ndefault auto; as in --threads 4"
            }
            OptionName::Window => {
                "blocks that are in work or wait for their turn\n1 to 1024, default 64; as in --window 16"
            }
            OptionName::WindowBytes => {
                "bytes of several such blocks together\n1 to 4294967295, default 268435456"
            }
            OptionName::CompareThreads => {
                "threads that compare code-blocks: 1 to 64, or\nauto, as many as the system has free\ndefault auto; as in --threads 4"
            }
            OptionName::Json => "say a JSON object in place of lines",
        }
    }

    /// The least and the greatest of its values, where these are numbers; nothing where they aren't.
    pub fn range(self) -> &'static str
        ensures { result.now ≡ range_of self }
    {
        match self {
            OptionName::Reduce => "0 to 32",
            OptionName::Threads | OptionName::CompareThreads => "1 to 64",
            OptionName::Window => "1 to 1024",
            OptionName::LimitBytes | OptionName::WindowBytes => "1 to 4294967295",
            _ => "",
        }
    }

    /// The greatest of its values, where these are numbers; 0 where they aren't.
    fn greatest(self) -> u32
        ensures { result ≡ greatest_of self }
    {
        match self {
            OptionName::Reduce => 32,
            OptionName::Threads | OptionName::CompareThreads => 64,
            OptionName::Window => 1_024,
            OptionName::LimitBytes | OptionName::WindowBytes => MOST_BYTES as u32,
            _ => 0,
        }
    }

    /// The number from 1 up to its greatest that a word says.
    pub fn number(self, word: &str) -> Option<u32>
        ensures { result ≡ number_said self word.now }
    {
        number_in(self.greatest(), word)
    }

    /// What a value has to be, where it is neither a number, nor listed, nor any text; nothing where it is.
    pub fn form(self) -> &'static str
        ensures { result.now ≡ form_of self }
    {
        match self {
            OptionName::Poc => {
                "none, keep, or 1 to 32 volumes RS,CS,LYE,RE,CE,ORDER with / between them:\n  RS 0 to 32, CS 0 to 16383, LYE 1 to 65535, RE 1 to 33, CE 1 to 16384,\n  RS below RE, CS below CE, ORDER lrcp, rlcp, rpcl, pcrl or cprl in any case"
            }
            OptionName::Precincts => {
                "keep, max, or 1 to 33 items XxY with commas, X and Y from 0 to 15;\n  exponents: 8x8 is 256 by 256"
            }
            OptionName::Style => {
                "keep, none, or names with + between them, each at most once:\n  bypass, reset, terminate, causal, segment"
            }
            OptionName::Threads | OptionName::CompareThreads => {
                "auto, or a number from 1 to 64, without a sign or leading zeros"
            }
            _ => "",
        }
    }
}
