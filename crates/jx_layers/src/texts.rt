//! The words that tell a planner its rule.

ghost use Rattle.std.specs.Prelude.{◌≡◌, ◌<◌, ◌≤◌, ◌+◌, ◌++◌, ◌∷◌, [], nat_lt, length, codes, None, MatchOption, IfSome, eqb};
ghost use Rattle.std.specs.Str.{bytes_eq};
ghost use Rattle.std.specs.Option.{option_map};
ghost use Rattle.std.specs.List.{position_or_len};
ghost use Rattle.std.specs.Fmt.{decimal};
ghost use Rattle.jx_layers.specs.Cuts.{list_of, more_parts, AreRefused, GoOn};
ghost use Rattle.jx_layers.specs.Texts.{cut_in, cuts_after, cuts_in, planes_in, parts_of};
ghost use Rattle.jx_base.specs.Texts.{after, number_in};

/// Numbers in order, at most 32.
#[derive(Clone, Copy)]
pub(crate) struct Cuts {
    pub(crate) numbers: [u8; 32],
    pub(crate) count: usize,
    /// The last of them, or 0.
    pub(crate) last: u8,
}

impl Cuts {
    /// No number.
    pub(crate) fn none() -> Cuts
        ensures list { list_of result ≡ [] }
        ensures few { result.count ≡ 0 }
        ensures last { result.last ≡ 0 }
    {
        Cuts {
            numbers: [0; 32],
            count: 0,
            last: 0,
        }
    }

    /// The numbers.
    #[tactic(auto, using(std::proofs::lemmas::List::take_all))]
    pub(crate) fn as_slice(&self) -> &[u8]
        ensures list { result.now ≡ list_of self.now }
        ensures few { length result.now ≤ 32 }
    {
        if self.count > 32 {
            return &self.numbers;
        }
        self.numbers.split_at(self.count).0
    }

    /// The same and a number behind them.
    fn with(&self, number: u8) -> Cuts
        requires { self.now.count < 32 }
        ensures list { list_of result ≡ list_of self.now ++ number ∷ [] }
        ensures count { result.count ≡ self.now.count + 1 }
        ensures last { result.last ≡ number }
    {
        let mut numbers = self.numbers;
        numbers[self.count] = number;
        Cuts {
            numbers,
            count: self.count + 1,
            last: number,
        }
    }
}

/// Whether a text is a number's digits.
#[tactic(auto, using(std::proofs::lemmas::Fmt::decimal_digit, crate::proofs::TextLemmas::two_digits, crate::proofs::TextLemmas::three_digits))]
fn is_decimal(number: u8, text: &[u8]) -> bool
    ensures { result ≡ bytes_eq (decimal number) text.now }
{
    if number < 10 {
        return [48 + number].as_slice() == text;
    }
    if number < 100 {
        return [48 + number / 10, 48 + number % 10].as_slice() == text;
    }
    [48 + number / 100, 48 + number / 10 % 10, 48 + number % 10].as_slice() == text
}

/// The number from 1 to `most` of which a text is the digits, without a sign or a leading zero. There are so few that each
/// is tried.
#[tactic(auto, unfolding(jx_base::specs::Texts::number_in))]
fn number_in(most: u8, text: &[u8]) -> Option<u8>
    requires { most < 255 }
    ensures value { result ≡ number_in most text.now }
    ensures range { IfSome result (λ n. (1 ≤ n) × (n ≤ most)) }
{
    for number in 1..most + 1 {
        if is_decimal(number, text) {
            return Some(number);
        }
    }
    None
}

/// A number from 1 to 220 that is above `last`.
fn cut_in(last: u8, text: &[u8]) -> Option<u8>
    ensures { result ≡ cut_in last text.now }
{
    match number_in(220, text) {
        Some(number) if last < number => Some(number),
        _ => None,
    }
}

/// Another number behind those that are there, above them all; none where there are 32.
fn put(cuts: &Cuts, text: &[u8]) -> Option<Cuts>
    requires { cuts.now.count ≤ 32 }
    ensures { MatchOption result (AreRefused cuts.now text.now) (GoOn cuts.now text.now) }
{
    if cuts.count == 32 {
        return None;
    }
    match cut_in(cuts.last, text) {
        Some(number) => Some(cuts.with(number)),
        None => None,
    }
}

/// The place of the first comma of a text, or its length.
fn comma(text: &[u8]) -> usize
    ensures value { result ≡ position_or_len (λ b. eqb b 44) text.now }
    ensures bound { result ≤ length text.now }
{
    for (place, byte) in text.iter().enumerate() {
        if *byte == b',' {
            return place;
        }
    }
    text.len()
}

/// What stands before the first comma of a text, and what stands after it where there is one.
#[tactic(auto, using(crate::proofs::TextLemmas::part_first, crate::proofs::TextLemmas::part_last))]
fn first_part<'a>(text: &'a [u8]) -> (&'a [u8], Option<&'a [u8]>)
    ensures { parts_of text.entry.now ≡ result.0.now ∷ more_parts result.1 }
{
    let (part, rest) = text.split_at(comma(text));
    if rest.is_empty() {
        return (part, None);
    }
    (part, Some(rest.split_at(1).1))
}

/// Numbers that rise, with commas between them.
#[tactic(auto, unfolding(crate::specs::Texts::cuts_after))]
fn cuts_after(text: &[u8]) -> Option<Cuts>
    ensures value { option_map list_of result ≡ cuts_after text.now }
    ensures few { IfSome result (λ cuts. cuts.count ≤ 32) }
{
    let mut cuts = Cuts::none();
    let mut rest = text;
    for _turn in 0..33_usize {
        let (part, more) = first_part(rest);
        match put(&cuts, part) {
            Some(next) => cuts = next,
            None => return None,
        }
        match more {
            Some(more) => rest = more,
            None => return Some(cuts),
        }
    }
    None
}

/// What stands after a beginning.
fn after<'a>(start: &str, words: &'a str) -> Option<&'a [u8]>
    ensures { option_map (λ rest. rest.now) result ≡ after start.now words.entry.now }
{
    words.as_bytes().strip_prefix(start.as_bytes())
}

/// The passes at which `cuts:` and numbers say to cut: 1 to 32 of them, which rise from 1 to 220.
pub(crate) fn cuts_in(words: &str) -> Option<Cuts>
    ensures value { option_map list_of result ≡ cuts_in words.now }
    ensures few { IfSome result (λ cuts. cuts.count ≤ 32) }
{
    match after("cuts:", words) {
        Some(text) => cuts_after(text),
        None => None,
    }
}

/// The number of planes that `planes:` and a number name, 1 to 74.
pub(crate) fn planes_in(words: &str) -> Option<u8>
    ensures value { result ≡ planes_in words.now }
    ensures range { IfSome result (λ q. (1 ≤ q) × (q ≤ 74)) }
{
    match after("planes:", words) {
        Some(text) => number_in(74, text),
        None => None,
    }
}
