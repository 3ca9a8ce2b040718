//! Laws over the definitions: which requests words make, and which pictures they ask for. They run no code.

ghost use Rattle.std.specs.Prelude.{◌≡◌, ◌≤◌, List, true};
ghost use Rattle.jx_options.specs.Wanted.{MayBeWanted};
ghost use Rattle.jx_cli.specs.BoxesWords.{AsksBoxes, Boxes, boxes_of, is_boxes};
ghost use Rattle.jx_cli.specs.CommandNames.{CommandName, is_good_for};
ghost use Rattle.jx_cli.specs.MakeFound.{AsksMake};
ghost use Rattle.jx_cli.specs.MakeWords.{Make, MayBeMade, is_make, make_of};
ghost use Rattle.jx_cli.specs.SameWords.{AsksSame, MayBeCompared, Pair, is_same, same_of};
ghost use Rattle.jx_cli.specs.ShowWords.{AsksShow, Show, is_show, show_of};
ghost use Rattle.jx_cli.specs.Words.{Asks, MayBeAsked, Request, Text, is_good, request_of};
ghost use Rattle.jx_options.specs.Work.{MayBeLimit, MayBeWork};

/// What words ask for is an order and a style that there are, exponents that are bytes, 0 to 32 resolutions to leave out, and an input's
/// limit and work within their bounds.
pub fn requests_may_be_wanted()
    ensures wanted { (words : List Text) → MayBeWanted (request_of words).wanted }
    ensures work { (words : List Text) → MayBeWork (request_of words).work }
    ensures reduce { (words : List Text) → (request_of words).reduce ≤ 32 }
    ensures limit { (words : List Text) → MayBeLimit (request_of words).limit }
{}

/// Good words make the requests that may be asked, and each of these is made by some. The words for the planners of layers are any
/// text: behind `--layers=` clap takes an empty one too, and one that begins with `-`.
pub fn requests_have_words()
    ensures made { (r : Request) → MayBeAsked r → Asks r }
    ensures asked { (words : List Text) → is_good words ≡ true → MayBeAsked (request_of words) }
{}

/// Good words of `make` ask for the pictures that may be made, of 1 to 4,096 columns and rows and any seed below 2^64, and each of
/// these is asked for by some.
pub fn make_has_words()
    ensures made { (m : Make) → MayBeMade m → AsksMake m }
    ensures asked { (words : List Text) → is_make words ≡ true → MayBeMade (make_of words) }
{}

/// Good words of `boxes` ask for files of 1 to 2^32 - 1 bytes, and each name and such a number are asked for by some.
pub fn boxes_have_words()
    ensures made { (asked : Boxes) → MayBeLimit asked.limit → AsksBoxes asked }
    ensures asked { (words : List Text) → is_boxes words ≡ true → MayBeLimit (boxes_of words).limit }
{}

/// Good words of `same` ask for 0 to 64 threads and files of 1 to 2^32 - 1 bytes, and each two names and such numbers are asked for by some.
pub fn same_has_words()
    ensures made { (names : Pair) → MayBeCompared names → AsksSame names }
    ensures asked { (words : List Text) → is_same words ≡ true → MayBeCompared (same_of words) }
{}

/// Good words of `show` ask for files of 1 to 2^32 - 1 bytes, and each name and such a number are asked for by some, with JSON and without.
pub fn show_has_words()
    ensures made { (asked : Show) → MayBeLimit asked.limit → AsksShow asked }
    ensures asked { (words : List Text) → is_show words ≡ true → MayBeLimit (show_of words).limit }
{}

/// No words are good for two commands.
pub fn commands_are_apart()
    ensures { (one other : CommandName) (words : List Text) → is_good_for one words ≡ true → is_good_for other words ≡ true → one ≡ other }
{}
