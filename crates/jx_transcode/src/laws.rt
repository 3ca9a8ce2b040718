//! Laws over what becomes of an input. The functions do nothing but cite the laws of the crates below: their contracts carry the laws.
ghost use Rattle.std.specs.Prelude.{◌≡◌, ◌⊎◌, ◌≤◌, ℕ, List, None, Option, length};
ghost use Rattle.jx_base.specs.Limits.{most_bytes};
ghost use Rattle.jx_base.specs.declared.pieces.Block.{Block};
ghost use Rattle.jx_codestream.specs.declared.Stream.{Stream};
ghost use Rattle.jx_layers.specs.declared.StreamFacts.{StreamFacts};
ghost use Rattle.jx_layers.specs.Rule.{Rule};
ghost use Rattle.jx_marker.specs.Ranges.{AreBytes};
ghost use Rattle.jx_options.specs.Wanted.{MayBeWanted};
ghost use Rattle.jx_plan.specs.Plan.{Plan};
ghost use Rattle.jx_plan.specs.Planned.{IsPlanned};
ghost use Rattle.jx_transcode.specs.Aims.{Aim, MayBeAimed, rule_in, with_limit};
ghost use Rattle.jx_transcode.specs.BoxesRun.{BoxesVerdict};
ghost use Rattle.jx_cli.specs.MakeWords.{Make, MayBeMade};
ghost use Rattle.jx_transcode.specs.declared.status.Status.{Status};
ghost use Rattle.jx_transcode.specs.declared.status.Status.TheVariants as status;
ghost use Rattle.jx_transcode.specs.declared.status.Unlike.TheVariants as unlike;
ghost use Rattle.jx_codestream.specs.Shapes.{size_in};
ghost use Rattle.jx_io.specs.Device.{Meaning};
ghost use Rattle.jx_cli.specs.Words.{Text};
ghost use Rattle.jx_jp2.specs.declared.Boxed.{Boxed};
ghost use Rattle.jx_options.specs.Work.{Work};
ghost use Rattle.jx_options.specs.declared.FormChoice.{FormChoice};
ghost use Rattle.jx_rounds.specs.declared.tape.TapeEntry.{TapeEntry};
ghost use Rattle.jx_transcode.specs.Jp2Run.{EndsAround, FileVerdict, file_in};
ghost use Rattle.jx_tile.specs.Totals.{totals_fault};
ghost use Rattle.jx_transcode.specs.Rewritten.{IsKept, IsRewritten, Reads, ReadsLeft};
ghost use Rattle.jx_transcode.specs.SameRun.{SameVerdict, fewer_difference};
ghost use Rattle.jx_transcode.specs.Sources.{HasCodestream};
ghost use Rattle.jx_transcode.specs.TranscodeRun.{EndsBare};
ghost use Rattle.jx_transcode.specs.MadeVerdict.{HasNoRule, MakesOneLayer};
ghost use Rattle.jx_transcode.specs.Filed.{IsAnswered, IsCarriedIn, IsCarriedTo};
ghost use Rattle.jx_transcode.specs.MakeRun.{ComesOut, aim_made, input_of};
ghost use Rattle.jx_transcode.specs.Outcome.{Verdict};

use jx_codeblock::laws::{coded_anew_is_sound, new_bytes_with_bypass, nothing_of_wrong_symbols};
use jx_codestream::laws::{one_first, one_stream, violated_or_spelled};
use jx_generate::laws::{
    made_blocks_are_plain, made_geometry, made_in_one_layer, made_is_short, made_is_well_formed,
};
use jx_jp2::laws::{one_codestream, one_tree, some_codestream, some_tree};
use jx_plan::laws::{
    gathered_may_be_planned, kept_precincts_fit, one_answer, plans_write_these_blocks,
    read_headers_stand,
};
use jx_plan::layer_laws::{blocks_are_written, jobs_have_these_ends};
use jx_reduce::laws::{left_means, whole_stays};
use jx_tier2_reader::laws::{never_both, one_gathering, one_of_both, one_violation};
use jx_tier2_writer::laws::{one_output, rewritten_is_read, written_is_ready};
use jx_tile_parts::laws::groups_are_cut;

/// What a plan makes of the input that it was made of, by where it was written: a file, or memory. The output keeps what a written file keeps.
pub fn plans_are_carried_out()
    ensures file { (name : Text) (work : Work) (aim : Aim) (input : List ℕ) (s : Stream) (blocks : List Block)
        (p : Plan)
        (st : Status) (count bytes : ℕ) (tape : List TapeEntry) (old new : Meaning)
        → MayBeWanted aim.wanted → IsPlanned (rule_in aim s blocks) s blocks aim.wanted p → length input ≤ aim.limit
        → ReadsLeft aim.reduce input s blocks
        → IsCarriedTo p name work st count bytes tape old new
        → IsAnswered name work aim input st count bytes tape old new }
    ensures memory { (work : Work) (aim : Aim) (input : List ℕ) (s : Stream) (blocks : List Block) (p : Plan)
        (st : Status) (count : ℕ) (out : List ℕ) (tape : List TapeEntry)
        → MayBeWanted aim.wanted → IsPlanned (rule_in aim s blocks) s blocks aim.wanted p → length input ≤ aim.limit
        → ReadsLeft aim.reduce input s blocks
        → IsCarriedIn p work st count out tape → ComesOut work aim input st count out tape }
{
    read_headers_stand();
    plans_write_these_blocks();
    rewritten_is_read();
    left_means();
    one_output();
}

/// An input has at most one verdict, where it may have as many bytes as words can ask for.
pub fn one_verdict()
    ensures { (aim : Aim) (input : List ℕ) (s t : Status) → aim.limit ≤ most_bytes → Verdict aim input s
        → Verdict aim input t → s ≡ t }
{
    one_stream();
    one_first();
    violated_or_spelled();
    one_violation();
    one_gathering();
    never_both();
    one_answer();
    one_output();
}

/// An input has at most one output by what is asked of the codestream: two runs that end with Done have made the same bytes, whatever number
/// of workers, windows and gates they had.
pub fn one_file()
    ensures file { (aim : Aim) (input out other : List ℕ) → length input ≤ most_bytes → IsRewritten aim input out
        → IsRewritten aim input other → out ≡ other }
    // a limit that lets the input pass changes nothing
    ensures limits { (aim : Aim) (limit : ℕ) (input out other : List ℕ) → length input ≤ most_bytes
        → IsRewritten aim input out → IsRewritten (with_limit limit aim) input other → out ≡ other }
    ensures runs { (name again : Text) (work other : Work) (aim : Aim) (input : List ℕ)
        (blocks bytes blocks2 bytes2 : ℕ) (tape tape2 : List TapeEntry) (old new old2 new2 : Meaning)
        → aim.limit ≤ most_bytes → (one : EndsBare name work aim input status.Done blocks bytes tape old new)
        → (two : EndsBare again other aim input status.Done blocks2 bytes2 tape2 old2 new2)
        → one.leaves.out ≡ two.leaves.out }
    ensures boxed { (name again : Text) (work other : Work) (form : FormChoice) (aim : Aim) (input : List ℕ)
        (boxed boxed2 : Boxed) (blocks bytes blocks2 bytes2 : ℕ) (tape tape2 : List TapeEntry)
        (old new old2 new2 : Meaning)
        → aim.limit ≤ most_bytes
        → (one : EndsAround name work form aim input boxed status.Done blocks bytes tape old new)
        → (two : EndsAround again other form aim input boxed2 status.Done blocks2 bytes2 tape2 old2 new2)
        → file_in form input boxed one.out ≡ file_in form input boxed2 two.out }
{
    one_stream();
    one_first();
    violated_or_spelled();
    one_violation();
    one_gathering();
    never_both();
    one_answer();
    one_output();
    one_codestream();
}

/// A file has at most one verdict, JP2 or not, where it may have as many bytes as words can ask for.
pub fn one_file_verdict()
    ensures { (aim : Aim) (input : List ℕ) (s t : Status) → aim.limit ≤ most_bytes → FileVerdict aim input s
        → FileVerdict aim input t → s ≡ t }
{
    one_verdict();
    one_codestream();
}

/// An input has a verdict, where the planners make 1 to 65,535 layers.
pub fn some_verdict()
    ensures { (aim : Aim) (input : List ℕ) → MayBeAimed aim → AreBytes input → (s : Status) × Verdict aim input s }
{
    violated_or_spelled();
    one_of_both();
    gathered_may_be_planned();
    left_means();
    one_answer();
    written_is_ready();
    one_output();
}

/// A file has a verdict, JP2 or not, where the planners make 1 to 65,535 layers.
pub fn some_file_verdict()
    ensures { (aim : Aim) (input : List ℕ) → MayBeAimed aim → AreBytes input → (s : Status) × FileVerdict aim input s }
{
    some_verdict();
    some_codestream();
}

/// An input of `boxes` has a verdict, and one alone.
pub fn boxes_have_one_verdict()
    ensures one { (limit : ℕ) (input : List ℕ) (s t : Status) → BoxesVerdict limit input s
        → BoxesVerdict limit input t → s ≡ t }
    ensures some { (limit : ℕ) (input : List ℕ) → (s : Status) × BoxesVerdict limit input s }
{
    one_tree();
    some_tree();
}

/// Two files have a verdict under `same`, and one alone, where they may have as many bytes as words can ask for.
pub fn same_has_one_verdict()
    ensures one { (limit : ℕ) (first second : List ℕ) (s t : Status) → limit ≤ most_bytes
        → SameVerdict limit first second s → SameVerdict limit first second t → s ≡ t }
    ensures some { (limit : ℕ) (first second : List ℕ) → limit ≤ most_bytes → AreBytes first → AreBytes second
        → (s : Status) × SameVerdict limit first second s }
{
    one_stream();
    one_first();
    violated_or_spelled();
    one_violation();
    one_gathering();
    never_both();
    one_answer();
    one_output();
    one_codestream();
    one_file_verdict();
    some_file_verdict();
}

/// With 0 all that was read of an input is left of it: the headline speaks of the input as it is.
pub fn all_is_left()
    ensures left { (input : List ℕ) (s : Stream) (blocks : List Block) → length input ≤ most_bytes
        → Reads input s blocks → ReadsLeft 0 input s blocks }
    ensures reads { (input : List ℕ) (s : Stream) (blocks : List Block) → length input ≤ most_bytes
        → ReadsLeft 0 input s blocks → Reads input s blocks }
{
    gathered_may_be_planned();
    whole_stays();
}

/// What `transcode` wrote of an input, and left nothing out of, is the same as the input under `same`, where it is within the limits, as a
/// codestream or as a JP2 file: `inner` is the input's codestream, `again` that of the file that was written.
pub fn kept_is_same()
    ensures { (aim : Aim) (limit : ℕ) (input out inner again : List ℕ) (from to : ℕ) (kept : IsKept aim inner again)
        → aim.reduce ≡ 0 → limit ≤ most_bytes → length input ≤ limit → length out ≤ limit
        → HasCodestream input from inner → HasCodestream out to again → totals_fault kept.after ≡ None
        → SameVerdict limit input out status.Done }
{
    gathered_may_be_planned();
    whole_stays();
}

/// What `transcode` wrote of an input with fewer resolutions differs from the input under `same` in the subsampling factors of the first
/// component, which are 2^d times as large, where it is within the limits.
pub fn fewer_differ()
    ensures { (aim : Aim) (limit : ℕ) (input out inner again : List ℕ) (from to : ℕ) (kept : IsKept aim inner again)
        → 1 ≤ aim.reduce → limit ≤ most_bytes → length input ≤ limit → length out ≤ limit
        → HasCodestream input from inner → HasCodestream out to again → totals_fault kept.after ≡ None
        → SameVerdict limit input out (status.Unlike
        (unlike.Differs (fewer_difference aim.reduce (size_in kept.reads.whole.siz 0)))) }
{
    gathered_may_be_planned();
    whole_stays();
}

/// Two files that `transcode` wrote of one codestream without as many resolutions are the same under `same`, where they are within the limits.
pub fn as_many_are_same()
    ensures { (aim more : Aim) (limit : ℕ) (input first second one two : List ℕ) (at to : ℕ)
        (kept : IsKept aim input one) (again : IsKept more input two) → aim.reduce ≡ more.reduce
        → length input ≤ most_bytes
        → length first ≤ limit → length second ≤ limit → HasCodestream first at one → HasCodestream second to two
        → totals_fault kept.after ≡ None → totals_fault again.after ≡ None
        → SameVerdict limit first second status.Done }
{
    one_stream();
    one_first();
    violated_or_spelled();
    one_violation();
    one_gathering();
    never_both();
    one_answer();
    one_output();
}

/// A generated codestream violates no rule, and passes no limit but that on packets of the output, where it may have as many bytes as it has.
pub fn made_is_accepted()
    ensures rules { (aim : Aim) (m : Make) (number place : ℕ) → MayBeMade m
        → Verdict aim (input_of m) (status.Rule number place) → ⊥ }
    ensures limits { (aim : Aim) (m : Make) (number found : ℕ) → MayBeMade m → length (input_of m) ≤ aim.limit
        → Verdict aim (input_of m) (status.Limit number found) → number ≡ 7 }
{
    made_is_short();
    made_is_well_formed();
    one_stream();
    one_first();
    violated_or_spelled();
    one_violation();
    one_gathering();
    never_both();
    one_answer();
    one_output();
}

/// A generated codestream, with the options of `make` and planners that make 1 to 65,535 layers: no limit is passed, no code-block is wrong, and
/// no choice is in the way but choice 7 and, where there is no rule of layers, choice 6. Where the planner makes one layer, as that of `one`
/// does, choice 7 isn't either.
pub fn made_is_planned()
    ensures limits { (rule : List ℕ → StreamFacts → Option Rule) (m : Make) (number found : ℕ) → MayBeMade m
        → MayBeAimed (aim_made rule)
        → Verdict (aim_made rule) (input_of m) (status.Limit number found) → ⊥ }
    ensures choices { (rule : List ℕ → StreamFacts → Option Rule) (m : Make) (number place : ℕ) → MayBeMade m
        → MayBeAimed (aim_made rule)
        → Verdict (aim_made rule) (input_of m) (status.Choice number place)
        → (number ≡ 7) ⊎ ((number ≡ 6) × (place ≡ 0) × HasNoRule (aim_made rule) (input_of m)) }
    ensures short { (rule : List ℕ → StreamFacts → Option Rule) (m : Make) (place : ℕ) → MayBeMade m
        → MayBeAimed (aim_made rule) → MakesOneLayer (aim_made rule)
        → Verdict (aim_made rule) (input_of m) (status.Choice 7 place) → ⊥ }
    ensures blocks { (rule : List ℕ → StreamFacts → Option Rule) (m : Make) (number : ℕ) → MayBeMade m
        → Verdict (aim_made rule) (input_of m) (status.Block number) → ⊥ }
{
    made_is_short();
    made_is_well_formed();
    made_blocks_are_plain();
    made_geometry();
    made_in_one_layer();
    blocks_are_written();
    jobs_have_these_ends();
    new_bytes_with_bypass();
    coded_anew_is_sound();
    nothing_of_wrong_symbols();
    gathered_may_be_planned();
    whole_stays();
    kept_precincts_fit();
    groups_are_cut();
    one_stream();
    one_first();
    violated_or_spelled();
    one_violation();
    one_gathering();
    never_both();
    one_answer();
    one_output();
}
