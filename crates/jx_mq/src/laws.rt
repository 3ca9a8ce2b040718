//! Laws of the arithmetic coder, over its definitions alone.

ghost use Rattle.std.specs.Prelude.{◌≡◌, ◌<◌, ◌≤◌, ◌+◌, ◌-◌, ◌*◌, ◌/◌, ℕ, List, [], ◌∷◌, ◌++◌, length, map, take};
ghost use Rattle.jx_base.specs.Markers.{HasNoMarker};
ghost use Rattle.jx_coder_specs.specs.MqTable.{MqContexts, mq_fresh};
ghost use Rattle.jx_coder_specs.specs.MqReading.{MqReader, MqAsked, MqDecisions, mq_byte, mq_decisions, mq_decisions_from, mq_looked};
ghost use Rattle.jx_coder_specs.specs.MqWriting.{MqWriter, MqGiven, mq_writer, mq_written_from, mq_write, mq_contexts_after, mq_asked, mq_bits, mq_write_each, mq_bits_each, mq_contexts_left, mq_contexts_each};
ghost use Rattle.jx_coder_specs.specs.RawBits.{looked_from};
ghost use Rattle.jx_mq.specs.Pace.{spared_in};

/// What the encoder writes of a list of decisions and resets, from any contexts, is read back by
/// the decoder from the same contexts: the same bits, and the same contexts after. So are many
/// segments, each from the contexts that the one before it left, or from new ones where its list
/// begins with a reset. No written segment has FF before a byte above 8F, and none ends with FF.
pub fn decisions_are_read_back()
    ensures bits { (x : MqContexts) → (given : List MqGiven) →
        (mq_decisions (mq_write x given) x (mq_asked given)).bits ≡ mq_bits given }
    ensures contexts { (x : MqContexts) → (given : List MqGiven) →
        (mq_decisions (mq_write x given) x (mq_asked given)).contexts ≡ mq_contexts_after x given }
    ensures segments { (x : MqContexts) → (lists : List (List MqGiven)) →
        mq_bits_each x (mq_write_each x lists) (map mq_asked lists) ≡ map mq_bits lists }
    ensures contexts_of_segments { (x : MqContexts) → (lists : List (List MqGiven)) →
        mq_contexts_each x (mq_write_each x lists) (map mq_asked lists) ≡ mq_contexts_left x lists }
    ensures markers { (x : MqContexts) → (given : List MqGiven) → HasNoMarker 0 (mq_write x given) }
{}

/// The decisions of a list, the contexts and the registers after it depend only on the bytes that
/// were looked at for it, and a last FF that is left out is given back by the endless tail.
pub fn decisions_depend_on_bytes_looked_at()
    ensures same { (s : List ℕ) → (t : List ℕ) → (x : MqContexts) → (asked : List MqAsked) →
        ((i : ℕ) → i < (mq_decisions s x asked).reader.looked → mq_byte t i ≡ mq_byte s i) →
        mq_decisions t x asked ≡ mq_decisions s x asked }
    ensures cut { (s : List ℕ) → (x : MqContexts) → (asked : List MqAsked) → (k : ℕ) →
        mq_looked s x asked ≤ k → mq_decisions (take k s) x asked ≡ mq_decisions s x asked }
    ensures dropped { (s : List ℕ) → (x : MqContexts) → (asked : List MqAsked) →
        mq_decisions (s ++ 255 ∷ []) x asked ≡ mq_decisions s x asked }
    ensures more { (s : List ℕ) → (x : MqContexts) → (first : List MqAsked) → (more : List MqAsked) →
        mq_looked s x first ≤ mq_looked s x (first ++ more) }
{}

/// A list that is given in two parts gives what the parts give one after the other.
pub fn lists_go_on()
    ensures read { (s : List ℕ) → (r : MqReader) → (x : MqContexts) → (first : List MqAsked) → (more : List MqAsked) →
        let d = mq_decisions_from s r x first in
        let e = mq_decisions_from s d.reader d.contexts more in
        mq_decisions_from s r x (first ++ more) ≡ record { bits = d.bits ++ e.bits; contexts = e.contexts; reader = e.reader } }
    ensures written { (w : MqWriter) → (x : MqContexts) → (first : List MqGiven) → (more : List MqGiven) →
        let d = mq_written_from w x first in
        mq_written_from w x (first ++ more) ≡ mq_written_from d.writer d.contexts more }
{}

/// A segment's length is bounded by the number of its decisions: a byte takes seven shifts at least, and a decision six, beside those
/// that decisions before it have spared. The less probable symbol takes up to 15, but only in rows that are reached by decisions with
/// a shift each at most. New contexts have spared none.
pub fn segments_are_short()
    ensures paced { (x : MqContexts) → (given : List MqGiven) →
        7 * length (mq_write x given) + spared_in (mq_contexts_after x given).rows ≤ 6 * length given + 14 + spared_in x.rows }
    ensures fresh { (given : List MqGiven) → length (mq_write mq_fresh given) ≤ 6 * length given / 7 + 2 }
{}

/// How many bytes of a finished segment its decoder has looked at by the end of the first decisions is
/// told by what the encoder's registers were then: the bytes given out, and the places that C holds.
pub fn ends_are_told()
    ensures { (x : MqContexts) → (first : List MqGiven) → (more : List MqGiven) →
        let w = (mq_written_from mq_writer x first).writer in
        mq_looked (mq_write x (first ++ more)) x (mq_asked first) ≡ looked_from (mq_write x (first ++ more)) (length w.bytes - 1) (27 - w.ct) }
{}
