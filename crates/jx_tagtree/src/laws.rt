//! Laws of header bits and tag trees. Each function's contract is a law over the definitions that the
//! other contracts cite, so its body is empty.
ghost use Rattle.std.specs.Prelude.{◌≡◌, ◌*◌, ◌<◌, ◌≤◌, ◌++◌, Bool, List, ℕ, length, slice_index, true, Ok};
ghost use Rattle.jx_tagtree.specs.Header.{IsHeader, StuffedAfterFf, ReadsBack, EndsAt, bits_of, bytes_of, end_after};
ghost use Rattle.jx_tagtree.specs.Shape.{IsShape, root};
ghost use Rattle.jx_tagtree.specs.TagTree.{Tree, fresh, tree_after, AreValues, ValuesOf, IsTree, HasNothing};
ghost use Rattle.jx_tagtree.specs.Past.{IsPast};
ghost use Rattle.jx_tagtree.specs.Leaves.{least_leaf, AreLeaves, IsLeast};
ghost use Rattle.jx_tagtree.specs.Questions.{Question, all_bits, AreAtLeaves, OneReading, AreReadBack};

/// The bits of a written header are those that were asked for and fewer than eight zeros; a byte after
/// FF has its top bit 0, and no header ends with FF.
pub fn header_of_bits()
    ensures bits { (bits : List Bool) → IsHeader bits (bytes_of bits) }
    ensures stuffed { (bits : List Bool) → StuffedAfterFf (bytes_of bits) }
{}

/// A written header is read back, whatever bytes follow it: its bits come first, and it ends where it
/// was written to end.
pub fn header_read_back()
    ensures { (bits : List Bool) (rest : List ℕ) → ReadsBack bits rest }
{}

/// What `finish` answers: the bytes of a header have the bits that were taken and behind them only
/// filling, no stuffed bit is 1, and the last byte isn't FF. They end at one place alone.
pub fn header_ends()
    ensures ends { (bytes : List ℕ) (n used : ℕ) → n ≤ length (bits_of bytes).bits → end_after bytes n ≡ Ok used → EndsAt bytes n used }
    ensures only { (bytes : List ℕ) (n used : ℕ) → n ≤ length (bits_of bytes).bits → EndsAt bytes n used → end_after bytes n ≡ Ok used }
{}

/// A node's value is the least leaf under it, so a leaf's is the leaf, and each is at least its parent's.
pub fn values_of_leaves()
    ensures values { (wide high : ℕ) (leaves : List ℕ) → AreLeaves wide high leaves → AreValues wide high (least_leaf wide high leaves) }
    ensures least { (wide high : ℕ) (leaves : List ℕ) (n : ℕ) → AreLeaves wide high leaves → n ≤ root wide high →
        IsLeast wide high leaves n (least_leaf wide high leaves n) }
    ensures leaf { (wide high : ℕ) (leaves : List ℕ) (l : ℕ) → AreLeaves wide high leaves → l < wide * high →
        least_leaf wide high leaves l ≡ slice_index leaves l }
{}

/// Any values are those of a tree of which nothing is known.
pub fn nothing_known()
    ensures tree { (wide high : ℕ) → IsShape wide high → IsTree (fresh wide high) }
    ensures values { (wide high : ℕ) (values : ℕ → ℕ) → IsShape wide high → AreValues wide high values → ValuesOf (fresh wide high) values }
{}

/// A query of a leaf that is past its threshold has no bits, tells nothing, and the leaf's value isn't below
/// it. The leaf is still past it after any query with the same threshold.
pub fn past_reads_nothing()
    ensures nothing { (tree : Tree) (values : ℕ → ℕ) (leaf threshold : ℕ) → IsShape tree.wide tree.high → IsTree tree → leaf < tree.wide * tree.high →
        ValuesOf tree values → IsPast tree leaf threshold → HasNothing tree values leaf threshold }
    ensures still { (tree : Tree) (values : ℕ → ℕ) (leaf other threshold : ℕ) → IsPast tree leaf threshold → IsPast (tree_after values tree other threshold) leaf threshold }
{}

/// What is known of a tree is that of some values.
pub fn some_values()
    ensures { (tree : Tree) → IsTree tree → (values : ℕ → ℕ) × ValuesOf tree values }
{}

/// Values of a tree are still its values after a query of theirs.
pub fn values_stay()
    ensures tree { (tree : Tree) (values : ℕ → ℕ) (leaf threshold : ℕ) → IsShape tree.wide tree.high → IsTree tree → leaf < tree.wide * tree.high →
        ValuesOf tree values → IsTree (tree_after values tree leaf threshold) }
    ensures values { (tree : Tree) (values : ℕ → ℕ) (leaf threshold : ℕ) → IsShape tree.wide tree.high → IsTree tree → leaf < tree.wide * tree.high →
        ValuesOf tree values → ValuesOf (tree_after values tree leaf threshold) values }
{}

/// Bits have one reading: where those of two trees of values stand at the front of the same bits, they are
/// the same, and so are the answers, what is known afterwards, and the bits behind.
pub fn one_reading()
    ensures { (tree : Tree) (values others : ℕ → ℕ) (qs : List Question) (rest behind : List Bool) → IsShape tree.wide tree.high → IsTree tree →
        AreAtLeaves (tree.wide * tree.high) qs → ValuesOf tree values → ValuesOf tree others →
        all_bits values tree qs ++ rest ≡ all_bits others tree qs ++ behind → OneReading values others tree qs rest behind }
{}

/// What is written for some leaves and queries is what is read for them, whatever follows it.
pub fn queries_read_back()
    ensures { (wide high : ℕ) (leaves : List ℕ) (values : ℕ → ℕ) (qs : List Question) (rest behind : List Bool) → AreLeaves wide high leaves →
        AreAtLeaves (wide * high) qs → AreValues wide high values →
        all_bits (least_leaf wide high leaves) (fresh wide high) qs ++ rest ≡ all_bits values (fresh wide high) qs ++ behind →
        AreReadBack wide high leaves values qs rest behind }
{}
