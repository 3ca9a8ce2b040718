//! Laws over the definitions of boxes. The functions do nothing: their contracts carry the laws.

ghost use Rattle.std.specs.Prelude.{◌≡◌, ℕ, ◌+◌, ◌<◌, ◌≤◌, ◌^◌, ◌⊎◌, List, length};
ghost use Rattle.jx_jp2.specs.declared.Boxed.{Boxed};
ghost use Rattle.jx_jp2.specs.Codestream.{IsJp2, IsCodestream, IsNextFault, content};
ghost use Rattle.jx_jp2.specs.Trees.{Tree, IsTree, IsTreeBroken};
ghost use Rattle.jx_jp2.specs.Wrapped.{wrapped, boxed_for};

/// The codestream of a file that has another one in the place of its own is that one, whatever the form of the head was and is.
pub fn content_is_found()
    ensures { (bytes inner : List ℕ) (boxed : Boxed) → IsCodestream bytes boxed → 16 + length inner < 2 ^ 64
        → IsCodestream (wrapped bytes boxed inner) (boxed_for boxed (length inner))
        × (content (wrapped bytes boxed inner) (boxed_for boxed (length inner)) ≡ inner) }
{}

/// A JP2 file with another codestream in the place of its own is JP2.
pub fn wrapped_is_jp2()
    ensures { (bytes inner : List ℕ) (boxed : Boxed) → IsJp2 bytes → IsCodestream bytes boxed → IsJp2 (wrapped bytes boxed inner) }
{}

/// The codestream of a file lies in it, and behind its head.
pub fn codestream_lies_within()
    ensures head { (bytes : List ℕ) (boxed : Boxed) → IsCodestream bytes boxed → boxed.head ≤ boxed.from }
    ensures content { (bytes : List ℕ) (boxed : Boxed) → IsCodestream bytes boxed → boxed.from ≤ boxed.to }
    ensures end { (bytes : List ℕ) (boxed : Boxed) → IsCodestream bytes boxed → boxed.to ≤ length bytes }
{}

/// A file has at most one codestream, or one rule that is broken before there is one.
pub fn one_codestream()
    ensures same { (bytes : List ℕ) (first second : Boxed) → IsCodestream bytes first → IsCodestream bytes second → first ≡ second }
    ensures either { (bytes : List ℕ) (boxed : Boxed) (number place : ℕ) → IsCodestream bytes boxed → IsNextFault bytes 0 number place → ⊥ }
    ensures fault { (bytes : List ℕ) (number place number2 place2 : ℕ) → IsNextFault bytes 0 number place
        → IsNextFault bytes 0 number2 place2 → (number ≡ number2) × (place ≡ place2) }
{}

/// Each file has a codestream, or a rule that is broken before there is one.
pub fn some_codestream()
    ensures { (bytes : List ℕ) → ((boxed : Boxed) × IsCodestream bytes boxed) ⊎ ((number : ℕ) × (place : ℕ) × IsNextFault bytes 0 number place) }
{}

/// A file has at most one tree, or one box that breaks a rule first.
pub fn one_tree()
    ensures same { (bytes : List ℕ) (first second : Tree) → IsTree bytes first → IsTree bytes second → first ≡ second }
    ensures either { (bytes : List ℕ) (tree : Tree) (number place : ℕ) → IsTree bytes tree → IsTreeBroken bytes number place → ⊥ }
    ensures fault { (bytes : List ℕ) (number place number2 place2 : ℕ) → IsTreeBroken bytes number place
        → IsTreeBroken bytes number2 place2 → (number ≡ number2) × (place ≡ place2) }
{}

/// Each file has a tree, or a box that breaks a rule first.
pub fn some_tree()
    ensures { (bytes : List ℕ) → ((tree : Tree) × IsTree bytes tree) ⊎ ((number : ℕ) × (place : ℕ) × IsTreeBroken bytes number place) }
{}
