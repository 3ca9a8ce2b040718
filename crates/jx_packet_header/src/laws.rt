//! Laws of packet headers. Each function's contract is a law over the definitions that the other
//! contracts cite, so its body is empty.
ghost use Rattle.std.specs.Prelude.{◌≡◌, ◌++◌, ◌+◌, ◌≤◌, ◌<◌, ◌⊎◌, List, ℕ, Bool, true, length};
ghost use Rattle.jx_tagtree.specs.declared.BitFault.TheVariants.{Ended};
ghost use Rattle.jx_tagtree.specs.Header.{bits_of, bytes_of};
ghost use Rattle.jx_packet_header.specs.declared.HeaderPart.{HeaderPart};
ghost use Rattle.jx_packet_header.specs.Words.{IsCount, pass_word, OneWord};
ghost use Rattle.jx_packet_header.specs.Packet.{State, Header, header_bits, header_after, header_parts, IsToldOf, AgreeAfter, IsPacket, BreaksPlanes, OneHeader};
ghost use Rattle.jx_packet_header.specs.declared.HeadFault.TheVariants.{Bits};
ghost use Rattle.jx_packet_header.specs.Said.{HasCause};
ghost use Rattle.jx_packet_header.specs.Unread.{BreaksBits, HasPacket, StuffedAt};
ghost use Rattle.jx_packet_header.specs.declared.BandCells.{BandCells};
ghost use Rattle.jx_packet_header.specs.Precinct.{CellsInRange, IsState};
ghost use Rattle.jx_packet_header.specs.Written.{Leafed, raise_of, header_written, state_at};
ghost use Rattle.jx_packet_header.specs.LeavesFit.{LeavesFit, LeavesInRange, AreShort, AllFit, InTypes, header_at, parts_at};
ghost use Rattle.jx_packet_header.specs.ReadBack.{IsOneReading};

/// No code word of a number of passes begins another (T.800 table B.4).
pub fn passes_are_told_apart()
    ensures { (n m : ℕ) (rest others : List Bool) → IsCount n → IsCount m → pass_word n ++ rest ≡ pass_word m ++ others → OneWord n m rest others }
{}

/// Bytes have one reading from a state: two headers at their front are one.
pub fn one_reading()
    ensures { (bytes : List ℕ) (k : State) (parts others : List HeaderPart) (used ends : ℕ) (after others_after : State) → IsState k →
        IsPacket bytes k parts used after → IsPacket bytes k others ends others_after → OneHeader parts others after others_after used ends }
{}

/// A header that is written with the bits of what it tells, with zeros as filling, stands at the front of
/// its bytes, whatever follows it.
pub fn written_stands()
    ensures { (k : State) (h : Header) (rest : List ℕ) → IsToldOf k h →
        IsPacket (bytes_of (header_bits k h) ++ rest) k (header_parts h) (length (bytes_of (header_bits k h))) (header_after k h) }
{}

/// A header that is written with the bits of what it tells has one reading, whatever follows it: its parts,
/// the state after it, and its length.
pub fn written_read_back()
    ensures { (k : State) (h : Header) (rest : List ℕ) → IsState k → IsToldOf k h →
        IsOneReading (bytes_of (header_bits k h) ++ rest) k (header_parts h) (length (bytes_of (header_bits k h))) (header_after k h) }
{}

/// The values of the tag trees' nodes that a header tells agree with the state after it, as they do with the
/// state before.
pub fn values_agree_after()
    ensures { (k : State) (h : Header) → IsState k → IsToldOf k h → h.some ≡ true → AgreeAfter k.layer k.bands h.tolds }
{}

/// What is written of leaves that fit agrees with the state before it, which is that of a precinct that may
/// be read. `InTypes` says what the types of the number of layers and of the lengths say.
pub fn leaves_agree()
    ensures told { (layers style layer : ℕ) (bands : List BandCells) (leaves : List Leafed) → CellsInRange bands → LeavesFit style layers bands leaves → InTypes layers leaves → layer < layers →
        IsToldOf (state_at layers style bands leaves layer) (header_written layers (state_at layers style bands leaves layer) leaves) }
    ensures state { (layers style layer : ℕ) (bands : List BandCells) (leaves : List Leafed) → CellsInRange bands → LeavesFit style layers bands leaves → InTypes layers leaves → layer ≤ layers →
        IsState (state_at layers style bands leaves layer) }
{}

/// The header that is written for a layer has one reading from the state before it, whatever follows it:
/// the layer's parts, the state before the next layer, and its length.
pub fn written_is_read()
    ensures { (layers style layer : ℕ) (bands : List BandCells) (leaves : List Leafed) (rest : List ℕ) → CellsInRange bands → LeavesFit style layers bands leaves → InTypes layers leaves → layer < layers →
        IsOneReading (header_at layers style bands leaves layer ++ rest) (state_at layers style bands leaves layer) (parts_at layer leaves) (length (header_at layers style bands leaves layer)) (state_at layers style bands leaves (layer + 1)) }
{}

/// Where a block of a header breaks its band's planes, no header stands.
pub fn planes_or_packet()
    ensures { (bytes : List ℕ) (k : State) (parts : List HeaderPart) (used : ℕ) (after : State) → IsState k → BreaksPlanes bytes k → IsPacket bytes k parts used after → ⊥ }
{}

/// At the front of any bytes exactly one of these is: a packet, a block that breaks its band's planes, or a
/// header that can't be read, as `BreaksBits` says by itself.
pub fn packet_planes_or_bits()
    ensures some { (bytes : List ℕ) (k : State) → IsState k → HasPacket bytes k ⊎ BreaksPlanes bytes k ⊎ BreaksBits bytes k }
    ensures no_packet { (bytes : List ℕ) (k : State) (parts : List HeaderPart) (used : ℕ) (after : State) → IsState k → BreaksBits bytes k → IsPacket bytes k parts used after → ⊥ }
    ensures no_planes { (bytes : List ℕ) (k : State) → IsState k → BreaksBits bytes k → BreaksPlanes bytes k → ⊥ }
{}

/// The cause of `Bits`, which `read_header` states as what is left, is a header that can't be read.
pub fn bits_are_broken()
    ensures is { (bytes : List ℕ) (k : State) → IsState k → HasCause Bits bytes k → BreaksBits bytes k }
    ensures back { (bytes : List ℕ) (k : State) → IsState k → BreaksBits bytes k → HasCause Bits bytes k }
{}

/// The bits that a header can have end where the bytes do, or before a byte of which the stuffed bit is 1.
pub fn bits_end()
    ensures { (bytes : List ℕ) → ((bits_of bytes).fault ≡ Ended) ⊎ ((n : ℕ) × StuffedAt bytes n) }
{}

/// Leaves that may be written are in range.
pub fn leaves_that_fit()
    ensures { (style layers : ℕ) (bands : List BandCells) (leaves : List Leafed) → CellsInRange bands → LeavesFit style layers bands leaves → LeavesInRange bands leaves }
{}

/// The raise of Lblock with which lengths are written is the least with which each fits its bits.
pub fn raise_is_least()
    ensures fits { (lblock : ℕ) (parts : List HeaderPart) → AreShort parts → AllFit (lblock + raise_of lblock parts) parts }
    ensures least { (lblock raise : ℕ) (parts : List HeaderPart) → AllFit (lblock + raise) parts → raise_of lblock parts ≤ raise }
{}
