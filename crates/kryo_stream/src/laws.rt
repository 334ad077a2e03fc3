ghost use Rattle.std.specs.Prelude.{◌≡◌, ◌<◌, ◌++◌, ℕ, List, All, None};
ghost use Rattle.kryo_stream.specs.declared.block.Block.{Block};
ghost use Rattle.kryo_stream.specs.declared.block.SpelledBlock.{SpelledBlock};
ghost use Rattle.kryo_stream.specs.Blocks.{Spells};
ghost use Rattle.kryo_stream.specs.Growth.{PaddingStays, StreamsAreShort, StreamsHaveTurns, StreamsKeepTheLimit};
ghost use Rattle.kryo_stream.specs.Growth.{StreamsStay};
ghost use Rattle.kryo_stream.specs.Joined.{PaddingIsPassed};
ghost use Rattle.kryo_stream.specs.Padding.{IsPadding, padding_of};
ghost use Rattle.kryo_stream.specs.Sequence.{AreInOrder, AreLaid, HasTurnFault, IsStreamOf};
ghost use Rattle.kryo_stream.specs.Sequence.{spellings, transitions_from};
ghost use Rattle.kryo_stream.specs.Spelling.{IsWritable, spelling};
ghost use Rattle.kryo_stream.specs.Stream.{first_fault, stream};
ghost use Rattle.kryo_stream.specs.WellFormed.{BeginsWith};

/// A list of bytes has no first fault exactly where it begins with a well-formed stream: pieces that each
/// spell a block, of which the last and no other is an End, within the limits and with turns. There is at
/// most one such beginning, and it is the stream that is read.
pub fn stream_law()
    ensures sound { (x : List ℕ) → All (λ byte. byte < 256) x → first_fault x ≡ None → BeginsWith x (stream x) }
    ensures complete { (x : List ℕ) (ps : List SpelledBlock) → All (λ byte. byte < 256) x → BeginsWith x ps
        → first_fault x ≡ None }
    ensures same { (x : List ℕ) (ps qs : List SpelledBlock) → All (λ byte. byte < 256) x → BeginsWith x ps
        → BeginsWith x qs → ps ≡ qs }
{}

/// A written block is a spelling of the block, and no block's spelling begins another's.
pub fn spelling_law()
    ensures spells { (block : Block) → IsWritable block → Spells (spelling block) block }
    ensures prefix { (a b : Block) (later : List ℕ) → IsWritable a → IsWritable b
        → spelling a ++ later ≡ spelling b → spelling a ≡ spelling b }
{}

/// Blocks in the protocol's order, spelled one after another, are one stream without a fault: with the
/// transitions of the blocks, with their index times, and with nothing after it.
pub fn blocks_law()
    ensures { (blocks : List Block) (turns : List ℕ) → AreInOrder blocks turns
        → IsStreamOf (spellings blocks) (transitions_from 0 blocks) turns }
{}

/// Where the index times of such blocks do not rise, or are fewer than two, that alone is the fault of the stream.
pub fn turn_faults_law()
    ensures { (blocks : List Block) (turns : List ℕ) → AreLaid blocks turns
        → HasTurnFault (spellings blocks) blocks turns }
{}

/// The padding before a stream is the greatest number of bytes, at most 16, of which each is padding.
pub fn padding_law()
    ensures { (x : List ℕ) → IsPadding x (padding_of x) }
{}

/// Padding that may stand before a stream is passed over, and nothing of the stream is: so streams that stand one
/// after another in an input are read one after another.
pub fn joined_law()
    ensures { PaddingIsPassed }
{}

/// A stream without a fault stays the one that is read when more bytes follow, and so does the padding before it.
/// It has no more transitions, and no more index times, than it may have bytes, no more bytes than that, and two
/// index times at least.
pub fn growth_law()
    ensures streams { StreamsStay }
    ensures padding { PaddingStays }
    ensures short { StreamsAreShort }
    ensures limit { StreamsKeepTheLimit }
    ensures turns { StreamsHaveTurns }
{}
