// What follows from the format of frames and from the rules of framing, each on a function of its own: the function does nothing, and
// its contract is the law.
ghost use Rattle.frames.specs.Laws.{WrittenIsReadBack, ReadIsWrittenPlain, KnownCommands, OneByteOneFrame, PiecesAreFilled, ChainsAreWhole, NothingAbove31};

// An access that was written is read back from the bytes that were written.
pub fn written_and_then_read_is_the_same_access()
    ensures { WrittenIsReadBack }
{}

// An access that was read and is written again is the frame that it was read from, its ignored parts 0.
pub fn read_and_then_written_is_the_same_frame_with_ignored_parts_0()
    ensures { ReadIsWrittenPlain }
{}

// The commands of put R2, get R31 and put R30 are 0x12, 0xF8 and 0xF2.
pub fn commands_of_put_r2_get_r31_and_put_r30()
    ensures { KnownCommands }
{}

// One byte goes in one frame, and no bytes go in none.
pub fn one_byte_goes_in_one_frame()
    ensures { OneByteOneFrame }
{}

// The frames of a many-access carry all of its bytes in order; each but the last is full, and the last is not empty.
pub fn frames_are_filled()
    ensures { PiecesAreFilled }
{}

// A chain of frames is all that was heard: a record that grows by each frame heard has grown by just those frames.
pub fn a_chain_is_all_that_was_heard()
    ensures { ChainsAreWhole }
{}

// A port does nothing at a register above 31, and gets there give 0.
pub fn a_port_does_nothing_above_r31()
    ensures { NothingAbove31 }
{}
