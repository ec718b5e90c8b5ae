// What follows from the rules of a port, each on a function of its own: the function does nothing, and its contract is the law.
ghost use Rattle.port.specs.Laws.{OddFatesAreLost, FatesHaveRealCodes, BothBitsChangeNothing, LaunchesEndIdle, TakenBytesOnlyGrow, OtherEndpointsStay, LostChangesNoDevice};

// The bytes 0x16 and 0x31 stand for no fate: they are lost with code 14.
pub fn fates_0x16_and_0x31_are_lost_with_14()
    ensures { OddFatesAreLost }
{}

// No byte is read as a fate with a code outside 7 to 15.
pub fn fate_codes_are_7_to_15()
    ensures { FatesHaveRealCodes }
{}

// Both bits of a toggle pair, put to R29 at once, change nothing.
pub fn both_bits_of_a_toggle_pair_change_nothing()
    ensures { BothBitsChangeNothing }
{}

// Every launch, legal or not, ends with the send and setup buffers empty, the send count 0, free and done set, and a result below 16.
pub fn every_launch_ends_idle()
    ensures { LaunchesEndIdle }
{}

// The bytes that an endpoint has taken only ever grow at the end, and in one launch by one packet at most.
pub fn taken_bytes_only_grow_at_the_end()
    ensures { TakenBytesOnlyGrow }
{}

// A launch at one endpoint leaves every other endpoint as it was.
pub fn a_launch_leaves_other_endpoints_alone()
    ensures { OtherEndpointsStay }
{}

// A launch that is lost changes nothing on the device.
pub fn a_lost_launch_changes_no_device()
    ensures { LostChangesNoDevice }
{}
