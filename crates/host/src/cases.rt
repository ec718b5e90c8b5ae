// Worked cases of the calls, each on a function of its own: the function does nothing, and its contract is the case. A printer at address 5,
// endpoint 2, ample capacity, and a send of ten bytes; a tag pad at address 9, endpoint 1, and a fetch into 16 bytes. Packet size 8, NAK limit
// 3, both toggles 0.
ghost use Rattle.host.specs.Cases.{TwoArrivals, TakenOnce, SameAnswerNoneTaken, SameAnswerEightTaken, BusyAndSure, BusyAfterAMiss, OpenedInThree, NoSuchDevice, NoSuchEndpoint, ReceivedOnce};

// Fates 00 00: sent 10, tries 2, toggle 0.
pub fn two_packets_arrive()
    ensures { TwoArrivals }
{}

// Fates 2E 00 00: sent 10, tries 3, and the printer took 10.
pub fn a_packet_sent_twice_is_taken_once()
    ensures { TakenOnce }
{}

// Fates 1E 1E 1E: 15, sent 0, doubtful 8, tries 3, and the printer took nothing.
pub fn three_misses_with_nothing_taken()
    ensures { SameAnswerNoneTaken }
{}

// Fates 2E 1E 1E: the same answer, and the printer took 8.
pub fn three_misses_with_eight_bytes_taken()
    ensures { SameAnswerEightTaken }
{}

// Fates 30 30 30: 14, nothing doubtful, in step.
pub fn a_busy_printer_takes_nothing()
    ensures { BusyAndSure }
{}

// Fates 1E 30 30 30: 14, doubtful 8, tries 4.
pub fn a_nak_after_a_miss_is_no_sign()
    ensures { BusyAfterAMiss }
{}

// Open with 2E 00 00: success, tries 3.
pub fn an_open_may_need_three_tries()
    ensures { OpenedInThree }
{}

// Open at an address without endpoints, 00 00 00: 15, tries 3, last result 14.
pub fn an_open_of_no_device_misses_three_times()
    ensures { NoSuchDevice }
{}

// Open of a missing endpoint on a present device, 00 00: 16, tries 2.
pub fn an_open_of_a_missing_endpoint_is_stalled()
    ensures { NoSuchEndpoint }
{}

// Fetch with 8 and 3 bytes waiting, 2E 00 00: received 11, tries 3; the packet that comes twice is handed over once.
pub fn a_packet_that_comes_twice_is_received_once()
    ensures { ReceivedOnce }
{}
