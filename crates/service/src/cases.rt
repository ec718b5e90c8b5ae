// Worked runs, each on a function of its own: they show that the laws say something. The function does nothing, and its contract is the run.
ghost use Rattle.service.specs.Runs.{DoubtIsReal, TakenTwiceInPart, StillHeldAndNotTwice, OldToggleLies};

// Two runs with the same replies: one printer took eight bytes of the slip, the other none.
pub fn the_same_replies_with_eight_bytes_taken_and_with_none()
    ensures { DoubtIsReal }
{}

// A slip that is sent again after a recover is taken twice in part.
pub fn a_slip_sent_again_is_taken_twice_in_part()
    ensures { TakenTwiceInPart }
{}

// A pad that did not hear the acknowledgement still holds the packet that it handed over, and the next fetch hands over the one that follows.
pub fn a_packet_still_held_is_not_handed_over_twice()
    ensures { StillHeldAndNotTwice }
{}

// A host that went on with its old toggle after doubtful bytes would break the slip law: its packet is acknowledged, and nothing is taken.
pub fn going_on_with_the_old_toggle_would_break_the_slip_law()
    ensures { OldToggleLies }
{}
