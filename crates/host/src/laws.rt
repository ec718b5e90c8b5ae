// What the calls promise, each on a function of its own: the function does nothing, and its contract is the promise.
ghost use Rattle.host.specs.Laws.{OpenedPipesAreInStep, SendsKeepStep, SendsAreAccountedFor, AnswersStayWithinTheMessage, SuccessSendsAll, BusyPrintersStayInStep, DeclinedCallsChangeNothing, DeclinedFetchesChangeNothing, TriesAreLaunches, TriesOfAFetchAreLaunches};
ghost use Rattle.host.specs.Effects.{RequestsClearOneEndpoint, SendsTouchOneEndpoint, FetchesHandOverTheNextPackets, FetchesKeepTheRestOfTheBuffer};

// An OUT pipe that open makes, or that recover brings back, is in step with its device.
pub fn an_opened_pipe_is_in_step()
    ensures { OpenedPipesAreInStep }
{}

// Whatever the bus does, a send over a pipe that is in step with its device leaves the device with exactly the bytes sent, or those
// and the doubtful ones, the first of the message, and every other endpoint as it was.
pub fn a_send_accounts_for_every_byte()
    ensures { SendsAreAccountedFor }
{}

// The bytes sent and those doubtful never pass the message.
pub fn sent_and_doubtful_stay_within_the_message()
    ensures { AnswersStayWithinTheMessage }
{}

// A send that answers 0 has sent the whole message.
pub fn success_means_all_is_sent()
    ensures { SuccessSendsAll }
{}

// A send that stops at the NAK limit with nothing doubtful leaves its pipe in step with its device.
pub fn a_busy_printer_stays_in_step()
    ensures { BusyPrintersStayInStep }
{}

// A pipe that is shown in step after a send is in step with its device.
pub fn a_pipe_shown_in_step_after_a_send_is_in_step()
    ensures { SendsKeepStep }
{}

// A call that declines changes nothing.
pub fn a_declined_call_changes_nothing()
    ensures { DeclinedCallsChangeNothing }
{}

// A fetch that declines changes nothing, and its buffer is as it was.
pub fn a_declined_fetch_changes_nothing()
    ensures { DeclinedFetchesChangeNothing }
{}

// The tries that an answer tells are the launches that the call made.
pub fn tries_are_the_launches_made()
    ensures { TriesAreLaunches }
{}

// The tries that the answer of a fetch tells are the launches that it made.
pub fn tries_of_a_fetch_are_the_launches_made()
    ensures { TriesOfAFetchAreLaunches }
{}

// The request that opens and recovers changes no endpoint but the one that it names; no endpoint takes a byte or hands a packet over
// meanwhile; and where it succeeds, the endpoint named is there with DATA0 and is not halted.
pub fn a_request_clears_one_endpoint()
    ensures { RequestsClearOneEndpoint }
{}

// A send over a pipe that is in step with its device changes no endpoint but the pipe's, and the name of none.
pub fn a_send_touches_one_endpoint()
    ensures { SendsTouchOneEndpoint }
{}

// Over a pipe that is in step with its device a fetch hands over the next packets that wait, in their order and each once, whatever the
// bus does; no other endpoint changes.
pub fn a_fetch_hands_over_the_next_packets()
    ensures { FetchesHandOverTheNextPackets }
{}

// Behind the bytes received a fetch leaves its buffer as it was.
pub fn a_fetch_keeps_the_rest_of_the_buffer()
    ensures { FetchesKeepTheRestOfTheBuffer }
{}
