// The promise law by law, each on a function of its own: the function does nothing, and its contract is the law. The first three stand
// together on the contract of `serve`.
ghost use Rattle.service.specs.Laws.{EverySlipIsTrue, EveryLabelIsTrue, EveryToggleShownIsTrue, NoEndpointComesOrGoes};

// Whatever calls an unused host on a fresh port serves, and whatever the bus does: every OUT endpoint has taken, in order, the first bytes of
// each message sent to it and nothing else, of each as many as its answer calls sent, or those and the doubtful ones.
pub fn every_slip_is_true()
    ensures { EverySlipIsTrue }
{}

// Likewise: the packets that the fetches of a pipe handed over since its last successful open or recover are the first that waited then,
// whole and in order.
pub fn every_label_is_true()
    ensures { EveryLabelIsTrue }
{}

// Likewise: an OUT pipe shown in step has its device's toggle. An IN pipe shown in step has the other one exactly when the device still holds
// the last packet handed over, and otherwise just the packets behind that one wait.
pub fn every_toggle_shown_is_true()
    ensures { EveryToggleShownIsTrue }
{}

// Of any host on any bus: whatever calls it serves, the endpoints on the bus are the same ones, in the same places, afterwards.
pub fn no_endpoint_comes_or_goes()
    ensures { NoEndpointComesOrGoes }
{}
