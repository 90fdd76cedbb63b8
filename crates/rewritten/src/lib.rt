// An update leaves the plain tree's next state written out: the trace of its search is the way of the full comparison
// search, and its words and bytes are that state's. Laws, no code.
#![tactic(auto)]
