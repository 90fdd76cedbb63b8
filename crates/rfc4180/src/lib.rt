// Comma-separated values by RFC 4180, the records of a roster, what taking one answers and leaves: definitions and
// their laws, no code.
#![tactic(auto)]
