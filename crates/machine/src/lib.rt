// One step of RFC 9669, as definitions. No code.
#![tactic(auto)]
