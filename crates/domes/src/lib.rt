// No code: the dome is defined here, in specs/; `dome_walk` works it out.
#![tactic(auto)]
