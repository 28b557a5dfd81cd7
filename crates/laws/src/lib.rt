// No code: the definitions and laws that every other crate cites stand in specs/.
#![tactic(auto)]
